//! Maps into which pieces are put in every order.

use crate::expect::expect;
use crate::images::maps::{Piece, expect_map, expect_runs, map_of};
use byte_map::{ByteMap, LayFault};
use std::process::Abort;
use std::test::Fail;

/// The three runs of a map that ends at the last address.
const LOW: Piece<'static> = (0x12, &[2, 3]);

const HIGH: Piece<'static> = (0x16, &[6, 7]);

const LAST: Piece<'static> = (0xFFFF_FFFE, &[0xEE, 0xFF]);

/// A piece beside a run, between two runs, over both, and in one; without bytes; at the first address and at the last ones.
#[test]
fn pieces_join_the_runs_that_they_touch(rt: HostRuntime) {
    let cases: [(Piece, &[Piece]); 12] = [
        ((0x19, &[9]), &[LOW, HIGH, (0x19, &[9]), LAST]),
        ((0x18, &[8]), &[LOW, (0x16, &[6, 7, 8]), LAST]),
        ((0x15, &[5]), &[LOW, (0x15, &[5, 6, 7]), LAST]),
        ((0x14, &[4, 5]), &[(0x12, &[2, 3, 4, 5, 6, 7]), LAST]),
        ((0x13, &[3, 4, 5, 6]), &[(0x12, &[2, 3, 4, 5, 6, 7]), LAST]),
        (
            (0x11, &[1, 2, 3, 4, 5, 6, 7, 8]),
            &[(0x11, &[1, 2, 3, 4, 5, 6, 7, 8]), LAST],
        ),
        ((0x12, &[2, 3, 4]), &[(0x12, &[2, 3, 4]), HIGH, LAST]),
        ((0x17, &[7]), &[LOW, HIGH, LAST]),
        ((0x14, &[]), &[LOW, HIGH, LAST]),
        ((0, &[0xA0]), &[(0, &[0xA0]), LOW, HIGH, LAST]),
        (
            (0xFFFF_FFFD, &[0xDD, 0xEE, 0xFF]),
            &[LOW, HIGH, (0xFFFF_FFFD, &[0xDD, 0xEE, 0xFF])],
        ),
        ((0xFFFF_FFFF, &[0xFF]), &[LOW, HIGH, LAST]),
    ];
    for (piece, wanted) in &cases {
        let joined = map_of(rt.alloc(), &[LAST, HIGH, LOW, *piece]);
        expect_map(&rt, joined, wanted);
    }
}

/// Asserts that a map of the three runs refuses a piece, and stays unchanged.
fn expect_refused(rt: &impl Abort, map: &mut ByteMap, piece: Piece, fault: LayFault) {
    let (at, bytes) = piece;
    expect(rt, map.lay(at, bytes), Err(fault));
    expect_runs(rt, map, &[LOW, HIGH, LAST]);
}

/// Pieces that are refused leave the map unchanged.
#[test]
fn refused_pieces_change_nothing(rt: HostRuntime) -> Result<(), Fail> {
    let cases: [(Piece, LayFault); 7] = [
        (
            (0x12, &[9]),
            LayFault::Conflict {
                at: 0x12,
                old: 2,
                new: 9,
            },
        ),
        (
            (0x11, &[1, 2, 9, 4, 5, 9]),
            LayFault::Conflict {
                at: 0x13,
                old: 3,
                new: 9,
            },
        ),
        (
            (0x11, &[1, 2, 3, 4, 5, 6, 9]),
            LayFault::Conflict {
                at: 0x17,
                old: 7,
                new: 9,
            },
        ),
        (
            (0xFFFF_FFFD, &[0xDD, 0xEE, 0]),
            LayFault::Conflict {
                at: 0xFFFF_FFFF,
                old: 0xFF,
                new: 0,
            },
        ),
        (
            (0xFFFF_FFFF, &[0, 0]),
            LayFault::PastEnd { at: 0xFFFF_FFFF },
        ),
        (
            (0xFFFF_FFFD, &[0, 0, 0, 0]),
            LayFault::PastEnd { at: 0xFFFF_FFFD },
        ),
        (
            (0xFFFF_FFFF, &[9]),
            LayFault::Conflict {
                at: 0xFFFF_FFFF,
                old: 0xFF,
                new: 9,
            },
        ),
    ];
    let mut map = map_of(rt.alloc(), &[LAST, HIGH, LOW])?;
    for (piece, fault) in &cases {
        expect_refused(&rt, &mut map, *piece, *fault);
    }
    Ok(())
}

/// Asserts how a map of the three runs overlays cells.
fn expect_overlays(rt: &impl Abort, map: &ByteMap) {
    let mut cells = [0x55; 8];
    map.overlay_into(0x11, &mut cells);
    let mut cut = [0x55; 4];
    map.overlay_into(0x13, &mut cut);
    let mut last = [0x55; 3];
    map.overlay_into(0xFFFF_FFFD, &mut last);
    expect(rt, cells, *b"\x55\x02\x03\x55\x55\x06\x07\x55");
    expect(rt, (cut, last), (*b"\x03\x55\x55\x06", *b"\x55\xEE\xFF"));
}

#[test]
fn overlays_fill_no_hole(rt: HostRuntime) -> Result<(), Fail> {
    let map = map_of(rt.alloc(), &[LAST, HIGH, LOW])?;
    expect_overlays(&rt, &map);
    Ok(())
}

/// How many addresses the random test uses. They are the last ones.
const COUNT: usize = 64;

const BASE: u32 = 0xFFFF_FFC0;

/// The next number of a linear congruential generator.
fn next_random(seed: u32) -> u32 {
    seed.wrapping_mul(1_664_525).wrapping_add(1_013_904_223)
}

/// What a map must answer when `bytes` are put from a place on, by a plain list of cells. The list is changed in the same way.
fn lay_plainly(cells: &mut [Option<u8>; COUNT], start: u8, bytes: &[u8]) -> Result<(), LayFault> {
    let at = BASE.wrapping_add(u32::from(start));
    let start = usize::from(start);
    if start > COUNT || bytes.len() > COUNT - start {
        return Err(LayFault::PastEnd { at });
    }
    for (index, new) in bytes.iter().enumerate() {
        if let Some(old) = cells[start + index] {
            if old != *new {
                let at = BASE.wrapping_add((start + index) as u32);
                return Err(LayFault::Conflict { at, old, new: *new });
            }
        }
    }
    for (index, new) in bytes.iter().enumerate() {
        cells[start + index] = Some(*new);
    }
    Ok(())
}

/// Puts a random piece into a map, and asserts that the plain list answers the same. The piece may be past the end or in conflict.
fn lay_piece(rt: &impl Abort, map: &mut ByteMap, cells: &mut [Option<u8>; COUNT], seed: u32) {
    let start = (seed >> 26) as u8;
    let len = (seed >> 12) as usize % 9;
    let mut bytes = [0u8; 8];
    for (index, byte) in bytes.iter_mut().enumerate() {
        *byte = start.wrapping_add(index as u8);
    }
    if seed % 8192 < 512 {
        bytes[len / 2] ^= 0x80;
    }
    let wanted = lay_plainly(cells, start, &bytes[..len]);
    let laid = map.lay(BASE + u32::from(start), &bytes[..len]);
    expect(rt, (seed, laid), (seed, wanted));
}

/// Puts random pieces into a map and a plain list of cells, and asserts that they agree. Answers the last random number.
fn lay_pieces(rt: &impl Abort, map: &mut ByteMap, seed: u32) -> u32 {
    let mut seed = seed;
    let mut cells = [None; COUNT];
    for _ in 0..24 {
        seed = next_random(seed);
        lay_piece(rt, map, &mut cells, seed);
    }
    expect_cells(rt, map, &cells);
    seed
}

/// Random pieces, a few of them past the end or in conflict, compared with a plain list of cells.
#[test]
fn random_pieces_agree_with_a_plain_list(rt: HostRuntime) {
    let mut seed = 7;
    for _ in 0..40 {
        let mut map = ByteMap::new(rt.alloc());
        seed = lay_pieces(&rt, &mut map, seed);
    }
}

/// Asserts that a map has these cells, by look-ups and as an overlay.
fn expect_cells(rt: &impl Abort, map: &ByteMap, cells: &[Option<u8>; COUNT]) {
    let mut overlay = [0xAA; COUNT];
    map.overlay_into(BASE, &mut overlay);
    for (place, cell) in cells.iter().enumerate() {
        if place < COUNT {
            let found = (map.get(BASE + place as u32), overlay[place]);
            expect(rt, found, (*cell, cell.unwrap_or(0xAA)));
        }
    }
}
