//! Maps that are made of pieces, and assertions about maps.

use crate::expect::expect;
use byte_map::{ByteMap, LayFault};
use std::alloc::Global;
use std::fmt::Debug;
use std::process::Abort;

/// A piece to put into a map, or a run that is wanted: an address and bytes.
pub type Piece<'a> = (u32, &'a [u8]);

/// Puts pieces into a map, one after the other.
fn lay_all(map: &mut ByteMap, pieces: &[Piece]) -> Result<(), LayFault> {
    for (at, bytes) in pieces {
        map.lay(*at, bytes)?;
    }
    Ok(())
}

/// The map of these pieces.
pub fn map_of(alloc: Global, pieces: &[Piece]) -> Result<ByteMap, LayFault> {
    let mut map = ByteMap::new(alloc);
    lay_all(&mut map, pieces)?;
    Ok(map)
}

/// Asserts that a map has these runs and no other.
pub fn expect_runs(rt: &impl Abort, map: &ByteMap, wanted: &[Piece]) {
    expect(rt, map.runs(), wanted.len());
    for (index, run) in wanted.iter().enumerate() {
        if index < map.runs() {
            assert!(rt; map.run(index) == *run, "run {index}");
        }
    }
}

/// Asserts that a file is read, and that its map has these runs and no other.
pub fn expect_map<F: Debug + Drop>(rt: &impl Abort, read: Result<ByteMap, F>, wanted: &[Piece]) {
    match read {
        Ok(map) => expect_runs(rt, &map, wanted),
        Err(fault) => panic!(rt; "{fault:?}"),
    }
}

/// Asserts that a map has `runs` runs, and these bytes at these addresses.
fn expect_bytes(rt: &impl Abort, map: &ByteMap, runs: usize, bytes: &[(u32, u8)]) {
    expect(rt, map.runs(), runs);
    for (at, byte) in bytes {
        expect(rt, (*at, map.get(*at)), (*at, Some(*byte)));
    }
}

/// Asserts that a file is read, and that its map has this number of runs, and these bytes at these addresses.
pub fn expect_read<F: Debug + Drop>(
    rt: &impl Abort,
    read: Result<ByteMap, F>,
    runs: usize,
    bytes: &[(u32, u8)],
) {
    match read {
        Ok(map) => expect_bytes(rt, &map, runs, bytes),
        Err(fault) => panic!(rt; "{fault:?}"),
    }
}
