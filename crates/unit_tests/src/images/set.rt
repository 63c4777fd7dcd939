//! A program in four forms, the union of two images, and what each call refuses.

mod files;

use crate::expect::expect;
use crate::images::maps::{expect_map, expect_runs, map_of};
use byte_map::ByteMap;
use elf32::{ElfFault, Field};
use image_hex::{HexFault, HexKind};
use image_set::{ImageFault, check, check_ranges, merge, read_image};
use std::alloc::{AllocError, Global};
use std::process::Abort;
use std::test::Fail;

/// What checks of a program's image answer, against 32 cells and against 31.
fn checks(read: Result<ByteMap, ImageFault>) -> [Result<(), ImageFault>; 2] {
    match read {
        Ok(map) => [check(&map, 0x0800_0000, 32), check(&map, 0x0800_0000, 31)],
        Err(fault) => [Err(fault), Err(fault)],
    }
}

#[test]
fn a_program_is_the_same_in_each_form(rt: HostRuntime) {
    for (bytes, raw_at) in &[
        (files::elf(), None),
        (files::hex(), None),
        (files::srec(), None),
        (files::binary(), Some(0x0800_0000)),
    ] {
        let read = read_image(rt.alloc(), bytes, *raw_at);
        expect_map(&rt, read, &[(0x0800_0000, files::binary())]);
        let checks = checks(read_image(rt.alloc(), bytes, *raw_at));
        let outside = ImageFault::OutsideDevice { at: 0x0800_001F };
        expect(&rt, checks, [Ok(()), Err(outside)]);
    }
}

/// Files that are refused, or that show their form by the first byte that isn't blank.
#[test]
fn forms_are_told_by_the_first_bytes(rt: HostRuntime) {
    let not_record = ImageFault::Hex(HexFault {
        line: 2,
        kind: HexKind::NotRecord,
    });
    let cases: [(&[u8], Option<u32>, ImageFault); 6] = [
        (b"hello", None, ImageFault::NoForm),
        (b" \t\r\n", None, ImageFault::NoForm),
        (b"hello:", None, ImageFault::NoForm),
        (b"\n :00000001FF", None, not_record),
        (b"\x7FEL:", None, ImageFault::NoForm),
        (
            b":00",
            Some(0xFFFF_FFFE),
            ImageFault::PastEnd { at: 0xFFFF_FFFE },
        ),
    ];
    for (bytes, raw_at, wanted) in &cases {
        let fault = read_image(rt.alloc(), bytes, *raw_at).err();
        expect(&rt, fault, Some(*wanted));
    }
}

/// The image of a text.
fn image_of_text(alloc: Global, text: &[u8]) -> Result<ByteMap, ImageFault> {
    read_image(alloc, text, None)
}

/// Merges the image of a text into a map.
fn merge_text(alloc: Global, map: &mut ByteMap, text: &[u8]) -> Result<(), ImageFault> {
    let image = image_of_text(alloc, text)?;
    merge(alloc, map, image)
}

/// Asserts that equal bytes are merged into a map of one byte, and that another byte at its address isn't.
fn expect_merges(rt: &impl Abort, alloc: Global, map: &mut ByteMap) {
    let longer = b"\n:020000040800F2\n:02000000557732\n:00000001FF\n";
    expect(rt, merge_text(alloc, map, longer), Ok(()));
    expect_runs(rt, map, &[(0x0800_0000, &[0x55, 0x77])]);
    let other = b":020000040800F2\n:010000006699\n:00000001FF\n";
    let conflict = ImageFault::Conflict {
        at: 0x0800_0000,
        old: 0x55,
        new: 0x66,
    };
    expect(rt, merge_text(alloc, map, other), Err(conflict));
    expect(rt, map.get(0x0800_0000), Some(0x55));
}

#[test]
fn equal_bytes_are_merged(rt: HostRuntime) -> Result<(), Fail> {
    let first = b":020000040800F2\n:0100000055AA\n:00000001FF\n";
    let mut map = image_of_text(rt.alloc(), first)?;
    expect_merges(&rt, rt.alloc(), &mut map);
    Ok(())
}

/// Merges three pieces into a map.
fn merge_pieces(alloc: Global, map: &mut ByteMap) -> Result<(), ImageFault> {
    let pieces = map_of(alloc, &[(0, &[9]), (0x11, &[2, 8, 7]), (0x20, &[4])])?;
    merge(alloc, map, pieces)
}

/// A conflict in a later run, where the addresses of the earlier runs were free. None of the runs is added.
#[test]
fn a_refused_union_adds_nothing(rt: HostRuntime) -> Result<(), Fail> {
    let mut map = map_of(rt.alloc(), &[(0x10, &[1, 2, 3])])?;
    let merged = merge_pieces(rt.alloc(), &mut map);
    expect_runs(&rt, &map, &[(0x10, &[1, 2, 3])]);
    let conflict = ImageFault::Conflict {
        at: 0x12,
        old: 3,
        new: 8,
    };
    expect(&rt, merged, Err(conflict));
    Ok(())
}

/// Why the program's ELF file is refused with another word at a place.
fn fault_with(alloc: Global, at: usize, word: u32) -> Result<Option<ImageFault>, AllocError> {
    let mut file = files::elf().to_vec(alloc)?;
    for (cell, byte) in file.iter_mut().skip(at).zip(word.to_le_bytes()) {
        *cell = byte;
    }
    Ok(read_image(alloc, &file, None).err())
}

/// What becomes of the ELF file with a word of its second program header changed.
#[test]
fn each_fault_of_a_segment(rt: HostRuntime) {
    let conflict = ImageFault::Conflict {
        at: 0x0800_0018,
        old: 0x04,
        new: 0x44,
    };
    let truncated = ImageFault::Elf(ElfFault::Truncated {
        field: Field::Segment,
    });
    let cases: [(usize, u32, Option<ImageFault>); 6] = [
        (96, 0x0800_0018, Some(conflict)),
        (
            96,
            0xFFFF_FFFD,
            Some(ImageFault::PastEnd { at: 0xFFFF_FFFD }),
        ),
        (96, 0xFFFF_FFFC, None),
        (88, 0x0000_0200, Some(truncated)),
        (84, 0x0000_0004, None),
        (104, 0xFFFF_FFFF, None),
    ];
    for (at, word, wanted) in &cases {
        let found = fault_with(rt.alloc(), *at, *word);
        expect(&rt, found, Ok(*wanted));
    }
}

/// What a check of a text's image answers, against no cell.
fn check_text(alloc: Global, text: &[u8]) -> Result<(), ImageFault> {
    let map = image_of_text(alloc, text)?;
    check(&map, 0, 0)
}

/// Asserts that ranges hold three bytes and one at the last address, or which address is outside them.
fn expect_ranges(rt: &impl Abort, map: &ByteMap) {
    let cases: [(&[(u32, u32)], Option<u32>); 5] = [
        (&[], Some(0x10)),
        (&[(0xFFFF_FFFF, 1), (0x10, 2)], Some(0x12)),
        (&[(0x11, 2), (0x10, 1)], Some(0xFFFF_FFFF)),
        (&[(0x11, 2), (0xFFFF_0000, 0xFFFF_FFFF), (0x10, 1)], None),
        (&[(0x10, 0), (0x10, 3)], Some(0xFFFF_FFFF)),
    ];
    for (ranges, outside) in &cases {
        let wanted = match outside {
            Some(at) => Err(ImageFault::OutsideDevice { at: *at }),
            None => Ok(()),
        };
        expect(rt, check_ranges(map, ranges), wanted);
    }
}

#[test]
fn images_lie_in_ranges(rt: HostRuntime) -> Result<(), Fail> {
    let empty = check_text(rt.alloc(), b":00000001FF\n");
    expect(&rt, empty, Err(ImageFault::EmptyImage));
    let map = map_of(rt.alloc(), &[(0x10, &[1, 2, 3]), (0xFFFF_FFFF, &[4])])?;
    expect_ranges(&rt, &map);
    Ok(())
}
