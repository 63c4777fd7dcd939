//! UF2 files by hand, by the table of a block's fields.

use crate::expect::expect;
use crate::images::maps::expect_map;
use image_more::{AnyFault, Uf2Fault, read_any, read_uf2};
use image_set::ImageFault;
use std::alloc::Global;

/// The bytes of the short images.
const FOUR: &[u8] = b"\x01\x02\x03\x04";

/// A block of this payload.
fn block(flags: u32, at: u32, size: u32, payload: &[u8]) -> [u8; 512] {
    let mut block = [0; 512];
    let fields = [
        (0, 0x0A32_4655),
        (4, 0x9E5D_5157),
        (8, flags),
        (12, at),
        (16, size),
        (508, 0x0AB1_6F30_u32),
    ];
    for (place, field) in fields {
        for (index, byte) in field.to_le_bytes().iter().enumerate() {
            block[place + index] = *byte;
        }
    }
    for (index, byte) in payload.iter().enumerate() {
        if index < 476 {
            block[32 + index] = *byte;
        }
    }
    block
}

/// Two blocks as a file.
fn file(first: [u8; 512], second: [u8; 512]) -> [u8; 1024] {
    let mut file = [0; 1024];
    file[..512].copy_from_slice(&first);
    file[512..].copy_from_slice(&second);
    file
}

/// The payload of a block for main flash, from its address on, and nothing of another block. Blocks may come in any order.
#[test]
fn payloads_for_main_flash(rt: HostRuntime) {
    let four = block(0, 0x0800_0000, 4, FOUR);
    expect_map(&rt, read_uf2(rt.alloc(), &four), &[(0x0800_0000, FOUR)]);
    let elsewhere = block(1, 0xFFFF_FFFF, 4, FOUR);
    expect_map(&rt, read_uf2(rt.alloc(), &elsewhere), &[]);
    let low = block(0x2000, 0x0800_0000, 256, &[0xAA; 256]);
    let high = block(0x2000, 0x0800_0100, 256, &[0x55; 256]);
    let mut both = [0xAA; 512];
    both[256..].copy_from_slice(&[0x55; 256]);
    let read = read_uf2(rt.alloc(), &file(high, low));
    expect_map(&rt, read, &[(0x0800_0000, &both)]);
}

/// Each refusal, in the order of the checks.
#[test]
fn each_fault_at_its_block(rt: HostRuntime) {
    let good = block(0, 0xFFFF_FFFC, 4, b"\x01\x02\x03\x04");
    let mut other_magic = good;
    other_magic[511] = 0;
    let cases = [
        (other_magic, Uf2Fault::BadMagic { block: 2 }),
        (
            block(1, 0, 477, b""),
            Uf2Fault::BadSize {
                block: 2,
                size: 477,
            },
        ),
        (
            block(0, 0xFFFF_FFFC, 5, b"\x05\x02\x03\x04"),
            Uf2Fault::PastEnd { at: 0xFFFF_FFFC },
        ),
        (
            block(0, 0xFFFF_FFFB, 5, b"\x00\x01\x02\x05\x04"),
            Uf2Fault::Conflict {
                at: 0xFFFF_FFFE,
                old: 3,
                new: 5,
            },
        ),
    ];
    for (second, wanted) in &cases {
        let fault = read_uf2(rt.alloc(), &file(good, *second)).err();
        expect(&rt, fault, Some(*wanted));
    }
    for len in [0, 511, 513] {
        let fault = read_uf2(rt.alloc(), &file(good, good)[..len]).err();
        expect(&rt, fault, Some(Uf2Fault::BadLength { len: len as u64 }));
    }
}

/// The byte that a file has at an address.
fn byte_of(
    alloc: Global,
    file: &[u8],
    raw_at: Option<u32>,
    at: u32,
) -> Result<Option<u8>, AnyFault> {
    Ok(read_any(alloc, file, raw_at)?.get(at))
}

/// A file that begins as UF2 is read as UF2, unless an address is given. All other files are read as before.
#[test]
fn forms_beside_uf2(rt: HostRuntime) {
    let four = block(0, 0x0800_0000, 4, FOUR);
    let payload = byte_of(rt.alloc(), &four, None, 0x0800_0003);
    expect(&rt, payload, Ok(Some(4)));
    let raw = byte_of(rt.alloc(), &four, Some(0), 0);
    expect(&rt, raw, Ok(Some(b'U')));
    let text = b":020000040800F2\n:0400000001020304F2\n:00000001FF\n";
    let read = read_any(rt.alloc(), text, None);
    expect_map(&rt, read, &[(0x0800_0000, FOUR)]);
}

/// A block without its last byte.
fn cut(block: &[u8; 512]) -> &[u8] {
    &block[..511]
}

/// A fault says whether UF2 or another form was read.
#[test]
fn faults_by_form(rt: HostRuntime) {
    let four = block(0, 0x0800_0000, 4, FOUR);
    let short = read_any(rt.alloc(), cut(&four), None).err();
    let len = Uf2Fault::BadLength { len: 511 };
    expect(&rt, short, Some(AnyFault::Uf2(len)));
    let other = read_any(rt.alloc(), b"UF2", None).err();
    expect(&rt, other, Some(AnyFault::Image(ImageFault::NoForm)));
}
