//! Records by hand: digits, sums, and bytes that are added.

use crate::expect::expect;
use byte_map::ByteMap;
use record_lines::{ClashFault, Payload, all_digits, byte_sum, decode, lay_cells};
use std::process::Abort;

#[test]
fn digits_become_bytes(rt: HostRuntime) {
    expect(&rt, all_digits(b"09afAF"), true);
    expect(&rt, all_digits(b"0 "), false);
    let mut bytes = [0; 3];
    decode(b"09afFA", &mut bytes);
    let payload = Payload::copy(&bytes);
    expect(&rt, bytes, [0x09, 0xAF, 0xFA]);
    expect(&rt, byte_sum(&bytes), 0x1B2);
    expect(&rt, payload.bytes(), bytes.as_slice());
}

/// Each byte is a digit or not, at each place among 40 others, and as the high and as the low one of a pair.
#[test]
fn each_byte_as_a_digit(rt: HostRuntime) {
    for byte in 0..=255u8 {
        let small = byte.to_ascii_lowercase();
        let value = b"0123456789abcdef".iter().position(|digit| *digit == small);
        for place in 0..40 {
            let mut text = [b'5'; 40];
            text[place] = byte;
            assert!(rt; all_digits(&text) == value.is_some());
        }
        let wanted = match value {
            Some(value) => [16 * value + 5, 80 + value],
            None => [0, 0],
        };
        let mut bytes = [0; 2];
        decode(&[byte, b'5', b'5', byte], &mut bytes);
        let found = [usize::from(bytes[0]), usize::from(bytes[1])];
        expect(&rt, found, wanted);
    }
}

/// Asserts that a map without bytes takes a byte twice, and no other byte at its address.
fn expect_added_once(rt: &impl Abort, map: &mut ByteMap) {
    let laid = [
        lay_cells(map, 0x10, &[1, 2]),
        lay_cells(map, 0x11, &[2, 3]),
        lay_cells(map, 0x11, &[2, 4]),
    ];
    let conflict = ClashFault::Conflict {
        at: 0x12,
        old: 3,
        new: 4,
    };
    expect(rt, laid, [Ok(()), Ok(()), Err(conflict)]);
    expect(rt, map.get(0x12), Some(3));
}

#[test]
fn bytes_are_added_once(rt: HostRuntime) {
    let mut map = ByteMap::new(rt.alloc());
    expect_added_once(&rt, &mut map);
}
