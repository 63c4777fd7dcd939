//! One S-record.
ghost use Rattle.std.specs.Prelude.{◌≡◌, ◌+◌, ◌≤◌, ◌<◌, length};
ghost use Rattle.image_srec.specs.Record.{read_line, read_digits, checked, record_of, address_len, is_long_enough, number_of};

use crate::fault::SrecKind;
use octets::hex_pair;
use record_lines::{Payload, all_digits, byte_sum, decode};

/// How many data records there are before a line.
#[derive(Clone, Copy)]
pub struct Seen {
    /// The number of data records.
    pub records: u64,
}

/// A record, with what an image needs of it.
#[derive(Drop)]
pub enum SrecRecord {
    /// A header.
    Header,
    /// Data bytes, with the address of the first one.
    Data { at: u32, bytes: Payload },
    /// A count record: how many data records it says are before it.
    Count { said: u32 },
    /// The end of the text.
    End,
}

/// What a line reads as: nothing if it is blank, a record, or a fault.
pub fn parse(line: &[u8]) -> Result<Option<SrecRecord>, SrecKind>
    ensures { result ≡ read_line line.now }
{
    match line {
        [] => Ok(None),
        [b'S', b'0'..=b'9', ..] => parse_digits(line[1] - b'0', &line[2..]),
        _ => Err(SrecKind::NotRecord),
    }
}

/// What the digits after a type read as.
fn parse_digits(value: u8, digits: &[u8]) -> Result<Option<SrecRecord>, SrecKind>
    requires { value < 10 }
    ensures { result ≡ read_digits value digits.now }
{
    if !all_digits(digits) {
        return Err(SrecKind::BadDigit);
    }
    if value == 4 {
        return Err(SrecKind::BadType { value });
    }
    if digits.len() < 2 {
        return Err(SrecKind::BadLength);
    }
    let count = hex_pair(digits[0], digits[1]).unwrap_or(0);
    if digits.len() != 2 + 2 * usize::from(count) || !fits_type(value, count) {
        return Err(SrecKind::BadLength);
    }
    let mut buffer = [0; 256];
    let bytes = &mut buffer[..1 + usize::from(count)];
    decode(digits, bytes);
    check(value, bytes)
}

/// Whether a record of this type can have `count` bytes after its count.
fn fits_type(value: u8, count: u8) -> bool
    ensures { result ≡ is_long_enough value count }
{
    let least = address_bytes(value) + 1;
    if value < 4 {
        least <= count
    } else {
        count == least
    }
}

/// How many bytes of address a record of this type has.
fn address_bytes(value: u8) -> u8
    ensures len { result ≡ address_len value }
    ensures few { result ≤ 4 }
    ensures some { 2 ≤ result }
{
    match value {
        3 | 7 => 4,
        2 | 6 | 8 => 3,
        _ => 2,
    }
}

/// The record that some bytes hold, if its checksum is right.
fn check(value: u8, bytes: &[u8]) -> Result<Option<SrecRecord>, SrecKind>
    requires long { address_len value + 2 ≤ length bytes.now }
    requires most { length bytes.now ≤ 256 }
    ensures { result ≡ checked value bytes.now }
{
    let last = bytes.len() - 1;
    let said = bytes[last];
    let due = (255 - byte_sum(&bytes[..last]) % 256) as u8;
    if said != due {
        return Err(SrecKind::BadSum { said, due });
    }
    let data_at = 1 + usize::from(address_bytes(value));
    Ok(Some(record(value, number(&bytes[1..data_at]), &bytes[data_at..last])))
}

/// The number that two, three or four bytes hold, the high byte first.
fn number(bytes: &[u8]) -> u32
    ensures { result ≡ number_of bytes.now }
{
    match bytes {
        [a, b] => u32::from(*a) * 256 + u32::from(*b),
        [a, b, c] => (u32::from(*a) * 256 + u32::from(*b)) * 256 + u32::from(*c),
        [a, b, c, d] => ((u32::from(*a) * 256 + u32::from(*b)) * 256 + u32::from(*c)) * 256
            + u32::from(*d),
        _ => 0,
    }
}

/// The record of this type with this address and these data bytes.
fn record(value: u8, address: u32, bytes: &[u8]) -> SrecRecord
    requires { length bytes.now ≤ 255 }
    ensures { result ≡ record_of value address bytes.now }
{
    match value {
        0 => SrecRecord::Header,
        1 | 2 | 3 => SrecRecord::Data {
            at: address,
            bytes: Payload::copy(bytes),
        },
        5 | 6 => SrecRecord::Count { said: address },
        _ => SrecRecord::End,
    }
}
