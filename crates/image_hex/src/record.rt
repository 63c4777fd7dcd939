//! One record of Intel HEX.
ghost use Rattle.std.specs.Prelude.{◌≡◌, ◌≤◌, length};
ghost use Rattle.image_hex.specs.Record.{read_line, read_digits, checked, record_of};

use crate::fault::HexKind;
use octets::hex_pair;
use record_lines::{Payload, all_digits, byte_sum, decode};

/// The base from which the offsets of data records count.
#[derive(Clone, Copy)]
pub enum Base {
    /// The upper half of an address.
    Upper(u16),
    /// A segment, of 16 bytes each.
    Segment(u16),
}

/// A record, with what an image needs of it.
#[derive(Drop)]
pub enum HexRecord {
    /// Data bytes, with the offset of the first one from the base.
    Data { offset: u16, bytes: Payload },
    /// The end of the text.
    End,
    /// A record that sets another base.
    Sets(Base),
    /// A start address.
    Ignored,
}

/// What a line reads as: nothing if it is blank, a record, or a fault.
pub fn parse(line: &[u8]) -> Result<Option<HexRecord>, HexKind>
    ensures { result ≡ read_line line.now }
{
    if line.is_empty() {
        return Ok(None);
    }
    if line[0] != b':' {
        return Err(HexKind::NotRecord);
    }
    parse_digits(&line[1..])
}

/// What the digits after a colon read as.
fn parse_digits(digits: &[u8]) -> Result<Option<HexRecord>, HexKind>
    ensures { result ≡ read_digits digits.now }
{
    if !all_digits(digits) {
        return Err(HexKind::BadDigit);
    }
    if digits.len() < 10 {
        return Err(HexKind::BadLength);
    }
    let count = usize::from(hex_pair(digits[0], digits[1]).unwrap_or(0));
    if digits.len() != 10 + 2 * count {
        return Err(HexKind::BadLength);
    }
    let mut buffer = [0; 260];
    let bytes = &mut buffer[..5 + count];
    decode(digits, bytes);
    check(bytes)
}

/// The record that some bytes hold, if its checksum and its type are right.
fn check(bytes: &[u8]) -> Result<Option<HexRecord>, HexKind>
    requires least { 5 ≤ length bytes.now }
    requires most { length bytes.now ≤ 260 }
    ensures { result ≡ checked bytes.now }
{
    let last = bytes.len() - 1;
    let said = bytes[last];
    let others = byte_sum(&bytes[..last]);
    let due = ((256 - others % 256) % 256) as u8;
    if said != due {
        return Err(HexKind::BadSum { said, due });
    }
    let offset = u16::from_be_bytes([bytes[1], bytes[2]]);
    record(bytes[3], offset, &bytes[4..last])
}

/// The record of this type with this offset and these data bytes.
fn record(value: u8, offset: u16, bytes: &[u8]) -> Result<Option<HexRecord>, HexKind>
    requires { length bytes.now ≤ 255 }
    ensures { result ≡ record_of value offset bytes.now }
{
    match (value, bytes) {
        (0, _) => Ok(Some(HexRecord::Data {
            offset,
            bytes: Payload::copy(bytes),
        })),
        (1, []) => Ok(Some(HexRecord::End)),
        (2, [high, low]) => Ok(Some(HexRecord::Sets(Base::Segment(u16::from_be_bytes([
            *high, *low,
        ]))))),
        (3 | 5, [_, _, _, _]) => Ok(Some(HexRecord::Ignored)),
        (4, [high, low]) => Ok(Some(HexRecord::Sets(Base::Upper(u16::from_be_bytes([
            *high, *low,
        ]))))),
        _ => Err(HexKind::BadType { value }),
    }
}
