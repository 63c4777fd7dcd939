//! The line of one record.
ghost use Rattle.std.specs.Prelude.{◌≡◌, ◌≤◌, ◌++◌, [], ◌∷◌, length};
ghost use Rattle.image_more.specs.Texts.{digits, hex_line, srec_bytes, srec_line, text_of};
ghost use Rattle.outside_io.specs.Gathers.{Gathers};

use arrayvec::ArrayVec;
use octets::hex_upper;
use outside_io::{Gathered, OutputFault, Sink};
use record_lines::byte_sum;

/// Gathers the line of a record of Intel HEX.
#[tactic(auto, unfolding(crate::specs::Texts::hex_line))]
pub fn gather_hex_line<O: Sink>(
    out: &mut O,
    text: &mut Gathered,
    kind: u8,
    offset: u16,
    bytes: &[u8],
) -> Result<(), OutputFault>
    requires { length bytes.now ≤ 16 }
    ensures { Gathers O.tells (O.state out.old) (O.state out.new) text.old text.new (text_of (hex_line kind offset bytes.now ∷ [])) result }
{
    let mut packed: ArrayVec<u8, 22> = ArrayVec::new();
    packed.push(bytes.len() as u8);
    packed.push((offset / 256) as u8);
    packed.push((offset % 256) as u8);
    packed.push(kind);
    packed.try_extend_from_slice(bytes).unwrap();
    let sum = byte_sum(packed.as_slice());
    packed.push(((256 - sum % 256) % 256) as u8);
    gather_digits(out, text, b":", packed.as_slice())
}

/// Gathers the line of an S3 record, of up to 16 bytes from `at` on.
#[tactic(auto, unfolding(crate::specs::Texts::srec_line))]
pub fn gather_srec_line<O: Sink>(
    out: &mut O,
    text: &mut Gathered,
    at: u32,
    bytes: &[u8],
) -> Result<(), OutputFault>
    requires { length bytes.now ≤ 16 }
    ensures { Gathers O.tells (O.state out.old) (O.state out.new) text.old text.new (text_of (srec_line (record { at = at; bytes = bytes.now }) ∷ [])) result }
{
    let mut packed = pack_srec(at, bytes);
    let total = byte_sum(packed.as_slice());
    packed.push((255 - total % 256) as u8);
    gather_digits(out, text, b"S3", packed.as_slice())
}

/// The bytes of an S3 record before its checksum.
fn pack_srec(at: u32, bytes: &[u8]) -> ArrayVec<u8, 22>
    requires { length bytes.now ≤ 16 }
    ensures items { result.items ≡ srec_bytes (record { at = at; bytes = bytes.now }) }
    ensures few { length result.items ≤ 21 }
{
    let mut packed: ArrayVec<u8, 22> = ArrayVec::new();
    packed.push(bytes.len() as u8 + 5);
    packed.push((at / 16_777_216) as u8);
    packed.push((at / 65_536 % 256) as u8);
    packed.push((at / 256 % 256) as u8);
    packed.push((at % 256) as u8);
    packed.try_extend_from_slice(bytes).unwrap();
    packed
}

/// Gathers a line: a mark of one or two bytes, and two digits for each of up to 22 bytes.
#[tactic(auto, using(crate::proofs::DigitLemmas::digits_next))]
fn gather_digits<O: Sink>(
    out: &mut O,
    text: &mut Gathered,
    mark: &[u8],
    bytes: &[u8],
) -> Result<(), OutputFault>
    requires mark { length mark.now ≤ 2 }
    requires few { length bytes.now ≤ 22 }
    ensures { Gathers O.tells (O.state out.old) (O.state out.new) text.old text.new (mark.now ++ (digits bytes.now ++ 10 ∷ [])) result }
{
    let mut line: ArrayVec<u8, 47> = ArrayVec::new();
    line.try_extend_from_slice(mark).unwrap();
    for byte in bytes {
        line.push(hex_upper(*byte / 16));
        line.push(hex_upper(*byte % 16));
    }
    line.push(b'\n');
    text.add(out, line.as_slice())
}
