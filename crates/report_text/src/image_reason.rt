//! The texts of the faults of images.
ghost use Rattle.std.specs.Prelude.{◌≡◌, ◌++◌, [], ◌∷◌};
ghost use Rattle.std.specs.List.{concat};
ghost use Rattle.report_text.specs.Faults.{any_text, checksum_text, conflict_text, counts_text, faulty_line, file_text, hex_kind_text, image_text, place_text};
ghost use Rattle.report_text.specs.Faults.{srec_kind_text, uf2_text};
ghost use Rattle.octets.specs.Digit.{hex_text};
ghost use Rattle.outside_io.specs.Puts.{Puts};

use crate::pieces::put_pieces;
use crate::reason::{put_elf_fault, put_number};
use image_hex::HexKind;
use image_more::{AnyFault, Uf2Fault};
use image_set::ImageFault;
use image_srec::SrecKind;
use itoa::Buffer;
use octets::hex_digits;
use outside_io::{OutputFault, Sink};

/// Puts the name of an image file, the number of the line at fault if there is one, and the refusal.
pub fn put_image_file<E: Sink>(err: &mut E, name: &[u8], fault: AnyFault) -> Result<(), OutputFault>
    ensures { Puts E.tells (E.state err.old) (E.state err.new) (file_text name.now fault ++ any_text fault) result }
{
    put_place(err, name, faulty_line(fault))?;
    put_any_fault(err, fault)
}

/// The number of the line at fault, in a file that is read by lines.
fn faulty_line(fault: AnyFault) -> Option<u32>
    ensures { result ≡ faulty_line fault }
{
    match fault {
        AnyFault::Image(ImageFault::Hex(fault)) => Some(fault.line),
        AnyFault::Image(ImageFault::Srec(fault)) => Some(fault.line),
        _ => None,
    }
}

/// Puts the name of an image file, and the line where there is one.
#[tactic(auto, unfolding(crate::specs::Faults::place_text))]
fn put_place<E: Sink>(err: &mut E, name: &[u8], line: Option<u32>) -> Result<(), OutputFault>
    ensures { Puts E.tells (E.state err.old) (E.state err.new) (place_text name.now line) result }
{
    match line {
        None => put_pieces(err, &[b"image ", name, b": "]),
        Some(line) => {
            let mut of_line = Buffer::new();
            let line = of_line.format(line).as_bytes();
            put_pieces(err, &[b"image ", name, b" line ", line, b": "])
        }
    }
}

/// Puts the refusal of a file of any form, without a line.
#[tactic(auto, unfolding(crate::specs::Faults::any_text))]
fn put_any_fault<E: Sink>(err: &mut E, fault: AnyFault) -> Result<(), OutputFault>
    ensures { Puts E.tells (E.state err.old) (E.state err.new) (any_text fault) result }
{
    match fault {
        AnyFault::Image(fault) => put_image_fault(err, fault),
        AnyFault::Uf2(fault) => {
            put_pieces(err, &[b"Uf2 "])?;
            put_uf2_fault(err, fault)
        }
        AnyFault::OutOfMemory => put_pieces(err, &[b"OutOfMemory"]),
    }
}

/// Puts the refusal of a UF2 file.
#[tactic(auto, unfolding(crate::specs::Faults::uf2_text))]
fn put_uf2_fault<E: Sink>(err: &mut E, fault: Uf2Fault) -> Result<(), OutputFault>
    ensures { Puts E.tells (E.state err.old) (E.state err.new) (uf2_text fault) result }
{
    let mut of_block = Buffer::new();
    match fault {
        Uf2Fault::BadLength { len } => {
            put_pieces(err, &[b"BadLength ", of_block.format(len).as_bytes()])
        }
        Uf2Fault::BadMagic { block } => {
            put_pieces(err, &[b"BadMagic ", of_block.format(block).as_bytes()])
        }
        Uf2Fault::BadSize { block, size } => {
            let mut of_size = Buffer::new();
            let block = of_block.format(block).as_bytes();
            let size = of_size.format(size).as_bytes();
            put_pieces(err, &[b"BadSize ", block, b" ", size])
        }
        Uf2Fault::Conflict { at, old, new } => put_conflict(err, at, old, new),
        Uf2Fault::PastEnd { at } => put_address(err, b"PastEnd ", at),
        Uf2Fault::OutOfMemory => put_pieces(err, &[b"OutOfMemory"]),
    }
}

/// Puts the refusal of an image, without a line.
#[tactic(auto, unfolding(crate::specs::Faults::image_text))]
pub fn put_image_fault<E: Sink>(err: &mut E, fault: ImageFault) -> Result<(), OutputFault>
    ensures { Puts E.tells (E.state err.old) (E.state err.new) (image_text fault) result }
{
    match fault {
        ImageFault::NoForm => put_pieces(err, &[b"NoForm"]),
        ImageFault::Hex(fault) => {
            put_pieces(err, &[b"Hex "])?;
            put_hex_kind(err, fault.kind)
        }
        ImageFault::Srec(fault) => {
            put_pieces(err, &[b"Srec "])?;
            put_srec_kind(err, fault.kind)
        }
        ImageFault::Elf(fault) => {
            put_pieces(err, &[b"Elf "])?;
            put_elf_fault(err, fault)
        }
        ImageFault::Conflict { at, old, new } => put_conflict(err, at, old, new),
        ImageFault::PastEnd { at } => put_address(err, b"PastEnd ", at),
        ImageFault::OutsideDevice { at } => put_address(err, b"OutsideDevice ", at),
        ImageFault::EmptyImage => put_pieces(err, &[b"EmptyImage"]),
        ImageFault::OutOfMemory => put_pieces(err, &[b"OutOfMemory"]),
    }
}

/// Puts the fault of a line of Intel HEX.
#[tactic(auto, unfolding(crate::specs::Faults::hex_kind_text))]
fn put_hex_kind<E: Sink>(err: &mut E, kind: HexKind) -> Result<(), OutputFault>
    ensures { Puts E.tells (E.state err.old) (E.state err.new) (hex_kind_text kind) result }
{
    match kind {
        HexKind::NotRecord => put_pieces(err, &[b"NotRecord"]),
        HexKind::BadDigit => put_pieces(err, &[b"BadDigit"]),
        HexKind::BadLength => put_pieces(err, &[b"BadLength"]),
        HexKind::BadSum { said, due } => put_checksum(err, said, due),
        HexKind::BadType { value } => put_number(err, b"BadType ", u32::from(value)),
        HexKind::Conflict { at, old, new } => put_conflict(err, at, old, new),
        HexKind::NoEnd => put_pieces(err, &[b"NoEnd"]),
        HexKind::OutOfMemory => put_pieces(err, &[b"OutOfMemory"]),
    }
}

/// Puts the fault of a line of S-records.
#[tactic(auto, unfolding(crate::specs::Faults::srec_kind_text))]
fn put_srec_kind<E: Sink>(err: &mut E, kind: SrecKind) -> Result<(), OutputFault>
    ensures { Puts E.tells (E.state err.old) (E.state err.new) (srec_kind_text kind) result }
{
    match kind {
        SrecKind::NotRecord => put_pieces(err, &[b"NotRecord"]),
        SrecKind::BadDigit => put_pieces(err, &[b"BadDigit"]),
        SrecKind::BadLength => put_pieces(err, &[b"BadLength"]),
        SrecKind::BadSum { said, due } => put_checksum(err, said, due),
        SrecKind::BadType { value } => put_number(err, b"BadType ", u32::from(value)),
        SrecKind::CountDiffers { said, seen } => put_counts(err, said, seen),
        SrecKind::PastEnd { at } => put_address(err, b"PastEnd ", at),
        SrecKind::Conflict { at, old, new } => put_conflict(err, at, old, new),
        SrecKind::NoEnd => put_pieces(err, &[b"NoEnd"]),
        SrecKind::OutOfMemory => put_pieces(err, &[b"OutOfMemory"]),
    }
}

/// Puts the checksum of a record, and the one that the other bytes ask for.
#[tactic(auto, unfolding(crate::specs::Faults::checksum_text))]
fn put_checksum<E: Sink>(err: &mut E, said: u8, due: u8) -> Result<(), OutputFault>
    ensures { Puts E.tells (E.state err.old) (E.state err.new) (checksum_text said due) result }
{
    let said = hex_digits::<2>(u32::from(said));
    let due = hex_digits::<2>(u32::from(due));
    put_pieces(err, &[b"BadSum ", &said, b" ", &due])
}

/// Puts an address with two unequal bytes.
#[tactic(auto, unfolding(crate::specs::Faults::conflict_text))]
fn put_conflict<E: Sink>(err: &mut E, at: u32, old: u8, new: u8) -> Result<(), OutputFault>
    ensures { Puts E.tells (E.state err.old) (E.state err.new) (conflict_text at old new) result }
{
    let at = hex_digits::<8>(at);
    let old = hex_digits::<2>(u32::from(old));
    let new = hex_digits::<2>(u32::from(new));
    put_pieces(err, &[b"Conflict ", &at, b" ", &old, b" ", &new])
}

/// Puts how many data records a count record says there are, and how many there are.
#[tactic(auto, unfolding(crate::specs::Faults::counts_text))]
fn put_counts<E: Sink>(err: &mut E, said: u32, seen: u64) -> Result<(), OutputFault>
    ensures { Puts E.tells (E.state err.old) (E.state err.new) (counts_text said seen) result }
{
    let mut of_said = Buffer::new();
    let mut of_seen = Buffer::new();
    let said = of_said.format(said).as_bytes();
    let seen = of_seen.format(seen).as_bytes();
    put_pieces(err, &[b"CountDiffers ", said, b" ", seen])
}

/// Puts a name and an address.
fn put_address<E: Sink>(err: &mut E, name: &[u8], address: u32) -> Result<(), OutputFault>
    ensures { Puts E.tells (E.state err.old) (E.state err.new) (concat (name.now ∷ hex_text 8 address ∷ [])) result }
{
    let address = hex_digits::<8>(address);
    put_pieces(err, &[name, &address])
}
