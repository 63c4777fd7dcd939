//! The texts of the faults of files.
ghost use Rattle.std.specs.Prelude.{◌≡◌, [], ◌∷◌, decimal};
ghost use Rattle.std.specs.List.{concat};
ghost use Rattle.report_text.specs.Faults.{elf_text, field_text, flm_text};
ghost use Rattle.outside_io.specs.Puts.{Puts};

use crate::pieces::put_pieces;
use elf32::{ElfFault, Field};
use flm_descriptor::FlmFault;
use itoa::Buffer;
use octets::hex_digits;
use outside_io::{OutputFault, Sink};

/// Puts the text of a fault of an FLM file.
#[tactic(auto, unfolding(crate::specs::Faults::flm_text))]
pub fn put_flm_fault<E: Sink>(err: &mut E, fault: FlmFault) -> Result<(), OutputFault>
    ensures { Puts E.tells (E.state err.old) (E.state err.new) (flm_text fault) result }
{
    match fault {
        FlmFault::OutOfMemory => put_pieces(err, &[b"OutOfMemory"]),
        FlmFault::Elf(fault) => {
            put_pieces(err, &[b"Elf "])?;
            put_elf_fault(err, fault)
        }
        FlmFault::NoSection { name } => put_pieces(err, &[b"NoSection ", name.text()]),
        FlmFault::NoSymbol { name } => put_pieces(err, &[b"NoSymbol ", name.text()]),
        FlmFault::SymbolOutside { name, value } => {
            let value = hex_digits::<8>(value);
            put_pieces(err, &[b"SymbolOutside ", name.text(), b" ", &value])
        }
        FlmFault::DataBeforeCode => put_pieces(err, &[b"DataBeforeCode"]),
        FlmFault::DescriptorShort => put_pieces(err, &[b"DescriptorShort"]),
        FlmFault::NoSectorEnd => put_pieces(err, &[b"NoSectorEnd"]),
        FlmFault::BadPage { size } => put_number(err, b"BadPage ", size),
        FlmFault::SectorGap => put_pieces(err, &[b"SectorGap"]),
        FlmFault::SectorOrder { item } => put_number(err, b"SectorOrder ", item),
        FlmFault::SectorSize { item } => put_number(err, b"SectorSize ", item),
        FlmFault::BadDevice { size } => put_number(err, b"BadDevice ", size),
    }
}

/// Puts the text of a fault of an ELF file.
#[tactic(auto, unfolding(crate::specs::Faults::elf_text))]
pub fn put_elf_fault<E: Sink>(err: &mut E, fault: ElfFault) -> Result<(), OutputFault>
    ensures { Puts E.tells (E.state err.old) (E.state err.new) (elf_text fault) result }
{
    match fault {
        ElfFault::OutOfMemory => put_pieces(err, &[b"OutOfMemory"]),
        ElfFault::NotElf => put_pieces(err, &[b"NotElf"]),
        ElfFault::NotArm32 => put_pieces(err, &[b"NotArm32"]),
        ElfFault::Truncated { field } => put_pieces(err, &[b"Truncated ", field_text(field)]),
        ElfFault::BadIndex { field, value } => {
            let mut of_value = Buffer::new();
            let value = of_value.format(value).as_bytes();
            put_pieces(err, &[b"BadIndex ", field_text(field), b" ", value])
        }
        ElfFault::BadName { offset } => {
            let offset = hex_digits::<8>(offset);
            put_pieces(err, &[b"BadName ", &offset])
        }
    }
}

/// Puts a name and a decimal number.
pub fn put_number<E: Sink>(err: &mut E, name: &[u8], number: u32) -> Result<(), OutputFault>
    ensures { Puts E.tells (E.state err.old) (E.state err.new) (concat (name.now ∷ decimal number ∷ [])) result }
{
    let mut of_number = Buffer::new();
    put_pieces(err, &[name, of_number.format(number).as_bytes()])
}

/// The name of a part of an ELF file.
#[tactic(auto, unfolding(crate::specs::Faults::field_text))]
fn field_text(field: Field) -> &'static [u8]
    ensures { result.now ≡ field_text field }
{
    match field {
        Field::Header => b"Header",
        Field::Programs => b"Programs",
        Field::Sections => b"Sections",
        Field::Names => b"Names",
        Field::Symbols => b"Symbols",
        Field::Strings => b"Strings",
        Field::Section => b"Section",
        Field::Segment => b"Segment",
        Field::ProgramSize => b"ProgramSize",
        Field::SectionSize => b"SectionSize",
        Field::NameIndex => b"NameIndex",
        Field::Link => b"Link",
    }
}
