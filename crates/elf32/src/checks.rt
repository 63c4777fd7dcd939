//! What a file must be to be read.
ghost use Rattle.std.specs.Prelude.{◌≡◌, ◌≤◌, ◌+◌, ◌*◌, length, OnOk};
ghost use Rattle.elf32.specs.Format.{e_phoff, e_phnum, e_shoff, e_shnum};
ghost use Rattle.elf32.specs.Checks.{is_arm32, header_fault, size_fault, table_fault, whole_part, Finds};
ghost use Rattle.elf32.specs.Tables.{Lends};

use crate::fault::{ElfFault, Field};
use crate::headers::{
    HEADER_LEN, SECTION_LEN, SEGMENT_LEN, machine, section_count, section_len, sections_at,
    segment_count, segment_len, segments_at,
};

/// The four magic bytes: 0x7F, then `ELF`.
const MAGIC: [u8; 4] = [0x7F, b'E', b'L', b'F'];

/// The Arm architecture, as e_machine.
const EM_ARM: u16 = 40;

/// Checks the magic bytes, the length, and class, data, version and machine.
#[tactic(auto, unfolding(crate::specs::Checks::header_fault))]
pub fn check_header(bytes: &[u8]) -> Result<(), ElfFault>
    ensures fault { Finds (header_fault bytes.now) result }
    ensures long { OnOk result (52 ≤ length bytes.now) }
{
    if !bytes.starts_with(&MAGIC) {
        return Err(ElfFault::NotElf);
    }
    if bytes.len() < HEADER_LEN {
        return Err(ElfFault::Truncated {
            field: Field::Header,
        });
    }
    if !is_arm32(bytes) {
        return Err(ElfFault::NotArm32);
    }
    Ok(())
}

/// Whether the class is 32 bits, the data little-endian, the version 1 and the machine Arm.
fn is_arm32(bytes: &[u8]) -> bool
    requires { 52 ≤ length bytes.now }
    ensures { result ≡ is_arm32 bytes.now }
{
    bytes[4] == 1 && bytes[5] == 1 && bytes[6] == 1 && machine(bytes) == EM_ARM
}

/// Checks the entry sizes of the two tables, if they have entries.
#[tactic(auto, unfolding(crate::specs::Checks::size_fault))]
pub fn check_sizes(bytes: &[u8]) -> Result<(), ElfFault>
    requires { 52 ≤ length bytes.now }
    ensures { Finds (size_fault bytes.now) result }
{
    if segment_count(bytes) != 0 && segment_len(bytes) != SEGMENT_LEN {
        return Err(ElfFault::BadIndex {
            field: Field::ProgramSize,
            value: segment_len(bytes) as u32,
        });
    }
    if section_count(bytes) != 0 && section_len(bytes) != SECTION_LEN {
        return Err(ElfFault::BadIndex {
            field: Field::SectionSize,
            value: section_len(bytes) as u32,
        });
    }
    Ok(())
}

/// Checks that both tables end within the file, even if they are empty.
#[tactic(auto, unfolding(crate::specs::Checks::table_fault))]
pub fn check_tables(bytes: &[u8]) -> Result<(), ElfFault>
    requires { 52 ≤ length bytes.now }
    ensures fault { Finds (table_fault bytes.now) result }
    ensures programs { OnOk result (e_phoff bytes.now + 32 * e_phnum bytes.now ≤ length bytes.now) }
    ensures sections { OnOk result (e_shoff bytes.now + 40 * e_shnum bytes.now ≤ length bytes.now) }
{
    if segments_at(bytes) + SEGMENT_LEN * segment_count(bytes) > bytes.len() {
        return Err(ElfFault::Truncated {
            field: Field::Programs,
        });
    }
    if sections_at(bytes) + SECTION_LEN * section_count(bytes) > bytes.len() {
        return Err(ElfFault::Truncated {
            field: Field::Sections,
        });
    }
    Ok(())
}

/// The bytes of a part of a file. If the part goes past the file's end, the refusal names it.
#[tactic(auto, unfolding(crate::specs::Checks::whole_part))]
pub fn part<'a>(bytes: &'a [u8], named: Field, offset: u32, size: u32) -> Result<&'a [u8], ElfFault>
    ensures { Lends (whole_part bytes.entry.now named offset size) result }
{
    let start = offset as usize;
    let end = start + size as usize;
    if end > bytes.len() {
        return Err(ElfFault::Truncated { field: named });
    }
    Ok(&bytes[start..end])
}
