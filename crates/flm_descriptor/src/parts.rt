//! The named sections and symbols of an FLM file, and where they are.
ghost use Rattle.std.specs.Prelude.{◌≡◌, ◌<◌, ℕ, Some, codes, length, IfOk, IfSome};
ghost use Rattle.flm_descriptor.specs.Lawful.{AreInside, AreInOrder};
ghost use Rattle.elf32.specs.Tables.{section_of, section_part};
ghost use Rattle.flm_descriptor.specs.Results.{from_elf, Gives};
ghost use Rattle.flm_descriptor.specs.Parts.{AreLong, AreTyped, contents_of, end_after, entries_of, entry_of, data_places, needed, needed_value};
ghost use Rattle.flm_descriptor.specs.Parts.{optional_entry, optional_part, optional_value, place_of, present, sections_of, size_or_none, start_or, symbols_of};
ghost use Rattle.flm_descriptor.specs.Parts.{text_of};
ghost use Rattle.flm_descriptor.specs.Seen.{seen};

use crate::algorithm::Entries;
use crate::fault::{FlmFault, Name};
use elf32::{Elf, Section};

/// The sections of an FLM file. A section of data that is absent or empty is none.
#[derive(Clone, Copy)]
pub struct Sections {
    pub code: Section,
    pub init_data: Option<Section>,
    pub zeroed: Option<Section>,
    pub descriptor: Section,
}

/// The bytes of code, data and description.
#[derive(Clone, Copy)]
pub struct LentContents<'a> {
    pub code: &'a [u8],
    pub init_data: &'a [u8],
    pub descriptor: &'a [u8],
}

/// The values of the symbols, as the file has them.
#[derive(Clone, Copy)]
pub struct Symbols {
    pub init: u32,
    pub uninit: u32,
    pub erase_sector: u32,
    pub program_page: u32,
    pub device: u32,
    pub erase_chip: Option<u32>,
    pub verify: Option<u32>,
}

/// The places of data and zeroed data from the start of the code, the length of the zeroed data, and the static base.
#[derive(Clone, Copy)]
pub struct DataPlaces {
    pub data_at: u32,
    pub zero_at: u32,
    pub zero_len: u32,
    pub static_base: u32,
}

/// The sections by their names.
#[tactic(auto, unfolding(crate::specs::Parts::sections_of))]
pub fn find_sections(elf: &Elf) -> Result<Sections, FlmFault>
    ensures sections { result ≡ sections_of elf.now }
    ensures typed { IfOk result AreTyped }
{
    let code = needed(elf, Name::PrgCode)?;
    let descriptor = needed(elf, Name::DevDscr)?;
    Ok(Sections {
        code,
        init_data: present(elf, Section::PROGBITS),
        zeroed: present(elf, Section::NOBITS),
        descriptor,
    })
}

/// A section of a program's own code or data that must be there.
fn needed(elf: &Elf, name: Name) -> Result<Section, FlmFault>
    ensures section { result ≡ needed name (section_of elf.now (text_of name) 1) }
    ensures typed { IfOk result (λ section. section.kind ≡ 1) }
{
    match elf.section(name.text(), Section::PROGBITS) {
        Some(section) => Ok(section),
        None => Err(FlmFault::NoSection { name }),
    }
}

/// The section PrgData of a type, if it is there: one of size 0 counts as absent.
fn present(elf: &Elf, kind: u32) -> Option<Section>
    ensures section { result ≡ present (section_of elf.now (codes "PrgData") kind) }
    ensures typed { IfSome result (λ section. section.kind ≡ kind) }
{
    match elf.section(b"PrgData", kind) {
        Some(section) if section.size != 0 => Some(section),
        _ => None,
    }
}

/// The bytes of the sections.
#[tactic(auto, unfolding(crate::specs::Parts::contents_of))]
pub fn take_contents<'a>(elf: &'a Elf, sections: &Sections) -> Result<LentContents<'a>, FlmFault>
    requires { AreTyped sections.now }
    ensures contents { Gives seen result (contents_of elf.entry.now sections.entry.now) }
    ensures long { IfOk result (λ contents. AreLong sections.entry.now (seen contents)) }
{
    let code = bytes_of(elf, sections.code)?;
    let init_data = optional_bytes(elf, sections.init_data)?;
    let descriptor = elf.section_bytes(&sections.descriptor)?;
    Ok(LentContents {
        code,
        init_data,
        descriptor,
    })
}

/// The bytes of a section.
fn bytes_of<'a>(elf: &'a Elf, section: Section) -> Result<&'a [u8], FlmFault>
    requires { section.kind ≡ 1 }
    ensures part { Gives (λ bytes. bytes.now) result (from_elf (section_part elf.entry.now section)) }
    ensures long { IfOk result (λ bytes. length bytes.now ≡ section.size) }
{
    Ok(elf.section_bytes(&section)?)
}

/// The bytes of a section that may be absent.
fn optional_bytes<'a>(elf: &'a Elf, section: Option<Section>) -> Result<&'a [u8], FlmFault>
    requires { IfSome section (λ s. s.kind ≡ 1) }
    ensures part { Gives (λ bytes. bytes.now) result (optional_part elf.entry.now section) }
    ensures long { IfOk result (λ bytes. length bytes.now ≡ size_or_none section) }
{
    match section {
        Some(section) => bytes_of(elf, section),
        None => Ok(&[]),
    }
}

/// The symbols by their names.
#[tactic(auto, unfolding(crate::specs::Parts::symbols_of))]
pub fn find_symbols(elf: &Elf) -> Result<Symbols, FlmFault>
    ensures { result ≡ symbols_of elf.now }
{
    let init = needed_value(elf, Name::Init)?;
    let uninit = needed_value(elf, Name::UnInit)?;
    let erase_sector = needed_value(elf, Name::EraseSector)?;
    let program_page = needed_value(elf, Name::ProgramPage)?;
    let device = needed_value(elf, Name::FlashDevice)?;
    let erase_chip = optional_value(elf, Name::EraseChip)?;
    let verify = optional_value(elf, Name::Verify)?;
    Ok(Symbols {
        init,
        uninit,
        erase_sector,
        program_page,
        device,
        erase_chip,
        verify,
    })
}

/// The value of a symbol that must be there.
#[tactic(auto, unfolding(crate::specs::Parts::needed_value))]
fn needed_value(elf: &Elf, name: Name) -> Result<u32, FlmFault>
    ensures { result ≡ needed_value elf.now name }
{
    match elf.symbol(name.text())? {
        Some(symbol) => Ok(symbol.value),
        None => Err(FlmFault::NoSymbol { name }),
    }
}

/// The value of a symbol that may be there.
#[tactic(auto, unfolding(crate::specs::Parts::optional_value))]
fn optional_value(elf: &Elf, name: Name) -> Result<Option<u32>, FlmFault>
    ensures { result ≡ optional_value elf.now name }
{
    match elf.symbol(name.text())? {
        Some(symbol) => Ok(Some(symbol.value)),
        None => Ok(None),
    }
}

/// The place of an address in a section. A refusal names `value`, the symbol's.
pub fn place_in(section: &Section, name: Name, value: u32, address: u32) -> Result<u32, FlmFault>
    ensures place { result ≡ place_of section.now name value address }
    ensures inside { IfOk result (λ place. place < section.now.size) }
{
    if address >= section.addr && address - section.addr < section.size {
        Ok(address - section.addr)
    } else {
        Err(FlmFault::SymbolOutside { name, value })
    }
}

/// The place of a function: bit 0 of its address marks Thumb code and is cleared.
fn entry(code: &Section, name: Name, value: u32) -> Result<u32, FlmFault>
    ensures place { result ≡ entry_of code.now name value }
    ensures inside { IfOk result (λ place. place < code.now.size) }
{
    place_in(code, name, value, value - value % 2)
}

/// The place of a function that may be there.
fn optional_entry(code: &Section, name: Name, value: Option<u32>) -> Result<Option<u32>, FlmFault>
    ensures place { result ≡ optional_entry code.now name value }
    ensures inside { IfOk result (λ found. (place : ℕ) → found ≡ Some place → place < code.now.size) }
{
    match value {
        Some(value) => Ok(Some(entry(code, name, value)?)),
        None => Ok(None),
    }
}

/// The places of the functions.
#[tactic(auto, unfolding(crate::specs::Parts::entries_of))]
pub fn place_entries(code: &Section, symbols: &Symbols) -> Result<Entries, FlmFault>
    ensures entries { result ≡ entries_of code.now symbols.now }
    ensures inside { IfOk result (AreInside code.now.size) }
{
    let init = entry(code, Name::Init, symbols.init)?;
    let uninit = entry(code, Name::UnInit, symbols.uninit)?;
    let erase_sector = entry(code, Name::EraseSector, symbols.erase_sector)?;
    let program_page = entry(code, Name::ProgramPage, symbols.program_page)?;
    let erase_chip = optional_entry(code, Name::EraseChip, symbols.erase_chip)?;
    let verify = optional_entry(code, Name::Verify, symbols.verify)?;
    Ok(Entries {
        init,
        uninit,
        erase_sector,
        program_page,
        erase_chip,
        verify,
    })
}

/// The end of a section, which must begin at `before` or above and end at 0xFFFFFFFF or below. An absent one ends at `before`.
fn end_after(before: u32, section: Option<Section>) -> Result<u32, FlmFault>
    ensures { result ≡ end_after before section }
{
    match section {
        None => Ok(before),
        Some(section) => {
            if section.addr < before || section.size > u32::MAX - section.addr {
                return Err(FlmFault::DataBeforeCode);
            }
            Ok(section.addr + section.size)
        }
    }
}

/// The address of a section; an absent one begins at `before`.
fn start_or(before: u32, section: Option<Section>) -> u32
    ensures { result ≡ start_or before section }
{
    match section {
        Some(section) => section.addr,
        None => before,
    }
}

/// The size of a section, or 0 for an absent one.
fn size_or_none(section: Option<Section>) -> u32
    ensures { result ≡ size_or_none section }
{
    match section {
        Some(section) => section.size,
        None => 0,
    }
}

/// Where the data and the zeroed data are, after the code.
#[tactic(auto, unfolding(crate::specs::Parts::data_places))]
pub fn lay_out(sections: &Sections) -> Result<DataPlaces, FlmFault>
    ensures layout { result ≡ data_places sections.now }
    ensures ordered { IfOk result (λ l. AreInOrder sections.now.code.size (size_or_none sections.now.init_data) l.data_at l.zero_at l.zero_len) }
{
    let base = sections.code.addr;
    let code_end = end_after(base, Some(sections.code))?;
    let data_end = end_after(code_end, sections.init_data)?;
    end_after(data_end, sections.zeroed)?;
    let data = start_or(code_end, sections.init_data);
    let zeroed = start_or(data_end, sections.zeroed);
    let static_base = if sections.init_data.is_some() {
        data
    } else {
        zeroed
    };
    Ok(DataPlaces {
        data_at: data - base,
        zero_at: zeroed - base,
        zero_len: size_or_none(sections.zeroed),
        static_base: static_base - base,
    })
}
