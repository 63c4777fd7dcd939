//! The ELF header and the section headers.
ghost use Rattle.std.specs.Prelude.{◌≡◌, ◌<◌, ◌^◌, ◌++◌, OnOk};
ghost use Rattle.std.specs.List.{flat_map};
ghost use Rattle.flm_forge.specs.Places.{end_of};
ghost use Rattle.flm_forge.specs.Sections.{code_header, descriptor_header, elf_header, header_bytes, headers, init_data_header};
ghost use Rattle.flm_forge.specs.Sections.{symbols_header, zeroed_header};

use crate::sizes::{SECTION_NAMES_AT, SYMBOL_NAMES_AT, SYMBOLS_AT, Sizes};
use crate::symbol::SYMBOL_NAMES;
use crate::write::{put, put_halves, put_words};
use faults::OutOfMemory;

/// The first 16 bytes of a 32-bit little-endian ELF file.
const IDENT: [u8; 16] = *b"\x7FELF\x01\x01\x01\0\0\0\0\0\0\0\0\0";

/// The names of the sections, each after a zero byte.
pub const SECTION_NAMES: [u8; 52] =
    *b"\0PrgCode\0PrgData\0DevDscr\0.symtab\0.strtab\0.shstrtab\0\0";

/// A section header (System V ABI, chapter 4, "Sections").
#[derive(Clone, Copy)]
pub struct SectionHeader {
    pub name: u32,
    pub kind: u32,
    pub flags: u32,
    pub addr: u32,
    pub offset: u32,
    pub size: u32,
    pub link: u32,
    pub info: u32,
    pub align: u32,
    pub entry_size: u32,
}

/// The header of section 0, which means no section.
const NO_SECTION: SectionHeader = SectionHeader {
    name: 0,
    kind: 0,
    flags: 0,
    addr: 0,
    offset: 0,
    size: 0,
    link: 0,
    info: 0,
    align: 0,
    entry_size: 0,
};

/// The header of the names of symbols.
const SYMBOL_NAMES_HEADER: SectionHeader = SectionHeader {
    name: 33,
    kind: 3,
    offset: SYMBOL_NAMES_AT,
    size: SYMBOL_NAMES.len() as u32,
    align: 1,
    ..NO_SECTION
};

/// The header of the names of sections.
const SECTION_NAMES_HEADER: SectionHeader = SectionHeader {
    name: 41,
    kind: 3,
    offset: SECTION_NAMES_AT,
    size: SECTION_NAMES.len() as u32,
    align: 1,
    ..NO_SECTION
};

/// Adds the ELF header of a file with its section headers from this offset on.
#[tactic(auto, unfolding(crate::specs::Sections::elf_header))]
pub fn put_elf_header(out: &mut Vec<u8>, headers_at: u32) -> Result<(), OutOfMemory>
    ensures { OnOk result (out.new.items ≡ out.old.items ++ elf_header headers_at) }
{
    put(out, &IDENT)?;
    put_halves(out, &[2, 40])?;
    put_words(out, &[1, 0, 0, headers_at, 0x0500_0000])?;
    put_halves(out, &[52, 0, 0, 40, 8, 7])
}

/// The header of PrgCode.
fn code_header(sizes: &Sizes) -> SectionHeader
    requires { end_of sizes.now < 2 ^ 32 }
    ensures { result ≡ code_header sizes.now }
{
    SectionHeader {
        name: 1,
        kind: 1,
        flags: 6,
        offset: sizes.code_at(),
        size: sizes.code,
        align: 4,
        ..NO_SECTION
    }
}

/// The header of the data in PrgData.
fn init_data_header(sizes: &Sizes) -> SectionHeader
    requires { end_of sizes.now < 2 ^ 32 }
    ensures { result ≡ init_data_header sizes.now }
{
    SectionHeader {
        name: 9,
        kind: 1,
        flags: 3,
        addr: sizes.code,
        offset: sizes.init_data_at(),
        size: sizes.init_data,
        align: 1,
        ..NO_SECTION
    }
}

/// The header of the zeroed data in PrgData.
fn zeroed_header(sizes: &Sizes) -> SectionHeader
    requires { end_of sizes.now < 2 ^ 32 }
    ensures { result ≡ zeroed_header sizes.now }
{
    SectionHeader {
        name: 9,
        kind: 8,
        flags: 3,
        addr: sizes.code + sizes.init_data,
        offset: sizes.descriptor_at(),
        size: sizes.zero_len,
        align: 1,
        ..NO_SECTION
    }
}

/// The header of DevDscr.
fn descriptor_header(sizes: &Sizes) -> SectionHeader
    requires { end_of sizes.now < 2 ^ 32 }
    ensures { result ≡ descriptor_header sizes.now }
{
    SectionHeader {
        name: 17,
        kind: 1,
        flags: 2,
        addr: sizes.descriptor_addr(),
        offset: sizes.descriptor_at(),
        size: sizes.descriptor,
        align: 1,
        ..NO_SECTION
    }
}

/// The header of the symbols.
fn symbols_header(sizes: &Sizes) -> SectionHeader
    ensures { result ≡ symbols_header sizes.now }
{
    SectionHeader {
        name: 25,
        kind: 2,
        offset: SYMBOLS_AT,
        size: sizes.symbols,
        link: 6,
        info: 1,
        align: 4,
        entry_size: 16,
        ..NO_SECTION
    }
}

/// Adds a section header.
#[tactic(auto, unfolding(crate::specs::Sections::header_bytes))]
fn put_header(out: &mut Vec<u8>, h: &SectionHeader) -> Result<(), OutOfMemory>
    ensures { OnOk result (out.new.items ≡ out.old.items ++ header_bytes h.now) }
{
    put_words(
        out,
        &[
            h.name,
            h.kind,
            h.flags,
            h.addr,
            h.offset,
            h.size,
            h.link,
            h.info,
            h.align,
            h.entry_size,
        ],
    )
}

/// Adds section headers.
fn put_all(out: &mut Vec<u8>, headers: &[SectionHeader]) -> Result<(), OutOfMemory>
    ensures { OnOk result (out.new.items ≡ out.old.items ++ flat_map header_bytes headers.now) }
{
    for header in headers {
        put_header(out, header)?;
    }
    Ok(())
}

/// Adds the section headers.
#[tactic(auto, unfolding(crate::specs::Sections::headers))]
pub fn put_headers(out: &mut Vec<u8>, sizes: &Sizes) -> Result<(), OutOfMemory>
    requires { end_of sizes.now < 2 ^ 32 }
    ensures { OnOk result (out.new.items ≡ out.old.items ++ flat_map header_bytes (headers sizes.now)) }
{
    put_all(
        out,
        &[
            NO_SECTION,
            code_header(sizes),
            init_data_header(sizes),
            zeroed_header(sizes),
            descriptor_header(sizes),
            symbols_header(sizes),
            SYMBOL_NAMES_HEADER,
            SECTION_NAMES_HEADER,
        ],
    )
}
