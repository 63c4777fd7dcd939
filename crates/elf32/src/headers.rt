//! The ELF header's fields, and the entries of the tables that it names. Each call needs a file with the whole header or table.
ghost use Rattle.std.specs.Prelude.{◌≡◌, ◌≤◌, ◌<◌, ◌+◌, ◌*◌, length};
ghost use Rattle.elf32.specs.Fields.{words};
ghost use Rattle.elf32.specs.Format.{e_machine, e_phoff, e_shoff, e_phentsize, e_phnum, e_shentsize, e_shnum, e_shstrndx, section_at, section_name_at};
ghost use Rattle.elf32.specs.Format.{segment_at, symbol_at, symbol_name_at, symbol_section};

use crate::entries::{Section, Segment, Symbol};
use crate::fields::{half, word};

/// How many bytes the ELF header has.
pub const HEADER_LEN: usize = 52;

/// How many bytes a program header has.
pub const SEGMENT_LEN: usize = 32;

/// How many bytes a section header has.
pub const SECTION_LEN: usize = 40;

/// How many bytes an entry of a symbol table has.
pub const SYMBOL_LEN: usize = 16;

/// e_machine.
#[tactic(auto, unfolding(crate::specs::Format::e_machine))]
pub fn machine(bytes: &[u8]) -> u16
    requires { 52 ≤ length bytes.now }
    ensures { result ≡ e_machine bytes.now }
{
    half(bytes, 18)
}

/// e_phoff: where the program header table begins.
#[tactic(auto, unfolding(crate::specs::Format::e_phoff))]
pub fn segments_at(bytes: &[u8]) -> usize
    requires { 52 ≤ length bytes.now }
    ensures value { result ≡ e_phoff bytes.now }
    ensures small { result < words }
{
    word(bytes, 28) as usize
}

/// e_shoff: where the section header table begins.
#[tactic(auto, unfolding(crate::specs::Format::e_shoff))]
pub fn sections_at(bytes: &[u8]) -> usize
    requires { 52 ≤ length bytes.now }
    ensures value { result ≡ e_shoff bytes.now }
    ensures small { result < words }
{
    word(bytes, 32) as usize
}

/// e_phentsize: the size of a program header.
#[tactic(auto, unfolding(crate::specs::Format::e_phentsize))]
pub fn segment_len(bytes: &[u8]) -> usize
    requires { 52 ≤ length bytes.now }
    ensures value { result ≡ e_phentsize bytes.now }
    ensures small { result < 65536 }
{
    half(bytes, 42) as usize
}

/// e_phnum: the number of program headers.
#[tactic(auto, unfolding(crate::specs::Format::e_phnum))]
pub fn segment_count(bytes: &[u8]) -> usize
    requires { 52 ≤ length bytes.now }
    ensures value { result ≡ e_phnum bytes.now }
    ensures small { result < 65536 }
{
    half(bytes, 44) as usize
}

/// e_shentsize: the size of a section header.
#[tactic(auto, unfolding(crate::specs::Format::e_shentsize))]
pub fn section_len(bytes: &[u8]) -> usize
    requires { 52 ≤ length bytes.now }
    ensures value { result ≡ e_shentsize bytes.now }
    ensures small { result < 65536 }
{
    half(bytes, 46) as usize
}

/// e_shnum: the number of sections.
#[tactic(auto, unfolding(crate::specs::Format::e_shnum))]
pub fn section_count(bytes: &[u8]) -> usize
    requires { 52 ≤ length bytes.now }
    ensures value { result ≡ e_shnum bytes.now }
    ensures small { result < 65536 }
{
    half(bytes, 48) as usize
}

/// e_shstrndx: the index of the section with the section names, 0 for none.
#[tactic(auto, unfolding(crate::specs::Format::e_shstrndx))]
pub fn name_index(bytes: &[u8]) -> usize
    requires { 52 ≤ length bytes.now }
    ensures value { result ≡ e_shstrndx bytes.now }
    ensures small { result < 65536 }
{
    half(bytes, 50) as usize
}

/// Section header `index`.
#[tactic(auto, unfolding(crate::specs::Format::section_at))]
pub fn section_at(bytes: &[u8], index: usize) -> Section
    requires header { 52 ≤ length bytes.now }
    requires table { e_shoff bytes.now + 40 * e_shnum bytes.now ≤ length bytes.now }
    requires inside { index < e_shnum bytes.now }
    ensures { result ≡ section_at bytes.now index }
{
    let at = sections_at(bytes) + SECTION_LEN * index;
    Section {
        addr: word(bytes, at + 12),
        offset: word(bytes, at + 16),
        size: word(bytes, at + 20),
        kind: word(bytes, at + 4),
        link: word(bytes, at + 24),
    }
}

/// Where the name of section `index` begins in the string table of section names.
#[tactic(auto, unfolding(crate::specs::Format::section_name_at))]
pub fn section_name_offset(bytes: &[u8], index: usize) -> u32
    requires header { 52 ≤ length bytes.now }
    requires table { e_shoff bytes.now + 40 * e_shnum bytes.now ≤ length bytes.now }
    requires inside { index < e_shnum bytes.now }
    ensures { result ≡ section_name_at bytes.now index }
{
    word(bytes, sections_at(bytes) + SECTION_LEN * index)
}

/// Program header `index`.
#[tactic(auto, unfolding(crate::specs::Format::segment_at))]
pub fn segment_at(bytes: &[u8], index: usize) -> Segment
    requires header { 52 ≤ length bytes.now }
    requires table { e_phoff bytes.now + 32 * e_phnum bytes.now ≤ length bytes.now }
    requires inside { index < e_phnum bytes.now }
    ensures { result ≡ segment_at bytes.now index }
{
    let at = segments_at(bytes) + SEGMENT_LEN * index;
    Segment {
        kind: word(bytes, at),
        offset: word(bytes, at + 4),
        vaddr: word(bytes, at + 8),
        paddr: word(bytes, at + 12),
        filesz: word(bytes, at + 16),
        memsz: word(bytes, at + 20),
        flags: word(bytes, at + 24),
        align: word(bytes, at + 28),
    }
}

/// The symbol at `at`.
#[tactic(auto, unfolding(crate::specs::Format::symbol_at))]
pub fn symbol_at(bytes: &[u8], at: usize) -> Symbol
    requires { at + 16 ≤ length bytes.now }
    ensures { result ≡ symbol_at bytes.now at }
{
    Symbol {
        value: word(bytes, at + 4),
        size: word(bytes, at + 8),
    }
}

/// Where the name of the symbol at `at` begins in its string table.
#[tactic(auto, unfolding(crate::specs::Format::symbol_name_at))]
pub fn symbol_name_offset(bytes: &[u8], at: usize) -> u32
    requires { at + 16 ≤ length bytes.now }
    ensures { result ≡ symbol_name_at bytes.now at }
{
    word(bytes, at)
}

/// The index of the section that the symbol at `at` belongs to, 0 for an undefined symbol.
#[tactic(auto, unfolding(crate::specs::Format::symbol_section))]
pub fn symbol_section(bytes: &[u8], at: usize) -> u16
    requires { at + 16 ≤ length bytes.now }
    ensures { result ≡ symbol_section bytes.now at }
{
    half(bytes, at + 14)
}
