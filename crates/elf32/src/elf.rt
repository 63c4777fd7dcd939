//! An ELF file that was read.
ghost use Rattle.std.specs.Prelude.{◌≡◌, ◌≢◌, ◌<◌, None, Some, OnOk, IfOk, IfErr};
ghost use Rattle.elf32.specs.Format.{e_phnum, segment_at};
ghost use Rattle.elf32.specs.Checks.{file_fault};
ghost use Rattle.elf32.specs.Tables.{section_of, section_part, segment_part, symbol_of, Lends};

use crate::checks::{check_header, check_sizes, check_tables, part};
use crate::entries::{Section, Segment, Symbol};
use crate::fault::{ElfFault, Field};
use crate::headers::{section_at, segment_at, segment_count};
use crate::names::{check_names, find_section, keep_names, section_names};
use crate::places::Places;
use crate::strings::Strings;
use crate::symbols::{symbol_in, symbol_table};
use std::alloc::Global;
use std::marker::Model;

/// An ELF file of 32 bits for Arm, little-endian. It borrows the bytes of the file, and a contract sees it as those bytes.
#[derive(Drop)]
pub struct Elf<'a> {
    bytes: &'a [u8],
    names: Option<Strings<'a>>,
    places: Places<'a>,
}

impl<'a> Model for Elf<'a> {
    ghost use Rattle.std.specs.Prelude.{ℕ, List};
    ghost use Rattle.elf32.specs.Opened.{IsOpened};

    ghost Value = { List ℕ };

    ghost view = { λ e. e.bytes.now };

    ghost invariant = { λ e. IsOpened e.bytes.now e.names e.places };
}

impl<'a> Elf<'a> {
    /// Reads a file's headers and section names. The first check that fails is answered.
    #[tactic(auto, unfolding(crate::specs::Checks::file_fault))]
    pub fn read(alloc: Global, bytes: &'a [u8]) -> Result<Elf<'a>, ElfFault>
        ensures ok { IfOk result (λ elf. elf ≡ bytes.entry.now) }
        ensures good { OnOk result (file_fault bytes.entry.now ≡ None) }
        ensures refused { IfErr result (λ fault. fault ≢ ElfFault.OutOfMemory → file_fault bytes.entry.now ≡ Some fault) }
    {
        check_header(bytes)?;
        check_sizes(bytes)?;
        check_tables(bytes)?;
        let names = section_names(bytes)?;
        check_names(bytes, &names)?;
        let places = keep_names(alloc, bytes, &names)?;
        Ok(Elf {
            bytes,
            names,
            places,
        })
    }

    /// The first section of a name and type.
    #[tactic(auto, unfolding(crate::specs::Tables::section_of))]
    pub fn section(&self, name: &[u8], kind: u32) -> Option<Section>
        ensures { result ≡ section_of self.now name.now kind }
    {
        let index = find_section(self.bytes, &self.names, &self.places, name, kind)?;
        Some(section_at(self.bytes, index))
    }

    /// The bytes of a section; one of type NOBITS has none in the file.
    #[tactic(auto, unfolding(crate::specs::Tables::section_part))]
    pub fn section_bytes(&self, section: &Section) -> Result<&[u8], ElfFault>
        ensures { Lends (section_part self.entry.now section.entry.now) result }
    {
        if section.kind == Section::NOBITS {
            return Ok(&[]);
        }
        part(self.bytes, Field::Section, section.offset, section.size)
    }

    /// The first symbol of a name, in the first symbol table, that belongs to a section. There is none if there is no symbol table.
    #[tactic(auto, unfolding(crate::specs::Tables::symbol_of))]
    pub fn symbol(&self, name: &[u8]) -> Result<Option<Symbol>, ElfFault>
        ensures { result ≡ symbol_of self.now name.now }
    {
        match symbol_table(self.bytes) {
            Some(table) => symbol_in(self.bytes, table, name),
            None => Ok(None),
        }
    }

    /// The number of program headers.
    pub fn segments(&self) -> usize
        ensures { result ≡ e_phnum self.now }
    {
        segment_count(self.bytes)
    }

    /// Program header `index`.
    pub fn segment(&self, index: usize) -> Segment
        requires { index < e_phnum self.now }
        ensures { result ≡ segment_at self.now index }
    {
        segment_at(self.bytes, index)
    }

    /// The bytes of segment `index` in the file.
    #[tactic(auto, unfolding(crate::specs::Tables::segment_part))]
    pub fn segment_bytes(&self, index: usize) -> Result<&[u8], ElfFault>
        requires { index < e_phnum self.now }
        ensures { Lends (segment_part self.entry.now index) result }
    {
        let segment = segment_at(self.bytes, index);
        part(self.bytes, Field::Segment, segment.offset, segment.filesz)
    }
}
