//! The names of sections.
ghost use Rattle.std.specs.Prelude.{◌≡◌, ◌≤◌, ◌<◌, ◌+◌, ◌*◌, ◌^◌, None, Some, length, MatchOption, IfOk, IfErr};
ghost use Rattle.elf32.specs.Search.{first_below};
ghost use Rattle.elf32.specs.Format.{e_shoff, e_shnum, section_at, section_name_at};
ghost use Rattle.elf32.specs.Strings.{IsWithin, is_name};
ghost use Rattle.elf32.specs.Checks.{index_fault, name_fault, section_name, section_names, Finds};
ghost use Rattle.elf32.specs.Tables.{is_section};
ghost use Rattle.elf32.specs.Places.{AreKept, HasNoShortName, kept_of};

use crate::checks::part;
use crate::fault::{ElfFault, Field};
use crate::headers::{name_index, section_at, section_count, section_name_offset};
use crate::places::Places;
use crate::strings::Strings;
use std::alloc::{AllocError, Global};

/// The longest section name that is kept in a map, in bytes. A longer name is looked up in the headers.
pub const LONGEST_KEPT: usize = 64;

/// How many sections, from the first on, have their names kept in a map. The map's hash has a fixed seed, so a file can be made
/// whose names collide; this few names cost little even then. A later section is looked up in the headers.
pub const MOST_KEPT: usize = 64;

/// The string table of section names, if there is one.
#[tactic(auto, unfolding(crate::specs::Checks::index_fault, crate::specs::Checks::section_names))]
pub fn section_names<'a>(bytes: &'a [u8]) -> Result<Option<Strings<'a>>, ElfFault>
    requires header { 52 ≤ length bytes.now }
    requires table { e_shoff bytes.now + 40 * e_shnum bytes.now ≤ length bytes.now }
    ensures fault { Finds (index_fault bytes.entry.now) result }
    ensures names { IfOk result (λ names. names ≡ section_names bytes.entry.now) }
{
    let index = name_index(bytes);
    if section_count(bytes) == 0 {
        return Ok(None);
    }
    if index >= section_count(bytes) {
        return Err(ElfFault::BadIndex {
            field: Field::NameIndex,
            value: index as u32,
        });
    }
    if index == 0 {
        return Ok(None);
    }
    let table = section_at(bytes, index);
    let names = part(bytes, Field::Names, table.offset, table.size)?;
    Ok(Some(Strings::new(names)))
}

/// The name of section `index`, or none if it is longer than `limit` bytes.
#[tactic(auto, unfolding(crate::specs::Checks::section_name))]
pub fn section_name<'a>(
    bytes: &[u8],
    names: &Option<Strings<'a>>,
    index: usize,
    limit: usize,
) -> Result<Option<&'a [u8]>, ElfFault>
    requires header { 52 ≤ length bytes.now }
    requires table { e_shoff bytes.now + 40 * e_shnum bytes.now ≤ length bytes.now }
    requires inside { index < e_shnum bytes.now }
    requires names { names.now ≡ section_names bytes.now }
    requires limit { limit < 2 ^ 63 }
    ensures bad { IfErr result (λ fault. (fault ≡ ElfFault.BadName (section_name_at bytes.now index)) × (section_name bytes.now index ≡ None)) }
    ensures within { IfOk result (IsWithin limit (section_name bytes.now index)) }
{
    match names {
        None => Ok(Some(&[])),
        Some(strings) => strings.name(section_name_offset(bytes, index), limit),
    }
}

/// Refuses the first section name that begins outside its string table, or has no end in it. It looks at no more than one byte of
/// each name.
pub fn check_names(bytes: &[u8], names: &Option<Strings>) -> Result<(), ElfFault>
    requires header { 52 ≤ length bytes.now }
    requires table { e_shoff bytes.now + 40 * e_shnum bytes.now ≤ length bytes.now }
    requires names { names.now ≡ section_names bytes.now }
    ensures { Finds (name_fault bytes.now) result }
{
    for index in 0..section_count(bytes) {
        section_name(bytes, names, index, 0)?;
    }
    Ok(())
}

/// The name of section `index`, if it has one that is short enough to be kept.
fn short_name<'a>(bytes: &[u8], names: &Option<Strings<'a>>, index: usize) -> Option<&'a [u8]>
    requires header { 52 ≤ length bytes.now }
    requires table { e_shoff bytes.now + 40 * e_shnum bytes.now ≤ length bytes.now }
    requires inside { index < e_shnum bytes.now }
    requires names { names.now ≡ section_names bytes.now }
    ensures { MatchOption result (HasNoShortName bytes.now index) (λ text. section_name bytes.now index ≡ Some text.now) }
{
    match section_name(bytes, names, index, LONGEST_KEPT) {
        Ok(name) => name,
        Err(_) => None,
    }
}

/// The places of the first sections by name and type, except those with longer names.
pub fn keep_names<'a>(
    alloc: Global,
    bytes: &'a [u8],
    names: &Option<Strings<'a>>,
) -> Result<Places<'a>, AllocError>
    requires header { 52 ≤ length bytes.now }
    requires table { e_shoff bytes.now + 40 * e_shnum bytes.now ≤ length bytes.now }
    requires names { names.now ≡ section_names bytes.now }
    ensures { IfOk result (AreKept bytes.entry.now (kept_of bytes.entry.now)) }
{
    let mut places = Places::new(alloc);
    for index in 0..section_count(bytes).min(MOST_KEPT) {
        if let Some(name) = short_name(bytes, names, index) {
            places.note(name, section_at(bytes, index).kind, index)?;
        }
    }
    Ok(places)
}

/// The place of the first section of a name and type.
pub fn find_section(
    bytes: &[u8],
    names: &Option<Strings>,
    places: &Places,
    name: &[u8],
    kind: u32,
) -> Option<usize>
    requires header { 52 ≤ length bytes.now }
    requires table { e_shoff bytes.now + 40 * e_shnum bytes.now ≤ length bytes.now }
    requires names { names.now ≡ section_names bytes.now }
    requires kept { AreKept bytes.now (kept_of bytes.now) places.now }
    ensures { result ≡ first_below (is_section bytes.now name.now kind) (e_shnum bytes.now) }
{
    if name.len() > LONGEST_KEPT {
        return find_from(bytes, names, 0, name, kind);
    }
    match places.place(name, kind) {
        Some(index) => Some(index),
        None => {
            let start = section_count(bytes).min(MOST_KEPT);
            find_from(bytes, names, start, name, kind)
        }
    }
}

/// The place of the first section of a name and type, if none before `start` has them.
fn find_from(
    bytes: &[u8],
    names: &Option<Strings>,
    start: usize,
    name: &[u8],
    kind: u32,
) -> Option<usize>
    requires header { 52 ≤ length bytes.now }
    requires table { e_shoff bytes.now + 40 * e_shnum bytes.now ≤ length bytes.now }
    requires names { names.now ≡ section_names bytes.now }
    requires inside { start ≤ e_shnum bytes.now }
    requires before { first_below (is_section bytes.now name.now kind) start ≡ None }
    ensures { result ≡ first_below (is_section bytes.now name.now kind) (e_shnum bytes.now) }
{
    for index in start..section_count(bytes) {
        if is_section(bytes, names, index, name, kind) {
            return Some(index);
        }
    }
    None
}

/// Whether section `index` has this name and type.
fn is_section(bytes: &[u8], names: &Option<Strings>, index: usize, name: &[u8], kind: u32) -> bool
    requires header { 52 ≤ length bytes.now }
    requires table { e_shoff bytes.now + 40 * e_shnum bytes.now ≤ length bytes.now }
    requires inside { index < e_shnum bytes.now }
    requires names { names.now ≡ section_names bytes.now }
    ensures { result ≡ is_section bytes.now name.now kind index }
{
    kind == section_at(bytes, index).kind && has_name(bytes, names, index, name)
}

/// Whether section `index` has this name.
fn has_name(bytes: &[u8], names: &Option<Strings>, index: usize, name: &[u8]) -> bool
    requires header { 52 ≤ length bytes.now }
    requires table { e_shoff bytes.now + 40 * e_shnum bytes.now ≤ length bytes.now }
    requires inside { index < e_shnum bytes.now }
    requires names { names.now ≡ section_names bytes.now }
    ensures { result ≡ is_name name.now (section_name bytes.now index) }
{
    match section_name(bytes, names, index, name.len()) {
        Ok(Some(text)) => text == name,
        Ok(None) | Err(_) => false,
    }
}
