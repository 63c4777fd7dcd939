//! The symbols of a file.
ghost use Rattle.std.specs.Prelude.{◌≡◌, ◌<◌, ◌++◌, length, IfOk, OnOk};
ghost use Rattle.std.specs.List.{flat_map};
ghost use Rattle.flm_forge.specs.Entries.{place_named, shown_place};
ghost use Rattle.flm_forge.specs.Symbols.{device_symbol, entry_symbol, entry_symbols, name_at, symbol_bytes};

use crate::source::Names;
use crate::write::{put, put_halves, put_words};
use armv6m_asm::Labels;
use faults::OutOfMemory;
use flm_descriptor::Name;
use std::alloc::Global;

/// The names of the symbols, each after a zero byte.
pub const SYMBOL_NAMES: [u8; 68] =
    *b"\0Init\0UnInit\0EraseSector\0ProgramPage\0EraseChip\0Verify\0FlashDevice\0\0\0";

/// The entries of an algorithm, in the order of their symbols.
const ENTRY_NAMES: [Name; 6] = [
    Name::Init,
    Name::UnInit,
    Name::EraseSector,
    Name::ProgramPage,
    Name::EraseChip,
    Name::Verify,
];

/// A symbol (System V ABI, chapter 4, "Symbol Table").
#[derive(Clone, Copy)]
pub struct SymbolEntry {
    pub name: u32,
    pub value: u32,
    pub size: u32,
    pub info: u8,
    pub section: u16,
}

/// Symbol 0, which means no symbol.
pub const NO_SYMBOL: SymbolEntry = SymbolEntry {
    name: 0,
    value: 0,
    size: 0,
    info: 0,
    section: 0,
};

/// The offset of a name in the names of the symbols.
fn name_at(name: Name) -> u32
    ensures { result ≡ name_at name }
{
    match name {
        Name::PrgCode | Name::DevDscr => 0,
        Name::Init => 1,
        Name::UnInit => 6,
        Name::EraseSector => 13,
        Name::ProgramPage => 25,
        Name::EraseChip => 37,
        Name::Verify => 47,
        Name::FlashDevice => 54,
    }
}

/// The symbol of the description, which has this address and size.
pub fn device_symbol(address: u32, size: u32) -> SymbolEntry
    ensures { result ≡ device_symbol address size }
{
    SymbolEntry {
        name: name_at(Name::FlashDevice),
        value: address,
        size,
        info: 0x11,
        section: 4,
    }
}

/// The symbol of an entry at a place. Bit 0 of its value is set, as for each function in Thumb code.
fn entry_symbol(name: Name, place: u32) -> SymbolEntry
    ensures { result ≡ entry_symbol name place }
{
    SymbolEntry {
        name: name_at(name),
        value: place - place % 2 + 1,
        size: 0,
        info: 0x12,
        section: 1,
    }
}

/// The place of an entry, if it gets a symbol.
#[tactic(auto, unfolding(crate::specs::Entries::shown_place))]
fn shown_place(labels: &Labels, hidden: &Names, name: Name) -> Option<u32>
    ensures { result ≡ shown_place labels.now hidden.now name }
{
    if hidden.contains(name) {
        return None;
    }
    place_named(labels, name.text())
}

/// The place of the first label with this name.
fn place_named(labels: &Labels, name: &[u8]) -> Option<u32>
    ensures { result ≡ place_named labels.now name.now }
{
    labels.get(name)
}

/// The symbols of the entries.
pub fn entry_symbols(
    alloc: Global,
    labels: &Labels,
    hidden: &Names,
) -> Result<Vec<SymbolEntry>, OutOfMemory>
    ensures symbols { IfOk result (λ symbols. symbols.items ≡ entry_symbols labels.now hidden.now) }
    ensures few { IfOk result (λ symbols. length symbols.items < 7) }
{
    let mut symbols = Vec::with_capacity(alloc, ENTRY_NAMES.len())?;
    for name in ENTRY_NAMES {
        if let Some(place) = shown_place(labels, hidden, name) {
            symbols.push(entry_symbol(name, place))?;
        }
    }
    Ok(symbols)
}

/// Adds a symbol.
#[tactic(auto, unfolding(crate::specs::Symbols::symbol_bytes))]
pub fn put_symbol(out: &mut Vec<u8>, symbol: &SymbolEntry) -> Result<(), OutOfMemory>
    ensures { OnOk result (out.new.items ≡ out.old.items ++ symbol_bytes symbol.now) }
{
    put_words(out, &[symbol.name, symbol.value, symbol.size])?;
    put(out, &[symbol.info, 0])?;
    put_halves(out, &[symbol.section])
}

/// Adds symbols.
pub fn put_symbols(out: &mut Vec<u8>, symbols: &[SymbolEntry]) -> Result<(), OutOfMemory>
    ensures { OnOk result (out.new.items ≡ out.old.items ++ flat_map symbol_bytes symbols.now) }
{
    for symbol in symbols {
        put_symbol(out, symbol)?;
    }
    Ok(())
}
