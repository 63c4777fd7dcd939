//! Symbols by name (System V ABI, "Symbol Table").
ghost use Rattle.std.specs.Prelude.{◌≡◌, ◌≤◌, ◌<◌, ◌+◌, ◌*◌, None, length, IfOk, IfErr, OnOk, IsSome};
ghost use Rattle.elf32.specs.Format.{e_shoff, e_shnum, symbol_name_at};
ghost use Rattle.elf32.specs.Tables.{is_symbol, symbol_among, symbol_in, symbol_name, symbol_table};

use crate::checks::part;
use crate::entries::{Section, Symbol};
use crate::fault::{ElfFault, Field};
use crate::headers::{
    SYMBOL_LEN, section_at, section_count, symbol_at, symbol_name_offset, symbol_section,
};
use crate::strings::Strings;

/// The first symbol table.
pub fn symbol_table(bytes: &[u8]) -> Option<Section>
    requires header { 52 ≤ length bytes.now }
    requires table { e_shoff bytes.now + 40 * e_shnum bytes.now ≤ length bytes.now }
    ensures { result ≡ symbol_table bytes.now }
{
    for index in 0..section_count(bytes) {
        let found = section_at(bytes, index);
        if found.kind == Section::SYMTAB {
            return Some(found);
        }
    }
    None
}

/// The first symbol of a name in a symbol table that belongs to a section.
#[tactic(auto, unfolding(crate::specs::Tables::symbol_in, crate::specs::Checks::whole_part))]
pub fn symbol_in(bytes: &[u8], table: Section, name: &[u8]) -> Result<Option<Symbol>, ElfFault>
    requires header { 52 ≤ length bytes.now }
    requires table { e_shoff bytes.now + 40 * e_shnum bytes.now ≤ length bytes.now }
    ensures { result ≡ symbol_in bytes.now table name.now }
{
    part(bytes, Field::Symbols, table.offset, table.size)?;
    if table.link as usize >= section_count(bytes) {
        return Err(ElfFault::BadIndex {
            field: Field::Link,
            value: table.link,
        });
    }
    let linked = section_at(bytes, table.link as usize);
    let strings = part(bytes, Field::Strings, linked.offset, linked.size)?;
    symbol_among(bytes, &Strings::new(strings), table, name)
}

/// The first symbol of a name in a symbol table that is within the file. A bad name before it is refused.
fn symbol_among(
    bytes: &[u8],
    strings: &Strings,
    table: Section,
    name: &[u8],
) -> Result<Option<Symbol>, ElfFault>
    requires { table.offset + table.size ≤ length bytes.now }
    ensures { result ≡ symbol_among bytes.now strings.now table name.now }
{
    for index in 0..table.size as usize / SYMBOL_LEN {
        let at = table.offset as usize + SYMBOL_LEN * index;
        if is_symbol(bytes, strings, at, name)? {
            return Ok(Some(symbol_at(bytes, at)));
        }
    }
    Ok(None)
}

/// Whether the symbol at `at` has this name and belongs to a section. A bad name is refused.
fn is_symbol(bytes: &[u8], strings: &Strings, at: usize, name: &[u8]) -> Result<bool, ElfFault>
    requires { at + 16 ≤ length bytes.now }
    ensures bad { IfErr result (λ fault. (fault ≡ ElfFault.BadName (symbol_name_at bytes.now at)) × (symbol_name bytes.now strings.now at ≡ None)) }
    ensures good { OnOk result (IsSome (symbol_name bytes.now strings.now at)) }
    ensures value { IfOk result (λ same. same ≡ is_symbol bytes.now strings.now name.now at) }
{
    let same = strings.is(symbol_name_offset(bytes, at), name)?;
    Ok(same && symbol_section(bytes, at) != 0)
}
