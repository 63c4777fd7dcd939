//! Listings, from which FLM files are made.

use flm_descriptor::{Items, Name};
use octets::Bytes;
use std::marker::Model;

/// A flash algorithm as text and numbers. Sizes are in bytes, times in milliseconds.
#[derive(Drop)]
pub struct Listing {
    /// The assembler's text. A label with an entry's name is the entry.
    pub text: Bytes,
    /// The data, directly after the code. If the text ends with `.align`, the data begins at a multiple of 4.
    pub init_data: Bytes,
    /// How many bytes of zeroed data there are, directly after the data.
    pub zero_len: u32,
    /// The device's name: at most 127 bytes, none of them zero.
    pub name: Bytes,
    /// The address of the device's first byte.
    pub base: u32,
    /// How many bytes the device has.
    pub size: u32,
    /// How many bytes a page has.
    pub page: u32,
    /// The value of erased memory.
    pub empty: u8,
    /// The most milliseconds that programming a page takes.
    pub to_prog: u32,
    /// The most milliseconds that erasing a sector takes.
    pub to_erase: u32,
    /// The sector items.
    pub items: Items,
    /// The entries that get no symbol.
    pub hidden: Names,
}

/// Names in their order. A contract sees them as a list.
#[derive(Drop)]
pub struct Names {
    names: Vec<Name>,
}

impl Model for Names {
    ghost use Rattle.std.specs.Prelude.{List};
    ghost use Rattle.flm_descriptor.specs.declared.fault.Name.{Name};

    ghost Value = { List Name };

    ghost view = { λ n. n.names.items };
}

impl Names {
    ghost use Rattle.std.specs.Prelude.{◌≡◌};
    ghost use Rattle.flm_forge.specs.Entries.{is_hidden};

    /// Takes a vector of names, without a copy.
    pub fn from_vec(names: Vec<Name>) -> Names
        ensures { result ≡ names.items }
    {
        Names { names }
    }

    /// Turns the names into a vector, without a copy.
    pub fn into_vec(self) -> Vec<Name>
        ensures { result.items ≡ self }
    {
        self.names
    }

    /// The names as a slice.
    pub fn as_slice(&self) -> &[Name]
        ensures { result.now ≡ self.now }
    {
        self.names.as_slice()
    }

    /// Whether a name is among these.
    pub(crate) fn contains(&self, name: Name) -> bool
        ensures { result ≡ is_hidden self.now name }
    {
        self.names.iter().any(|other| other.text() == name.text())
    }
}
