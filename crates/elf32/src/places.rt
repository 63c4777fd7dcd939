//! The first section of each name and type. The keys borrow the names from the file.
ghost use Rattle.std.specs.Prelude.{◌≡◌, [], OnOk, OnErr};
ghost use Rattle.elf32.specs.Places.{first_place, noted};

use indexmap::IndexMap;
use std::alloc::{AllocError, Global};
use std::marker::Model;

/// The places of the first sections, by name and type.
#[derive(Drop)]
pub struct Places<'a> {
    places: IndexMap<(&'a [u8], u32), usize>,
}

impl<'a> Model for Places<'a> {
    ghost use Rattle.std.specs.Prelude.{List};
    ghost use Rattle.elf32.specs.Places.{Placed, placed_of};

    ghost Value = { List Placed };

    ghost view = { λ n. placed_of n.places.entries };
}

impl<'a> Places<'a> {
    /// No section yet.
    pub fn new(alloc: Global) -> Places<'a>
        ensures { result ≡ [] }
    {
        Places {
            places: IndexMap::new(alloc),
        }
    }

    /// Notes the place of a section, unless one of its name and type was noted before.
    pub fn note(&mut self, name: &'a [u8], kind: u32, place: usize) -> Result<(), AllocError>
        ensures ok { OnOk result (self.new ≡ noted name.entry.now kind place self.old) }
        ensures err { OnErr result (self.new ≡ self.old) }
    {
        if !self.places.contains_key(&(name, kind)) {
            self.places.insert((name, kind), place)?;
        }
        Ok(())
    }

    /// The place of the first section of a name and type.
    pub fn place(&self, name: &[u8], kind: u32) -> Option<usize>
        ensures { result ≡ first_place name.now kind self.now }
    {
        self.places.get(&(name, kind)).copied()
    }
}
