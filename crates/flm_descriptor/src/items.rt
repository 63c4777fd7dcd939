//! Sector items (`FlashOS.h`, `struct FlashSectors`).

use faults::OutOfMemory;
use std::alloc::Global;
use std::marker::Model;

/// A sector item: from this offset on, sectors have this size, both in bytes.
#[derive(Clone, Copy, PartialEq, Eq)]
pub struct SectorItem {
    pub size: u32,
    pub offset: u32,
}

/// Sector items in their order. A contract sees them as a list.
#[derive(Drop)]
pub struct Items {
    items: Vec<SectorItem>,
}

impl Model for Items {
    ghost use Rattle.std.specs.Prelude.{List};
    ghost use Rattle.flm_descriptor.specs.declared.items.SectorItem.{SectorItem};

    ghost Value = { List SectorItem };

    ghost view = { λ i. i.items.items };
}

impl Items {
    ghost use Rattle.std.specs.Prelude.{◌≡◌, IfOk};

    /// A copy of the items.
    pub fn copy(&self, alloc: Global) -> Result<Items, OutOfMemory>
        ensures { IfOk result (λ copy. copy ≡ self.now) }
    {
        Ok(Items {
            items: Vec::from_slice(alloc, self.items.as_slice())?,
        })
    }

    /// The items of a vector, with no copy.
    pub fn from_vec(items: Vec<SectorItem>) -> Items
        ensures { result ≡ items.items }
    {
        Items { items }
    }

    /// The vector of the items, with no copy.
    pub fn into_vec(self) -> Vec<SectorItem>
        ensures { result.items ≡ self }
    {
        self.items
    }

    /// The items, lent.
    pub fn as_slice(&self) -> &[SectorItem]
        ensures { result.now ≡ self.now }
    {
        self.items.as_slice()
    }
}
