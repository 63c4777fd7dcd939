//! What an access to an address goes to.
ghost use Rattle.std.specs.Prelude.{◌≡◌};
ghost use Rattle.flash_layout.specs.Maps.{map_of};
ghost use Rattle.flash_driver.specs.Places.{place_of, PlaceInside};

use flash_layout::{FlashMap, Found};

/// What an access goes to: a word of the controller's block, a cell of the flash, or nothing.
#[derive(Clone, Copy)]
pub enum Place {
    /// A word of the block, where there may be a register.
    Register {
        /// The offset of the word in the block.
        offset: u32,
    },
    /// A cell of the flash.
    Flash {
        /// The cell, with its area.
        found: Found,
    },
    /// Nothing answers there.
    Nowhere,
}

/// What an access of `width` bytes goes to. In the controller's block only accesses of words go to a register.
#[tactic(auto, unfolding(crate::specs::Places::place_of))]
pub fn place_of(layout: &FlashMap, at: u32, width: u32) -> Place
    ensures value { result ≡ place_of (map_of layout.now) at width }
    ensures inside { PlaceInside (map_of layout.now) at width result }
{
    if at >= layout.base && at - layout.base < layout.block {
        if width != 4 {
            return Place::Nowhere;
        }
        let offset = at - layout.base;
        return Place::Register { offset };
    }
    match layout.find(at) {
        Some(found) => Place::Flash { found },
        None => Place::Nowhere,
    }
}
