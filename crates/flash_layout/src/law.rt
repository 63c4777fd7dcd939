//! The law on addresses in the flash.
ghost use Rattle.std.specs.Prelude.{◌≡◌, Some};
ghost use Rattle.flash_layout.specs.declared.area.Found.{Found};
ghost use Rattle.flash_layout.specs.Areas.{find, HasSectorCells};

use crate::FlashMap;

/// An address in the flash has a sector of the board, which contains the address's cell and lies among all cells.
pub fn address_has_sector(layout: &FlashMap, at: u32)
    ensures { (found : Found) → find layout.now.areas.items 0 at ≡ Some found → HasSectorCells layout.now.areas.items layout.now.runs.items at found }
{
    // the map is read here, so that the facts it keeps are known
    let _layout = layout.find(at);
}
