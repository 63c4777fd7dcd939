//! The operations that erase.
ghost use Rattle.std.specs.Prelude.{◌≡◌, IfSome};
ghost use Rattle.flash_layout.specs.Areas.{cells_in};
ghost use Rattle.flash_layout.specs.Maps.{map_of};
ghost use Rattle.flash_driver.specs.Erasures.{erases_sector, erases_first, all_are};
ghost use Rattle.flash_driver.specs.Table.{MayRun};

use flash_layout::{FlashMap, Operation, Work};

/// The operation that erases the sector with an address; none for an address outside the flash.
pub fn erases_sector(layout: &FlashMap, at: u32) -> Option<Operation>
    ensures value { result ≡ erases_sector (map_of layout.now) at }
    ensures begins { IfSome result (λ o. MayRun (cells_in layout.now.areas.items) o) }
{
    let sector = layout.sector_of(at)?;
    let work = Work::Fill {
        len: sector.len,
        value: sector.empty,
    };
    let place = sector.place;
    let ticks = layout.erase_ticks;
    Some(Operation { work, place, ticks })
}

/// The operation that erases all cells of the first area.
pub fn erases_first(layout: &FlashMap) -> Option<Operation>
    ensures value { result ≡ erases_first (map_of layout.now) }
    ensures begins { IfSome result (λ o. MayRun (cells_in layout.now.areas.items) o) }
{
    let area = layout.first();
    let work = Work::Fill {
        len: area.size,
        value: area.empty,
    };
    let place = 0;
    let ticks = layout.chip_ticks;
    Some(Operation { work, place, ticks })
}

/// Whether all bytes have this value.
pub fn all_are(empty: u8, bytes: &[u8]) -> bool
    ensures { result ≡ all_are empty bytes.now }
{
    bytes.iter().all(|byte| *byte == empty)
}
