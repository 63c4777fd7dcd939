//! An area of flash, and the result of looking an address up.
ghost use Rattle.std.specs.Prelude.{◌≡◌};
ghost use Rattle.flash_layout.specs.Areas.{holds, area_of};

use board_file::Region;

/// A region of flash without its sectors: `size` bytes from the address `base` on.
#[derive(Clone, Copy)]
pub struct Area {
    /// The address of the first byte.
    pub base: u32,
    /// How many bytes the area has.
    pub size: u32,
    /// The value of an erased byte.
    pub empty: u8,
    /// The bytes that one store programs: 2 or 4.
    pub unit: u32,
}

/// The area of an address, and the cell of that address.
#[derive(Clone, Copy)]
pub struct Found {
    /// The area.
    pub area: Area,
    /// The cell's place: its number from 0 on, counted through all areas.
    pub place: u32,
}

/// The cells of a sector.
#[derive(Clone, Copy)]
pub struct SectorCells {
    /// The place of the first cell.
    pub place: u32,
    /// How many cells there are.
    pub len: u32,
    /// The value of an erased cell.
    pub empty: u8,
}

impl Area {
    /// The area of a region.
    pub fn of(region: &Region) -> Area
        ensures { result ≡ area_of region.now }
    {
        Area {
            base: region.base,
            size: region.size,
            empty: region.empty,
            unit: region.unit,
        }
    }

    /// Whether the address lies in the area.
    pub fn holds(&self, at: u32) -> bool
        ensures { result ≡ holds self.now at }
    {
        at >= self.base && at - self.base < self.size
    }
}
