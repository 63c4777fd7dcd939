//! The map of a board's flash.
ghost use Rattle.std.specs.Prelude.{◌≡◌, ◌<◌, ◌^◌, IfSome, IsTrue, length};
ghost use Rattle.std.specs.List.{list_all};
ghost use Rattle.board_file.specs.Limits.{run_fits};
ghost use Rattle.flash_layout.specs.Areas.{all_fit, cells_in, find, sector_of, sector_cells, AreInside, FoundInside, IsFirst};
ghost use Rattle.board_file.specs.Limits.{cells_of};
ghost use Rattle.board_file.specs.Laws.{sector_at};

use crate::{Area, Found, SectorCells};
use board_file::{ControllerKind, QuietRange, SectorRun};

/// The areas of a board in order, the sectors of all areas in order, the controller's kind, its registers, its ticks, and the quiet ranges.
#[derive(Drop)]
pub struct FlashMap {
    /// The kind of the controller.
    pub kind: ControllerKind,
    /// The areas, at least one.
    pub areas: Vec<Area>,
    /// The sectors of all areas.
    pub runs: Vec<SectorRun>,
    /// The address of the controller's registers.
    pub base: u32,
    /// The bytes of the register block.
    pub block: u32,
    /// The ticks to program a unit.
    pub program_ticks: u32,
    /// The ticks to erase a sector.
    pub erase_ticks: u32,
    /// The ticks to erase an area.
    pub chip_ticks: u32,
    /// The quiet ranges.
    pub quiet: Vec<QuietRange>,

    pub ghost some_area: { 0 < length areas.items },
    pub ghost areas_fit: { IsTrue (all_fit areas.items) },
    pub ghost runs_fit: { IsTrue (list_all run_fits runs.items) },
    pub ghost whole: { cells_of runs.items ≡ cells_in areas.items },
    pub ghost few: { cells_in areas.items < 2 ^ 32 },
}

impl FlashMap {
    /// The first area.
    pub fn first(&self) -> Area
        ensures { IsFirst self.now.areas.items result }
    {
        self.areas[0]
    }

    /// How many cells the areas have together.
    pub fn cells(&self) -> u32
        ensures { result ≡ cells_in self.now.areas.items }
    {
        let mut cells = 0;
        for area in &self.areas {
            cells += area.size;
        }
        cells
    }

    /// The area of an address, and the cell there; none for an address outside the flash.
    pub fn find(&self, at: u32) -> Option<Found>
        ensures value { result ≡ find self.now.areas.items 0 at }
        ensures inside { IfSome result (λ found. FoundInside self.now.areas.items at found) }
    {
        let mut from = 0;
        for area in &self.areas {
            if area.holds(at) {
                let place = from + (at - area.base);
                return Some(Found { area: *area, place });
            }
            from += area.size;
        }
        None
    }

    /// The cells of the sector that contains a cell; `empty` is the value of an erased one.
    fn sector_in(&self, place: u32, empty: u8) -> Option<SectorCells>
        ensures { result ≡ sector_cells empty (sector_at self.now.runs.items place) }
    {
        let mut from = 0;
        for run in &self.runs {
            let len = run.count * run.size;
            if place < from + len {
                let before = (place - from) / run.size * run.size;
                return Some(SectorCells {
                    place: from + before,
                    len: run.size,
                    empty,
                });
            }
            from += len;
        }
        None
    }

    /// The cells of the sector with an address; none for an address outside the flash.
    pub fn sector_of(&self, at: u32) -> Option<SectorCells>
        ensures value { result ≡ sector_of self.now.areas.items self.now.runs.items at }
        ensures inside { IfSome result (λ sector. AreInside (cells_in self.now.areas.items) sector) }
    {
        let found = self.find(at)?;
        self.sector_in(found.place, found.area.empty)
    }
}
