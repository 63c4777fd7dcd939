//! The map of a board.
ghost use Rattle.std.specs.Prelude.{◌≡◌, IfOk};
ghost use Rattle.board_file.specs.Shown.{shown};
ghost use Rattle.flash_layout.specs.Maps.{board_map, map_of};

use crate::{Area, FlashMap};
use board_file::Board;
use faults::OutOfMemory;
use std::alloc::Global;

impl FlashMap {
    /// The map of a board: its regions in order, and the sectors of all regions.
    pub fn of(alloc: Global, board: &Board) -> Result<FlashMap, OutOfMemory>
        ensures { IfOk result (λ layout. map_of layout ≡ board_map (shown board.now)) }
    {
        let mut areas = Vec::new(alloc);
        let mut runs = Vec::new(alloc);
        for region in board.regions.as_slice() {
            areas.push(Area::of(region))?;
            runs.extend_from_slice(region.sectors.as_slice())?;
        }
        let mut quiet = Vec::new(alloc);
        quiet.extend_from_slice(board.quiet.as_slice())?;
        Ok(FlashMap {
            kind: board.kind,
            areas,
            runs,
            base: board.controller_base,
            block: board.kind.block(),
            program_ticks: board.program_ticks,
            erase_ticks: board.erase_ticks,
            chip_ticks: board.chip_ticks,
            quiet,
        })
    }
}
