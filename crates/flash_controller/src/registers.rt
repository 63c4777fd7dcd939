//! What the registers answer, and what stores do to them.
ghost use Rattle.std.specs.Prelude.{◌≡◌};
ghost use Rattle.flash_layout.specs.Areas.{cells_in};
ghost use Rattle.flash_layout.specs.Maps.{map_of};
ghost use Rattle.flash_driver.specs.Table.{MayBegin};
ghost use Rattle.flash_controller.specs.Table.{started};

use crate::state::State;
use board_file::ControllerKind;
use flash_driver::{Driver, Effect, Registers, all_are, erases_first, erases_sector};
use flash_layout::{Area, FlashMap, Found, Operation, unit_work};

/// The bytes of the block of registers.
const BLOCK: u32 = 32;

/// The offset of STATUS.
const STATUS: u32 = 4;

/// The value of CMD that erases a sector.
const ERASE_SECTOR: u32 = 2;

/// The value of CMD that erases the chip.
const ERASE_CHIP: u32 = 3;

/// The controller FC1 of a board.
pub type Controller = Driver<State>;

impl State {
    /// Makes a store to START.
    #[tactic(auto, unfolding(crate::specs::Table::started))]
    fn start(&mut self, layout: &FlashMap, operation: Option<Operation>, value: u32) -> Effect
        ensures value { (result, self.new) ≡ started (map_of layout.now) self.old operation value }
        ensures begins { MayBegin (cells_in layout.now.areas.items) operation result }
    {
        let is_start = self.is_ready(operation) && value == 1;
        if is_start && self.command == ERASE_SECTOR {
            if let Some(operation) = erases_sector(layout, self.address) {
                return Effect::Begins { operation };
            }
            self.range = true;
            return Effect::Taken;
        }
        if is_start && self.command == ERASE_CHIP {
            if let Some(operation) = erases_first(layout) {
                return Effect::Begins { operation };
            }
        }
        self.sequence = true;
        Effect::Taken
    }
}

#[tactic(auto, unfolding(crate::specs::Table::load, crate::specs::Table::store, crate::specs::Table::program))]
impl Registers for State {
    ghost use Rattle.flash_controller.specs.Table.{fc1_table};

    ghost table = { fc1_table };

    fn block(_kind: ControllerKind) -> u32 {
        BLOCK
    }

    fn fresh(_kind: ControllerKind) -> State {
        State::reset()
    }

    #[inline(always)]
    fn load(&self, operation: Option<Operation>, offset: u32) -> Option<u32> {
        match offset {
            0 | 16 => Some(0),
            4 => Some(self.status(operation)),
            8 => Some(self.command),
            12 => Some(self.address),
            _ => None,
        }
    }

    #[inline(always)]
    fn peek(&self, operation: Option<Operation>, offset: u32) -> Option<u32> {
        if offset != STATUS {
            return None;
        }
        Some(self.status(operation))
    }

    #[inline(always)]
    fn store(
        &mut self,
        layout: &FlashMap,
        operation: Option<Operation>,
        offset: u32,
        value: u32,
    ) -> Effect {
        match offset {
            0 => self.store_key(value),
            4 => self.store_status(value),
            8 => self.store_command(operation, value),
            12 => self.store_address(operation, value),
            16 => return self.start(layout, operation, value),
            _ => return Effect::Fault,
        }
        Effect::Taken
    }

    #[inline(always)]
    fn looks(&self, area: &Area, width: u32, _value: u32) -> bool {
        self.may_program(area, width)
    }

    #[inline(always)]
    fn program(
        &mut self,
        layout: &FlashMap,
        found: Found,
        width: u32,
        value: u32,
        seen: &[u8],
    ) -> Effect {
        if !self.may_program(&found.area, width) {
            self.sequence = true;
            return Effect::Taken;
        }
        if !all_are(found.area.empty, seen) {
            self.not_empty = true;
            return Effect::Taken;
        }
        let work = unit_work(width, value);
        let place = found.place;
        let ticks = layout.program_ticks;
        let operation = Operation { work, place, ticks };
        Effect::Begins { operation }
    }

    fn end(&mut self) {
        self.done = true;
    }
}
