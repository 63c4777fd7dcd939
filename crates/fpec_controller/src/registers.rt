//! What the registers answer, and what stores do to them.
ghost use Rattle.std.specs.Prelude.{◌≡◌, None};
ghost use Rattle.flash_layout.specs.Areas.{cells_in};
ghost use Rattle.flash_layout.specs.Maps.{map_of};
ghost use Rattle.flash_driver.specs.Table.{MayBegin};
ghost use Rattle.fpec_controller.specs.Table.{control_stored, started};

use crate::state::{State, has_bit};
use board_file::ControllerKind;
use flash_driver::{Driver, Effect, Registers, all_are, erases_first, erases_sector};
use flash_layout::{Area, FlashMap, Found, Lock, Operation, Work};

/// The bytes of the block of registers.
const BLOCK: u32 = 64;

/// The offset of SR.
const STATUS: u32 = 0x0C;

/// The value of WRPR: no sector is protected.
const UNPROTECTED: u32 = 0xFFFF_FFFF;

/// The bit of CR that starts an erasure.
const START: u32 = 0x40;

/// The bit of CR that locks the controller.
const LOCK: u32 = 0x80;

/// The bytes of a halfword.
const HALF: u32 = 2;

/// The value of an erased byte.
const ERASED: u8 = 0xFF;

/// The controller FPEC of a board.
pub type Fpec = Driver<State>;

impl State {
    /// Makes a store to CR.
    #[tactic(auto, unfolding(crate::specs::Table::control_stored))]
    fn store_control(
        &mut self,
        layout: &FlashMap,
        operation: Option<Operation>,
        value: u32,
    ) -> Effect
        ensures value { (result, self.new) ≡ control_stored (map_of layout.now) self.old operation value }
        ensures begins { MayBegin (cells_in layout.now.areas.items) operation result }
    {
        if !self.lock.is_unlocked() || operation.is_some() {
            return Effect::Taken;
        }
        self.take_bits(value);
        if has_bit(value, LOCK) {
            self.lock = Lock::Locked;
            return Effect::Taken;
        }
        if has_bit(value, START) {
            return self.start(layout);
        }
        Effect::Taken
    }

    /// Starts the erasure that PER and MER name.
    #[tactic(auto, unfolding(crate::specs::Table::started))]
    fn start(&self, layout: &FlashMap) -> Effect
        ensures value { (result, self.now) ≡ started (map_of layout.now) self.now }
        ensures begins { MayBegin (cells_in layout.now.areas.items) None result }
    {
        let begins = match (self.erases_sector, self.erases_all) {
            (true, false) => erases_sector(layout, self.address),
            (false, true) => erases_first(layout),
            _ => None,
        };
        match begins {
            Some(operation) => Effect::Begins { operation },
            None => Effect::Taken,
        }
    }
}

#[tactic(auto, unfolding(crate::specs::Table::load, crate::specs::Table::store, crate::specs::Table::program))]
impl Registers for State {
    ghost use Rattle.fpec_controller.specs.Table.{fpec_table};

    ghost table = { fpec_table };

    fn block(_kind: ControllerKind) -> u32 {
        BLOCK
    }

    fn fresh(_kind: ControllerKind) -> State {
        State::reset()
    }

    #[inline(always)]
    fn load(&self, operation: Option<Operation>, offset: u32) -> Option<u32> {
        match offset {
            0x00 => Some(self.access_control),
            0x04 | 0x08 | 0x1C => Some(0),
            0x0C => Some(self.status(operation)),
            0x10 => Some(self.control(operation)),
            0x14 => Some(self.address),
            0x20 => Some(UNPROTECTED),
            _ => None,
        }
    }

    #[inline(always)]
    fn peek(&self, operation: Option<Operation>, offset: u32) -> Option<u32> {
        if offset != STATUS {
            return None;
        }
        Some(self.status(operation))
    }

    #[inline(always)]
    fn store(
        &mut self,
        layout: &FlashMap,
        operation: Option<Operation>,
        offset: u32,
        value: u32,
    ) -> Effect {
        match offset {
            0x00 => self.store_access_control(value),
            0x04 => self.store_key(value),
            0x08 | 0x1C | 0x20 => (),
            0x0C => self.store_status(value),
            0x10 => return self.store_control(layout, operation, value),
            0x14 => self.store_address(operation, value),
            _ => return Effect::Fault,
        }
        Effect::Taken
    }

    #[inline(always)]
    fn looks(&self, _area: &Area, width: u32, value: u32) -> bool {
        width == HALF && self.may_program() && value % 0x1_0000 != 0
    }

    #[inline(always)]
    fn program(
        &mut self,
        layout: &FlashMap,
        found: Found,
        width: u32,
        value: u32,
        seen: &[u8],
    ) -> Effect {
        if width != HALF {
            return Effect::Fault;
        }
        if !self.may_program() {
            return Effect::Taken;
        }
        if value % 0x1_0000 != 0 && !all_are(ERASED, seen) {
            self.program_error = true;
            return Effect::Taken;
        }
        let work = Work::Half { value };
        let place = found.place;
        let ticks = layout.program_ticks;
        let operation = Operation { work, place, ticks };
        Effect::Begins { operation }
    }

    fn end(&mut self) {
        self.ended = true;
    }
}
