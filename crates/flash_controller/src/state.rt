//! The registers of FC1.
ghost use Rattle.std.specs.Prelude.{◌≡◌};
ghost use Rattle.flash_controller.specs.Table.{is_ready, status, key_stored, status_stored, command_stored, address_stored};
ghost use Rattle.flash_controller.specs.Table.{after_reset, may_program};

use flash_layout::{Area, Lock, Operation, flag_value};

/// The contents of the registers.
#[derive(Clone, Copy)]
pub struct State {
    /// How far the controller is unlocked.
    pub lock: Lock,
    /// DONE: an operation has ended.
    pub done: bool,
    /// SEQ: an access was made in the wrong order.
    pub sequence: bool,
    /// RANGE: an erasure outside the flash was asked for.
    pub range: bool,
    /// NOTEMPTY: a unit that isn't erased was to be programmed.
    pub not_empty: bool,
    /// The register CMD.
    pub command: u32,
    /// The register ADDR.
    pub address: u32,
}

/// The value of CMD that programs units.
const PROGRAM: u32 = 1;

/// The last command.
const LAST_COMMAND: u32 = 3;

impl State {
    /// The registers after a reset.
    pub fn reset() -> State
        ensures { result ≡ after_reset }
    {
        State {
            lock: Lock::Locked,
            done: false,
            sequence: false,
            range: false,
            not_empty: false,
            command: 0,
            address: 0,
        }
    }

    /// Whether the controller is unlocked and no operation runs.
    pub fn is_ready(&self, operation: Option<Operation>) -> bool
        ensures { result ≡ is_ready self.now operation }
    {
        self.lock.is_unlocked() && operation.is_none()
    }

    /// The value of STATUS, while this operation runs.
    #[inline(always)]
    pub fn status(&self, operation: Option<Operation>) -> u32
        ensures { result ≡ status self.now operation }
    {
        flag_value(operation.is_some(), 1)
            + flag_value(self.done, 2)
            + flag_value(self.sequence, 4)
            + flag_value(self.range, 8)
            + flag_value(self.not_empty, 16)
            + flag_value(!self.lock.is_unlocked(), 32)
    }

    /// Whether a store of `width` bytes programs a unit of the area, where no operation runs.
    pub fn may_program(&self, area: &Area, width: u32) -> bool
        ensures { result ≡ may_program self.now area.now width }
    {
        self.lock.is_unlocked() && self.command == PROGRAM && width == area.unit
    }

    /// Makes a store to KEY.
    pub fn store_key(&mut self, value: u32)
        ensures { self.new ≡ key_stored self.old value }
    {
        self.lock = self.lock.after_key(value);
    }

    /// Makes a store to STATUS: the flags whose bits are set in the value are cleared.
    pub fn store_status(&mut self, value: u32)
        ensures { self.new ≡ status_stored self.old value }
    {
        self.done = self.done && (value / 2) % 2 == 0;
        self.sequence = self.sequence && (value / 4) % 2 == 0;
        self.range = self.range && (value / 8) % 2 == 0;
        self.not_empty = self.not_empty && (value / 16) % 2 == 0;
    }

    /// Makes a store to CMD.
    pub fn store_command(&mut self, operation: Option<Operation>, value: u32)
        ensures { self.new ≡ command_stored self.old operation value }
    {
        if self.is_ready(operation) && value <= LAST_COMMAND {
            self.command = value;
        } else {
            self.sequence = true;
        }
    }

    /// Makes a store to ADDR.
    pub fn store_address(&mut self, operation: Option<Operation>, value: u32)
        ensures { self.new ≡ address_stored self.old operation value }
    {
        if self.is_ready(operation) {
            self.address = value;
        } else {
            self.sequence = true;
        }
    }
}
