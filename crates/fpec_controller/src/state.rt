//! The registers of FPEC.
ghost use Rattle.std.specs.Prelude.{◌≡◌, ◌<◌};
ghost use Rattle.fpec_controller.specs.Table.{is_erasure, status, control, access_control_stored, key_stored, status_stored, address_stored};
ghost use Rattle.fpec_controller.specs.Table.{with_bits, after_reset, has_bit, may_program};

use flash_layout::{Lock, Operation, Work, flag_value};

/// The contents of the registers.
#[derive(Clone, Copy)]
pub struct State {
    /// How far the controller is unlocked.
    pub lock: Lock,
    /// PG: stores to the flash program halfwords.
    pub programs: bool,
    /// PER: an erasure erases a sector.
    pub erases_sector: bool,
    /// MER: an erasure erases all cells.
    pub erases_all: bool,
    /// PGERR: a halfword that isn't erased was to be programmed.
    pub program_error: bool,
    /// EOP: an operation has ended.
    pub ended: bool,
    /// The register ACR.
    pub access_control: u32,
    /// The register AR.
    pub address: u32,
}

/// Whether a bit, given by its value, is set.
pub fn has_bit(value: u32, bit: u32) -> bool
    requires { 0 < bit }
    ensures { result ≡ has_bit value bit }
{
    value / bit % 2 == 1
}

/// Whether the operation is an erasure.
fn is_erasure(operation: Option<Operation>) -> bool
    ensures { result ≡ is_erasure operation }
{
    match operation {
        Some(operation) => matches!(operation.work, Work::Fill { .. }),
        None => false,
    }
}

impl State {
    /// The registers after a reset.
    pub fn reset() -> State
        ensures { result ≡ after_reset }
    {
        State {
            lock: Lock::Locked,
            programs: false,
            erases_sector: false,
            erases_all: false,
            program_error: false,
            ended: false,
            access_control: 0,
            address: 0,
        }
    }

    /// The value of SR, while this operation runs.
    #[inline(always)]
    pub fn status(&self, operation: Option<Operation>) -> u32
        ensures { result ≡ status self.now operation }
    {
        flag_value(operation.is_some(), 1)
            + flag_value(self.program_error, 4)
            + flag_value(self.ended, 32)
    }

    /// The value of CR, while this operation runs.
    #[inline(always)]
    pub fn control(&self, operation: Option<Operation>) -> u32
        ensures { result ≡ control self.now operation }
    {
        flag_value(self.programs, 1)
            + flag_value(self.erases_sector, 2)
            + flag_value(self.erases_all, 4)
            + flag_value(is_erasure(operation), 64)
            + flag_value(!self.lock.is_unlocked(), 128)
    }

    /// Whether the store of a halfword programs it, where no operation runs.
    pub fn may_program(&self) -> bool
        ensures { result ≡ may_program self.now }
    {
        self.lock.is_unlocked() && self.programs
    }

    /// Makes a store to ACR.
    pub fn store_access_control(&mut self, value: u32)
        ensures { self.new ≡ access_control_stored self.old value }
    {
        self.access_control = value;
    }

    /// Makes a store to KEYR.
    pub fn store_key(&mut self, value: u32)
        ensures { self.new ≡ key_stored self.old value }
    {
        self.lock = self.lock.after_key(value);
    }

    /// Makes a store to SR: the flags whose bits are set in the value are cleared.
    pub fn store_status(&mut self, value: u32)
        ensures { self.new ≡ status_stored self.old value }
    {
        self.program_error = self.program_error && (value / 4) % 2 == 0;
        self.ended = self.ended && (value / 32) % 2 == 0;
    }

    /// Makes a store to AR.
    pub fn store_address(&mut self, operation: Option<Operation>, value: u32)
        ensures { self.new ≡ address_stored self.old operation value }
    {
        if operation.is_none() {
            self.address = value;
        }
    }

    /// Takes the bits PG, PER and MER of a value.
    pub fn take_bits(&mut self, value: u32)
        ensures { self.new ≡ with_bits self.old value }
    {
        self.programs = has_bit(value, 1);
        self.erases_sector = has_bit(value, 2);
        self.erases_all = has_bit(value, 4);
    }
}
