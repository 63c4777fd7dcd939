//! How an instruction ends.
ghost use Rattle.std.specs.Prelude.{◌≡◌};
ghost use Rattle.armv6m_step.specs.Ends.{end_of};

/// How a step ends. `pc` is the address of the instruction, and `at` the address of an access, the fetch included.
#[derive(Clone, Copy, PartialEq, Eq, Debug)]
pub enum StepEnd {
    /// The instruction is done.
    Went,
    /// The instruction is `BKPT`.
    Break { pc: u32 },
    /// There is no such instruction, or it isn't allowed with these fields.
    Undefined { pc: u32 },
    /// No part of the bus takes an access.
    BusFault { at: u32 },
    /// An access isn't at a multiple of its width.
    Unaligned { at: u32 },
    /// A branch would leave the Thumb state.
    BadState { pc: u32 },
    /// The device on the bus failed, and the bus has counted the fault.
    Device,
}

/// Why an instruction isn't done: the ends other than `StepEnd::Went`.
#[derive(Clone, Copy)]
pub enum Stop {
    Break { pc: u32 },
    Undefined { pc: u32 },
    BusFault { at: u32 },
    Unaligned { at: u32 },
    BadState { pc: u32 },
    Device,
}

/// The end of a step, from how its instruction went.
#[inline(always)]
pub(crate) fn step_end(made: Result<(), Stop>) -> StepEnd
    ensures { result ≡ end_of made }
{
    match made {
        Ok(()) => StepEnd::Went,
        Err(Stop::Break { pc }) => StepEnd::Break { pc },
        Err(Stop::Undefined { pc }) => StepEnd::Undefined { pc },
        Err(Stop::BusFault { at }) => StepEnd::BusFault { at },
        Err(Stop::Unaligned { at }) => StepEnd::Unaligned { at },
        Err(Stop::BadState { pc }) => StepEnd::BadState { pc },
        Err(Stop::Device) => StepEnd::Device,
    }
}
