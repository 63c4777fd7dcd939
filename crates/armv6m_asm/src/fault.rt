//! Why a text isn't assembled.
use faults::OutOfMemory;
use octets::Word;
use std::alloc::{AllocError, AllocFailed};
use thiserror::Error;

/// Why a text isn't assembled. Lines count from 1. Each check goes over the whole text, in the order of these variants. Memory can run out
/// at any time.
#[derive(Debug, Drop, Error)]
pub enum AsmFault {
    /// The line can't be read: it is no statement, an operand doesn't fit its field, or a `.word` isn't at a multiple of 4.
    #[error("BadWord {line}")]
    BadWord { line: u64 },
    /// The label also stands on an earlier line.
    #[error("TwiceLabel {}", .name.text())]
    TwiceLabel { name: Word },
    /// A destination names a label that stands on no line.
    #[error("NoLabel {}", .name.text())]
    NoLabel { name: Word },
    /// The distance from this line to its destination doesn't fit the instruction's field.
    #[error("OutOfReach {line}")]
    OutOfReach { line: u64 },
    /// No memory was left, or the code is longer than 4,294,967,295 bytes.
    #[error("OutOfMemory")]
    OutOfMemory,
}

impl From<AllocError> for AsmFault {
    ghost use Rattle.std.specs.Prelude.{◌≡◌};
    ghost use Rattle.armv6m_asm.specs.declared.fault.AsmFault.TheVariants.{OutOfMemory};

    ghost from_gives = { λ _ e. e ≡ OutOfMemory };

    fn from(_fault: AllocError) -> AsmFault {
        AsmFault::OutOfMemory
    }
}

impl<T: Drop> From<AllocFailed<T>> for AsmFault {
    ghost use Rattle.std.specs.Prelude.{◌≡◌};
    ghost use Rattle.armv6m_asm.specs.declared.fault.AsmFault.TheVariants.{OutOfMemory};

    ghost from_gives = { λ _ e. e ≡ OutOfMemory };

    fn from(_fault: AllocFailed<T>) -> AsmFault {
        AsmFault::OutOfMemory
    }
}

impl From<OutOfMemory> for AsmFault {
    ghost use Rattle.std.specs.Prelude.{◌≡◌};
    ghost use Rattle.armv6m_asm.specs.declared.fault.AsmFault.TheVariants.{OutOfMemory};

    ghost from_gives = { λ _ e. e ≡ OutOfMemory };

    fn from(_fault: OutOfMemory) -> AsmFault {
        AsmFault::OutOfMemory
    }
}
