//! Why no file is made from a listing.

use armv6m_asm::AsmFault;
use faults::OutOfMemory;
use std::alloc::{AllocError, AllocFailed};
use thiserror::Error;

/// Why no file is made from a listing.
#[derive(Debug, Drop, Error)]
pub enum ForgeFault {
    /// Memory ran out, or the file would have 4,294,967,296 bytes or more.
    #[error("OutOfMemory")]
    OutOfMemory,
    /// The assembler refuses the text.
    #[error("Asm {0}")]
    Asm(AsmFault),
}

impl From<AllocError> for ForgeFault {
    ghost use Rattle.std.specs.Prelude.{◌≡◌};
    ghost use Rattle.flm_forge.specs.declared.fault.ForgeFault.TheVariants.{OutOfMemory};

    ghost from_gives = { λ _ e. e ≡ OutOfMemory };

    fn from(_fault: AllocError) -> ForgeFault {
        ForgeFault::OutOfMemory
    }
}

impl<T: Drop> From<AllocFailed<T>> for ForgeFault {
    ghost use Rattle.std.specs.Prelude.{◌≡◌};
    ghost use Rattle.flm_forge.specs.declared.fault.ForgeFault.TheVariants.{OutOfMemory};

    ghost from_gives = { λ _ e. e ≡ OutOfMemory };

    fn from(_fault: AllocFailed<T>) -> ForgeFault {
        ForgeFault::OutOfMemory
    }
}

impl From<OutOfMemory> for ForgeFault {
    ghost use Rattle.std.specs.Prelude.{◌≡◌};
    ghost use Rattle.flm_forge.specs.declared.fault.ForgeFault.TheVariants.{OutOfMemory};

    ghost from_gives = { λ _ e. e ≡ OutOfMemory };

    fn from(_fault: OutOfMemory) -> ForgeFault {
        ForgeFault::OutOfMemory
    }
}

/// Out of memory is always this type's own variant, never the assembler's within `Asm`.
impl From<AsmFault> for ForgeFault {
    ghost use Rattle.std.specs.Prelude.{◌≡◌};
    ghost use Rattle.flm_forge.specs.Results.{outer};

    ghost from_gives = { λ f e. e ≡ outer f };

    fn from(fault: AsmFault) -> ForgeFault {
        match fault {
            AsmFault::OutOfMemory => ForgeFault::OutOfMemory,
            other => ForgeFault::Asm(other),
        }
    }
}
