//! Why the calls on a job file refuse.

use bench_model::{DeviceFault, StoreFault};
use faults::OutOfMemory;
use thiserror::Error;

/// Why no job was read from a file.
#[derive(Clone, Copy)]
pub enum ReadFault {
    OutOfMemory,
    StoreFault,
    /// The offset that shows the first check that fails.
    NotAJob { at: u64 },
}

impl From<OutOfMemory> for ReadFault {
    ghost use Rattle.std.specs.Prelude.{◌≡◌};
    ghost use Rattle.job_file.specs.declared.fault.ReadFault.TheVariants as fault;

    ghost from_gives = { λ _ e. e ≡ fault.OutOfMemory };

    fn from(_fault: OutOfMemory) -> ReadFault {
        ReadFault::OutOfMemory
    }
}

impl From<StoreFault> for ReadFault {
    ghost use Rattle.std.specs.Prelude.{◌≡◌};
    ghost use Rattle.job_file.specs.declared.fault.ReadFault.TheVariants as fault;

    ghost from_gives = { λ _ e. e ≡ fault.StoreFault };

    fn from(_fault: StoreFault) -> ReadFault {
        ReadFault::StoreFault
    }
}

/// Why a file was not read.
#[derive(Clone, Copy)]
pub enum LookFault {
    OutOfMemory,
    StoreFault,
}

impl From<OutOfMemory> for LookFault {
    ghost use Rattle.std.specs.Prelude.{◌≡◌};
    ghost use Rattle.job_file.specs.declared.fault.LookFault.TheVariants as fault;

    ghost from_gives = { λ _ e. e ≡ fault.OutOfMemory };

    fn from(_fault: OutOfMemory) -> LookFault {
        LookFault::OutOfMemory
    }
}

impl From<StoreFault> for LookFault {
    ghost use Rattle.std.specs.Prelude.{◌≡◌};
    ghost use Rattle.job_file.specs.declared.fault.LookFault.TheVariants as fault;

    ghost from_gives = { λ _ e. e ≡ fault.StoreFault };

    fn from(_fault: StoreFault) -> LookFault {
        LookFault::StoreFault
    }
}

/// Why no job was opened.
#[derive(Clone, Copy, Debug, PartialEq, Eq, Error)]
pub enum OpenFault {
    /// No memory was left.
    #[error("OutOfMemory")]
    OutOfMemory,
    /// The file is free.
    #[error("NoJob")]
    NoJob,
    /// The file is neither free nor damaged, and stands for no job; the offset shows the first check that fails.
    #[error("NotAJob {at}")]
    NotAJob { at: u64 },
    /// The store of the file failed.
    #[error("StoreFault")]
    StoreFault,
    /// The job is for `said` cells, and the bench has `found`.
    #[error("CellsDiffer {said} {found}")]
    CellsDiffer { said: u32, found: u32 },
    /// The hash that the file keeps isn't the one that was found.
    #[error("Damaged")]
    Damaged { kept: [u8; 32], found: [u8; 32] },
}

impl From<LookFault> for OpenFault {
    ghost use Rattle.std.specs.Prelude.{◌≡◌};
    ghost use Rattle.job_file.specs.Faults.{open_of};

    ghost from_gives = { λ fault e. e ≡ open_of fault };

    fn from(fault: LookFault) -> OpenFault {
        match fault {
            LookFault::OutOfMemory => OpenFault::OutOfMemory,
            LookFault::StoreFault => OpenFault::StoreFault,
        }
    }
}

/// Why no job was begun.
#[derive(Clone, Copy, Debug, Error)]
pub enum BeginFault {
    /// No memory was left.
    #[error("OutOfMemory")]
    OutOfMemory,
    /// The file stands for a job already.
    #[error("JobOpen")]
    JobOpen,
    /// The store of the file failed.
    #[error("StoreFault")]
    StoreFault,
    /// The device failed.
    #[error("DeviceFault")]
    DeviceFault,
    /// The job is for `said` cells, and the bench has `found`.
    #[error("CellsDiffer {said} {found}")]
    CellsDiffer { said: u32, found: u32 },
    /// The file is neither free nor damaged, and stands for no job; the offset shows the first check that fails.
    #[error("NotAJob {at}")]
    NotAJob { at: u64 },
    /// The hash that the file keeps isn't the one that was found.
    #[error("Damaged")]
    Damaged { kept: [u8; 32], found: [u8; 32] },
}

impl From<LookFault> for BeginFault {
    ghost use Rattle.std.specs.Prelude.{◌≡◌};
    ghost use Rattle.job_file.specs.Faults.{begin_of};

    ghost from_gives = { λ fault e. e ≡ begin_of fault };

    fn from(fault: LookFault) -> BeginFault {
        match fault {
            LookFault::OutOfMemory => BeginFault::OutOfMemory,
            LookFault::StoreFault => BeginFault::StoreFault,
        }
    }
}

impl From<OutOfMemory> for BeginFault {
    ghost use Rattle.std.specs.Prelude.{◌≡◌};
    ghost use Rattle.job_file.specs.declared.fault.BeginFault.TheVariants as fault;

    ghost from_gives = { λ _ e. e ≡ fault.OutOfMemory };

    fn from(_fault: OutOfMemory) -> BeginFault {
        BeginFault::OutOfMemory
    }
}

impl From<StoreFault> for BeginFault {
    ghost use Rattle.std.specs.Prelude.{◌≡◌};
    ghost use Rattle.job_file.specs.declared.fault.BeginFault.TheVariants as fault;

    ghost from_gives = { λ _ e. e ≡ fault.StoreFault };

    fn from(_fault: StoreFault) -> BeginFault {
        BeginFault::StoreFault
    }
}

impl From<DeviceFault> for BeginFault {
    ghost use Rattle.std.specs.Prelude.{◌≡◌};
    ghost use Rattle.job_file.specs.declared.fault.BeginFault.TheVariants as fault;

    ghost from_gives = { λ _ e. e ≡ fault.DeviceFault };

    fn from(_fault: DeviceFault) -> BeginFault {
        BeginFault::DeviceFault
    }
}

/// Why a job was not closed.
#[derive(Clone, Copy, Debug, Error)]
pub enum CloseFault {
    /// The store of the file failed.
    #[error("StoreFault")]
    StoreFault,
}

impl From<StoreFault> for CloseFault {
    fn from(_fault: StoreFault) -> CloseFault {
        CloseFault::StoreFault
    }
}
