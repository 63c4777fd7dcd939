//! Why an FLM file is refused.

use elf32::ElfFault;
use faults::OutOfMemory;
use std::alloc::{AllocError, AllocFailed};
use thiserror::Error;

/// A section or symbol of an FLM file, by its name there.
#[derive(Clone, Copy, Debug, PartialEq, Eq, Error)]
pub enum Name {
    #[error("PrgCode")]
    PrgCode,
    #[error("DevDscr")]
    DevDscr,
    #[error("Init")]
    Init,
    #[error("UnInit")]
    UnInit,
    #[error("EraseSector")]
    EraseSector,
    #[error("ProgramPage")]
    ProgramPage,
    #[error("EraseChip")]
    EraseChip,
    #[error("Verify")]
    Verify,
    #[error("FlashDevice")]
    FlashDevice,
}

impl Name {
    ghost use Rattle.std.specs.Prelude.{◌≡◌};
    ghost use Rattle.flm_descriptor.specs.Parts.{text_of};

    /// The name as a file writes it.
    #[tactic(auto, unfolding(crate::specs::Parts::text_of))]
    pub fn text(self) -> &'static [u8]
        ensures { result.now ≡ text_of self }
    {
        match self {
            Name::PrgCode => b"PrgCode",
            Name::DevDscr => b"DevDscr",
            Name::Init => b"Init",
            Name::UnInit => b"UnInit",
            Name::EraseSector => b"EraseSector",
            Name::ProgramPage => b"ProgramPage",
            Name::EraseChip => b"EraseChip",
            Name::Verify => b"Verify",
            Name::FlashDevice => b"FlashDevice",
        }
    }
}

/// Why an FLM file is refused. The first check that fails is answered, in the order of the variants.
#[derive(Clone, Copy, Debug, PartialEq, Eq, Error)]
pub enum FlmFault {
    /// Out of memory.
    #[error("OutOfMemory")]
    OutOfMemory,
    /// The file, or a part of it, is refused as ELF for Arm.
    #[error("Elf {0}")]
    Elf(ElfFault),
    /// A section is missing.
    #[error("NoSection {name}")]
    NoSection { name: Name },
    /// A symbol is missing.
    #[error("NoSymbol {name}")]
    NoSymbol { name: Name },
    /// A symbol, with this value in the file, is outside its section.
    #[error("SymbolOutside {name} {value:08X}")]
    SymbolOutside { name: Name, value: u32 },
    /// Code, data and zeroed data don't follow one another below 0xFFFFFFFF.
    #[error("DataBeforeCode")]
    DataBeforeCode,
    /// There are fewer than 160 bytes from FlashDevice to the end of its section.
    #[error("DescriptorShort")]
    DescriptorShort,
    /// The first 512 sector items of the section are followed by no end pair.
    #[error("NoSectorEnd")]
    NoSectorEnd,
    /// A page has 0 bytes or more than 65,536.
    #[error("BadPage {size}")]
    BadPage { size: u32 },
    /// There is no sector item, or the first doesn't begin at 0.
    #[error("SectorGap")]
    SectorGap,
    /// An item, counted from 0, doesn't begin above the one before.
    #[error("SectorOrder {item}")]
    SectorOrder { item: u32 },
    /// An item, counted from 0, has sectors of 0 bytes.
    #[error("SectorSize {item}")]
    SectorSize { item: u32 },
    /// The device has 0 bytes or more than 16,777,216, or goes past 2^32, or has too many sectors or pages.
    #[error("BadDevice {size}")]
    BadDevice { size: u32 },
}

impl From<AllocError> for FlmFault {
    ghost use Rattle.std.specs.Prelude.{◌≡◌};
    ghost use Rattle.flm_descriptor.specs.declared.fault.FlmFault.TheVariants.{OutOfMemory};

    ghost from_gives = { λ _ e. e ≡ OutOfMemory };

    fn from(_fault: AllocError) -> FlmFault {
        FlmFault::OutOfMemory
    }
}

impl<T: Drop> From<AllocFailed<T>> for FlmFault {
    ghost use Rattle.std.specs.Prelude.{◌≡◌};
    ghost use Rattle.flm_descriptor.specs.declared.fault.FlmFault.TheVariants.{OutOfMemory};

    ghost from_gives = { λ _ e. e ≡ OutOfMemory };

    fn from(_fault: AllocFailed<T>) -> FlmFault {
        FlmFault::OutOfMemory
    }
}

impl From<OutOfMemory> for FlmFault {
    ghost use Rattle.std.specs.Prelude.{◌≡◌};
    ghost use Rattle.flm_descriptor.specs.declared.fault.FlmFault.TheVariants.{OutOfMemory};

    ghost from_gives = { λ _ e. e ≡ OutOfMemory };

    fn from(_fault: OutOfMemory) -> FlmFault {
        FlmFault::OutOfMemory
    }
}

/// Out of memory is always `FlmFault::OutOfMemory`, and never inside `FlmFault::Elf`.
impl From<ElfFault> for FlmFault {
    ghost use Rattle.std.specs.Prelude.{◌≡◌};
    ghost use Rattle.flm_descriptor.specs.Results.{outer};

    ghost from_gives = { λ f e. e ≡ outer f };

    fn from(fault: ElfFault) -> FlmFault {
        match fault {
            ElfFault::OutOfMemory => FlmFault::OutOfMemory,
            other => FlmFault::Elf(other),
        }
    }
}
