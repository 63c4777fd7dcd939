//! Why a file is refused.

use std::alloc::{AllocError, AllocFailed};
use thiserror::Error;

/// The part of a file that a refusal is about.
#[derive(Clone, Copy, Debug, PartialEq, Eq, Error)]
pub enum Field {
    /// The ELF header.
    #[error("Header")]
    Header,
    /// The program header table.
    #[error("Programs")]
    Programs,
    /// The section header table.
    #[error("Sections")]
    Sections,
    /// The string table of section names.
    #[error("Names")]
    Names,
    /// The symbol table.
    #[error("Symbols")]
    Symbols,
    /// The string table of symbol names.
    #[error("Strings")]
    Strings,
    /// A section's bytes.
    #[error("Section")]
    Section,
    /// A segment's bytes.
    #[error("Segment")]
    Segment,
    /// e_phentsize, the size of a program header.
    #[error("ProgramSize")]
    ProgramSize,
    /// e_shentsize, the size of a section header.
    #[error("SectionSize")]
    SectionSize,
    /// e_shstrndx, the index of the section with the section names.
    #[error("NameIndex")]
    NameIndex,
    /// sh_link of the symbol table, the index of the section with the symbol names.
    #[error("Link")]
    Link,
}

/// Why a file, or a part of it, is refused.
#[derive(Clone, Copy, Debug, PartialEq, Eq, Error)]
pub enum ElfFault {
    /// Out of memory.
    #[error("OutOfMemory")]
    OutOfMemory,
    /// The file doesn't begin with the four magic bytes.
    #[error("NotElf")]
    NotElf,
    /// The class, data, version or machine isn't the one that is read here.
    #[error("NotArm32")]
    NotArm32,
    /// A header, table, section or segment goes past the file's end.
    #[error("Truncated {field}")]
    Truncated { field: Field },
    /// An entry size or an index has no meaning.
    #[error("BadIndex {field} {value}")]
    BadIndex { field: Field, value: u32 },
    /// A name begins outside its string table or has no end in it; `offset` counts bytes in that table.
    #[error("BadName {offset:08X}")]
    BadName { offset: u32 },
}

impl From<AllocError> for ElfFault {
    ghost use Rattle.std.specs.Prelude.{◌≡◌};
    ghost use Rattle.elf32.specs.declared.fault.ElfFault.TheVariants.{OutOfMemory};

    ghost from_gives = { λ _ e. e ≡ OutOfMemory };

    fn from(_fault: AllocError) -> ElfFault {
        ElfFault::OutOfMemory
    }
}

impl<T: Drop> From<AllocFailed<T>> for ElfFault {
    ghost use Rattle.std.specs.Prelude.{◌≡◌};
    ghost use Rattle.elf32.specs.declared.fault.ElfFault.TheVariants.{OutOfMemory};

    ghost from_gives = { λ _ e. e ≡ OutOfMemory };

    fn from(_fault: AllocFailed<T>) -> ElfFault {
        ElfFault::OutOfMemory
    }
}
