//! ELF files of 32 bits for Arm, little-endian (System V ABI, ELF for the Arm Architecture): sections and symbols by name,
//! and program headers. A contract sees a file that was read as its bytes.
#![tactic(auto)]

mod checks;
mod elf;
mod entries;
mod fault;
mod fields;
mod headers;
mod law;
mod names;
mod places;
mod strings;
mod symbols;

pub use elf::Elf;
pub use entries::{Section, Segment, Symbol};
pub use fault::{ElfFault, Field};
pub use law::first_is_least;
