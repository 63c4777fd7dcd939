//! Flash algorithms: FLM files (Open-CMSIS-Pack, flash programming algorithms; `FlashOS.h`, interface version 1.01), and the
//! geometry of the device that they program.
#![tactic(auto)]

mod algorithm;
mod checks;
mod device;
mod fault;
mod geometry;
mod items;
mod law;
mod parts;
mod read;

pub use algorithm::{Algorithm, Entries};
pub use device::Device;
pub use fault::{FlmFault, Name};
pub use geometry::Run;
pub use items::{Items, SectorItem};
pub use law::{pages_stand_by_division, pieces_stand_in_order};
pub use read::read_flm;
