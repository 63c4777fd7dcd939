//! One Armv6-M instruction over any bus.
//!
//! `specs/` states what each instruction means, row by row next to the pseudocode of the Armv6-M Architecture Reference Manual. `step` is
//! proved to do exactly that. No call takes memory.
#![tactic(auto)]

mod access;
mod arms;
mod branch;
mod bus;
mod core_state;
mod data;
mod ends;
mod fields;
mod instruction;
mod loads;
mod many;
mod memory;
mod memory_bus;
mod other;
mod quick;
pub mod ram;

pub use bus::Bus;
pub use core_state::Core;
pub use ends::{StepEnd, Stop};
pub use instruction::step;
pub use memory_bus::{MemoryBus, step_in_memory};
pub use quick::step_at;
