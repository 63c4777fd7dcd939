//! The cells of a device, read back into a buffer or compared with the bytes that they should hold. No call takes memory.
#![tactic(auto)]

mod cells;
mod compare;

pub use cells::read_cells;
pub use compare::{Difference, first_difference};
