//! The flash controller FC1. Two keys unlock its registers. Its commands program a unit, erase a sector or erase the chip, and operations
//! take a number of ticks. Its driver stands between the core's loads and stores and the bench.
#![tactic(auto)]

mod registers;
mod state;

pub use registers::Controller;
pub use state::State;
