//! The flash controller FPEC, similar to the unit of that name in the STM32F0 and STM32F1 families. Two keys unlock CR, whose bits program
//! halfwords, erase a sector or erase all. Operations take a number of ticks.
//!
//! This controller is the project's own. Its table is its whole behaviour, and nothing is claimed about those parts. Its driver stands
//! between the core's loads and stores and the bench.
#![tactic(auto)]

mod registers;
mod state;

pub use registers::Fpec;
pub use state::State;
