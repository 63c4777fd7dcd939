//! The outside in memory: counts of faults, the bench, inputs and sinks, cells read back, and RAM.

mod bench;
mod cells;
mod counts;
mod outside;
mod streams;
mod windows;

pub use outside::add;
