//! The bench: a job file and the cells of a device, and what a stop (a loss of power) may leave of them at any moment.
#![tactic(auto)]

mod bench;
mod bench_fault;
mod change;
mod lay;
mod memory;
mod pick;
mod record;
mod stop;
mod synced;

pub use bench::Bench;
pub use bench_fault::{BusEnd, DeviceFault, StoreFault};
pub use memory::MemoryBench;
pub use pick::Pick;
pub use stop::StopBench;
pub use synced::{cut_synced, write_synced};
