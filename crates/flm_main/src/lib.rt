//! The flash programmer on files of the system: what the program `flm_tool` does, as one call.
#![tactic(auto)]

mod arguments;
mod benches;
mod pairs;
mod runs;

pub use arguments::Arguments;
pub use host_files::{HeldStreams, hold_streams};
pub use runs::{call, run};
