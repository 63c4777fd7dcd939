//! Tries whether flash algorithms keep their duties on a board: `flm_check BOARD FLM [FLM] [--seed N] [--rounds N]`.
#![tactic(auto)]

mod board_algorithms;
mod calls;
mod check;
mod details;
mod ending;
mod run;
mod take;
mod words;

use std::process::ExitCode;

/// Ends with the status of the answer.
fn main(rt: HostRuntime) -> ExitCode {
    run::run(rt)
}
