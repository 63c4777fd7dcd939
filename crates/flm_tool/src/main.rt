//! The flash programmer as a program: `flm_tool JOB CELLS COMMAND [WORDS]`, or `flm_tool --gang JOB CELLS [JOB CELLS ..]`.
#![tactic(auto)]

use std::process::ExitCode;

/// Ends with the status of the call.
fn main(rt: HostRuntime) -> ExitCode {
    flm_main::run(rt)
}
