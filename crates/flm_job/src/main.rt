//! Lists what is in a job file, or reads out its parts: `flm_job JOB [board | flm [1|2] | image hex|srec | snapshot raw]`.
#![tactic(auto)]

mod call;
mod read_disk;
mod rescue;
mod run;
mod words;

use std::process::ExitCode;

/// Ends with the status of the answer.
fn main(rt: HostRuntime) -> ExitCode {
    run::run(rt)
}
