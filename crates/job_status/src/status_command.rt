//! `status`: prints what the job file stands for.
ghost use Rattle.std.specs.Prelude.{option_map};
ghost use Rattle.report_text.specs.Job.{status_text};
ghost use Rattle.command_files.specs.Inputs.{InputsCall, TakesNothing};
ghost use Rattle.command_files.specs.Call.{bench_call, sink_call};
ghost use Rattle.command_files.specs.Said.{SaysText};
ghost use Rattle.command_files.specs.Shown.{answer_of};
ghost use Rattle.job_status.specs.Status.{StatusEnds};

use bench_model::Bench;
use job_file::{Job, OpenFault, open};
use outside_io::Sink;
use report_text::{Refusal, put_job};
use std::alloc::Global;

/// Prints the job for which the job file stands, or that there is none. The file is only read, the cells aren't looked at, and no input
/// is taken.
pub fn status<'a, B: Bench, O: Sink>(
    alloc: Global,
    bench: &mut B,
    out: &mut O,
) -> Result<(), Refusal<'a>>
    ensures { (inputs : InputsCall) → TakesNothing inputs → StatusEnds (bench_call B.tells (B.state bench.old) (B.state bench.new)) inputs
        (sink_call O.tells (O.state out.old) (O.state out.new)) (answer_of result) }
{
    match open(alloc, bench) {
        Ok(job) => print_job(out, Some(&job)),
        Err(OpenFault::NoJob) => print_job(out, None),
        Err(fault) => Err(Refusal::from(fault)),
    }
}

/// Prints a job, or that there is none.
fn print_job<'a, O: Sink>(out: &mut O, job: Option<&Job>) -> Result<(), Refusal<'a>>
    ensures { SaysText (sink_call O.tells (O.state out.old) (O.state out.new)) (status_text (option_map (λ j. j.now) job.entry)) (answer_of result) }
{
    put_job(out, job)?;
    Ok(())
}
