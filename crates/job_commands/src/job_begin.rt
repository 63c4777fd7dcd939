//! What `program` and `begin` do once their files are read.
ghost use Rattle.std.specs.Prelude.{◌≡◌, true, IsTrue};
ghost use Rattle.job_text.specs.Parts.{AreParts};
ghost use Rattle.job_file.specs.First.{SyncsFirst};
ghost use Rattle.command_files.specs.Answered.{IsOf, StandsEarly, on_job_file};
ghost use Rattle.command_files.specs.Call.{bench_call, sink_call, refused};
ghost use Rattle.command_files.specs.Shown.{answer_of};
ghost use Rattle.report_text.specs.Refusal.{store_fault};
ghost use Rattle.job_commands.specs.Begin.{begun_text, PrintsBegun};
ghost use Rattle.job_commands.specs.Steps.{has_alone, has_work, begun, BenchCounted, StartsParts, BeginsParts};
ghost use Rattle.job_commands.specs.Answers.{is_of_work, IsSound};
ghost use Rattle.job_commands.specs.Printed.{PrintsWork};

use crate::carry::carry;
use crate::start::start;
use bench_model::Bench;
use flash_session::Goal;
use job_text::JobParts;
use outside_io::Sink;
use report_text::{End, Refusal, put_end};
use std::alloc::Global;

/// Begins a job of these parts over a free file, and carries it to its image.
pub fn begin_job<'a, B: Bench, O: Sink>(
    alloc: Global,
    parts: &JobParts,
    bench: &mut B,
    out: &mut O,
) -> Result<(), Refusal<'a>>
    requires { AreParts parts.now }
    ensures told { IsTrue B.tells → BeginsParts (bench_call B.tells (B.state bench.old) (B.state bench.new))
        (sink_call O.tells (O.state out.old) (O.state out.new)) parts.now (answer_of result) }
    ensures early { StandsEarly on_job_file (bench_call B.tells (B.state bench.old) (B.state bench.new))
        (sink_call O.tells (O.state out.old) (O.state out.new)) (answer_of result) }
    ensures kind { IsOf has_work (answer_of result) }
    ensures prints { PrintsWork (B.state bench.old).cell_count (sink_call O.tells (O.state out.old) (O.state out.new)) (answer_of result) }
    ensures sized { is_of_work (answer_of result) ≡ true → parts.now.size ≡ (B.state bench.old).cell_count }
    ensures sound { IsSound (answer_of result) }
    ensures first { SyncsFirst B.tells B.state B.acts bench.old bench.new (answer_of result ≡ refused store_fault) }
    ensures counts { BenchCounted (bench_call B.tells (B.state bench.old) (B.state bench.new))
        (sink_call O.tells (O.state out.old) (O.state out.new)) (answer_of result) }
{
    start(alloc, parts, bench)?;
    after_begin(carry(alloc, Goal::New, bench, out))
}

/// Begins a job of these parts over a free file, and prints that it did.
pub(crate) fn begin_alone<'a, B: Bench, O: Sink>(
    alloc: Global,
    parts: &JobParts,
    bench: &mut B,
    out: &mut O,
) -> Result<(), Refusal<'a>>
    requires { AreParts parts.now }
    ensures told { IsTrue B.tells → StartsParts (bench_call B.tells (B.state bench.old) (B.state bench.new))
        (sink_call O.tells (O.state out.old) (O.state out.new)) begun_text parts.now (answer_of result) }
    ensures early { StandsEarly on_job_file (bench_call B.tells (B.state bench.old) (B.state bench.new))
        (sink_call O.tells (O.state out.old) (O.state out.new)) (answer_of result) }
    ensures kind { IsOf has_alone (answer_of result) }
    ensures prints { PrintsBegun (B.state bench.old).cell_count (sink_call O.tells (O.state out.old) (O.state out.new)) (answer_of result) }
    ensures sized { is_of_work (answer_of result) ≡ true → parts.now.size ≡ (B.state bench.old).cell_count }
    ensures sound { IsSound (answer_of result) }
    ensures counts { BenchCounted (bench_call B.tells (B.state bench.old) (B.state bench.new))
        (sink_call O.tells (O.state out.old) (O.state out.new)) (answer_of result) }
{
    start(alloc, parts, bench)?;
    put_end(out, End::Begun)?;
    Ok(())
}

/// The end of the work on a job that was begun. Where others change the bench's file, it may be free again; then it isn't the job.
fn after_begin<'a>(end: Result<(), Refusal<'a>>) -> Result<(), Refusal<'a>>
    ensures { answer_of result ≡ begun (answer_of end.entry) }
{
    match end {
        Err(Refusal::NoJob) => Err(Refusal::NotAJob { at: 0 }),
        end => end,
    }
}
