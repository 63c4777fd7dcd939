//! How `program` and `begin` begin a job.
ghost use Rattle.std.specs.Prelude.{◌≡◌, Bool, [], IsTrue, IsOk};
ghost use Rattle.outside_io.specs.State.{SinkState};
ghost use Rattle.job_text.specs.Parts.{AreParts};
ghost use Rattle.job_file.specs.First.{SyncsFirst};
ghost use Rattle.command_files.specs.Answered.{IsOf, StandsEarly, on_job_file};
ghost use Rattle.command_files.specs.Call.{bench_call, sink_call, refused};
ghost use Rattle.command_files.specs.Shown.{answer_of};
ghost use Rattle.report_text.specs.Refusal.{store_fault};
ghost use Rattle.job_commands.specs.Answers.{IsSound};
ghost use Rattle.job_commands.specs.Steps.{has_start, BenchCounted, StartsParts};

use crate::refusals::begin_refusal;
use bench_model::Bench;
use job_file::begin;
use job_text::JobParts;
use report_text::Refusal;
use std::alloc::Global;

/// Begins a job of these parts over a free file. It prints nothing, so the clauses speak of any sink that took nothing meanwhile.
pub(crate) fn start<'a, B: Bench>(
    alloc: Global,
    parts: &JobParts,
    bench: &mut B,
) -> Result<(), Refusal<'a>>
    requires { AreParts parts.now }
    ensures told { IsTrue B.tells → (told : Bool) (o : SinkState) → StartsParts (bench_call B.tells (B.state bench.old) (B.state bench.new))
        (sink_call told o o) [] parts.now (answer_of result) }
    ensures early { (told : Bool) (o : SinkState) → StandsEarly on_job_file (bench_call B.tells (B.state bench.old) (B.state bench.new))
        (sink_call told o o) (answer_of result) }
    ensures kind { IsOf has_start (answer_of result) }
    ensures sized { IsOk result → parts.now.size ≡ (B.state bench.old).cell_count }
    ensures sound { IsSound (answer_of result) }
    ensures first { SyncsFirst B.tells B.state B.acts bench.old bench.new (answer_of result ≡ refused store_fault) }
    ensures counts { (told : Bool) (o : SinkState) → BenchCounted (bench_call B.tells (B.state bench.old) (B.state bench.new))
        (sink_call told o o) (answer_of result) }
    ensures count { (B.state bench.new).cell_count ≡ (B.state bench.old).cell_count }
{
    match begin(alloc, bench, parts) {
        Ok(()) => Ok(()),
        Err(fault) => Err(begin_refusal(fault)),
    }
}
