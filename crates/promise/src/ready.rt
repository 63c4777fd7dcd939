//! The premises of completeness can be met.
ghost use Rattle.std.specs.Prelude.{true, IsTrue, All};
ghost use Rattle.algo_calls.specs.Duties.{AllServe};
ghost use Rattle.bench_model.specs.Calls.{OnlyReads};
ghost use Rattle.bench_model.specs.Shown.{bench_of};
ghost use Rattle.board_file.specs.Shown.{shown as board_of};
ghost use Rattle.command_words.specs.Files.{FilesAsked, Command, begin, names_asked};
ghost use Rattle.command_words.specs.Words.{Asks};
ghost use Rattle.job_text.specs.Said.{algorithms_shown};
ghost use Rattle.promise.specs.Ready.{IsServed, PremisesAreMet};

use crate::top::flash;
use bench_model::MemoryBench;
use job_file::open;
use job_text::Job;
use octets::Word;
use outside_io::{Inputs, Sink};
use serve_law::a1_serves;
use std::alloc::Global;

/// Whether the job has one algorithm, which is A1 on a board that it serves.
fn serves(job: &Job) -> bool
    ensures { IsTrue result → AllServe (board_of job.now.board) (algorithms_shown job.now.algorithms) }
{
    match job.algorithms.as_slice() {
        [algorithm] => a1_serves(&job.board, algorithm),
        _ => false,
    }
}

/// Whether the job file stands for a job with one algorithm, which is A1 on a board that it serves.
fn is_served(alloc: Global, bench: &mut MemoryBench) -> bool
    ensures served { IsTrue result → IsServed (bench_of bench.old).file }
    ensures reads { OnlyReads true (bench_of bench.old) (bench_of bench.new) }
{
    match open(alloc, bench) {
        Ok(job) => serves(&job),
        Err(_) => false,
    }
}

/// Makes a call of `begin` over a bench in memory. Answers true if the call answers 0 and begins a job of A1 on a board that A1 serves. Then the
/// premises of completeness are met: those of `program` on the bench before the call, and those of `resume` and `revert` on the bench after it.
pub fn begin_ready<I: Inputs, O: Sink, E: Sink>(
    alloc: Global,
    words: &[Word],
    bench: &mut MemoryBench,
    inputs: &mut I,
    out: &mut O,
    err: &mut E,
) -> bool
    requires { (command : Command) → Asks words.now command → All (I.may_take inputs.old) (names_asked command) }
    ensures { IsTrue I.tells → (asked : FilesAsked) → Asks words.now (begin asked) → IsTrue result
        → PremisesAreMet asked (I.state inputs.old).stands bench.old bench.new }
{
    let status = flash(alloc, words, bench, inputs, out, err);
    status == 0 && is_served(alloc, bench)
}
