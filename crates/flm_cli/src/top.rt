//! The top call.
ghost use Rattle.std.specs.Prelude.{Option, All};
ghost use Rattle.command_words.specs.Lines.{IsReadAs};
ghost use Rattle.command_words.specs.Words.{Command, Asks, Asked, names_asked};
ghost use Rattle.command_files.specs.Inputs.{inputs_call};
ghost use Rattle.flm_cli.specs.Answers.{EndsOf, Answers};
ghost use Rattle.command_files.specs.Call.{call_of, bench_call, sink_call};
ghost use Rattle.command_files.specs.Said.{Says};
ghost use Rattle.command_files.specs.Shown.{answer_of};

use crate::compare::compare;
use crate::inspect::inspect;
use crate::plan::plan;
use crate::verify::verify;
use bench_model::Bench;
use command_words::{CommandLine, Request};
use demo_job::demo;
use device_dump::dump;
use flash_session::Goal;
use job_commands::{begin, go_on, program};
use job_status::status;
use octets::Word;
use outside_io::{Inputs, Sink};
use report_text::{Refusal, put_refusal};
use std::alloc::Global;

/// Runs the command that the words give on the bench, with its files from `inputs` and its text to `out`. Answers the exit status of the
/// program. Each status but 0 puts one line on `err`; faults of `err` change no status.
pub fn flmprog<B: Bench, I: Inputs, O: Sink, E: Sink>(
    alloc: Global,
    words: &[Word],
    bench: &mut B,
    inputs: &mut I,
    out: &mut O,
    err: &mut E,
) -> u8
    requires { (command : Command) → Asks words.now command → All (I.may_take inputs.old) (names_asked command) }
    ensures { (asked : Option Command) → Asked words.now asked → Answers (call_of result
        (bench_call B.tells (B.state bench.old) (B.state bench.new)) (inputs_call I.tells (I.state inputs.old) (I.state inputs.new))
        (sink_call O.tells (O.state out.old) (O.state out.new)) (sink_call E.tells (E.state err.old) (E.state err.new))) asked }
{
    match CommandLine::read(alloc, words) {
        Ok(line) => {
            let end = run(alloc, words, &line, bench, inputs, out);
            report(err, &end)
        }
        Err(_) => report(err, &Err(Refusal::OutOfMemory)),
    }
}

/// The work of a call whose words were read as this line, without its status and its line on `err`.
fn run<'a, B: Bench, I: Inputs, O: Sink>(
    alloc: Global,
    words: &[Word],
    line: &'a CommandLine,
    bench: &mut B,
    inputs: &mut I,
    out: &mut O,
) -> Result<(), Refusal<'a>>
    requires read { IsReadAs words.now line.now }
    requires may_take { (command : Command) → Asks words.now command → All (I.may_take inputs.old) (names_asked command) }
    ensures { (asked : Option Command) → Asked words.now asked → EndsOf asked (bench_call B.tells (B.state bench.old) (B.state bench.new))
        (inputs_call I.tells (I.state inputs.old) (I.state inputs.new)) (sink_call O.tells (O.state out.old) (O.state out.new)) (answer_of result) }
{
    match line.request() {
        None => Err(Refusal::Usage),
        Some(Request::Program(names)) => program(alloc, &names, bench, inputs, out),
        Some(Request::Begin(names)) => begin(alloc, &names, bench, inputs, out),
        Some(Request::Resume) => go_on(alloc, Goal::New, bench, out),
        Some(Request::Revert) => go_on(alloc, Goal::Old, bench, out),
        Some(Request::Plan(names)) => plan(alloc, &names, bench, inputs, out),
        Some(Request::Verify(names)) => verify(alloc, &names, bench, inputs, out),
        Some(Request::Compare { image }) => compare(alloc, image, bench, inputs, out),
        Some(Request::Status) => status(alloc, bench, out),
        Some(Request::Inspect { flm }) => inspect(alloc, flm, bench, inputs, out),
        Some(Request::Dump { form, board }) => dump(alloc, form, board, bench, inputs, out),
        Some(Request::Demo { seed }) => demo(alloc, seed, out),
    }
}

/// The status of an end. A refusal's line goes to `err`.
fn report<E: Sink>(err: &mut E, end: &Result<(), Refusal<'_>>) -> u8
    ensures { Says result (sink_call E.tells (E.state err.old) (E.state err.new)) (answer_of end.now) }
{
    match end {
        Ok(()) => 0,
        Err(refusal) => {
            let _ = put_refusal(err, refusal);
            refusal.status()
        }
    }
}
