//! The call of a gang.
ghost use Rattle.std.specs.Prelude.{◌≡◌, ◌≤◌, ◌↔◌, ◌⊎◌, true, length, IsTrue};
ghost use Rattle.faults.specs.Counts.{Rose};
ghost use Rattle.command_files.specs.Call.{sink_call, refused};
ghost use Rattle.command_files.specs.Said.{Says};
ghost use Rattle.gang_run.specs.Gangs.{IsGang, AreReady};
ghost use Rattle.report_text.specs.Shown.{shown};
ghost use Rattle.gang_commands.specs.Ends.{AllFinished, AllKeep, AllServed, NoneRoseIn};
ghost use Rattle.gang_commands.specs.Gangs.{Answers};
ghost use Rattle.gang_commands.specs.Puts.{Runs};
ghost use Rattle.gang_commands.specs.Words.{DoFit};

use crate::lines::put_targets;
use bench_model::Bench;
use faults::OutOfMemory;
use flash_session::scripts_that_serve_reach_their_goal;
use gang_run::Gang;
use octets::Word;
use outside_io::{OutputFault, Sink};
use report_text::{Refusal, put_refusal};
use std::alloc::Global;

/// The most words: a job file and a cells file for each of 16 targets.
const MOST_WORDS: usize = 32;

/// The steps of a turn.
const STEPS: u64 = 1000;

/// Carries the job of each bench to its image, each target in order by turns of 1,000 steps until all have ended. Then it puts a line for each
/// on `out`: that it is done, or why not. The words are pairs of a job file and a cells file, one for each bench.
///
/// Answers 0 where all are done, and otherwise the status of the first target that isn't. It answers 2 and does nothing without words, with
/// an odd number of them, with more than 32, or with other than two for each bench. It answers 1 where memory ran out, before any cell is
/// changed, and 10 where `out` fails, once all targets have ended. These three put one line on `err`, whose faults change no status.
pub fn flmgang<B: Bench, O: Sink, E: Sink>(
    alloc: Global,
    words: &[Word],
    benches: &mut [B],
    out: &mut O,
    err: &mut E,
) -> u8
    ensures answers { Answers B.Bench (length words.now) benches.old benches.new (sink_call O.tells (O.state out.old) (O.state out.new))
        (sink_call E.tells (E.state err.old) (E.state err.new)) result }
    ensures usage { (result ≡ 2) ↔ (DoFit (length words.now) (length benches.old) → ⊥) }
    ensures finished { IsTrue B.tells → result ≡ 0 → AllFinished B.Bench benches.old benches.new }
    ensures campaigns { IsTrue B.tells → AllKeep B.Bench result benches.old benches.new }
    ensures complete { IsTrue B.tells → DoFit (length words.now) (length benches.old) → AllServed B.Bench benches.old
        → NoneRoseIn B.Bench benches.old benches.new
        → (Rose (O.state out.old).faults (O.state out.new).faults → ⊥) → (result ≡ 0) ⊎ (result ≡ 1) }
{
    if !do_fit(words.len(), benches.len()) {
        return refuse(err, Refusal::Usage);
    }
    // The clause `complete` rests on this call, which does nothing.
    scripts_that_serve_reach_their_goal::<B>();
    match Gang::open(alloc, benches) {
        Ok(gang) => run(gang, benches, out, err),
        Err(OutOfMemory) => refuse(err, Refusal::OutOfMemory),
    }
}

/// Whether the words are pairs for this number of benches, which is 1 to 16.
fn do_fit(words: usize, benches: usize) -> bool
    ensures { (result ≡ true) ↔ DoFit words benches }
{
    words != 0 && words <= MOST_WORDS && words % 2 == 0 && words / 2 == benches
}

/// Gives the targets turns until all have ended, and puts their lines.
fn run<B: Bench, O: Sink, E: Sink>(gang: Gang, benches: &mut [B], out: &mut O, err: &mut E) -> u8
    requires gang { IsGang gang }
    requires count { length benches.old ≡ length gang.slots.items }
    requires few { length benches.old ≤ 16 }
    requires ready { AreReady B.Bench gang benches.old }
    ensures { Runs B.Bench gang benches.old benches.new (sink_call O.tells (O.state out.old) (O.state out.new))
        (sink_call E.tells (E.state err.old) (E.state err.new)) result }
{
    let mut gang = gang;
    gang.run(benches, STEPS);
    let put = put_targets(&gang, benches.len(), out);
    gang.free();
    match put {
        Ok(status) => status,
        Err(OutputFault) => refuse(err, Refusal::OutputFault),
    }
}

/// Puts the line of a refusal on `err`, and answers its status.
fn refuse<E: Sink>(err: &mut E, refusal: Refusal<'_>) -> u8
    ensures { Says result (sink_call E.tells (E.state err.old) (E.state err.new)) (refused (shown refusal.entry)) }
{
    let _ = put_refusal(err, &refusal);
    refusal.status()
}
