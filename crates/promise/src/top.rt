//! The top call, with the promise as its contract.
ghost use Rattle.std.specs.Prelude.{◌≡◌, ◌≤◌, ◌↔◌, ◌⊎◌, Option, IsTrue, All, length};
ghost use Rattle.faults.specs.Counts.{Rose};
ghost use Rattle.command_words.specs.Files.{Command, names_asked};
ghost use Rattle.command_words.specs.Words.{Asks, AsksNothing, Asked};
ghost use Rattle.command_files.specs.Inputs.{inputs_call};
ghost use Rattle.command_files.specs.Call as call;
ghost use Rattle.flm_cli.specs.Answers.{Answers};
ghost use Rattle.gang_commands.specs.Ends.{AllFinished, AllKeep, AllServed, NoneRoseIn};
ghost use Rattle.gang_commands.specs.Gangs as gang;
ghost use Rattle.gang_commands.specs.Words.{DoFit};
ghost use Rattle.promise.specs.Promise.{KeepsPromise, GangKeeps, fault_counts, call_of};
ghost use Rattle.promise.specs.Complete.{Completes};
ghost use Rattle.promise.specs.Recovery.{Resumes};
ghost use Rattle.promise.specs.Local.{KeepsToPlan, printed};

use bench_model::Bench;
use flm_cli::flmprog;
use gang_commands::flmgang;
use octets::Word;
use outside_io::{Inputs, Sink};
use std::alloc::Global;

/// Runs the command that the words give, as `flmprog` does, and keeps the promise. Words that fit no command are answered 2, or 1 if
/// memory runs out.
pub fn flash<B: Bench, I: Inputs, O: Sink, E: Sink>(
    alloc: Global,
    words: &[Word],
    bench: &mut B,
    inputs: &mut I,
    out: &mut O,
    err: &mut E,
) -> u8
    requires { (command : Command) → Asks words.now command → All (I.may_take inputs.old) (names_asked command) }
    ensures promise { IsTrue B.tells → IsTrue I.tells → (command : Command) → Asks words.now command
        → KeepsPromise command (call_of (I.state inputs.old).stands (B.state bench.old) (B.state bench.new)
        (fault_counts (I.state inputs.old).faults (I.state inputs.new).faults) (fault_counts (O.state out.old).faults (O.state out.new).faults) result) }
    ensures complete { IsTrue B.tells → IsTrue I.tells → (command : Command) → Asks words.now command
        → Completes command (call_of (I.state inputs.old).stands (B.state bench.old) (B.state bench.new)
        (fault_counts (I.state inputs.old).faults (I.state inputs.new).faults) (fault_counts (O.state out.old).faults (O.state out.new).faults) result) }
    ensures resumes { IsTrue B.tells → IsTrue I.tells → (command : Command) → Asks words.now command
        → Resumes command (call_of (I.state inputs.old).stands (B.state bench.old) (B.state bench.new)
        (fault_counts (I.state inputs.old).faults (I.state inputs.new).faults) (fault_counts (O.state out.old).faults (O.state out.new).faults) result) }
    ensures answers { (asked : Option Command) → Asked words.now asked → Answers (call.call_of result
        (call.bench_call B.tells (B.state bench.old) (B.state bench.new)) (inputs_call I.tells (I.state inputs.old) (I.state inputs.new))
        (call.sink_call O.tells (O.state out.old) (O.state out.new)) (call.sink_call E.tells (E.state err.old) (E.state err.new))) asked }
    ensures usage { AsksNothing words.now → (result ≡ 2) ⊎ (result ≡ 1) }
    ensures local { IsTrue B.tells → IsTrue I.tells → (command : Command) → Asks words.now command
        → KeepsToPlan command (call_of (I.state inputs.old).stands (B.state bench.old) (B.state bench.new)
        (fault_counts (I.state inputs.old).faults (I.state inputs.new).faults) (fault_counts (O.state out.old).faults (O.state out.new).faults) result)
        (printed O.tells (O.state out.old).taken (O.state out.new).taken) }
    ensures forward { IsTrue B.tells → (command : Command) → Asks words.now command → (B.state bench.old).moment ≤ (B.state bench.new).moment }
{
    flmprog(alloc, words, bench, inputs, out, err)
}

/// Carries the job of each bench to its image, as `flmgang` does, and keeps the promise for each bench by its own line.
pub fn flash_gang<B: Bench, O: Sink, E: Sink>(
    alloc: Global,
    words: &[Word],
    benches: &mut [B],
    out: &mut O,
    err: &mut E,
) -> u8
    ensures promise { IsTrue B.tells → GangKeeps B.Bench benches.old benches.new O.tells (O.state out.old).taken (O.state out.new).taken result }
    ensures answers { gang.Answers B.Bench (length words.now) benches.old benches.new (call.sink_call O.tells (O.state out.old) (O.state out.new))
        (call.sink_call E.tells (E.state err.old) (E.state err.new)) result }
    ensures usage { (result ≡ 2) ↔ (DoFit (length words.now) (length benches.old) → ⊥) }
    ensures finished { IsTrue B.tells → result ≡ 0 → AllFinished B.Bench benches.old benches.new }
    ensures campaigns { IsTrue B.tells → AllKeep B.Bench result benches.old benches.new }
    ensures complete { IsTrue B.tells → DoFit (length words.now) (length benches.old) → AllServed B.Bench benches.old
        → NoneRoseIn B.Bench benches.old benches.new
        → (Rose (O.state out.old).faults (O.state out.new).faults → ⊥) → (result ≡ 0) ⊎ (result ≡ 1) }
{
    flmgang(alloc, words, benches, out, err)
}
