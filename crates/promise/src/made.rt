//! A campaign that is made.
ghost use Rattle.std.specs.Prelude.{◌⊎◌, IsTrue, All};
ghost use Rattle.bench_model.specs.Shown.{bench_of};
ghost use Rattle.flash_session.specs.declared.goal.Goal.{Goal};
ghost use Rattle.command_words.specs.Files.{FilesAsked, Command, program, begin, resume, revert, names_asked};
ghost use Rattle.command_words.specs.Words.{Asks};
ghost use Rattle.promise.specs.Campaign.{command_to};
ghost use Rattle.promise.specs.Made.{LeavesFree, WereMade};

use crate::top::flash;
use bench_model::{MemoryBench, Pick};
use octets::Word;
use outside_io::{Inputs, Sink};
use std::alloc::Global;

/// Makes two calls over a bench in memory, and loses the power between them: one of `program` or `begin`, and one of `resume` or
/// `revert`. They are a campaign, so the law of campaigns speaks of calls that can be made. Answers the status of each.
pub fn call_lose_call<I: Inputs, O: Sink, E: Sink>(
    alloc: Global,
    words: &[Word],
    again: &[Word],
    bench: &mut MemoryBench,
    pick: Pick,
    inputs: &mut I,
    out: &mut O,
    err: &mut E,
) -> (u8, u8)
    requires may_take { (command : Command) → Asks words.now command → All (I.may_take inputs.old) (names_asked command) }
    requires again { Asks again.now resume ⊎ Asks again.now revert }
    ensures { IsTrue I.tells → (asked : FilesAsked) (goal : Goal) → Asks words.now (program asked) ⊎ Asks words.now (begin asked)
        → Asks again.now (command_to goal) → LeavesFree (bench_of bench.old)
        → WereMade asked goal bench.old bench.new (I.state inputs.old) (I.state inputs.new) (O.state out.old) (O.state out.new) result.0 result.1 }
{
    let first = flash(alloc, words, bench, inputs, out, err);
    bench.power_loss(pick);
    let last = flash(alloc, again, bench, inputs, out, err);
    (first, last)
}
