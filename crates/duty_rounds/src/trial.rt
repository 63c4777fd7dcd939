//! The trial of one list of a round.
ghost use Rattle.std.specs.Prelude.{◌≡◌, ◌<◌, ℕ, length, slice_index, IfOk, IfSome, IfNone};
ghost use Rattle.duty_trials.specs.Ended.{IfBroken};
ghost use Rattle.duty_trials.specs.Lists.{HasFunction};
ghost use Rattle.duty_trials.specs.Subjects.{board_in, algorithm_in};
ghost use Rattle.duty_rounds.specs.Verdicts.{Breaks, SaysTried};
ghost use Rattle.duty_rounds.specs.Differences.{IsFirstDifference};
ghost use Rattle.board_file.specs.Shown.{Shown as BoardShown};
ghost use Rattle.flm_descriptor.specs.Shown.{Shown as AlgorithmShown};

use crate::choice::choose;
use crate::contents::put_contents;
use crate::plan::Plan;
use crate::verdict::{Broken, Difference, Verdict};
use duty_trials::{Ended, Filling, Stand, Subject, Tally};
use faults::OutOfMemory;
use std::alloc::Global;

/// What the trial of a list shows, and what its calls took.
#[derive(Clone, Copy)]
pub(crate) struct Trial {
    pub verdict: Verdict,
    pub tally: Tally,
}

/// The first place at which the found contents differ from the wanted ones.
fn first_difference(found: &[u8], wanted: &[u8]) -> Option<Difference>
    ensures some { IfSome result (IsFirstDifference found.now wanted.now) }
    ensures none { IfNone result ((k : ℕ) → k < length found.now → k < length wanted.now → slice_index found.now k ≡ slice_index wanted.now k) }
{
    for place in 0..found.len().min(wanted.len()) {
        if found[place] != wanted[place] {
            return Some(Difference {
                place,
                wanted: wanted[place],
                found: found[place],
            });
        }
    }
    None
}

/// What the end of a list shows. If the bench had no room to record all calls, the answer is out of memory.
fn verdict_of(
    region: usize,
    plan: &Plan,
    seed: u64,
    ended: Ended,
    difference: Option<Difference>,
) -> Result<Verdict, OutOfMemory>
    ensures { (b : BoardShown) (a : AlgorithmShown) → IfBroken ended (Breaks b a region plan.now.work) → IfOk result (SaysTried b a region) }
{
    match ended {
        Ended::Kept => Ok(Verdict::Tried),
        Ended::Broken(turn, breach) => Ok(Verdict::Broken(Broken {
            region,
            plan: *plan,
            seed,
            turn,
            breach,
            difference,
        })),
        Ended::Fault => Err(OutOfMemory),
    }
}

/// Tries a list, with contents and bytes from a seed. `cells` has the length of the board's cells. It may hold any bytes before, and holds
/// what the ideal device leaves after the list.
pub(crate) fn try_plan(
    alloc: Global,
    subject: &Subject<'_>,
    plan: &Plan,
    seed: u64,
    cells: &mut [u8],
) -> Result<Trial, OutOfMemory>
    requires cells { length cells.old ≡ subject.now.cells }
    requires function { HasFunction (algorithm_in subject.now).entries plan.now.work }
    ensures { IfOk result (λ t. SaysTried (board_in subject.now) (algorithm_in subject.now) subject.now.region t.verdict) }
{
    let set = choose(alloc, subject, plan.work, seed)?;
    put_contents(subject, plan, seed, &set, cells);
    let mut stand = Stand::new(alloc, subject, cells)?;
    let filling = Filling {
        bytes: plan.bytes,
        seed,
        empty: subject.algorithm.device.empty,
    };
    let ended = stand.try_list(subject, plan.work, &set, &filling, cells);
    let difference = match ended {
        Ended::Broken(_, _) => first_difference(stand.cells(), cells),
        Ended::Kept | Ended::Fault => None,
    };
    Ok(Trial {
        verdict: verdict_of(subject.region, plan, seed, ended, difference)?,
        tally: stand.tally,
    })
}
