//! Rounds of lists, and what they show together.
ghost use Rattle.std.specs.Prelude.{◌≡◌, length, map, [], ◌∷◌, IsTrue, IfOk};
ghost use Rattle.board_file.specs.Shown.{shown as board_of};
ghost use Rattle.flm_descriptor.specs.Shown.{Shown as AlgorithmShown, shown as algorithm_of};
ghost use Rattle.algo_calls.specs.Duties.{Serves};
ghost use Rattle.serve_law.specs.Table.{IsA1On};
ghost use Rattle.duty_trials.specs.Subjects.{board_in, algorithm_in};
ghost use Rattle.duty_rounds.specs.declared.verdict.Verdict.TheVariants as a_verdict;
ghost use Rattle.duty_rounds.specs.Verdicts.{AreFit, SaysTried, Says, IsTrueOf};

use crate::plan::{LISTS, Plan};
use crate::trial::try_plan;
use crate::verdict::{Report, Trials, Verdict};
use board_file::Board;
use duty_trials::{Subject, Tally, mix};
use faults::OutOfMemory;
use flm_descriptor::Algorithm;
use serve_law::a1_serves;
use std::alloc::Global;

/// How many rounds to make, and the seed of their contents and bytes.
#[derive(Clone, Copy)]
pub struct Rounds {
    pub seed: u32,
    pub rounds: u32,
}

/// Gets reports of how far the trials have come.
pub trait Progress {
    /// One list more was tried, with this number of calls.
    fn tried(&mut self, calls: u64);
}

/// Tries the list with this number, if the algorithm has its function, and adds it to the count.
fn try_number<P: Progress>(
    alloc: Global,
    subject: &Subject<'_>,
    rounds: Rounds,
    number: u64,
    cells: &mut [u8],
    before: Trials,
    progress: &mut P,
) -> Result<Trials, OutOfMemory>
    requires cells { length cells.old ≡ subject.now.cells }
    requires tried { before.verdict ≡ a_verdict.Tried }
    ensures { IfOk result (λ t. SaysTried (board_in subject.now) (algorithm_in subject.now) subject.now.region t.verdict) }
{
    let plan = Plan::at(number % LISTS);
    if !subject.has(plan.work) {
        return Ok(before);
    }
    let seed = mix(u64::from(rounds.seed) ^ mix(number));
    let trial = try_plan(alloc, subject, &plan, seed, cells)?;
    progress.tried(trial.tally.calls());
    Ok(Trials {
        verdict: trial.verdict,
        lists: before.lists.saturating_add(1),
        tally: before.tally.with(trial.tally),
    })
}

/// Tries rounds of lists, up to the first breach.
fn try_rounds<P: Progress>(
    alloc: Global,
    subject: &Subject<'_>,
    rounds: Rounds,
    cells: &mut [u8],
    progress: &mut P,
) -> Result<Trials, OutOfMemory>
    requires { length cells.old ≡ subject.now.cells }
    ensures { IfOk result (λ t. SaysTried (board_in subject.now) (algorithm_in subject.now) subject.now.region t.verdict) }
{
    let mut trials = Trials {
        verdict: Verdict::Tried,
        lists: 0,
        tally: Tally::default(),
    };
    for number in 0..u64::from(rounds.rounds) * LISTS {
        trials = try_number(alloc, subject, rounds, number, cells, trials, progress)?;
        if trials.verdict.is_broken() {
            return Ok(trials);
        }
    }
    Ok(trials)
}

/// Whether a theorem shows that the algorithm keeps its duties.
fn is_proved(subject: &Subject<'_>) -> bool
    ensures serves { IsTrue result → Serves (board_in subject.now) (algorithm_in subject.now) subject.now.region }
    ensures exact { subject.now.region ≡ 0 → IsA1On (board_in subject.now) (algorithm_in subject.now) → IsTrue result }
{
    subject.region == 0 && a1_serves(subject.board, subject.algorithm)
}

/// What is known of one algorithm after rounds of lists were tried.
fn judge_one<P: Progress>(
    alloc: Global,
    subject: &Subject<'_>,
    rounds: Rounds,
    progress: &mut P,
) -> Result<Trials, OutOfMemory>
    ensures says { IfOk result (λ t. Says (board_in subject.now) (algorithm_in subject.now) subject.now.region t.verdict) }
    ensures proved { subject.now.region ≡ 0 → IsA1On (board_in subject.now) (algorithm_in subject.now) → IfOk result (λ t. t.verdict ≡ a_verdict.Proved) }
{
    let mut cells = vec![in alloc; 0; subject.cells as usize]?;
    let trials = try_rounds(alloc, subject, rounds, &mut cells, progress)?;
    if is_proved(subject) {
        return Ok(Trials {
            verdict: Verdict::Proved,
            lists: trials.lists,
            tally: trials.tally,
        });
    }
    Ok(trials)
}

/// What is known of the algorithms of a board, one for each region, after rounds of lists were tried of each up to the first breach. A
/// bench with no room to record a call's operations counts as out of memory.
pub fn judge<P: Progress>(
    alloc: Global,
    board: &Board,
    algorithms: &[Algorithm],
    rounds: Rounds,
    progress: &mut P,
) -> Result<Report, OutOfMemory>
    requires { AreFit (board_of board.now) (map algorithm_of algorithms.now) }
    ensures says { IfOk result (λ r. IsTrueOf (board_of board.now) (map algorithm_of algorithms.now) r.verdict) }
    ensures proved { (a : AlgorithmShown) → map algorithm_of algorithms.now ≡ a ∷ [] → IsA1On (board_of board.now) a
        → IfOk result (λ r. r.verdict ≡ a_verdict.Proved) }
{
    let mut verdict = Verdict::Proved;
    let mut trials = Vec::new(alloc);
    for region in 0..algorithms.len() {
        let subject = Subject::new(alloc, board, &algorithms[region], region)?;
        let one = judge_one(alloc, &subject, rounds, progress)?;
        trials.push(one)?;
        verdict = verdict.beside(one.verdict);
        if verdict.is_broken() {
            return Ok(Report { verdict, trials });
        }
    }
    Ok(Report { verdict, trials })
}
