//! The calls of a job's algorithms.
ghost use Rattle.std.specs.Prelude.{◌≡◌, ◌∷◌, IsTrue, IfOk};
ghost use Rattle.algo_calls.specs.Shows.{setup_at};
ghost use Rattle.algo_calls.specs.Setups.{setup_of};
ghost use Rattle.algo_loader.specs.Places.{has_room};
ghost use Rattle.board_file.specs.Shown.{shown as board_of};
ghost use Rattle.flash_layout.specs.Maps.{board_map};
ghost use Rattle.flm_descriptor.specs.Shown.{shown as algorithm_of};
ghost use Rattle.job_text.specs.Said.{algorithms_shown};
ghost use Rattle.flash_session.specs.Regions.{First};
ghost use Rattle.flash_session.specs.Starts.{AreCallsFor, later_shown};
ghost use Rattle.flash_session.specs.Targets.{map_of};

use algo_calls::CallsIn;
use algo_loader::place;
use board_file::Board;
use faults::OutOfMemory;
use flm_descriptor::Algorithm;
use job_text::Job;
use std::alloc::Global;
use target_core::Machine;

/// The algorithms of a job: the first region's and, if the board has two regions, the second one's.
pub(crate) fn algorithms_of(job: &Job) -> (&Algorithm, Option<&Algorithm>)
    ensures { algorithms_shown job.now.algorithms ≡ algorithm_of result.0.now ∷ later_shown result.1 }
{
    match job.algorithms.as_slice().split_first() {
        Some((one, rest)) => (one, rest.first()),
        None => unreachable!(),
    }
}

/// A new machine of a board with an algorithm that has room in the board's RAM.
fn calls_for(alloc: Global, board: &Board, algorithm: &Algorithm) -> Result<CallsIn, OutOfMemory>
    requires { IsTrue (has_room (algorithm_of algorithm.now) (board_of board.now)) }
    ensures setup { IfOk result (λ calls. setup_at calls ≡ setup_of (algorithm_of algorithm.now) (board_of board.now)) }
    ensures map { IfOk result (λ calls. map_of calls ≡ board_map (board_of board.now)) }
{
    let layout = match place(algorithm, board) {
        Ok(layout) => layout,
        Err(_) => unreachable!(),
    };
    let machine = Machine::new(alloc, board)?;
    let algorithm = algorithm.copy(alloc)?;
    Ok(CallsIn::new(machine, layout, algorithm, board))
}

/// The calls of the first region's algorithm and, if the board has two regions, of the second one's. Each is on a new machine of the job's
/// board.
pub(crate) fn calls_of_job(
    alloc: Global,
    job: &Job,
) -> Result<(CallsIn, Option<CallsIn>), OutOfMemory>
    ensures { IfOk result (λ calls. AreCallsFor job.now First calls.0 calls.1) }
{
    let (first, second) = algorithms_of(job);
    let calls = calls_for(alloc, &job.board, first)?;
    let other = match second {
        Some(algorithm) => Some(calls_for(alloc, &job.board, algorithm)?),
        None => None,
    };
    Ok((calls, other))
}
