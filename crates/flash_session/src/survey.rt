//! The survey of a job's regions.
ghost use Rattle.std.specs.Prelude.{◌≡◌, ◌≤◌, ◌+◌, ◌∷◌, option_to_list, IsTrue, IfOk, None, length};
ghost use Rattle.bench_model.specs.Calls.{IsRead};
ghost use Rattle.bench_model.specs.Counted.{is_store_fault, is_device_fault, fault_in, IsCounted};
ghost use Rattle.board_file.specs.Limits.{size_of};
ghost use Rattle.flm_descriptor.specs.Shown.{shown as algorithm_of};
ghost use Rattle.job_text.specs.Said.{algorithms_shown};
ghost use Rattle.job_text.specs.Stands.{StandsFor};
ghost use Rattle.flash_session.specs.Found.{IsFound, AreFound};
ghost use Rattle.flash_session.specs.Goals.{goal_in};
ghost use Rattle.flash_session.specs.Starts.{later_shown};
ghost use Rattle.flash_session.specs.Surveys.{HasSurveyed, survey_shown, survey_fault};
ghost use Rattle.flash_session.specs.SurveyFacts.{HasRoom, IsSurvey, AreRegionSurveys};

use crate::cursor::{Cursor, Place, RegionIndex};
use crate::fault::SurveyFault;
use crate::goal::Goal;
use crate::phase::Phase;
use crate::player::Player;
use crate::ready::Survey;
use crate::region_calls::{algorithms_of, calls_of_job};
use crate::region_plan::{RegionPlan, SessionWork};
use crate::region_survey::{Source, survey_region};
use crate::windows::Unread;
use bench_model::Bench;
use faults::OutOfMemory;
use flm_descriptor::Algorithm;
use job_text::Job;
use ram_arena::Arena;
use std::alloc::Global;

/// A buffer of `len` zero bytes.
fn zeros(alloc: Global, len: usize) -> Result<Vec<u8>, OutOfMemory>
    ensures { IfOk result (λ bytes. length bytes.items ≡ len) }
{
    Ok(vec![in alloc; 0u8; len]?)
}

/// Surveys a region whose first cell is at place `start`: takes the memory of its plan, reads its cells, and makes the plan that leads to a
/// goal.
fn survey_part<B: Bench>(
    alloc: Global,
    bench: &mut B,
    job: &Job,
    algorithm: &Algorithm,
    start: u32,
    goal: Goal,
) -> Result<RegionPlan, SurveyFault>
    requires inside { start + algorithm.now.device.size ≤ size_of job.now.board.regions }
    requires count { (B.state bench.old).cell_count ≡ size_of job.now.board.regions }
    requires idle { IsTrue B.tells → (B.state bench.old).operation ≡ None }
    requires stands { IsTrue B.tells → StandsFor job.now (B.state bench.old).file }
    ensures found { IfOk result (λ r. IsFound B.tells job.now (algorithm_of algorithm.now) start (B.state bench.old).cells
        (goal_in job.now goal (B.state bench.old).file) r) }
    ensures reads { IsRead B.tells (B.state bench.old) (B.state bench.new) }
    ensures store { IsCounted (B.state bench.old).store_faults (B.state bench.new).store_faults (is_store_fault (fault_in survey_fault result)) }
    ensures device { IsCounted (B.state bench.old).device_faults (B.state bench.new).device_faults (is_device_fault (fault_in survey_fault result)) }
{
    let mut part = RegionPlan::new(alloc, algorithm, start)?;
    let source = Source::Job { job, goal };
    match survey_region(bench, source, &job.board.weights, algorithm, &mut part) {
        Ok(()) => Ok(part),
        Err(Unread::Device) => Err(SurveyFault::DeviceFault),
        Err(Unread::Store) => Err(SurveyFault::StoreFault),
    }
}

/// The bytes of the longest page of the regions.
fn longest_page(first: &Algorithm, second: Option<&Algorithm>) -> u32
    ensures { HasRoom (algorithm_of first.now ∷ later_shown second.entry) result }
{
    let page = first.device.page;
    match second {
        Some(algorithm) => page.max(algorithm.device.page),
        None => page,
    }
}

/// Surveys the regions of a job: reads the cells, and makes the plans that lead to a goal.
fn survey_work<B: Bench>(
    alloc: Global,
    bench: &mut B,
    job: &Job,
    goal: Goal,
) -> Result<SessionWork, SurveyFault>
    requires count { (B.state bench.old).cell_count ≡ size_of job.now.board.regions }
    requires idle { IsTrue B.tells → (B.state bench.old).operation ≡ None }
    requires stands { IsTrue B.tells → StandsFor job.now (B.state bench.old).file }
    ensures found { IfOk result (λ t. AreFound B.tells job.now 0 (algorithms_shown job.now.algorithms) (B.state bench.old).cells
        (goal_in job.now goal (B.state bench.old).file) (t.first ∷ option_to_list t.second)) }
    ensures goal { IfOk result (λ t. t.goal ≡ goal) }
    ensures reads { IsRead B.tells (B.state bench.old) (B.state bench.new) }
    ensures store { IsCounted (B.state bench.old).store_faults (B.state bench.new).store_faults (is_store_fault (fault_in survey_fault result)) }
    ensures device { IsCounted (B.state bench.old).device_faults (B.state bench.new).device_faults (is_device_fault (fault_in survey_fault result)) }
{
    let (algorithm, other) = algorithms_of(job);
    let first = survey_part(alloc, bench, job, algorithm, 0, goal)?;
    let Some(other) = other else {
        return Ok(SessionWork {
            goal,
            first,
            second: None,
        });
    };
    let start = algorithm.device.size;
    let second = survey_part(alloc, bench, job, other, start, goal)?;
    Ok(SessionWork {
        goal,
        first,
        second: Some(second),
    })
}

/// A player for a job's regions, on new machines of the job's board, with its RAM and a buffer for a page.
fn player_for(alloc: Global, job: &Job, work: SessionWork) -> Result<Survey, OutOfMemory>
    ensures session { IfOk result (λ w. w.player.work ≡ work) }
    ensures work { IfOk result (λ w. AreRegionSurveys (algorithms_shown job.now.algorithms) 0 (work.first ∷ option_to_list work.second)
        → IsSurvey job.now w) }
{
    let (algorithm, other) = algorithms_of(job);
    let arena = Arena::new(alloc, &[job.board.ram_size])?;
    let page = zeros(alloc, longest_page(algorithm, other) as usize)?;
    let machines = calls_of_job(alloc, job)?;
    let (calls, other_calls) = machines;
    let player = Player {
        calls,
        moved: RegionIndex::First,
        other: other_calls,
        window: 0,
        work,
        page,
        made: 0,
        place: Place::At(Cursor::Begin {
            region: RegionIndex::First,
            phase: Phase::Erase,
        }),
    };
    Ok(Survey { player, arena })
}

/// Surveys the regions of a job, and takes all memory of a session.
pub(crate) fn survey_for<B: Bench>(
    alloc: Global,
    bench: &mut B,
    job: &Job,
    goal: Goal,
) -> Result<Survey, SurveyFault>
    requires count { (B.state bench.old).cell_count ≡ size_of job.now.board.regions }
    requires idle { IsTrue B.tells → (B.state bench.old).operation ≡ None }
    requires stands { IsTrue B.tells → StandsFor job.now (B.state bench.old).file }
    ensures found { IfOk result (λ w. HasSurveyed B.tells job.now goal (B.state bench.old).file (B.state bench.old).cells (survey_shown w)) }
    ensures work { IfOk result (IsSurvey job.now) }
    ensures reads { IsRead B.tells (B.state bench.old) (B.state bench.new) }
    ensures store { IsCounted (B.state bench.old).store_faults (B.state bench.new).store_faults (is_store_fault (fault_in survey_fault result)) }
    ensures device { IsCounted (B.state bench.old).device_faults (B.state bench.new).device_faults (is_device_fault (fault_in survey_fault result)) }
{
    let work = survey_work(alloc, bench, job, goal)?;
    match player_for(alloc, job, work) {
        Ok(survey) => Ok(survey),
        Err(OutOfMemory) => Err(SurveyFault::OutOfMemory),
    }
}
