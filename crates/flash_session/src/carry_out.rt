//! Carrying out a survey: the script and the comparison.
ghost use Rattle.std.specs.Prelude.{◌≡◌, IsTrue, None};
ghost use Rattle.bench_model.specs.Counted.{is_store_fault, is_device_fault, IsCounted};
ghost use Rattle.board_file.specs.Limits.{size_of};
ghost use Rattle.bench_model.specs.Calls.{FileIsRead};
ghost use Rattle.flash_session.specs.Outcome.{end_fault, IsCompared, IsSound};
ghost use Rattle.job_text.specs.Stands.{StandsFor};
ghost use Rattle.flash_session.specs.Sessions.{Goes};
ghost use Rattle.flash_session.specs.Surveys.{survey_shown};
ghost use Rattle.flash_session.specs.SurveyFacts.{IsSurvey};

use crate::ready::Survey;
use crate::session::SessionEnd;
use bench_model::Bench;
use job_text::Job;

/// Restarts the player of a survey. It plays the script of the survey's plans and compares the cells with the goal.
pub(crate) fn carry_out<B: Bench>(survey: &mut Survey, job: &Job, bench: &mut B) -> SessionEnd
    requires work { IsSurvey job.now survey.old }
    requires count { (B.state bench.old).cell_count ≡ size_of job.now.board.regions }
    requires idle { IsTrue B.tells → (B.state bench.old).operation ≡ None }
    requires stands { IsTrue B.tells → StandsFor job.now (B.state bench.old).file }
    ensures follows { IsTrue B.tells → Goes job.now (survey_shown survey.old) result (B.state bench.old) (B.state bench.new) }
    ensures idle { IsTrue B.tells → IsCompared result → (B.state bench.new).operation ≡ None }
    ensures sound { IsSound (size_of job.now.board.regions) result }
    ensures shown { survey_shown survey.new ≡ survey_shown survey.old }
    ensures work { IsSurvey job.now survey.new }
    ensures count { (B.state bench.new).cell_count ≡ (B.state bench.old).cell_count }
    ensures file { FileIsRead B.tells (B.state bench.old) (B.state bench.new) }
    ensures store { IsCounted (B.state bench.old).store_faults (B.state bench.new).store_faults (is_store_fault (end_fault result)) }
    ensures cause { IsCounted (B.state bench.old).device_faults (B.state bench.new).device_faults (is_device_fault (end_fault result)) }
{
    survey.player.work.count();
    survey.player.restart(&mut survey.arena);
    survey.player.go(job, &mut survey.arena, bench)
}
