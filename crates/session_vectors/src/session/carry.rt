//! A whole session.
ghost use Rattle.std.specs.Prelude.{◌≡◌, IsTrue, IsSome, None};
ghost use Rattle.bench_model.specs.History.{LeftOnly};
ghost use Rattle.bench_model.specs.State.{file_half};
ghost use Rattle.board_file.specs.Limits.{size_of};
ghost use Rattle.job_text.specs.Stands.{StandsFor};
ghost use Rattle.flash_session.specs.Sessions.{job_in, surveyed};

use algo_calls::{Call, CallEnd};
use bench_model::Bench;
use flash_session::{Goal, Session, SessionEnd, SessionFault, SurveyFault};
use readback::Difference;
use std::alloc::Global;

/// How a session ended.
#[derive(Clone, Copy)]
pub enum Carried {
    Refused(SessionFault),
    Unsurveyed(SurveyFault),
    Closed,
    Unclosed,
    Reached,
    Mismatch(Difference),
    CallFailed {
        number: u32,
        call: Call,
        end: CallEnd,
    },
    DeviceFault,
    StoreFault,
}

/// Goes to the goal of the session's last survey, and closes the job there if `closes` says so.
fn finish<B: Bench>(session: &mut Session, bench: &mut B, closes: bool) -> Carried
    requires surveyed { IsSome (surveyed session.old) }
    requires count { (B.state bench.old).cell_count ≡ size_of (job_in session.old).board.regions }
    requires idle { IsTrue B.tells → (B.state bench.old).operation ≡ None }
    requires stands { IsTrue B.tells → StandsFor (job_in session.old) (B.state bench.old).file }
    requires only { IsTrue B.tells → LeftOnly (B.state bench.old).file (file_half (B.state bench.old)) }
{
    match session.go(bench) {
        SessionEnd::Reached(reached) => {
            if !closes {
                return Carried::Reached;
            }
            match reached.close(session, bench) {
                Ok(()) => Carried::Closed,
                Err(_) => Carried::Unclosed,
            }
        }
        SessionEnd::Mismatch(difference) => Carried::Mismatch(difference),
        SessionEnd::CallFailed { number, call, end } => Carried::CallFailed { number, call, end },
        SessionEnd::DeviceFault => Carried::DeviceFault,
        SessionEnd::StoreFault => Carried::StoreFault,
    }
}

/// Surveys the cells for a goal, goes there, and closes the job.
fn go_on<B: Bench>(session: &mut Session, alloc: Global, bench: &mut B, goal: Goal) -> Carried
    requires count { (B.state bench.old).cell_count ≡ size_of (job_in session.old).board.regions }
    requires idle { IsTrue B.tells → (B.state bench.old).operation ≡ None }
    requires stands { IsTrue B.tells → StandsFor (job_in session.old) (B.state bench.old).file }
    requires only { IsTrue B.tells → LeftOnly (B.state bench.old).file (file_half (B.state bench.old)) }
{
    match session.survey(alloc, bench, goal) {
        Ok(()) => finish(session, bench, true),
        Err(fault) => Carried::Unsurveyed(fault),
    }
}

/// Opens the job of the file, brings the cells to a goal, and closes the job.
pub fn carry<B: Bench>(alloc: Global, bench: &mut B, goal: Goal) -> Carried {
    match Session::open(alloc, bench) {
        Ok(mut session) => {
            let carried = go_on(&mut session, alloc, bench, goal);
            session.free();
            carried
        }
        Err(fault) => Carried::Refused(fault),
    }
}

/// Surveys one bench and goes over another, with the session's file and as many cells. The job stays open.
fn go_over<B: Bench>(session: &mut Session, alloc: Global, second: &mut B, third: &mut B) -> Carried
    requires second_stands { IsTrue B.tells → StandsFor (job_in session.old) (B.state second.old).file }
    requires second_count { (B.state second.old).cell_count ≡ size_of (job_in session.old).board.regions }
    requires second_idle { IsTrue B.tells → (B.state second.old).operation ≡ None }
    requires third_stands { IsTrue B.tells → StandsFor (job_in session.old) (B.state third.old).file }
    requires third_count { (B.state third.old).cell_count ≡ size_of (job_in session.old).board.regions }
    requires third_idle { IsTrue B.tells → (B.state third.old).operation ≡ None }
    requires third_only { IsTrue B.tells → LeftOnly (B.state third.old).file (file_half (B.state third.old)) }
{
    match session.survey(alloc, second, Goal::New) {
        Ok(()) => finish(session, third, false),
        Err(fault) => Carried::Unsurveyed(fault),
    }
}

/// Opens the job of one bench, surveys another, and goes over a third, which have the same file and as many cells. The job stays open.
pub fn carry_apart<B: Bench>(alloc: Global, first: &mut B, second: &mut B, third: &mut B) -> Carried
    requires second_file { IsTrue B.tells → (B.state second.old).file ≡ (B.state first.old).file }
    requires second_count { (B.state second.old).cell_count ≡ (B.state first.old).cell_count }
    requires second_idle { IsTrue B.tells → (B.state second.old).operation ≡ None }
    requires third_file { IsTrue B.tells → (B.state third.old).file ≡ (B.state first.old).file }
    requires third_count { (B.state third.old).cell_count ≡ (B.state first.old).cell_count }
    requires third_idle { IsTrue B.tells → (B.state third.old).operation ≡ None }
    requires third_only { IsTrue B.tells → LeftOnly (B.state third.old).file (file_half (B.state third.old)) }
{
    match Session::open(alloc, first) {
        Ok(mut session) => {
            let carried = go_over(&mut session, alloc, second, third);
            session.free();
            carried
        }
        Err(fault) => Carried::Refused(fault),
    }
}
