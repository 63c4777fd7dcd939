//! Carries a job to its goal.
ghost use Rattle.std.specs.Prelude.{◌≡◌, IsTrue, IsSome, IsSomeAnd, None};
ghost use Rattle.board_file.specs.Limits.{size_of};
ghost use Rattle.bench_model.specs.History.{GoesOn, LeftOnly};
ghost use Rattle.bench_model.specs.State.{file_half};
ghost use Rattle.job_text.specs.Stands.{StandsFor};
ghost use Rattle.job_file.specs.First.{SyncsFirst};
ghost use Rattle.flash_session.specs.declared.goal.Goal as goals;
ghost use Rattle.flash_session.specs.Sessions.{job_in, surveyed};
ghost use Rattle.flash_session.specs.Surveys.{HasSurveyed};
ghost use Rattle.command_files.specs.Answered.{IsOf, StandsEarly, on_job_file};
ghost use Rattle.command_files.specs.Call.{bench_call, sink_call, refused};
ghost use Rattle.command_files.specs.Shown.{answer_of};
ghost use Rattle.report_text.specs.Refusal.{store_fault};
ghost use Rattle.job_commands.specs.GoOn.{GoesOnFrom, has_resume};
ghost use Rattle.job_commands.specs.Answers.{IsSound};
ghost use Rattle.job_commands.specs.Opened.{IsOpened};
ghost use Rattle.job_commands.specs.Printed.{PrintsEnd, PrintsWork};
ghost use Rattle.job_commands.specs.Steps.{has_script, BenchCounted, session_work, Finishes};

use crate::places::address_of;
use crate::put_plans::put_plans;
use crate::refusals::{session_refusal, survey_refusal};
use bench_model::Bench;
use flash_session::{Goal, Session, SessionEnd};
use outside_io::Sink;
use report_text::{End, Refusal, put_end};
use std::alloc::Global;

/// Plays the script of the last survey, and closes the job once the goal is reached.
fn finish<'a, B: Bench, O: Sink>(
    session: &mut Session,
    bench: &mut B,
    out: &mut O,
) -> Result<(), Refusal<'a>>
    requires surveyed { IsSome (surveyed session.old) }
    requires count { (B.state bench.old).cell_count ≡ size_of (job_in session.old).board.regions }
    requires idle { IsTrue B.tells → (B.state bench.old).operation ≡ None }
    requires stands { IsTrue B.tells → StandsFor (job_in session.old) (B.state bench.old).file }
    requires only { IsTrue B.tells → LeftOnly (B.state bench.old).file (file_half (B.state bench.old)) }
    ensures told { IsTrue B.tells → (goal : goals.Goal) (stands : StandsFor (job_in session.old) (B.state bench.old).file)
        → IsSomeAnd (surveyed session.old) (λ w. HasSurveyed B.tells (job_in session.old) goal (B.state bench.old).file (B.state bench.old).cells w)
        → Finishes (bench_call B.tells (B.state bench.old) (B.state bench.new)) (sink_call O.tells (O.state out.old) (O.state out.new))
        (session_work goal (job_in session.old) stands.text (B.state bench.old).cells) (answer_of result) }
    ensures kind { IsOf has_script (answer_of result) }
    ensures prints { PrintsEnd (sink_call O.tells (O.state out.old) (O.state out.new)) (answer_of result) }
    ensures sound { IsSound (answer_of result) }
    ensures goes_on { IsTrue B.tells → GoesOn (file_half (B.state bench.old)) (file_half (B.state bench.new)) }
    ensures counts { BenchCounted (bench_call B.tells (B.state bench.old) (B.state bench.new))
        (sink_call O.tells (O.state out.old) (O.state out.new)) (answer_of result) }
{
    match session.go(bench) {
        SessionEnd::Reached(reached) => match reached.close(session, bench) {
            Ok(()) => {
                put_end(out, End::Done)?;
                Ok(())
            }
            Err(_) => Err(Refusal::StoreFault),
        },
        SessionEnd::Mismatch(difference) => Err(Refusal::Mismatch {
            at: address_of(session.job().board.regions.as_slice(), difference.at),
            wanted: difference.want,
            found: difference.got,
        }),
        SessionEnd::CallFailed { number, call, end } => {
            Err(Refusal::CallFailed { number, call, end })
        }
        SessionEnd::DeviceFault => Err(Refusal::DeviceFault),
        SessionEnd::StoreFault => Err(Refusal::StoreFault),
    }
}

/// Surveys the cells for the session of the file's job, prints the plans to the goal, and carries them out.
fn carry_on<'a, B: Bench, O: Sink>(
    alloc: Global,
    goal: Goal,
    session: &mut Session,
    bench: &mut B,
    out: &mut O,
) -> Result<(), Refusal<'a>>
    requires count { (B.state bench.old).cell_count ≡ size_of (job_in session.old).board.regions }
    requires idle { IsTrue B.tells → (B.state bench.old).operation ≡ None }
    requires stands { IsTrue B.tells → StandsFor (job_in session.old) (B.state bench.old).file }
    requires only { IsTrue B.tells → LeftOnly (B.state bench.old).file (file_half (B.state bench.old)) }
    ensures told { IsTrue B.tells → (entry : B) → IsOpened (B.state entry) (B.state bench.old) (job_in session.old)
        → GoesOnFrom goal (bench_call B.tells (B.state entry) (B.state bench.new))
        (sink_call O.tells (O.state out.old) (O.state out.new)) (answer_of result) }
    ensures early { (entry : B) → StandsEarly on_job_file (bench_call B.tells (B.state entry) (B.state bench.new))
        (sink_call O.tells (O.state out.old) (O.state out.new)) (answer_of result) }
    ensures kind { IsOf has_resume (answer_of result) }
    ensures prints { PrintsWork (B.state bench.old).cell_count (sink_call O.tells (O.state out.old) (O.state out.new)) (answer_of result) }
    ensures sound { IsSound (answer_of result) }
    ensures goes_on { IsTrue B.tells → GoesOn (file_half (B.state bench.old)) (file_half (B.state bench.new)) }
    ensures counts { BenchCounted (bench_call B.tells (B.state bench.old) (B.state bench.new))
        (sink_call O.tells (O.state out.old) (O.state out.new)) (answer_of result) }
{
    match session.survey(alloc, bench, goal) {
        Ok(()) => {}
        Err(fault) => return Err(survey_refusal(fault)),
    }
    put_plans(out, session)?;
    finish(session, bench, out)
}

/// Opens the job of the file, surveys the cells, prints the plans to the goal, and carries them out.
pub(crate) fn carry<'a, B: Bench, O: Sink>(
    alloc: Global,
    goal: Goal,
    bench: &mut B,
    out: &mut O,
) -> Result<(), Refusal<'a>>
    ensures told { IsTrue B.tells → GoesOnFrom goal (bench_call B.tells (B.state bench.old) (B.state bench.new))
        (sink_call O.tells (O.state out.old) (O.state out.new)) (answer_of result) }
    ensures early { StandsEarly on_job_file (bench_call B.tells (B.state bench.old) (B.state bench.new))
        (sink_call O.tells (O.state out.old) (O.state out.new)) (answer_of result) }
    ensures kind { IsOf has_resume (answer_of result) }
    ensures prints { PrintsWork (B.state bench.old).cell_count (sink_call O.tells (O.state out.old) (O.state out.new)) (answer_of result) }
    ensures sound { IsSound (answer_of result) }
    ensures first { SyncsFirst B.tells B.state B.acts bench.old bench.new (answer_of result ≡ refused store_fault) }
    ensures goes_on { IsTrue B.tells → GoesOn (file_half (B.state bench.old)) (file_half (B.state bench.new)) }
    ensures counts { BenchCounted (bench_call B.tells (B.state bench.old) (B.state bench.new))
        (sink_call O.tells (O.state out.old) (O.state out.new)) (answer_of result) }
{
    match Session::open(alloc, bench) {
        Ok(mut session) => {
            let end = carry_on(alloc, goal, &mut session, bench, out);
            session.free();
            end
        }
        Err(fault) => Err(session_refusal(fault)),
    }
}
