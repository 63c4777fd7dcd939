//! The ends of targets, as refusals that the program reports.
ghost use Rattle.std.specs.Prelude.{◌≡◌, ◌<◌, length, option_map, Some};
ghost use Rattle.flash_session.specs.declared.target_end.Turn.TheVariants as turn;
ghost use Rattle.gang_run.specs.Gangs.{slot_at};
ghost use Rattle.gang_run.specs.Slots.{slot_turn};
ghost use Rattle.report_text.specs.Shown.{shown};
ghost use Rattle.gang_commands.specs.Lines.{address_in, reason_in, reason};
ghost use Rattle.gang_commands.specs.Puts.{regions_of, outcome_of};

use gang_run::{Gang, TargetEnd};
use job_commands::{find_address, session_refusal, survey_refusal};
use job_text::Job;
use report_text::Refusal;

/// The address of a place among the cells of a job. Without a job, or after the job's cells, it is the place itself.
fn address_of(job: Option<&Job>, place: u32) -> u32
    ensures { result ≡ address_in (regions_of job.entry) place }
{
    match job {
        None => place,
        Some(job) => match find_address(job.board.regions.as_slice(), place) {
            Some(address) => address,
            None => place,
        },
    }
}

/// Why a target of this job isn't done: none where it is.
fn end_refusal<'a>(job: Option<&Job>, end: TargetEnd) -> Option<Refusal<'a>>
    ensures { option_map shown result ≡ reason_in (regions_of job.entry) end }
{
    match end {
        TargetEnd::Done => None,
        TargetEnd::Open(fault) => Some(session_refusal(fault)),
        TargetEnd::Survey(fault) => Some(survey_refusal(fault)),
        TargetEnd::CallFailed { number, call, end } => {
            Some(Refusal::CallFailed { number, call, end })
        }
        TargetEnd::Mismatch(difference) => Some(Refusal::Mismatch {
            at: address_of(job, difference.at),
            wanted: difference.want,
            found: difference.got,
        }),
        TargetEnd::StoreFault => Some(Refusal::StoreFault),
        TargetEnd::DeviceFault => Some(Refusal::DeviceFault),
    }
}

/// Why a target that has ended isn't done: none where it is.
pub(crate) fn target_refusal<'a>(gang: &Gang, target: usize) -> Option<Refusal<'a>>
    requires target { target < length gang.now.slots.items }
    requires ended { slot_turn (slot_at gang.now target) ≡ turn.Ended }
    ensures { option_map reason (outcome_of (slot_at gang.now target)) ≡ Some (option_map shown result) }
{
    match gang.end(target) {
        Some(end) => end_refusal(gang.job(target), *end),
        None => unreachable!(),
    }
}
