//! The lines of a gang's targets.
ghost use Rattle.std.specs.Prelude.{◌≡◌, ◌≤◌, length, option_map, option_copied};
ghost use Rattle.command_files.specs.Call.{sink_call};
ghost use Rattle.report_text.specs.Shown.{shown};
ghost use Rattle.gang_commands.specs.Puts.{HasEndedUpto, status_behind, PutsTargets};

use crate::refusals::target_refusal;
use gang_run::Gang;
use outside_io::{OutputFault, Sink};
use report_text::{Refusal, put_target};

/// The status of the first refusal: the status so far unless that is 0, and otherwise that of the next target.
fn first_status(status: u8, refusal: Option<&Refusal<'_>>) -> u8
    ensures { result ≡ status_behind status (option_map shown (option_copied refusal.entry)) }
{
    if status != 0 {
        return status;
    }
    match refusal {
        None => 0,
        Some(refusal) => refusal.status(),
    }
}

/// Puts the lines of the first `count` targets in order. All of them have ended. Answers the status of the first one that isn't done, and 0
/// where all are. A fault may leave a beginning of the lines.
pub(crate) fn put_targets<O: Sink>(
    gang: &Gang,
    count: usize,
    out: &mut O,
) -> Result<u8, OutputFault>
    requires count { length gang.now.slots.items ≡ count }
    requires few { count ≤ 16 }
    requires ended { HasEndedUpto gang.now count }
    ensures { PutsTargets (sink_call O.tells (O.state out.old) (O.state out.new)) gang.now result }
{
    let mut status = 0;
    for target in 0..count {
        let refusal = target_refusal(gang, target);
        put_target(out, target as u32 + 1, refusal.as_ref())?;
        status = first_status(status, refusal.as_ref());
    }
    Ok(status)
}
