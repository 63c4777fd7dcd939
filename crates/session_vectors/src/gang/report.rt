//! How targets ended, in words.

use crate::session::report::name_of;
use algo_calls::CallEnd;
use anyhow::Result;
use gang_run::TargetEnd;
use target_core::RunEnd;

/// Prints how a call ended.
fn print_call(rt: &HostRuntime, end: CallEnd) -> Result<()> {
    match end {
        CallEnd::Refused { r0 } => print!(rt; "answered {r0:08X}")?,
        CallEnd::Ended(RunEnd::NoFuel { pc }) => print!(rt; "no fuel at {pc:08X}")?,
        CallEnd::Ended(RunEnd::Faulted { kind, pc }) => print!(rt; "{kind:?} at {pc:08X}")?,
        _ => print!(rt; "{end:?}")?,
    }
    Ok(())
}

/// Prints how a target ended.
pub fn print_end(rt: &HostRuntime, end: TargetEnd) -> Result<()> {
    match end {
        TargetEnd::Mismatch(found) => {
            let (at, want, got) = (found.at, found.want, found.got);
            print!(rt; "mismatch at {at} wanted {want:02X} found {got:02X}")?;
        }
        TargetEnd::CallFailed { number, call, end } => {
            print!(rt; "call {number} {}: ", name_of(call))?;
            print_call(rt, end)?;
        }
        _ => print!(rt; "{end:?}")?,
    }
    Ok(())
}
