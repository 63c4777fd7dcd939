//! The ends of calls, in words.

use algo_calls::CallEnd;
use anyhow::{Result, bail};
use row_text::number;
use target_core::{FaultKind, RunEnd};

/// The fault that ended a run.
fn faulted(words: &[&str]) -> Result<RunEnd> {
    let (kind, pc) = match words {
        ["undefined", "at", pc] => (FaultKind::Undefined, pc),
        ["bad", "state", "at", pc] => (FaultKind::BadState, pc),
        ["bus", "fault", "at", pc, "address", at] => (FaultKind::BusFault { at: number(at)? }, pc),
        ["unaligned", "at", pc, "address", at] => (FaultKind::Unaligned { at: number(at)? }, pc),
        _ => bail!("no end"),
    };
    let pc = number(pc)?;
    Ok(RunEnd::Faulted { kind, pc })
}

/// The end of a run that didn't return.
fn ended(words: &[&str]) -> Result<RunEnd> {
    match words {
        ["no", "fuel", "at", pc] => Ok(RunEnd::NoFuel { pc: number(pc)? }),
        ["stray", "break", "at", pc] => Ok(RunEnd::StrayBreak { pc: number(pc)? }),
        words => faulted(words),
    }
}

/// The end that some words name.
pub fn end(words: &[&str]) -> Result<CallEnd> {
    match words {
        ["done"] => Ok(CallEnd::Done),
        ["device", "fault"] => Ok(CallEnd::DeviceFault),
        ["answered", r0] => Ok(CallEnd::Refused { r0: number(r0)? }),
        words => Ok(CallEnd::Ended(ended(words)?)),
    }
}
