//! What is found, in words.

use anyhow::Result;
use target_core::{FaultKind, RunEnd};

/// Prints a text and a number.
fn put_number(rt: &HostRuntime, text: &str, number: u32) -> Result<()> {
    print!(rt; "{text}{number:08X}")?;
    Ok(())
}

/// Prints how a run ended.
pub fn put_end(rt: &HostRuntime, end: RunEnd) -> Result<()> {
    match end {
        RunEnd::Returned { r0 } => put_number(rt, "returned ", r0),
        RunEnd::NoFuel { pc } => put_number(rt, "no fuel at ", pc),
        RunEnd::StrayBreak { pc } => put_number(rt, "stray break at ", pc),
        RunEnd::Faulted { kind, pc } => put_fault(rt, kind, pc),
        RunEnd::DeviceFault => {
            print!(rt; "device fault")?;
            Ok(())
        }
    }
}

/// Prints the fault that ended a run.
fn put_fault(rt: &HostRuntime, kind: FaultKind, pc: u32) -> Result<()> {
    match kind {
        FaultKind::Undefined => put_number(rt, "undefined at ", pc),
        FaultKind::BusFault { at } => put_access(rt, "bus fault at ", pc, at),
        FaultKind::Unaligned { at } => put_access(rt, "unaligned at ", pc, at),
        FaultKind::BadState => put_number(rt, "bad state at ", pc),
    }
}

/// Prints the fault of an access, and its address.
fn put_access(rt: &HostRuntime, text: &str, pc: u32, at: u32) -> Result<()> {
    put_number(rt, text, pc)?;
    put_number(rt, " address ", at)
}
