//! How sessions ended, in words.

use crate::output::put_line;
use crate::session::carry::Carried;
use algo_calls::{Call, CallEnd};
use anyhow::Result;
use readback::Difference;
use target_core::{FaultKind, RunEnd};

/// What comes after a text.
#[derive(Clone, Copy)]
enum Behind {
    Nothing,
    Kind(u32),
    Place(u32),
    Fault { pc: u32, at: u32 },
}

/// A call, in words.
fn call_words(call: Call) -> (&'static str, Behind) {
    match call {
        Call::Init { kind } => ("Init", Behind::Kind(kind)),
        Call::UnInit { kind } => ("UnInit", Behind::Kind(kind)),
        Call::EraseSector { at } => ("EraseSector", Behind::Place(at)),
        Call::EraseChip => ("EraseChip", Behind::Nothing),
        Call::ProgramPage { at } => ("ProgramPage", Behind::Place(at)),
        Call::Verify { at } => ("Verify", Behind::Place(at)),
    }
}

/// The name of a call.
pub fn name_of(call: Call) -> &'static str {
    let (name, _behind) = call_words(call);
    name
}

/// How a run ended, in words.
fn run_words(end: RunEnd) -> (&'static str, Behind) {
    match end {
        RunEnd::Returned { r0 } => ("returned", Behind::Place(r0)),
        RunEnd::NoFuel { pc } => ("no fuel at", Behind::Place(pc)),
        RunEnd::StrayBreak { pc } => ("stray break at", Behind::Place(pc)),
        RunEnd::Faulted { kind, pc } => match kind {
            FaultKind::Undefined => ("undefined at", Behind::Place(pc)),
            FaultKind::BusFault { at } => ("bus fault at", Behind::Fault { pc, at }),
            FaultKind::Unaligned { at } => ("unaligned at", Behind::Fault { pc, at }),
            FaultKind::BadState => ("bad state at", Behind::Place(pc)),
        },
        RunEnd::DeviceFault => ("device fault", Behind::Nothing),
    }
}

/// How a call ended, in words.
fn end_words(end: CallEnd) -> (&'static str, Behind) {
    match end {
        CallEnd::Done => ("done", Behind::Nothing),
        CallEnd::Refused { r0 } => ("answered", Behind::Place(r0)),
        CallEnd::Ended(end) => run_words(end),
        CallEnd::DeviceFault => ("device fault", Behind::Nothing),
    }
}

/// Prints words.
fn put(rt: &HostRuntime, words: (&'static str, Behind)) -> Result<()> {
    let (text, behind) = words;
    match behind {
        Behind::Nothing => print!(rt; "{text}")?,
        Behind::Kind(kind) => print!(rt; "{text} {kind}")?,
        Behind::Place(at) => print!(rt; "{text} {at:08X}")?,
        Behind::Fault { pc, at } => print!(rt; "{text} {pc:08X} address {at:08X}")?,
    }
    Ok(())
}

/// Prints which call was not done, and how it ended.
fn put_failed(rt: &HostRuntime, number: u32, call: Call, end: CallEnd) -> Result<()> {
    print!(rt; "call {number} ")?;
    put(rt, call_words(call))?;
    print!(rt; ": ")?;
    put(rt, end_words(end))?;
    put_line(rt, "")
}

/// Prints where the cells aren't the goal.
fn put_mismatch(rt: &HostRuntime, found: Difference) -> Result<()> {
    let (at, want, got) = (found.at, found.want, found.got);
    println!(rt; "mismatch at {at:08X} wanted {want:02X} found {got:02X}")?;
    Ok(())
}

/// Prints how a session ended.
pub fn print(rt: &HostRuntime, carried: Carried) -> Result<()> {
    match carried {
        Carried::Refused(fault) => {
            println!(rt; "refused: {fault}")?;
            Ok(())
        }
        Carried::Unsurveyed(fault) => {
            println!(rt; "not surveyed: {fault}")?;
            Ok(())
        }
        Carried::Closed => put_line(rt, "closed"),
        Carried::Unclosed => put_line(rt, "not closed"),
        Carried::Reached => put_line(rt, "reached"),
        Carried::Mismatch(found) => put_mismatch(rt, found),
        Carried::CallFailed { number, call, end } => put_failed(rt, number, call, end),
        Carried::DeviceFault => put_line(rt, "device fault"),
        Carried::StoreFault => put_line(rt, "store fault"),
    }
}
