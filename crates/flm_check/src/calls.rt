//! The lines of calls.
ghost use Rattle.std.specs.Prelude.{◌<◌};
ghost use Rattle.duty_trials.specs.Lists.{count_of};
ghost use Rattle.duty_trials.specs.Subjects.{site_in};

use algo_calls::CallEnd;
use duty_trials::{Span, Subject, Turn, Work};
use std::alloc::AllocError;
use target_core::{FaultKind, RunEnd};

/// Adds the line of a call of a list.
pub fn add_call(
    text: &mut String,
    subject: &Subject<'_>,
    work: Work,
    turn: Turn,
) -> Result<(), AllocError> {
    let kind = work.kind();
    match turn {
        Turn::Init => writeln!(text, "call Init {kind}"),
        Turn::UnInit => writeln!(text, "call UnInit {kind}"),
        Turn::Member(number) if number < subject.count(work) => {
            add_work(text, subject, work, number)
        }
        Turn::Member(_) => Ok(()),
    }
}

/// Adds the line of a call that works on a sector or a page.
fn add_work(
    text: &mut String,
    subject: &Subject<'_>,
    work: Work,
    number: u32,
) -> Result<(), AllocError>
    requires { number < count_of (site_in subject.now).layout work }
{
    match work {
        Work::Sectors => add_named(text, "EraseSector", subject.sector(number)),
        Work::Chip => writeln!(text, "call EraseChip"),
        Work::Pages => add_named(text, "ProgramPage", subject.page(number)),
        Work::Checks => add_named(text, "Verify", subject.page(number)),
    }
}

/// Adds the line of a call of a function at an address.
fn add_named(text: &mut String, name: &str, span: Span) -> Result<(), AllocError> {
    let at = span.address;
    writeln!(text, "call {name} {at:08X}")
}

/// Adds the line of how a call ended.
pub fn add_end(text: &mut String, end: CallEnd) -> Result<(), AllocError> {
    match end {
        CallEnd::Done => writeln!(text, "end done"),
        CallEnd::Refused { r0 } => writeln!(text, "end answered {r0:08X}"),
        CallEnd::Ended(end) => add_run_end(text, end),
        CallEnd::DeviceFault => writeln!(text, "end device fault"),
    }
}

/// Adds the line of how a run ended.
fn add_run_end(text: &mut String, end: RunEnd) -> Result<(), AllocError> {
    match end {
        RunEnd::Returned { r0 } => writeln!(text, "end answered {r0:08X}"),
        RunEnd::NoFuel { pc } => writeln!(text, "end no fuel at {pc:08X}"),
        RunEnd::StrayBreak { pc } => writeln!(text, "end stray break at {pc:08X}"),
        RunEnd::Faulted { kind, pc } => add_fault(text, kind, pc),
        RunEnd::DeviceFault => writeln!(text, "end device fault"),
    }
}

/// Adds the line of why the core could not do an instruction.
fn add_fault(text: &mut String, kind: FaultKind, pc: u32) -> Result<(), AllocError> {
    match kind {
        FaultKind::Undefined => writeln!(text, "end undefined at {pc:08X}"),
        FaultKind::BusFault { at } => {
            writeln!(text, "end bus fault at {pc:08X} address {at:08X}")
        }
        FaultKind::Unaligned { at } => {
            writeln!(text, "end unaligned at {pc:08X} address {at:08X}")
        }
        FaultKind::BadState => writeln!(text, "end bad state at {pc:08X}"),
    }
}
