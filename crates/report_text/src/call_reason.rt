//! How a call of an algorithm that didn't end as done is reported.
ghost use Rattle.std.specs.Prelude.{◌≡◌};
ghost use Rattle.report_text.specs.Calls.{function_of, answer_text, place_text, access_text, fault_text, run_text, end_text, failed_text};
ghost use Rattle.outside_io.specs.Puts.{Puts};

use crate::pieces::put_pieces;
use algo_calls::{Call, CallEnd};
use flm_descriptor::Name;
use itoa::Buffer;
use octets::hex_digits;
use outside_io::{OutputFault, Sink};
use target_core::{FaultKind, RunEnd};

/// Puts which call of a session failed, and how it ended.
#[tactic(auto, unfolding(crate::specs::Calls::failed_text))]
pub fn put_failed_call<E: Sink>(
    err: &mut E,
    number: u32,
    call: Call,
    end: CallEnd,
) -> Result<(), OutputFault>
    ensures { Puts E.tells (E.state err.old) (E.state err.new) (failed_text number call end) result }
{
    let mut of_number = Buffer::new();
    let number = of_number.format(number).as_bytes();
    put_pieces(
        err,
        &[b"call ", number, b" ", function_of(call).text(), b": "],
    )?;
    put_call_end(err, end)
}

/// The function that a call calls.
fn function_of(call: Call) -> Name
    ensures { result ≡ function_of call }
{
    match call {
        Call::Init { .. } => Name::Init,
        Call::UnInit { .. } => Name::UnInit,
        Call::EraseSector { .. } => Name::EraseSector,
        Call::EraseChip => Name::EraseChip,
        Call::ProgramPage { .. } => Name::ProgramPage,
        Call::Verify { .. } => Name::Verify,
    }
}

/// Puts how a call ended.
#[tactic(auto, unfolding(crate::specs::Calls::end_text))]
fn put_call_end<E: Sink>(err: &mut E, end: CallEnd) -> Result<(), OutputFault>
    ensures { Puts E.tells (E.state err.old) (E.state err.new) (end_text end) result }
{
    match end {
        CallEnd::Done => put_pieces(err, &[b"done"]),
        CallEnd::Refused { r0 } => put_answer(err, r0),
        CallEnd::Ended(end) => put_run_end(err, end),
        CallEnd::DeviceFault => put_pieces(err, &[b"device fault"]),
    }
}

/// Puts how a run ended.
#[tactic(auto, unfolding(crate::specs::Calls::run_text))]
fn put_run_end<E: Sink>(err: &mut E, end: RunEnd) -> Result<(), OutputFault>
    ensures { Puts E.tells (E.state err.old) (E.state err.new) (run_text end) result }
{
    match end {
        RunEnd::Returned { r0 } => put_answer(err, r0),
        RunEnd::NoFuel { pc } => put_place(err, b"no fuel", pc),
        RunEnd::StrayBreak { pc } => put_place(err, b"stray break", pc),
        RunEnd::Faulted { kind, pc } => put_run_fault(err, kind, pc),
        RunEnd::DeviceFault => put_pieces(err, &[b"device fault"]),
    }
}

/// Puts why the core could not do an instruction, and the instruction's address.
#[tactic(auto, unfolding(crate::specs::Calls::fault_text))]
fn put_run_fault<E: Sink>(err: &mut E, kind: FaultKind, pc: u32) -> Result<(), OutputFault>
    ensures { Puts E.tells (E.state err.old) (E.state err.new) (fault_text kind pc) result }
{
    match kind {
        FaultKind::Undefined => put_place(err, b"undefined", pc),
        FaultKind::BusFault { at } => put_access(err, b"bus fault", pc, at),
        FaultKind::Unaligned { at } => put_access(err, b"unaligned", pc, at),
        FaultKind::BadState => put_place(err, b"bad state", pc),
    }
}

/// Puts the value that a function returned.
#[tactic(auto, unfolding(crate::specs::Calls::answer_text))]
fn put_answer<E: Sink>(err: &mut E, r0: u32) -> Result<(), OutputFault>
    ensures { Puts E.tells (E.state err.old) (E.state err.new) (answer_text r0) result }
{
    let r0 = hex_digits::<8>(r0);
    put_pieces(err, &[b"answered ", &r0])
}

/// Puts what happened at an instruction.
#[tactic(auto, unfolding(crate::specs::Calls::place_text))]
fn put_place<E: Sink>(err: &mut E, what: &[u8], pc: u32) -> Result<(), OutputFault>
    ensures { Puts E.tells (E.state err.old) (E.state err.new) (place_text what.now pc) result }
{
    let pc = hex_digits::<8>(pc);
    put_pieces(err, &[what, b" at ", &pc])
}

/// Puts what happened at an instruction, and the address of its access.
#[tactic(auto, unfolding(crate::specs::Calls::access_text))]
fn put_access<E: Sink>(err: &mut E, what: &[u8], pc: u32, at: u32) -> Result<(), OutputFault>
    ensures { Puts E.tells (E.state err.old) (E.state err.new) (access_text what.now pc at) result }
{
    let pc = hex_digits::<8>(pc);
    let at = hex_digits::<8>(at);
    put_pieces(err, &[what, b" at ", &pc, b" address ", &at])
}
