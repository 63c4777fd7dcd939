//! The code of a text.

ghost use Rattle.std.specs.Prelude.{◌≡◌, ◌<◌, ◌^◌, ◌++◌, All, Contains, IfOk, IfErr, IsTrue, OnOk};
ghost use Rattle.armv6m_encode.specs.Encoding.{fields_fit};
ghost use Rattle.armv6m_asm.specs.Usable.{IsUsable, IsUsableOperation};
ghost use Rattle.armv6m_asm.specs.Label.{names_of};
ghost use Rattle.armv6m_asm.specs.Assembly.{place_after, name_in, named_by, destinations_of, padding, LeadsTo, code_of, AreBytes};
ghost use Rattle.armv6m_asm.specs.Passes.{AddsCode, AddsBytes, IsBeyondFault, IsCodeFault};

use crate::fault::AsmFault;
use crate::labels::Labels;
use crate::size::size;
use crate::statement::{Destination, Operation, Statement};
use armv6m_decode::Instr;
use armv6m_encode::{Encoding, encode};
use armv6m_forms::{Aim, reach};
use octets::Bytes;
use std::alloc::{AllocError, Global};

/// The code of a text, which begins at address 0, and its labels.
#[derive(Drop)]
pub struct Code {
    pub bytes: Bytes,
    pub labels: Labels,
}

/// The bytes of the statements. The fault names the first statement that can't reach its destination.
pub(crate) fn write_code(
    alloc: Global,
    statements: &[Statement],
    labels: &Labels,
) -> Result<Bytes, AsmFault>
    requires usable { All IsUsable statements.now }
    requires fits { place_after 0 statements.now < 2 ^ 32 }
    requires there { All (Contains (names_of labels.now)) (destinations_of statements.now) }
    ensures ok { IfOk result (AreBytes labels.now 0 statements.now) }
    ensures err { IfErr result (IsCodeFault labels.now statements.now) }
{
    let mut bytes = Vec::new(alloc);
    let mut place = 0;
    let mut line = 1;
    for statement in statements {
        add_operation(&mut bytes, &statement.operation, place, line, labels)?;
        place += size(&statement.operation, place);
        line += 1;
    }
    Ok(Bytes::from_vec(bytes))
}

/// Adds the bytes of a statement at a place.
fn add_operation(
    bytes: &mut Vec<u8>,
    operation: &Operation,
    place: u32,
    line: u64,
    labels: &Labels,
) -> Result<(), AsmFault>
    requires usable { IsUsableOperation operation.now }
    requires there { All (Contains (names_of labels.now)) (named_by operation.now) }
    ensures ok { OnOk result (AddsBytes labels.now operation.now place bytes.old.items bytes.new.items) }
    ensures err { IfErr result (IsBeyondFault labels.now operation.now place line) }
{
    match *operation {
        Operation::Nothing => Ok(()),
        Operation::Word { value } => Ok(add(bytes, &value.to_le_bytes())?),
        Operation::Align => Ok(add_padding(bytes, place)?),
        Operation::Plain { instr } => Ok(add_instr(bytes, &instr)?),
        Operation::Aimed { aim, destination } => add_aimed(
            bytes,
            aim,
            destination,
            place,
            line,
            labels,
        ),
    }
}

/// Pads a place to a multiple of 4 with `NOP`, BF00.
fn add_padding(bytes: &mut Vec<u8>, place: u32) -> Result<(), AllocError>
    ensures { OnOk result (bytes.new.items ≡ bytes.old.items ++ padding place) }
{
    if place % 4 == 0 {
        return Ok(());
    }
    add(bytes, &[0x00, 0xBF])
}

/// Adds an instruction's code: its halfwords, each with the low byte first.
fn add_instr(bytes: &mut Vec<u8>, instr: &Instr) -> Result<(), AllocError>
    requires { IsTrue (fields_fit instr.now) }
    ensures { OnOk result (AddsCode bytes.old.items bytes.new.items instr.now) }
{
    match encode(instr) {
        Encoding::Half { half } => add(bytes, &half.to_le_bytes()),
        Encoding::Pair { first, second } => add_pair(bytes, first, second),
    }
}

/// Adds two halfwords.
fn add_pair(bytes: &mut Vec<u8>, first: u16, second: u16) -> Result<(), AllocError>
    ensures { OnOk result (bytes.new.items ≡ bytes.old.items ++ code_of (Encoding.Pair first second)) }
{
    add(bytes, &first.to_le_bytes())?;
    add(bytes, &second.to_le_bytes())
}

/// Adds bytes.
fn add(bytes: &mut Vec<u8>, own: &[u8]) -> Result<(), AllocError>
    ensures { OnOk result (bytes.new.items ≡ bytes.old.items ++ own.now) }
{
    bytes.extend_from_slice(own)
}

/// Adds the code of an instruction with a destination.
fn add_aimed(
    bytes: &mut Vec<u8>,
    aim: Aim,
    destination: Destination,
    place: u32,
    line: u64,
    labels: &Labels,
) -> Result<(), AsmFault>
    requires { All (Contains (names_of labels.now)) (name_in destination) }
    ensures ok { OnOk result (AddsBytes labels.now (Operation.Aimed aim destination.entry) place bytes.old.items bytes.new.items) }
    ensures err { IfErr result (IsBeyondFault labels.now (Operation.Aimed aim destination.entry) place line) }
{
    match reach(aim, place, address_of(destination, labels)) {
        Some(instr) => Ok(add_instr(bytes, &instr)?),
        None => Err(AsmFault::OutOfReach { line }),
    }
}

/// The address that a destination means.
fn address_of(destination: Destination, labels: &Labels) -> u32
    requires { All (Contains (names_of labels.now)) (name_in destination) }
    ensures { LeadsTo labels.now destination.entry result }
{
    match destination {
        Destination::Label { name } => labels.get(name).unwrap(),
        Destination::Address { address } => address,
    }
}
