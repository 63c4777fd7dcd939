//! How many bytes a statement has.

ghost use Rattle.std.specs.Prelude.{◌≡◌, ◌<◌, ◌^◌, ◌+◌, IfOk, IfErr};
ghost use Rattle.armv6m_asm.specs.Assembly.{width, aim_width, size_of};

use crate::fault::AsmFault;
use crate::statement::Operation;
use armv6m_decode::{Branch, Instr, Other};
use armv6m_forms::Aim;

/// The place after a statement. It may not go past the last address, 0xFFFF_FFFF.
pub(crate) fn place_behind(operation: &Operation, place: u32) -> Result<u32, AsmFault>
    ensures ok { IfOk result (λ behind. behind ≡ place + size_of operation.now place) }
    ensures fits { IfOk result (λ behind. behind < 2 ^ 32) }
    ensures err { IfErr result (λ fault. fault ≡ AsmFault.OutOfMemory) }
{
    match place.checked_add(size(operation, place)) {
        Some(behind) => Ok(behind),
        None => Err(AsmFault::OutOfMemory),
    }
}

/// How many bytes a statement has at a place.
pub(crate) fn size(operation: &Operation, place: u32) -> u32
    ensures { result ≡ size_of operation.now place }
{
    match *operation {
        Operation::Nothing => 0,
        Operation::Word { value: _ } => 4,
        Operation::Align => padding_len(place),
        Operation::Plain { instr } => instr_width(instr),
        Operation::Aimed {
            aim,
            destination: _,
        } => width_of_aim(aim),
    }
}

/// How many bytes pad a place to a multiple of 4.
fn padding_len(place: u32) -> u32
    ensures { result ≡ size_of Operation.Align place }
{
    if place % 4 == 0 { 0 } else { 2 }
}

/// How many bytes an instruction has.
fn instr_width(instr: Instr) -> u32
    ensures { result ≡ width instr }
{
    match instr {
        Instr::Branch(Branch::Bl { immediate: _ })
        | Instr::Other(
            Other::Mrs { d: _, special: _ }
            | Other::Msr { n: _, special: _ }
            | Other::Dsb
            | Other::Dmb
            | Other::Isb,
        ) => 4,
        _ => 2,
    }
}

/// How many bytes an instruction with a destination has.
fn width_of_aim(aim: Aim) -> u32
    ensures { result ≡ aim_width aim }
{
    match aim {
        Aim::BranchLink => 4,
        Aim::Branch | Aim::BranchIf { condition: _ } | Aim::Load { t: _ } | Aim::Address { d: _ } =>
            2,
    }
}
