//! The halfwords A000 to BFFF: addresses from PC and SP, and the miscellaneous instructions (A5.2.5).

ghost use Rattle.std.specs.Prelude.{◌≡◌, ◌/◌, ◌%◌};
ghost use Rattle.armv6m_decode.specs.Table.{decoded};

use crate::instr::{Decoded, Instr, Many, Other};

/// A000 to AFFF: ADR, and ADD of SP and an immediate.
#[tactic(auto, using(crate::proofs::Near::addresses, crate::proofs::Masks::masks), unfolding(crate::specs::Table::rows))]
pub(crate) fn addresses(half: u16) -> Decoded
    requires { half / 4096 ≡ 10 }
    ensures { result ≡ decoded half }
{
    let d = ((half >> 8) % 8) as u8;
    let immediate = (half % 256) as u8;
    match half >> 11 {
        20 => Decoded::Op(Instr::Other(Other::Adr { d, immediate })),
        _ => Decoded::Op(Instr::Other(Other::AddFromSp { d, immediate })),
    }
}

/// B000 to BFFF. No instruction begins with B8 or B9.
#[tactic(auto, using(crate::proofs::Near::reserved, crate::proofs::Masks::masks), unfolding(crate::specs::Table::rows))]
pub(crate) fn miscellaneous(half: u16) -> Decoded
    requires { half / 4096 ≡ 11 }
    ensures { result ≡ decoded half }
{
    match half >> 9 {
        0x58 => stack_pointer(half),
        0x59 => extends(half),
        0x5A => push(half),
        0x5B => masking(half),
        0x5C => Decoded::Undefined,
        0x5D => reverses(half),
        0x5E => pop(half),
        _ => hints(half),
    }
}

/// B000 to B1FF: SP plus or minus an immediate.
#[tactic(auto, using(crate::proofs::Near::stack_pointer, crate::proofs::Masks::masks), unfolding(crate::specs::Table::rows))]
fn stack_pointer(half: u16) -> Decoded
    requires { half / 512 ≡ 88 }
    ensures { result ≡ decoded half }
{
    let immediate = (half % 128) as u8;
    match half >> 7 {
        0x160 => Decoded::Op(Instr::Other(Other::AddToSp { immediate })),
        0x161 => Decoded::Op(Instr::Other(Other::SubFromSp { immediate })),
        _ => Decoded::Undefined,
    }
}

/// B200 to B3FF: sign and zero extensions.
#[tactic(auto, using(crate::proofs::Near::extends, crate::proofs::Masks::masks), unfolding(crate::specs::Table::rows))]
fn extends(half: u16) -> Decoded
    requires { half / 512 ≡ 89 }
    ensures { result ≡ decoded half }
{
    let d = (half % 8) as u8;
    let m = ((half >> 3) % 8) as u8;
    match half >> 6 {
        0x2C8 => Decoded::Op(Instr::Other(Other::Sxth { d, m })),
        0x2C9 => Decoded::Op(Instr::Other(Other::Sxtb { d, m })),
        0x2CA => Decoded::Op(Instr::Other(Other::Uxth { d, m })),
        0x2CB => Decoded::Op(Instr::Other(Other::Uxtb { d, m })),
        _ => Decoded::Undefined,
    }
}

/// B400 to B5FF: PUSH.
#[tactic(auto, using(crate::proofs::Near::push, crate::proofs::Masks::masks), unfolding(crate::specs::Table::rows))]
#[inline(always)]
pub fn push(half: u16) -> Decoded
    requires { half / 512 ≡ 90 }
    ensures { result ≡ decoded half }
{
    Decoded::Op(Instr::Many(Many::Push {
        lr: (half >> 8) % 2 == 1,
        list: (half % 256) as u8,
    }))
}

/// B600 to B7FF: CPS.
#[tactic(auto, using(crate::proofs::Near::masking, crate::proofs::Masks::masks), unfolding(crate::specs::Table::rows))]
fn masking(half: u16) -> Decoded
    requires { half / 512 ≡ 91 }
    ensures { result ≡ decoded half }
{
    match half {
        0xB662 => Decoded::Op(Instr::Other(Other::Cpsie)),
        0xB672 => Decoded::Op(Instr::Other(Other::Cpsid)),
        _ => Decoded::Undefined,
    }
}

/// BA00 to BBFF: byte orders.
#[tactic(auto, using(crate::proofs::Near::reverses, crate::proofs::Masks::masks), unfolding(crate::specs::Table::rows))]
fn reverses(half: u16) -> Decoded
    requires { half / 512 ≡ 93 }
    ensures { result ≡ decoded half }
{
    let d = (half % 8) as u8;
    let m = ((half >> 3) % 8) as u8;
    match half >> 6 {
        0x2E8 => Decoded::Op(Instr::Other(Other::Rev { d, m })),
        0x2E9 => Decoded::Op(Instr::Other(Other::Rev16 { d, m })),
        0x2EB => Decoded::Op(Instr::Other(Other::Revsh { d, m })),
        _ => Decoded::Undefined,
    }
}

/// BC00 to BDFF: POP.
#[tactic(auto, using(crate::proofs::Near::pop, crate::proofs::Masks::masks), unfolding(crate::specs::Table::rows))]
#[inline(always)]
pub fn pop(half: u16) -> Decoded
    requires { half / 512 ≡ 94 }
    ensures { result ≡ decoded half }
{
    Decoded::Op(Instr::Many(Many::Pop {
        pc: (half >> 8) % 2 == 1,
        list: (half % 256) as u8,
    }))
}

/// BE00 to BFFF: BKPT and the hints.
#[tactic(auto, using(crate::proofs::Near::hints, crate::proofs::Masks::masks), unfolding(crate::specs::Table::rows))]
fn hints(half: u16) -> Decoded
    requires { half / 512 ≡ 95 }
    ensures { result ≡ decoded half }
{
    if half >> 8 == 0xBE {
        return Decoded::Op(Instr::Other(Other::Bkpt {
            immediate: (half % 256) as u8,
        }));
    }
    match half {
        0xBF00 => Decoded::Op(Instr::Other(Other::Nop)),
        0xBF10 => Decoded::Op(Instr::Other(Other::Yield)),
        0xBF20 => Decoded::Op(Instr::Other(Other::Wfe)),
        0xBF30 => Decoded::Op(Instr::Other(Other::Wfi)),
        0xBF40 => Decoded::Op(Instr::Other(Other::Sev)),
        _ => Decoded::Undefined,
    }
}
