//! The halfwords 0000 to 47FF: shifts, sums, moves and comparisons (A5.2.1), data processing (A5.2.2), and special data
//! instructions with branch and exchange (A5.2.3).

ghost use Rattle.std.specs.Prelude.{◌≡◌, ◌/◌, ◌%◌};
ghost use Rattle.armv6m_decode.specs.Table.{decoded};

use crate::instr::{Alu, Branch, Decoded, Instr};

/// 0000 to 0FFF: LSL and LSR (immediate).
#[tactic(auto, using(crate::proofs::Near::shifts, crate::proofs::Masks::masks), unfolding(crate::specs::Table::rows))]
#[inline(always)]
pub fn shifts(half: u16) -> Decoded
    requires { half / 4096 ≡ 0 }
    ensures { result ≡ decoded half }
{
    let d = (half % 8) as u8;
    let m = ((half >> 3) % 8) as u8;
    let immediate = ((half >> 6) % 32) as u8;
    match half >> 11 {
        0 => Decoded::Op(Instr::Alu(Alu::LslsImmediate { d, m, immediate })),
        _ => Decoded::Op(Instr::Alu(Alu::LsrsImmediate { d, m, immediate })),
    }
}

/// 1000 to 1FFF: ASR (immediate), ADD and SUB of three registers or a small immediate.
#[tactic(auto, using(crate::proofs::Near::shift_or_add, crate::proofs::Masks::masks), unfolding(crate::specs::Table::rows))]
#[inline(always)]
pub fn shift_or_add(half: u16) -> Decoded
    requires { half / 4096 ≡ 1 }
    ensures { result ≡ decoded half }
{
    let d = (half % 8) as u8;
    let n = ((half >> 3) % 8) as u8;
    let m = ((half >> 6) % 8) as u8;
    match half >> 9 {
        0x0C => Decoded::Op(Instr::Alu(Alu::AddsRegister { d, n, m })),
        0x0D => Decoded::Op(Instr::Alu(Alu::SubsRegister { d, n, m })),
        0x0E => Decoded::Op(Instr::Alu(Alu::AddsImmediate3 { d, n, immediate: m })),
        0x0F => Decoded::Op(Instr::Alu(Alu::SubsImmediate3 { d, n, immediate: m })),
        _ => Decoded::Op(Instr::Alu(Alu::AsrsImmediate {
            d,
            m: n,
            immediate: ((half >> 6) % 32) as u8,
        })),
    }
}

/// 2000 to 2FFF: MOV and CMP (immediate).
#[tactic(auto, using(crate::proofs::Near::move_or_compare, crate::proofs::Masks::masks), unfolding(crate::specs::Table::rows))]
#[inline(always)]
pub fn move_or_compare(half: u16) -> Decoded
    requires { half / 4096 ≡ 2 }
    ensures { result ≡ decoded half }
{
    let d = ((half >> 8) % 8) as u8;
    let immediate = (half % 256) as u8;
    match half >> 11 {
        4 => Decoded::Op(Instr::Alu(Alu::MovsImmediate { d, immediate })),
        _ => Decoded::Op(Instr::Alu(Alu::CmpImmediate { n: d, immediate })),
    }
}

/// 3000 to 3FFF: ADD and SUB of an immediate of eight bits.
#[tactic(auto, using(crate::proofs::Near::add_or_subtract, crate::proofs::Masks::masks), unfolding(crate::specs::Table::rows))]
#[inline(always)]
pub fn add_or_subtract(half: u16) -> Decoded
    requires { half / 4096 ≡ 3 }
    ensures { result ≡ decoded half }
{
    let d = ((half >> 8) % 8) as u8;
    let immediate = (half % 256) as u8;
    match half >> 11 {
        6 => Decoded::Op(Instr::Alu(Alu::AddsImmediate8 { d, immediate })),
        _ => Decoded::Op(Instr::Alu(Alu::SubsImmediate8 { d, immediate })),
    }
}

/// 4000 to 43FF: data processing on two low registers.
#[tactic(auto, using(crate::proofs::Near::data_processing, crate::proofs::Masks::masks), unfolding(crate::specs::Table::rows))]
#[inline(always)]
pub fn data_processing(half: u16) -> Decoded
    requires { half / 1024 ≡ 16 }
    ensures { result ≡ decoded half }
{
    let d = (half % 8) as u8;
    let m = ((half >> 3) % 8) as u8;
    match half >> 6 {
        0x100 => Decoded::Op(Instr::Alu(Alu::Ands { d, m })),
        0x101 => Decoded::Op(Instr::Alu(Alu::Eors { d, m })),
        0x102 => Decoded::Op(Instr::Alu(Alu::LslsRegister { d, m })),
        0x103 => Decoded::Op(Instr::Alu(Alu::LsrsRegister { d, m })),
        0x104 => Decoded::Op(Instr::Alu(Alu::AsrsRegister { d, m })),
        0x105 => Decoded::Op(Instr::Alu(Alu::Adcs { d, m })),
        0x106 => Decoded::Op(Instr::Alu(Alu::Sbcs { d, m })),
        0x107 => Decoded::Op(Instr::Alu(Alu::Rors { d, m })),
        0x108 => Decoded::Op(Instr::Alu(Alu::Tst { d, m })),
        0x109 => Decoded::Op(Instr::Alu(Alu::Rsbs { d, n: m })),
        0x10A => Decoded::Op(Instr::Alu(Alu::CmpRegister { d, m })),
        0x10B => Decoded::Op(Instr::Alu(Alu::Cmn { d, m })),
        0x10C => Decoded::Op(Instr::Alu(Alu::Orrs { d, m })),
        0x10D => Decoded::Op(Instr::Alu(Alu::Muls { d, m })),
        0x10E => Decoded::Op(Instr::Alu(Alu::Bics { d, m })),
        _ => Decoded::Op(Instr::Alu(Alu::Mvns { d, m })),
    }
}

/// 4400 to 47FF: ADD, CMP and MOV of all registers, and branch and exchange.
#[tactic(auto, using(crate::proofs::Near::high_registers, crate::proofs::Masks::masks), unfolding(crate::specs::Table::rows))]
pub(crate) fn high_registers(half: u16) -> Decoded
    requires { half / 1024 ≡ 17 }
    ensures { result ≡ decoded half }
{
    let d = ((half >> 7) % 2 * 8 + half % 8) as u8;
    let m = ((half >> 3) % 16) as u8;
    match half >> 8 {
        0x44 => Decoded::Op(Instr::Alu(Alu::AddHigh { d, m })),
        0x45 => Decoded::Op(Instr::Alu(Alu::CmpHigh { n: d, m })),
        0x46 => Decoded::Op(Instr::Alu(Alu::MovHigh { d, m })),
        _ => exchange(half),
    }
}

/// 4700 to 47FF: BX and BLX.
#[tactic(auto, using(crate::proofs::Near::exchange, crate::proofs::Masks::masks), unfolding(crate::specs::Table::rows))]
fn exchange(half: u16) -> Decoded
    requires { half / 256 ≡ 71 }
    ensures { result ≡ decoded half }
{
    let m = ((half >> 3) % 16) as u8;
    if half % 8 != 0 {
        return Decoded::Undefined;
    }
    match half >> 7 {
        0x8E => Decoded::Op(Instr::Branch(Branch::Bx { m })),
        _ => Decoded::Op(Instr::Branch(Branch::Blx { m })),
    }
}
