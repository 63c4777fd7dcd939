//! The halfwords 4800 to 9FFF: loads from the literal pool, and loads and stores of one register (A5.2.4).

ghost use Rattle.std.specs.Prelude.{◌≡◌, ◌/◌, ◌%◌};
ghost use Rattle.armv6m_decode.specs.Table.{decoded};

use crate::instr::{Decoded, Instr, Memory};

/// 4800 to 4FFF: LDR (literal).
#[tactic(auto, using(crate::proofs::Near::literal, crate::proofs::Masks::masks), unfolding(crate::specs::Table::rows))]
#[inline(always)]
pub fn literal(half: u16) -> Decoded
    requires { half / 2048 ≡ 9 }
    ensures { result ≡ decoded half }
{
    Decoded::Op(Instr::Memory(Memory::LdrLiteral {
        t: ((half >> 8) % 8) as u8,
        immediate: (half % 256) as u8,
    }))
}

/// 5000 to 5FFF: loads and stores at the sum of two registers.
#[tactic(auto, using(crate::proofs::Near::by_register, crate::proofs::Masks::masks), unfolding(crate::specs::Table::rows))]
#[inline(always)]
pub fn by_register(half: u16) -> Decoded
    requires { half / 4096 ≡ 5 }
    ensures { result ≡ decoded half }
{
    let t = (half % 8) as u8;
    let n = ((half >> 3) % 8) as u8;
    let m = ((half >> 6) % 8) as u8;
    match half >> 9 {
        0x28 => Decoded::Op(Instr::Memory(Memory::StrRegister { t, n, m })),
        0x29 => Decoded::Op(Instr::Memory(Memory::StrhRegister { t, n, m })),
        0x2A => Decoded::Op(Instr::Memory(Memory::StrbRegister { t, n, m })),
        0x2B => Decoded::Op(Instr::Memory(Memory::LdrsbRegister { t, n, m })),
        0x2C => Decoded::Op(Instr::Memory(Memory::LdrRegister { t, n, m })),
        0x2D => Decoded::Op(Instr::Memory(Memory::LdrhRegister { t, n, m })),
        0x2E => Decoded::Op(Instr::Memory(Memory::LdrbRegister { t, n, m })),
        _ => Decoded::Op(Instr::Memory(Memory::LdrshRegister { t, n, m })),
    }
}

/// 6000 to 6FFF: words at a register and an immediate.
#[tactic(auto, using(crate::proofs::Near::words, crate::proofs::Masks::masks), unfolding(crate::specs::Table::rows))]
#[inline(always)]
pub fn words(half: u16) -> Decoded
    requires { half / 4096 ≡ 6 }
    ensures { result ≡ decoded half }
{
    let t = (half % 8) as u8;
    let n = ((half >> 3) % 8) as u8;
    let immediate = ((half >> 6) % 32) as u8;
    match half >> 11 {
        12 => Decoded::Op(Instr::Memory(Memory::StrImmediate { t, n, immediate })),
        _ => Decoded::Op(Instr::Memory(Memory::LdrImmediate { t, n, immediate })),
    }
}

/// 7000 to 7FFF: bytes at a register and an immediate.
#[tactic(auto, using(crate::proofs::Near::bytes, crate::proofs::Masks::masks), unfolding(crate::specs::Table::rows))]
#[inline(always)]
pub fn bytes(half: u16) -> Decoded
    requires { half / 4096 ≡ 7 }
    ensures { result ≡ decoded half }
{
    let t = (half % 8) as u8;
    let n = ((half >> 3) % 8) as u8;
    let immediate = ((half >> 6) % 32) as u8;
    match half >> 11 {
        14 => Decoded::Op(Instr::Memory(Memory::StrbImmediate { t, n, immediate })),
        _ => Decoded::Op(Instr::Memory(Memory::LdrbImmediate { t, n, immediate })),
    }
}

/// 8000 to 8FFF: halfwords at a register and an immediate.
#[tactic(auto, using(crate::proofs::Near::halfwords, crate::proofs::Masks::masks), unfolding(crate::specs::Table::rows))]
#[inline(always)]
pub fn halfwords(half: u16) -> Decoded
    requires { half / 4096 ≡ 8 }
    ensures { result ≡ decoded half }
{
    let t = (half % 8) as u8;
    let n = ((half >> 3) % 8) as u8;
    let immediate = ((half >> 6) % 32) as u8;
    match half >> 11 {
        16 => Decoded::Op(Instr::Memory(Memory::StrhImmediate { t, n, immediate })),
        _ => Decoded::Op(Instr::Memory(Memory::LdrhImmediate { t, n, immediate })),
    }
}

/// 9000 to 9FFF: words at SP and an immediate.
#[tactic(auto, using(crate::proofs::Near::on_stack, crate::proofs::Masks::masks), unfolding(crate::specs::Table::rows))]
#[inline(always)]
pub fn on_stack(half: u16) -> Decoded
    requires { half / 4096 ≡ 9 }
    ensures { result ≡ decoded half }
{
    let t = ((half >> 8) % 8) as u8;
    let immediate = (half % 256) as u8;
    match half >> 11 {
        18 => Decoded::Op(Instr::Memory(Memory::StrSp { t, immediate })),
        _ => Decoded::Op(Instr::Memory(Memory::LdrSp { t, immediate })),
    }
}
