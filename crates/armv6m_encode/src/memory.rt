//! The encodings of loads and stores of one register: a function for each row, named in a comment as the manual names it (A6.7).

ghost use Rattle.std.specs.Prelude.{◌≡◌, ◌<◌, IsTrue};
ghost use Rattle.armv6m_decode.specs.Table.{decoded};
ghost use Rattle.armv6m_encode.specs.Encoding.{fields_fit};

use armv6m_decode::{Decoded, Instr, Memory};

/// Whether each field fits the bits that its row has for it.
pub(crate) fn fits(op: Memory) -> bool
    ensures { result ≡ fields_fit (Instr.Memory op) }
{
    match op {
        Memory::LdrLiteral { t, immediate: _ }
        | Memory::StrSp { t, immediate: _ }
        | Memory::LdrSp { t, immediate: _ } => t < 8,
        Memory::StrRegister { t, n, m }
        | Memory::StrhRegister { t, n, m }
        | Memory::StrbRegister { t, n, m }
        | Memory::LdrsbRegister { t, n, m }
        | Memory::LdrRegister { t, n, m }
        | Memory::LdrhRegister { t, n, m }
        | Memory::LdrbRegister { t, n, m }
        | Memory::LdrshRegister { t, n, m } => t < 8 && n < 8 && m < 8,
        Memory::StrImmediate { t, n, immediate }
        | Memory::LdrImmediate { t, n, immediate }
        | Memory::StrbImmediate { t, n, immediate }
        | Memory::LdrbImmediate { t, n, immediate }
        | Memory::StrhImmediate { t, n, immediate }
        | Memory::LdrhImmediate { t, n, immediate } => t < 8 && n < 8 && immediate < 32,
    }
}

/// The encoding of the instruction.
#[tactic(auto, using(std::proofs::lemmas::Bool::Decides::nat_tests))]
pub(crate) fn encode(op: Memory) -> u16
    requires { IsTrue (fields_fit (Instr.Memory op)) }
    ensures { decoded result ≡ Decoded.Op (Instr.Memory op) }
{
    match op {
        Memory::LdrLiteral { t, immediate } => ldr_literal(t, immediate),
        Memory::StrRegister { t, n, m } => str_register(t, n, m),
        Memory::StrhRegister { t, n, m } => strh_register(t, n, m),
        Memory::StrbRegister { t, n, m } => strb_register(t, n, m),
        Memory::LdrsbRegister { t, n, m } => ldrsb_register(t, n, m),
        Memory::LdrRegister { t, n, m } => ldr_register(t, n, m),
        Memory::LdrhRegister { t, n, m } => ldrh_register(t, n, m),
        Memory::LdrbRegister { t, n, m } => ldrb_register(t, n, m),
        Memory::LdrshRegister { t, n, m } => ldrsh_register(t, n, m),
        Memory::StrImmediate { t, n, immediate } => str_immediate(t, n, immediate),
        Memory::LdrImmediate { t, n, immediate } => ldr_immediate(t, n, immediate),
        Memory::StrbImmediate { t, n, immediate } => strb_immediate(t, n, immediate),
        Memory::LdrbImmediate { t, n, immediate } => ldrb_immediate(t, n, immediate),
        Memory::StrhImmediate { t, n, immediate } => strh_immediate(t, n, immediate),
        Memory::LdrhImmediate { t, n, immediate } => ldrh_immediate(t, n, immediate),
        Memory::StrSp { t, immediate } => str_sp(t, immediate),
        Memory::LdrSp { t, immediate } => ldr_sp(t, immediate),
    }
}

/// LDR (literal) T1.
#[tactic(auto, using(armv6m_decode::proofs::Near::literal, armv6m_decode::proofs::Masks::masks), unfolding(armv6m_decode::specs::Table::rows))]
fn ldr_literal(t: u8, immediate: u8) -> u16
    requires { t < 8 }
    ensures { decoded result ≡ Decoded.Op (Instr.Memory (Memory.LdrLiteral t immediate)) }
{
    0x4800 + u16::from(t) * 0x100 + u16::from(immediate)
}

/// STR (register) T1.
#[tactic(auto, using(armv6m_decode::proofs::Near::by_register, armv6m_decode::proofs::Masks::masks), unfolding(armv6m_decode::specs::Table::rows))]
fn str_register(t: u8, n: u8, m: u8) -> u16
    requires t_fits { t < 8 }
    requires n_fits { n < 8 }
    requires m_fits { m < 8 }
    ensures { decoded result ≡ Decoded.Op (Instr.Memory (Memory.StrRegister t n m)) }
{
    0x5000 + u16::from(m) * 0x40 + u16::from(n) * 0x8 + u16::from(t)
}

/// STRH (register) T1.
#[tactic(auto, using(armv6m_decode::proofs::Near::by_register, armv6m_decode::proofs::Masks::masks), unfolding(armv6m_decode::specs::Table::rows))]
fn strh_register(t: u8, n: u8, m: u8) -> u16
    requires t_fits { t < 8 }
    requires n_fits { n < 8 }
    requires m_fits { m < 8 }
    ensures { decoded result ≡ Decoded.Op (Instr.Memory (Memory.StrhRegister t n m)) }
{
    0x5200 + u16::from(m) * 0x40 + u16::from(n) * 0x8 + u16::from(t)
}

/// STRB (register) T1.
#[tactic(auto, using(armv6m_decode::proofs::Near::by_register, armv6m_decode::proofs::Masks::masks), unfolding(armv6m_decode::specs::Table::rows))]
fn strb_register(t: u8, n: u8, m: u8) -> u16
    requires t_fits { t < 8 }
    requires n_fits { n < 8 }
    requires m_fits { m < 8 }
    ensures { decoded result ≡ Decoded.Op (Instr.Memory (Memory.StrbRegister t n m)) }
{
    0x5400 + u16::from(m) * 0x40 + u16::from(n) * 0x8 + u16::from(t)
}

/// LDRSB (register) T1.
#[tactic(auto, using(armv6m_decode::proofs::Near::by_register, armv6m_decode::proofs::Masks::masks), unfolding(armv6m_decode::specs::Table::rows))]
fn ldrsb_register(t: u8, n: u8, m: u8) -> u16
    requires t_fits { t < 8 }
    requires n_fits { n < 8 }
    requires m_fits { m < 8 }
    ensures { decoded result ≡ Decoded.Op (Instr.Memory (Memory.LdrsbRegister t n m)) }
{
    0x5600 + u16::from(m) * 0x40 + u16::from(n) * 0x8 + u16::from(t)
}

/// LDR (register) T1.
#[tactic(auto, using(armv6m_decode::proofs::Near::by_register, armv6m_decode::proofs::Masks::masks), unfolding(armv6m_decode::specs::Table::rows))]
fn ldr_register(t: u8, n: u8, m: u8) -> u16
    requires t_fits { t < 8 }
    requires n_fits { n < 8 }
    requires m_fits { m < 8 }
    ensures { decoded result ≡ Decoded.Op (Instr.Memory (Memory.LdrRegister t n m)) }
{
    0x5800 + u16::from(m) * 0x40 + u16::from(n) * 0x8 + u16::from(t)
}

/// LDRH (register) T1.
#[tactic(auto, using(armv6m_decode::proofs::Near::by_register, armv6m_decode::proofs::Masks::masks), unfolding(armv6m_decode::specs::Table::rows))]
fn ldrh_register(t: u8, n: u8, m: u8) -> u16
    requires t_fits { t < 8 }
    requires n_fits { n < 8 }
    requires m_fits { m < 8 }
    ensures { decoded result ≡ Decoded.Op (Instr.Memory (Memory.LdrhRegister t n m)) }
{
    0x5A00 + u16::from(m) * 0x40 + u16::from(n) * 0x8 + u16::from(t)
}

/// LDRB (register) T1.
#[tactic(auto, using(armv6m_decode::proofs::Near::by_register, armv6m_decode::proofs::Masks::masks), unfolding(armv6m_decode::specs::Table::rows))]
fn ldrb_register(t: u8, n: u8, m: u8) -> u16
    requires t_fits { t < 8 }
    requires n_fits { n < 8 }
    requires m_fits { m < 8 }
    ensures { decoded result ≡ Decoded.Op (Instr.Memory (Memory.LdrbRegister t n m)) }
{
    0x5C00 + u16::from(m) * 0x40 + u16::from(n) * 0x8 + u16::from(t)
}

/// LDRSH (register) T1.
#[tactic(auto, using(armv6m_decode::proofs::Near::by_register, armv6m_decode::proofs::Masks::masks), unfolding(armv6m_decode::specs::Table::rows))]
fn ldrsh_register(t: u8, n: u8, m: u8) -> u16
    requires t_fits { t < 8 }
    requires n_fits { n < 8 }
    requires m_fits { m < 8 }
    ensures { decoded result ≡ Decoded.Op (Instr.Memory (Memory.LdrshRegister t n m)) }
{
    0x5E00 + u16::from(m) * 0x40 + u16::from(n) * 0x8 + u16::from(t)
}

/// STR (immediate) T1.
#[tactic(auto, using(armv6m_decode::proofs::Near::words, armv6m_decode::proofs::Masks::masks), unfolding(armv6m_decode::specs::Table::rows))]
fn str_immediate(t: u8, n: u8, immediate: u8) -> u16
    requires t_fits { t < 8 }
    requires n_fits { n < 8 }
    requires immediate_fits { immediate < 32 }
    ensures { decoded result ≡ Decoded.Op (Instr.Memory (Memory.StrImmediate t n immediate)) }
{
    0x6000 + u16::from(immediate) * 0x40 + u16::from(n) * 0x8 + u16::from(t)
}

/// LDR (immediate) T1.
#[tactic(auto, using(armv6m_decode::proofs::Near::words, armv6m_decode::proofs::Masks::masks), unfolding(armv6m_decode::specs::Table::rows))]
fn ldr_immediate(t: u8, n: u8, immediate: u8) -> u16
    requires t_fits { t < 8 }
    requires n_fits { n < 8 }
    requires immediate_fits { immediate < 32 }
    ensures { decoded result ≡ Decoded.Op (Instr.Memory (Memory.LdrImmediate t n immediate)) }
{
    0x6800 + u16::from(immediate) * 0x40 + u16::from(n) * 0x8 + u16::from(t)
}

/// STRB (immediate) T1.
#[tactic(auto, using(armv6m_decode::proofs::Near::bytes, armv6m_decode::proofs::Masks::masks), unfolding(armv6m_decode::specs::Table::rows))]
fn strb_immediate(t: u8, n: u8, immediate: u8) -> u16
    requires t_fits { t < 8 }
    requires n_fits { n < 8 }
    requires immediate_fits { immediate < 32 }
    ensures { decoded result ≡ Decoded.Op (Instr.Memory (Memory.StrbImmediate t n immediate)) }
{
    0x7000 + u16::from(immediate) * 0x40 + u16::from(n) * 0x8 + u16::from(t)
}

/// LDRB (immediate) T1.
#[tactic(auto, using(armv6m_decode::proofs::Near::bytes, armv6m_decode::proofs::Masks::masks), unfolding(armv6m_decode::specs::Table::rows))]
fn ldrb_immediate(t: u8, n: u8, immediate: u8) -> u16
    requires t_fits { t < 8 }
    requires n_fits { n < 8 }
    requires immediate_fits { immediate < 32 }
    ensures { decoded result ≡ Decoded.Op (Instr.Memory (Memory.LdrbImmediate t n immediate)) }
{
    0x7800 + u16::from(immediate) * 0x40 + u16::from(n) * 0x8 + u16::from(t)
}

/// STRH (immediate) T1.
#[tactic(auto, using(armv6m_decode::proofs::Near::halfwords, armv6m_decode::proofs::Masks::masks), unfolding(armv6m_decode::specs::Table::rows))]
fn strh_immediate(t: u8, n: u8, immediate: u8) -> u16
    requires t_fits { t < 8 }
    requires n_fits { n < 8 }
    requires immediate_fits { immediate < 32 }
    ensures { decoded result ≡ Decoded.Op (Instr.Memory (Memory.StrhImmediate t n immediate)) }
{
    0x8000 + u16::from(immediate) * 0x40 + u16::from(n) * 0x8 + u16::from(t)
}

/// LDRH (immediate) T1.
#[tactic(auto, using(armv6m_decode::proofs::Near::halfwords, armv6m_decode::proofs::Masks::masks), unfolding(armv6m_decode::specs::Table::rows))]
fn ldrh_immediate(t: u8, n: u8, immediate: u8) -> u16
    requires t_fits { t < 8 }
    requires n_fits { n < 8 }
    requires immediate_fits { immediate < 32 }
    ensures { decoded result ≡ Decoded.Op (Instr.Memory (Memory.LdrhImmediate t n immediate)) }
{
    0x8800 + u16::from(immediate) * 0x40 + u16::from(n) * 0x8 + u16::from(t)
}

/// STR (immediate) T2.
#[tactic(auto, using(armv6m_decode::proofs::Near::on_stack, armv6m_decode::proofs::Masks::masks), unfolding(armv6m_decode::specs::Table::rows))]
fn str_sp(t: u8, immediate: u8) -> u16
    requires { t < 8 }
    ensures { decoded result ≡ Decoded.Op (Instr.Memory (Memory.StrSp t immediate)) }
{
    0x9000 + u16::from(t) * 0x100 + u16::from(immediate)
}

/// LDR (immediate) T2.
#[tactic(auto, using(armv6m_decode::proofs::Near::on_stack, armv6m_decode::proofs::Masks::masks), unfolding(armv6m_decode::specs::Table::rows))]
fn ldr_sp(t: u8, immediate: u8) -> u16
    requires { t < 8 }
    ensures { decoded result ≡ Decoded.Op (Instr.Memory (Memory.LdrSp t immediate)) }
{
    0x9800 + u16::from(t) * 0x100 + u16::from(immediate)
}
