//! The encodings of loads and stores of a list of registers: a function for each row, named in a comment as the manual names it (A6.7).

ghost use Rattle.std.specs.Prelude.{◌≡◌, ◌<◌, true, IsTrue};
ghost use Rattle.armv6m_decode.specs.Table.{decoded};
ghost use Rattle.armv6m_encode.specs.Encoding.{fields_fit};

use armv6m_decode::{Decoded, Instr, Many};

/// Whether each field fits the bits that its row has for it.
pub(crate) fn fits(op: Many) -> bool
    ensures { result ≡ fields_fit (Instr.Many op) }
{
    match op {
        Many::Push { lr: _, list: _ } => true,
        Many::Pop { pc: _, list: _ } => true,
        Many::Stm { n, list: _ } => n < 8,
        Many::Ldm { n, list: _ } => n < 8,
    }
}

/// The encoding of the instruction.
#[tactic(auto, using(std::proofs::lemmas::Bool::Decides::nat_tests))]
pub(crate) fn encode(op: Many) -> u16
    requires { IsTrue (fields_fit (Instr.Many op)) }
    ensures { decoded result ≡ Decoded.Op (Instr.Many op) }
{
    match op {
        Many::Push { lr, list } => push(lr, list),
        Many::Pop { pc, list } => pop(pc, list),
        Many::Stm { n, list } => stm(n, list),
        Many::Ldm { n, list } => ldm(n, list),
    }
}

/// PUSH T1.
#[tactic(auto, using(armv6m_decode::proofs::Near::push, armv6m_decode::proofs::Masks::masks), unfolding(armv6m_decode::specs::Table::rows))]
fn push(lr: bool, list: u8) -> u16
    ensures { decoded result ≡ Decoded.Op (Instr.Many (Many.Push lr list)) }
{
    0xB400 + if lr { 0x100 } else { 0 } + u16::from(list)
}

/// POP T1.
#[tactic(auto, using(armv6m_decode::proofs::Near::pop, armv6m_decode::proofs::Masks::masks), unfolding(armv6m_decode::specs::Table::rows))]
fn pop(pc: bool, list: u8) -> u16
    ensures { decoded result ≡ Decoded.Op (Instr.Many (Many.Pop pc list)) }
{
    0xBC00 + if pc { 0x100 } else { 0 } + u16::from(list)
}

/// STM T1.
#[tactic(auto, using(armv6m_decode::proofs::Near::lists, armv6m_decode::proofs::Masks::masks), unfolding(armv6m_decode::specs::Table::rows))]
fn stm(n: u8, list: u8) -> u16
    requires { n < 8 }
    ensures { decoded result ≡ Decoded.Op (Instr.Many (Many.Stm n list)) }
{
    0xC000 + u16::from(n) * 0x100 + u16::from(list)
}

/// LDM T1.
#[tactic(auto, using(armv6m_decode::proofs::Near::lists, armv6m_decode::proofs::Masks::masks), unfolding(armv6m_decode::specs::Table::rows))]
fn ldm(n: u8, list: u8) -> u16
    requires { n < 8 }
    ensures { decoded result ≡ Decoded.Op (Instr.Many (Many.Ldm n list)) }
{
    0xC800 + u16::from(n) * 0x100 + u16::from(list)
}
