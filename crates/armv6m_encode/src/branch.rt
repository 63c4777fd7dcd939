//! The encodings of branches: a function for each row, named in a comment as the manual names it (A6.7).

ghost use Rattle.std.specs.Prelude.{◌≡◌, ◌<◌, true, IsTrue};
ghost use Rattle.armv6m_decode.specs.Conditions.{condition_of};
ghost use Rattle.armv6m_decode.specs.Table.{decoded};
ghost use Rattle.armv6m_encode.specs.Encoding.{fields_fit, IsEncodedAs};

use crate::code::{Encoding, half};
use crate::pairs::bl;
use armv6m_decode::{Branch, Condition, Decoded, Instr};

/// Whether each field fits the bits that its row has for it.
pub(crate) fn fits(op: Branch) -> bool
    ensures { result ≡ fields_fit (Instr.Branch op) }
{
    match op {
        Branch::Bx { m } => m < 16,
        Branch::Blx { m } => m < 16,
        Branch::Bcc {
            condition: _,
            immediate: _,
        } => true,
        Branch::B { immediate } => immediate < 0x800,
        Branch::Bl { immediate } => immediate < 0x1000000,
    }
}

/// The encoding of the instruction.
#[tactic(auto, using(std::proofs::lemmas::Bool::Decides::nat_tests))]
pub(crate) fn encode(op: Branch) -> Encoding
    requires { IsTrue (fields_fit (Instr.Branch op)) }
    ensures { IsEncodedAs (Instr.Branch op) result }
{
    match op {
        Branch::Bx { m } => half(bx(m)),
        Branch::Blx { m } => half(blx(m)),
        Branch::Bcc {
            condition,
            immediate,
        } => half(bcc(condition, immediate)),
        Branch::B { immediate } => half(b(immediate)),
        Branch::Bl { immediate } => bl(immediate),
    }
}

/// BX T1.
#[tactic(auto, using(armv6m_decode::proofs::Near::exchange, armv6m_decode::proofs::Masks::masks), unfolding(armv6m_decode::specs::Table::rows))]
fn bx(m: u8) -> u16
    requires { m < 16 }
    ensures { decoded result ≡ Decoded.Op (Instr.Branch (Branch.Bx m)) }
{
    0x4700 + u16::from(m) * 0x8
}

/// BLX (register) T1.
#[tactic(auto, using(armv6m_decode::proofs::Near::exchange, armv6m_decode::proofs::Masks::masks), unfolding(armv6m_decode::specs::Table::rows))]
fn blx(m: u8) -> u16
    requires { m < 16 }
    ensures { decoded result ≡ Decoded.Op (Instr.Branch (Branch.Blx m)) }
{
    0x4780 + u16::from(m) * 0x8
}

/// B T1.
fn bcc(condition: Condition, immediate: u8) -> u16
    ensures { decoded result ≡ Decoded.Op (Instr.Branch (Branch.Bcc condition immediate)) }
{
    coded_bcc(condition.code(), immediate)
}

/// B T1, by the condition's code.
#[tactic(auto, using(armv6m_decode::proofs::Near::conditional, armv6m_decode::proofs::Masks::masks), unfolding(armv6m_decode::specs::Table::rows))]
fn coded_bcc(code: u8, immediate: u8) -> u16
    requires { code < 14 }
    ensures { decoded result ≡ Decoded.Op (Instr.Branch (Branch.Bcc (condition_of code) immediate)) }
{
    0xD000 + u16::from(code) * 0x100 + u16::from(immediate)
}

/// B T2.
#[tactic(auto, using(armv6m_decode::proofs::Near::branch, armv6m_decode::proofs::Masks::masks), unfolding(armv6m_decode::specs::Table::rows))]
fn b(immediate: u16) -> u16
    requires { immediate < 2048 }
    ensures { decoded result ≡ Decoded.Op (Instr.Branch (Branch.B immediate)) }
{
    0xE000 + immediate
}
