//! The halfwords C000 to FFFF: loads and stores of several registers, branches, and halfwords that begin a pair (A5.2.6, A5.3).

ghost use Rattle.std.specs.Prelude.{◌≡◌, ◌/◌, ◌%◌};
ghost use Rattle.armv6m_decode.specs.Table.{decoded};

use crate::Condition;
use crate::instr::{Branch, Decoded, Instr, Many, Other};

/// C000 to CFFF: STM and LDM.
#[tactic(auto, using(crate::proofs::Near::lists, crate::proofs::Masks::masks), unfolding(crate::specs::Table::rows))]
#[inline(always)]
pub fn lists(half: u16) -> Decoded
    requires { half / 4096 ≡ 12 }
    ensures { result ≡ decoded half }
{
    let n = ((half >> 8) % 8) as u8;
    let list = (half % 256) as u8;
    match half >> 11 {
        24 => Decoded::Op(Instr::Many(Many::Stm { n, list })),
        _ => Decoded::Op(Instr::Many(Many::Ldm { n, list })),
    }
}

/// D000 to DFFF: conditional branches, UDF and SVC.
#[tactic(auto, using(crate::proofs::Near::conditional, crate::proofs::Masks::masks), unfolding(crate::specs::Table::rows))]
#[inline(always)]
pub fn conditional(half: u16) -> Decoded
    requires { half / 4096 ≡ 13 }
    ensures { result ≡ decoded half }
{
    let immediate = (half % 256) as u8;
    match (half >> 8) % 16 {
        14 => Decoded::Op(Instr::Other(Other::Udf { immediate })),
        15 => Decoded::Op(Instr::Other(Other::Svc { immediate })),
        code => Decoded::Op(Instr::Branch(Branch::Bcc {
            condition: Condition::with_code(code as u8),
            immediate,
        })),
    }
}

/// E000 to EFFF: the unconditional branch, and halfwords that begin a pair.
#[tactic(auto, using(crate::proofs::Near::branch, crate::proofs::TableLemmas::begins_pair, crate::proofs::Masks::masks), unfolding(crate::specs::Table::rows))]
#[inline(always)]
pub fn last(half: u16) -> Decoded
    requires { half / 4096 ≡ 14 }
    ensures { result ≡ decoded half }
{
    match half >> 11 {
        0x1C => Decoded::Op(Instr::Branch(Branch::B {
            immediate: half % 2048,
        })),
        _ => Decoded::NeedsSecond,
    }
}

/// F000 to FFFF: halfwords that begin a pair.
#[tactic(auto, using(crate::proofs::TableLemmas::begins_pair))]
#[inline(always)]
pub fn first_of_pair(half: u16) -> Decoded
    requires { half / 4096 ≡ 15 }
    ensures { result ≡ decoded half }
{
    Decoded::NeedsSecond
}
