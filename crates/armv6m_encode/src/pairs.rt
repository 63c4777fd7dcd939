//! The encodings of two halfwords (A5.3.1).

ghost use Rattle.std.specs.Prelude.{◌<◌, ◌^◌};
ghost use Rattle.armv6m_encode.specs.Encoding.{IsEncodedAs};

use crate::code::Encoding;
use armv6m_decode::{Branch, Instr, Other};

/// BL T1. J1 is 1 if I1 equals S, and J2 is 1 if I2 equals S.
#[tactic(auto, using(armv6m_decode::proofs::Masks::pair_masks, armv6m_decode::proofs::TableLemmas::begins_pair), unfolding(armv6m_decode::specs::Table::pair_rows, armv6m_decode::specs::Table::decoded_pair))]
pub(crate) fn bl(immediate: u32) -> Encoding
    requires { immediate < 2 ^ 24 }
    ensures { IsEncodedAs (Instr.Branch (Branch.Bl immediate)) result }
{
    let sign = immediate >> 23;
    let j1 = if (immediate >> 22) % 2 == sign { 1 } else { 0 };
    let j2 = if (immediate >> 21) % 2 == sign { 1 } else { 0 };
    let first = 0xF000 + sign * 0x400 + (immediate >> 11) % 0x400;
    let second = 0xD000 + j1 * 0x2000 + j2 * 0x800 + immediate % 0x800;
    Encoding::Pair {
        first: first as u16,
        second: second as u16,
    }
}

/// MRS T1.
#[tactic(auto, using(armv6m_decode::proofs::Masks::pair_masks, armv6m_decode::proofs::TableLemmas::begins_pair), unfolding(armv6m_decode::specs::Table::pair_rows, armv6m_decode::specs::Table::decoded_pair))]
pub(crate) fn mrs(d: u8, special: u8) -> Encoding
    requires { d < 16 }
    ensures { IsEncodedAs (Instr.Other (Other.Mrs d special)) result }
{
    Encoding::Pair {
        first: 0xF3EF,
        second: 0x8000 + u16::from(d) * 0x100 + u16::from(special),
    }
}

/// MSR (register) T1.
#[tactic(auto, using(armv6m_decode::proofs::Masks::pair_masks, armv6m_decode::proofs::TableLemmas::begins_pair), unfolding(armv6m_decode::specs::Table::pair_rows, armv6m_decode::specs::Table::decoded_pair))]
pub(crate) fn msr(n: u8, special: u8) -> Encoding
    requires { n < 16 }
    ensures { IsEncodedAs (Instr.Other (Other.Msr n special)) result }
{
    Encoding::Pair {
        first: 0xF380 + u16::from(n),
        second: 0x8800 + u16::from(special),
    }
}

/// DSB T1, of the full system.
#[tactic(auto, using(armv6m_decode::proofs::Masks::pair_masks, armv6m_decode::proofs::TableLemmas::begins_pair), unfolding(armv6m_decode::specs::Table::pair_rows, armv6m_decode::specs::Table::decoded_pair))]
pub(crate) fn dsb() -> Encoding
    ensures { IsEncodedAs (Instr.Other Other.Dsb) result }
{
    Encoding::Pair {
        first: 0xF3BF,
        second: 0x8F4F,
    }
}

/// DMB T1, of the full system.
#[tactic(auto, using(armv6m_decode::proofs::Masks::pair_masks, armv6m_decode::proofs::TableLemmas::begins_pair), unfolding(armv6m_decode::specs::Table::pair_rows, armv6m_decode::specs::Table::decoded_pair))]
pub(crate) fn dmb() -> Encoding
    ensures { IsEncodedAs (Instr.Other Other.Dmb) result }
{
    Encoding::Pair {
        first: 0xF3BF,
        second: 0x8F5F,
    }
}

/// ISB T1, of the full system.
#[tactic(auto, using(armv6m_decode::proofs::Masks::pair_masks, armv6m_decode::proofs::TableLemmas::begins_pair), unfolding(armv6m_decode::specs::Table::pair_rows, armv6m_decode::specs::Table::decoded_pair))]
pub(crate) fn isb() -> Encoding
    ensures { IsEncodedAs (Instr.Other Other.Isb) result }
{
    Encoding::Pair {
        first: 0xF3BF,
        second: 0x8F6F,
    }
}
