//! The decoder of two halfwords (A5.3.1).

ghost use Rattle.std.specs.Prelude.{◌≡◌};
ghost use Rattle.armv6m_decode.specs.Table.{decoded_pair, branch_offset};

use crate::instr::{Branch, Instr, Other};

/// The instruction of the row that the pair fits, with the row's fields, or `None` exactly if no row fits.
#[tactic(auto, using(crate::proofs::Masks::pair_masks), unfolding(crate::specs::Table::pair_rows, crate::specs::Table::decoded_pair))]
#[inline(always)]
pub fn decode32(first: u16, second: u16) -> Option<Instr>
    ensures { result ≡ decoded_pair first second }
{
    if first >> 11 == 0x1E && second >> 14 == 3 && (second >> 12) % 2 == 1 {
        Some(Instr::Branch(Branch::Bl {
            immediate: offset_bits(first, second),
        }))
    } else if first == 0xF3EF && second >> 12 == 8 {
        Some(Instr::Other(Other::Mrs {
            d: ((second >> 8) % 16) as u8,
            special: (second % 256) as u8,
        }))
    } else if first >> 4 == 0xF38 && second >> 8 == 0x88 {
        Some(Instr::Other(Other::Msr {
            n: (first % 16) as u8,
            special: (second % 256) as u8,
        }))
    } else if first == 0xF3BF {
        match second >> 4 {
            0x8F4 => Some(Instr::Other(Other::Dsb)),
            0x8F5 => Some(Instr::Other(Other::Dmb)),
            0x8F6 => Some(Instr::Other(Other::Isb)),
            _ => None,
        }
    } else {
        None
    }
}

/// The bits S:I1:I2:imm10:imm11 of BL. I1 is 1 if J1 equals S, and I2 is 1 if J2 equals S.
#[inline(always)]
fn offset_bits(first: u16, second: u16) -> u32
    ensures { result ≡ branch_offset first second }
{
    let sign = (first >> 10) % 2;
    let i1 = if (second >> 13) % 2 == sign { 1 } else { 0 };
    let i2 = if (second >> 11) % 2 == sign { 1 } else { 0 };
    u32::from(sign) * 0x80_0000
        + i1 * 0x40_0000
        + i2 * 0x20_0000
        + u32::from(first % 1024) * 0x800
        + u32::from(second % 2048)
}
