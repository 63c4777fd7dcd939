//! The decoder of one halfword, and the laws of the table.

ghost use Rattle.std.specs.Prelude.{◌≡◌, ◌/◌};
ghost use Rattle.armv6m_decode.specs.Table.{decoded, OneRowForEach, OneRowForEachPair, NoRowBeginsPair};

use crate::branches::{conditional, first_of_pair, last, lists};
use crate::data::{
    add_or_subtract, data_processing, high_registers, move_or_compare, shift_or_add, shifts,
};
use crate::instr::Decoded;
use crate::memory::{by_register, bytes, halfwords, literal, on_stack, words};
use crate::miscellaneous::{addresses, miscellaneous};

/// No halfword fits two rows, and a halfword that begins a pair fits none.
pub fn one_row()
    ensures one { OneRowForEach }
    ensures pairs { NoRowBeginsPair }
{}

/// No pair of halfwords fits two rows.
pub fn one_pair_row()
    ensures { OneRowForEachPair }
{}

/// The instruction of the row that the halfword fits, with the row's fields. It is `NeedsSecond` exactly if the top five bits are 11101,
/// 11110 or 11111, and `Undefined` exactly if no row fits.
#[tactic(auto, using(crate::proofs::TableLemmas::begins_pair))]
#[inline(always)]
pub fn decode16(half: u16) -> Decoded
    ensures { result ≡ decoded half }
{
    match half >> 12 {
        0x0 => shifts(half),
        0x1 => shift_or_add(half),
        0x2 => move_or_compare(half),
        0x3 => add_or_subtract(half),
        0x4 => registers_or_literal(half),
        0x5 => by_register(half),
        0x6 => words(half),
        0x7 => bytes(half),
        0x8 => halfwords(half),
        0x9 => on_stack(half),
        0xA => addresses(half),
        0xB => miscellaneous(half),
        0xC => lists(half),
        0xD => conditional(half),
        0xE => last(half),
        _ => first_of_pair(half),
    }
}

/// The halfwords 4000 to 4FFF.
fn registers_or_literal(half: u16) -> Decoded
    requires { half / 4096 ≡ 4 }
    ensures { result ≡ decoded half }
{
    match half >> 10 {
        0x10 => data_processing(half),
        0x11 => high_registers(half),
        _ => literal(half),
    }
}
