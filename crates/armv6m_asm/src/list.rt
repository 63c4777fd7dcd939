//! Lists of registers.
ghost use Rattle.std.specs.Prelude.{◌≡◌, ◌<◌, ◌+◌, ◌^◌, false};
ghost use Rattle.armv6m_alu.specs.Bits.{is_bit_set};
ghost use Rattle.armv6m_asm.specs.Reading.{IsLow, symbols_of, register_in, with_one_more, list_of};

use crate::symbol::{Symbol, split_symbol};

/// The list of the registers before a closing brace, which is the text's last token. Bit r stands for register r.
#[tactic(auto, unfolding(crate::specs::Reading::list_of))]
pub(crate) fn last_list(line: &[u8]) -> Option<u16>
    ensures { result ≡ list_of 0 (symbols_of line.now) }
{
    let mut list = 0;
    let mut rest = line;
    'registers: loop {
        let (register, behind) = split_symbol(rest)?;
        let (next, behind) = split_symbol(behind)?;
        list = with_one_more(list, register)?;
        match next {
            Symbol::Comma => rest = behind,
            Symbol::CloseBrace if split_symbol(behind).is_none() => return Some(list),
            _ => return None,
        }
    }
}

/// A list with one register more. It is none if the list has the register already, or the symbol is no register.
fn with_one_more(list: u16, symbol: Symbol) -> Option<u16>
    requires { IsLow symbol }
    ensures { result ≡ with_one_more list (register_in symbol) }
{
    match symbol {
        Symbol::Register { number } if !has(list, number) => Some(more(list, number)),
        _ => None,
    }
}

/// Whether a register is in a list.
fn has(list: u16, number: u8) -> bool
    requires { number < 16 }
    ensures { result ≡ is_bit_set list number }
{
    (list >> number) % 2 == 1
}

/// A list with a register that it doesn't have yet.
fn more(list: u16, number: u8) -> u16
    requires low { number < 16 }
    requires new { is_bit_set list number ≡ false }
    ensures { result ≡ list + 2 ^ number }
{
    list + (1 << number)
}
