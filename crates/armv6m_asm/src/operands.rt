//! The operands of a statement.
ghost use Rattle.std.specs.Prelude.{◌≡◌, MatchOption};
ghost use Rattle.armv6m_forms.specs.declared.form.Operands.{Operands};
ghost use Rattle.armv6m_asm.specs.Statement.{Spell};
ghost use Rattle.armv6m_asm.specs.Token.{tokens_of};
ghost use Rattle.armv6m_asm.specs.Reading.{symbols_of, at_end, closed, to_special, updated, in_brackets, indexed, third, after_two, second, after_one};
ghost use Rattle.armv6m_asm.specs.Reading.{operands_of};

use crate::list::last_list;
use crate::symbol::{
    Symbol, skip_close_bracket, skip_comma, skip_open_brace, split_number, split_register,
    split_symbol,
};
use armv6m_forms::Operands;

/// The operands that a text spells, or none.
pub(crate) fn read_operands(line: &[u8]) -> Option<Operands>
    ensures { MatchOption result ((operands : Operands) → Spell operands (tokens_of line.now) → ⊥) (λ operands. Spell operands (tokens_of line.now)) }
{
    operands_of_line(line)
}

/// Reads the operands of a line by its tokens.
#[tactic(auto, unfolding(crate::specs::Reading::operands_of))]
fn operands_of_line(line: &[u8]) -> Option<Operands>
    ensures { result ≡ operands_of (symbols_of line.now) }
{
    let Some((symbol, rest)) = split_symbol(line) else {
        return Some(Operands::None);
    };
    match symbol {
        Symbol::Register { number } => after_one(number, rest),
        Symbol::Special { number } => to_special(number, rest),
        Symbol::Hash => {
            let (immediate, rest) = split_number(rest)?;
            at_end(Operands::Immediate { immediate }, rest)
        }
        Symbol::OpenBrace => {
            let list = last_list(rest)?;
            Some(Operands::List { list })
        }
        Symbol::Interrupts => at_end(Operands::Interrupts, rest),
        _ => None,
    }
}

/// The operands that begin with this register.
fn after_one(d: u8, line: &[u8]) -> Option<Operands>
    ensures { result ≡ after_one d (symbols_of line.now) }
{
    let Some((symbol, rest)) = split_symbol(line) else {
        return Some(Operands::One { m: d });
    };
    match symbol {
        Symbol::Comma => second(d, rest),
        Symbol::Exclamation => updated(d, rest),
        _ => None,
    }
}

/// The operands that begin with this register and a comma.
fn second(d: u8, line: &[u8]) -> Option<Operands>
    ensures { result ≡ second d (symbols_of line.now) }
{
    let (symbol, rest) = split_symbol(line)?;
    match symbol {
        Symbol::Register { number } => after_two(d, number, rest),
        Symbol::Special { number } => {
            let operands = Operands::FromSpecial { d, special: number };
            at_end(operands, rest)
        }
        Symbol::Hash => {
            let (immediate, rest) = split_number(rest)?;
            at_end(Operands::OneImmediate { d, immediate }, rest)
        }
        Symbol::OpenBracket => in_brackets(d, rest),
        Symbol::OpenBrace => {
            let list = last_list(rest)?;
            Some(Operands::BaseList { n: d, list })
        }
        _ => None,
    }
}

/// The operands that begin with these two registers.
fn after_two(d: u8, n: u8, line: &[u8]) -> Option<Operands>
    ensures { result ≡ after_two d n (symbols_of line.now) }
{
    match split_symbol(line) {
        None => Some(Operands::Two { d, m: n }),
        Some(_) => third(d, n, skip_comma(line)?),
    }
}

/// The operands that begin with these two registers and a comma.
fn third(d: u8, n: u8, line: &[u8]) -> Option<Operands>
    ensures { result ≡ third d n (symbols_of line.now) }
{
    let (symbol, rest) = split_symbol(line)?;
    match symbol {
        Symbol::Register { number } => at_end(Operands::Three { d, n, m: number }, rest),
        Symbol::Hash => {
            let (immediate, rest) = split_number(rest)?;
            at_end(Operands::TwoImmediate { d, n, immediate }, rest)
        }
        _ => None,
    }
}

/// The operands if nothing follows.
fn at_end(operands: Operands, line: &[u8]) -> Option<Operands>
    ensures { result ≡ at_end operands (symbols_of line.now) }
{
    match split_symbol(line) {
        None => Some(operands),
        Some(_) => None,
    }
}

/// The operands that begin with this special register.
fn to_special(special: u8, line: &[u8]) -> Option<Operands>
    ensures { result ≡ to_special special (symbols_of line.now) }
{
    let (n, rest) = split_register(skip_comma(line)?)?;
    at_end(Operands::ToSpecial { special, n }, rest)
}

/// The operands that begin with this register and an exclamation mark.
fn updated(n: u8, line: &[u8]) -> Option<Operands>
    ensures { result ≡ updated n (symbols_of line.now) }
{
    let list = last_list(skip_open_brace(skip_comma(line)?)?)?;
    Some(Operands::UpdatedList { n, list })
}

/// The operands that begin with this register, a comma and an opening bracket.
fn in_brackets(t: u8, line: &[u8]) -> Option<Operands>
    ensures { result ≡ in_brackets t (symbols_of line.now) }
{
    let (n, rest) = split_register(line)?;
    indexed(t, n, skip_comma(rest)?)
}

/// The operands that begin with register `t`, a comma, an opening bracket, register `n` and a comma.
fn indexed(t: u8, n: u8, line: &[u8]) -> Option<Operands>
    ensures { result ≡ indexed t n (symbols_of line.now) }
{
    let (symbol, rest) = split_symbol(line)?;
    match symbol {
        Symbol::Register { number } => closed(Operands::ByRegister { t, n, m: number }, rest),
        Symbol::Hash => {
            let (offset, rest) = split_number(rest)?;
            closed(Operands::ByOffset { t, n, offset }, rest)
        }
        _ => None,
    }
}

/// The operands if only a closing bracket follows.
fn closed(operands: Operands, line: &[u8]) -> Option<Operands>
    ensures { result ≡ closed operands (symbols_of line.now) }
{
    at_end(operands, skip_close_bracket(line)?)
}
