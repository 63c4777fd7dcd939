//! What a token means among operands.
ghost use Rattle.std.specs.Prelude.{◌≡◌, ◌↔◌, [], ◌∷◌, ◌<◌, codes, Some, None, IsTrue, IfSome, MatchOption};
ghost use Rattle.armv6m_asm.specs.Reading.{symbol_of, symbols_of, mark_symbol, IsLow, register_first, number_first, behind_comma, behind_open_brace};
ghost use Rattle.armv6m_asm.specs.Reading.{behind_close_bracket};
ghost use Rattle.armv6m_asm.specs.Scanned.{token_of};
ghost use Rattle.armv6m_asm.specs.Token.{word};

use crate::number::read_number;
use crate::token::{Token, split_token};
use armv6m_forms::{read_register, read_special};

/// What a token means among operands.
#[derive(Clone, Copy)]
pub(crate) enum Symbol {
    /// A register, 0 to 15.
    Register { number: u8 },
    /// A special register, by the manual's SYSm: APSR, MSP or PRIMASK.
    Special { number: u8 },
    /// A number below 2^32.
    Number { value: u32 },
    /// The flag `i` of CPS.
    Interrupts,
    Comma,
    Hash,
    Exclamation,
    OpenBracket,
    CloseBracket,
    OpenBrace,
    CloseBrace,
    /// A token that no operand has.
    Other,
}

/// The first symbol of a line and what follows it.
pub(crate) fn split_symbol(line: &[u8]) -> Option<(Symbol, &[u8])>
    ensures split { MatchOption result (symbols_of line.now ≡ []) (λ split. symbols_of line.now ≡ split.0 ∷ symbols_of split.1.now) }
    ensures low { IfSome result (λ split. IsLow split.0) }
{
    match split_token(line) {
        Some((token, rest)) => Some((symbol_of_token(token), rest)),
        None => None,
    }
}

/// The register that a line begins with, and what follows it.
pub(crate) fn split_register(line: &[u8]) -> Option<(u8, &[u8])>
    ensures split { MatchOption result (register_first (symbols_of line.now) ≡ None)
        (λ split. register_first (symbols_of line.now) ≡ Some (split.0, symbols_of split.1.now)) }
    ensures low { IfSome result (λ split. split.0 < 16) }
{
    match split_symbol(line)? {
        (Symbol::Register { number }, rest) => Some((number, rest)),
        _ => None,
    }
}

/// The number that a line begins with, and what follows it.
pub(crate) fn split_number(line: &[u8]) -> Option<(u32, &[u8])>
    ensures { MatchOption result (number_first (symbols_of line.now) ≡ None)
        (λ split. number_first (symbols_of line.now) ≡ Some (split.0, symbols_of split.1.now)) }
{
    match split_symbol(line)? {
        (Symbol::Number { value }, rest) => Some((value, rest)),
        _ => None,
    }
}

/// What follows the comma that a line begins with.
pub(crate) fn skip_comma(line: &[u8]) -> Option<&[u8]>
    ensures { MatchOption result (behind_comma (symbols_of line.now) ≡ None) (λ rest. behind_comma (symbols_of line.now) ≡ Some (symbols_of rest.now)) }
{
    match split_symbol(line)? {
        (Symbol::Comma, rest) => Some(rest),
        _ => None,
    }
}

/// What follows the opening brace that a line begins with.
pub(crate) fn skip_open_brace(line: &[u8]) -> Option<&[u8]>
    ensures { MatchOption result (behind_open_brace (symbols_of line.now) ≡ None)
        (λ rest. behind_open_brace (symbols_of line.now) ≡ Some (symbols_of rest.now)) }
{
    match split_symbol(line)? {
        (Symbol::OpenBrace, rest) => Some(rest),
        _ => None,
    }
}

/// What follows the closing bracket that a line begins with.
pub(crate) fn skip_close_bracket(line: &[u8]) -> Option<&[u8]>
    ensures { MatchOption result (behind_close_bracket (symbols_of line.now) ≡ None)
        (λ rest. behind_close_bracket (symbols_of line.now) ≡ Some (symbols_of rest.now)) }
{
    match split_symbol(line)? {
        (Symbol::CloseBracket, rest) => Some(rest),
        _ => None,
    }
}

/// What a token means among operands.
fn symbol_of_token(token: Token) -> Symbol
    ensures symbol { result ≡ symbol_of (token_of token.entry) }
    ensures low { IsLow result }
{
    match token {
        Token::Word { bytes } => symbol_of_word(bytes),
        Token::Mark { byte } => symbol_of_mark(byte),
    }
}

/// What a word means among operands.
fn symbol_of_word(bytes: &[u8]) -> Symbol
    ensures symbol { result ≡ symbol_of (word bytes.now) }
    ensures low { IsLow result }
{
    if let Some(value) = read_number(bytes) {
        Symbol::Number { value }
    } else if let Some(number) = read_register(bytes) {
        Symbol::Register { number }
    } else if let Some(number) = read_special(bytes) {
        Symbol::Special { number }
    } else if is_interrupts(bytes) {
        Symbol::Interrupts
    } else {
        Symbol::Other
    }
}

/// Whether a word is the flag `i` of CPS.
fn is_interrupts(word: &[u8]) -> bool
    ensures { IsTrue result ↔ (word.now ≡ codes "i") }
{
    word == b"i".as_slice()
}

/// What a byte that belongs to no word means among operands.
fn symbol_of_mark(byte: u8) -> Symbol
    ensures symbol { result ≡ mark_symbol byte }
    ensures low { IsLow result }
{
    match byte {
        b',' => Symbol::Comma,
        b'#' => Symbol::Hash,
        b'!' => Symbol::Exclamation,
        b'[' => Symbol::OpenBracket,
        b']' => Symbol::CloseBracket,
        b'{' => Symbol::OpenBrace,
        b'}' => Symbol::CloseBrace,
        _ => Symbol::Other,
    }
}
