//! Names and destinations.
ghost use Rattle.std.specs.Prelude.{◌≡◌, ◌≢◌, ◌||◌, ℕ, List, [], ◌∷◌, MatchOption};
ghost use Rattle.std.specs.List.{list_all};
ghost use Rattle.armv6m_asm.specs.Statement.{Are, is_name, low_register, comma, destination};
ghost use Rattle.armv6m_asm.specs.Token.{Token, is_letter, is_digit, word, tokens_of};
ghost use Rattle.armv6m_asm.specs.declared.statement.Destination.{Destination};

use crate::number::read_address;
use crate::statement::Destination;
use crate::token::{is_end, skip_mark, split_word};
use armv6m_forms::read_register;

/// Reads a text as a low register, a comma and a destination.
pub(crate) fn last_pair(line: &[u8]) -> Option<(u8, Destination<'_>)>
    ensures { MatchOption result ((t : ℕ) (to : Destination) → Are (low_register t ∷ comma ∷ destination to ∷ []) (tokens_of line.now) → ⊥)
        (λ pair. Are (low_register pair.0 ∷ comma ∷ destination pair.1 ∷ []) (tokens_of line.now)) }
{
    let (register, rest) = split_low(line)?;
    let to = last_destination(skip_mark(rest, b',')?)?;
    Some((register, to))
}

/// Three bits name the registers below this one.
const LOW: u8 = 8;

/// The low register that a text begins with, and what follows it.
fn split_low(line: &[u8]) -> Option<(u8, &[u8])>
    ensures { MatchOption result ((t : ℕ) (first : Token) (rest : List Token) → low_register t first → tokens_of line.now ≢ first ∷ rest)
        (λ split. (first : Token) × (low_register split.0 first × (tokens_of line.now ≡ first ∷ tokens_of split.1.now))) }
{
    let (bytes, rest) = split_word(line)?;
    let register = read_register(bytes)?;
    if register < LOW {
        Some((register, rest))
    } else {
        None
    }
}

/// Reads a text as a destination.
pub(crate) fn last_destination(line: &[u8]) -> Option<Destination<'_>>
    ensures { MatchOption result ((to : Destination) → Are (destination to ∷ []) (tokens_of line.now) → ⊥)
        (λ to. Are (destination to ∷ []) (tokens_of line.now)) }
{
    let (bytes, rest) = split_word(line)?;
    if is_end(rest) {
        read_destination(bytes)
    } else {
        None
    }
}

/// Reads a word as a destination: a name or an address.
fn read_destination(bytes: &[u8]) -> Option<Destination<'_>>
    ensures { MatchOption result ((to : Destination) → destination to (word bytes.now) → ⊥) (λ to. destination to (word bytes.now)) }
{
    if is_name(bytes) {
        return Some(Destination::Label { name: bytes });
    }
    match read_address(bytes) {
        Some(address) => Some(Destination::Address { address }),
        None => None,
    }
}

/// Whether a word is a name.
pub(crate) fn is_name(word: &[u8]) -> bool
    ensures { result ≡ is_name word.now }
{
    let [first, rest @ ..] = word else {
        return false;
    };
    is_letter(*first) && are_of_name(rest)
}

/// Whether all bytes are letters, digits or underscores.
fn are_of_name(bytes: &[u8]) -> bool
    ensures { result ≡ list_all (λ byte. is_letter byte || is_digit byte) bytes.now }
{
    bytes
        .iter()
        .all(|byte| is_letter(*byte) || byte.is_ascii_digit())
}

/// Whether a byte is a letter or an underscore.
fn is_letter(byte: u8) -> bool
    ensures { result ≡ is_letter byte }
{
    byte.is_ascii_alphabetic() || byte == b'_'
}
