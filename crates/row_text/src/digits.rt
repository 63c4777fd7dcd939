//! Bytes and numbers in hexadecimal digits.
ghost use Rattle.std.specs.Prelude.{◌≡◌, IfOk, Ok};
ghost use Rattle.std.specs.Str.Parse.{ParsesUnsigned};
ghost use Rattle.hex.specs.Hex.{decode_of};
ghost use Rattle.row_text.specs.Rows.{IsCounted};

use anyhow::Result;
use std::alloc::Global;

/// The number that a word gives in hexadecimal digits.
///
/// # Errors
///
/// If the word isn't a number below 2^32 in hexadecimal digits.
pub fn number(word: &str) -> Result<u32>
    ensures { ParsesUnsigned 32 16 word.now result }
{
    Ok(u32::from_str_radix(word, 16)?)
}

/// The bytes of pairs of digits.
///
/// # Errors
///
/// If the text isn't pairs of hexadecimal digits, or out of memory.
pub fn bytes_of(alloc: Global, digits: &str) -> Result<Vec<u8>>
    ensures { IfOk result (λ bytes. decode_of digits.now ≡ Ok bytes.items) }
{
    Ok(hex::decode(alloc, digits)?)
}

/// The bytes of a word: pairs of digits, perhaps with a star and how often they are repeated, in decimal digits. No bytes are `-`.
///
/// # Errors
///
/// If the text isn't such a word, or out of memory.
pub fn counted_bytes(alloc: Global, word: &str) -> Result<Vec<u8>>
    ensures { IfOk result (λ bytes. IsCounted word.now bytes.items) }
{
    match word.split_once('*') {
        Some((digits, count)) => {
            let count = count.parse::<usize>()?;
            Ok(bytes_of(alloc, digits)?.repeat(alloc, count)?)
        }
        None if word == "-" => Ok(Vec::new(alloc)),
        None => bytes_of(alloc, word),
    }
}

/// The bytes of some words, one after the other.
///
/// # Errors
///
/// If one of the words isn't of that form, or out of memory.
pub fn all_bytes(alloc: Global, words: &[&str]) -> Result<Vec<u8>> {
    let mut all = Vec::new(alloc);
    for word in words {
        all.extend_from_slice(&counted_bytes(alloc, word)?)?;
    }
    Ok(all)
}
