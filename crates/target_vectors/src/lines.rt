//! The lines of the cases, and the lines that are printed.

use anyhow::Result;
use row_text::number;
use std::alloc::Global;

/// The words of a line.
pub fn words(alloc: Global, line: &str) -> Result<Vec<&str>> {
    Ok(line.split_whitespace().collect::<Vec<&str>>(alloc)?)
}

/// The first of some words, as numbers. A word that isn't there counts as 0.
pub fn numbers<const N: usize>(words: &[&str]) -> Result<[u32; N]> {
    let mut numbers = [0; N];
    for (place, word) in numbers.iter_mut().zip(words) {
        *place = number(word)?;
    }
    Ok(numbers)
}

/// Prints a line.
pub fn put_line(rt: &HostRuntime, text: &str) -> Result<()> {
    println!(rt; "{text}")?;
    Ok(())
}

/// Prints a line of bytes, each by its two hexadecimal digits.
pub fn put_bytes(rt: &HostRuntime, bytes: &[u8]) -> Result<()> {
    for byte in bytes {
        print!(rt; "{byte:02X}")?;
    }
    put_line(rt, "")
}
