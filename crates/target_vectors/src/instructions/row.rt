//! The words of a row.

use crate::lines;
use anyhow::Result;
use std::alloc::Global;

/// The words of a line before a comment, which `#` begins.
pub fn words(line: &str, alloc: Global) -> Result<Vec<&str>> {
    let content = line.split_once('#').map_or(line, |parts| parts.0);
    lines::words(alloc, content)
}

/// A halfword.
pub fn half(word: &str) -> Result<u16> {
    Ok(u16::from_str_radix(word, 16)?)
}
