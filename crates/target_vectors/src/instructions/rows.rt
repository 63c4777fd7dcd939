//! The rows of a file, each compared in the way of its kind.

use crate::instructions::row::words;
use crate::instructions::{code, conditions, ends, statements, steps, sums};
use anyhow::{Result, bail};
use std::alloc::Global;

/// What a row is compared with.
#[derive(Clone, Copy)]
pub enum Kind {
    /// The disassembler.
    Code,
    /// The assembler.
    Statement,
    /// A step after which the core goes on.
    Step,
    /// A step after which the core doesn't go on.
    End,
    /// A conditional branch.
    Condition,
    /// A sum, or the shifts of a value.
    Sum,
}

/// Whether a row holds.
fn holds(kind: Kind, line: &str, alloc: Global) -> Result<bool> {
    let words = words(line, alloc)?;
    match kind {
        Kind::Code => code::holds(line),
        Kind::Statement => statements::holds(line, alloc),
        Kind::Step => steps::holds(&words, alloc),
        Kind::End => ends::holds(&words, alloc),
        Kind::Condition => conditions::holds(&words, alloc),
        Kind::Sum => sums::holds(&words),
    }
}

/// Compares each row, and answers how many there are. A line that begins with `#` is no row.
pub fn check(kind: Kind, text: &str, alloc: Global) -> Result<usize> {
    let mut rows = 0usize;
    for line in text.lines() {
        if !line.starts_with('#') {
            if !holds(kind, line, alloc)? {
                bail!("{line}");
            }
            rows = rows.wrapping_add(1);
        }
    }
    Ok(rows)
}
