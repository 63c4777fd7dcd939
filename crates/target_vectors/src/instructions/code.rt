//! Compares the decoder and the disassembler with binutils.

use crate::instructions::row::half;
use anyhow::{Context, Result};
use armv6m_decode::{Decoded, Instr, decode16, decode32};
use armv6m_forms::{Line, disassemble};
use row_text::number;

/// The instruction of one halfword, or of two.
fn decode(first: u16, second: &str) -> Result<Option<Instr>> {
    Ok(match decode16(first) {
        Decoded::Op(instr) => Some(instr),
        Decoded::NeedsSecond => decode32(first, half(second)?),
        Decoded::Undefined => None,
    })
}

/// Whether an instruction at an address has this statement.
fn is_written(instr: &Instr, at: u32, due: &str) -> bool {
    let mut line = Line::new();
    disassemble(instr, at, &mut line);
    line.bytes() == due.as_bytes()
}

/// Two halfwords, an address, and the statement.
fn parts(line: &str) -> Option<(&str, &str, &str, &str)> {
    let (first, rest) = line.split_once(' ')?;
    let (second, rest) = rest.split_once(' ')?;
    let (at, due) = rest.split_once(' ')?;
    Some((first, second, at, due))
}

/// Whether the code of a row is an instruction, which is written as its statement.
pub fn holds(line: &str) -> Result<bool> {
    let (first, second, at, due) = parts(line).context("a row is FIRST SECOND AT STATEMENT")?;
    let at = number(at)?;
    match decode(half(first)?, second)? {
        Some(instr) => Ok(is_written(&instr, at, due)),
        None => Ok(false),
    }
}
