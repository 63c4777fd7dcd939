//! Compares the assembler with code and refusals that were worked out by hand, and with binutils.

use anyhow::{Context, Result, bail};
use armv6m_asm::{AsmFault, Code, assemble};
use row_text::bytes_of;
use std::alloc::{AllocError, Global};

/// A text with its line ends and tabs.
fn unescaped(text: &str, alloc: Global) -> Result<String, AllocError> {
    let lines = text.replace(alloc, "\\n", "\n")?;
    let returns = lines.replace(alloc, "\\r", "\r")?;
    returns.replace(alloc, "\\t", "\t")
}

/// Whether code has these digits; `-` stands for no code.
fn is_code(code: &Code, due: &str, alloc: Global) -> Result<bool> {
    let digits = if due == "-" { "" } else { due };
    let bytes = bytes_of(alloc, digits)?;
    Ok(code.bytes.bytes() == bytes.as_slice())
}

/// Whether a refusal has this text.
fn is_told(fault: &AsmFault, due: &str, alloc: Global) -> Result<bool> {
    let told = format!(in alloc; "{fault}")?;
    Ok(told.as_str() == due)
}

/// Whether a text has this code, or is refused for this reason.
fn comes_to(text: &str, due: &str, alloc: Global) -> Result<bool> {
    match assemble(alloc, text.as_bytes()) {
        Ok(code) => is_code(&code, due, alloc),
        Err(fault) => is_told(&fault, due, alloc),
    }
}

/// Whether a row holds: the code of a text, or the refusal, and the text.
pub fn holds(line: &str, alloc: Global) -> Result<bool> {
    let (due, text) = line.split_once(" | ").context("no text")?;
    let text = unescaped(text, alloc)?;
    comes_to(text.as_str(), due, alloc)
}

/// Compares the code of a whole text, and answers its length.
pub fn check_whole(text: &str, due: &[u8], alloc: Global) -> Result<usize> {
    let code = assemble(alloc, text.as_bytes())?;
    if code.bytes.bytes() != due {
        bail!("other code");
    }
    Ok(due.len())
}
