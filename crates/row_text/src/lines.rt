//! Lines that are joined by bars.
ghost use Rattle.std.specs.Prelude.{◌≡◌, IfOk};
ghost use Rattle.row_text.specs.Rows.{ended, lines_in};

use anyhow::Result;
use std::alloc::Global;

/// The byte that a byte of a row stands for: a bar ends a line.
fn feed_or(byte: u8) -> u8
    ensures { result ≡ ended byte }
{
    if byte == b'|' { b'\n' } else { byte }
}

/// The text of lines that are joined by bars. Each ends with a line feed.
///
/// # Errors
///
/// Out of memory.
pub fn lines_of(alloc: Global, text: &str) -> Result<Vec<u8>>
    ensures { IfOk result (λ bytes. bytes.items ≡ lines_in text.now) }
{
    let mut bytes = text
        .bytes()
        .map(|byte| feed_or(byte))
        .collect::<Vec<u8>>(alloc)?;
    bytes.push(b'\n')?;
    Ok(bytes)
}
