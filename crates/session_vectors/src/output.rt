//! Lines on standard output.

use anyhow::Result;

/// Prints a line.
pub fn put_line(rt: &HostRuntime, text: &str) -> Result<()> {
    println!(rt; "{text}")?;
    Ok(())
}
