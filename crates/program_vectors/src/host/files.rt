//! The files of the jobs.

use anyhow::{Context, Result};
use row_text::bytes_of;
use std::fs::{self, OpenOptions};
use std::os::unix::fs::FileExt;

/// The most bytes that a line fills.
const MOST: usize = 1 << 21;

/// Makes a file of `count` bytes of this value.
pub fn fill(rt: &HostRuntime, name: &str, count: usize, byte: &str) -> Result<()> {
    let byte = bytes_of(rt.alloc(), byte)?.pop().context("no byte")?;
    let bytes = vec![in rt.alloc(); byte; count.min(MOST)]?;
    fs::write(rt, name, bytes.as_slice())?;
    Ok(())
}

/// Writes bytes over those of a file, from a place on.
pub fn put(rt: &HostRuntime, name: &str, at: u64, bytes: &str) -> Result<()> {
    let file = OpenOptions::new().write(true).open(rt, name)?;
    file.write_all_at(&bytes_of(rt.alloc(), bytes)?, at)?;
    Ok(())
}

/// Prints how many bytes a file has.
pub fn length(rt: &HostRuntime, name: &str) -> Result<()> {
    let len = fs::metadata(rt, name)?.len();
    println!(rt; "{name} has {len} bytes")?;
    Ok(())
}
