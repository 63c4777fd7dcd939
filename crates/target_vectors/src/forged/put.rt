//! What is printed of a listing.

use crate::lines::{put_bytes, put_line};
use anyhow::Result;
use flm_descriptor::{Algorithm, read_flm};
use flm_forge::{Listing, forge};
use outside_io::MemorySink;
use report_text::put_inspection;

/// The bytes on a line.
const LINE_LEN: usize = 32;

/// Makes the file of a listing, and puts what it says and its bytes.
pub fn put(rt: &HostRuntime, name: &str, listing: &Listing) -> Result<()> {
    put_line(rt, name)?;
    let file = forge(rt.alloc(), listing)?;
    put_file(rt, file.bytes())
}

/// Puts what a file says and its bytes.
fn put_file(rt: &HostRuntime, file: &[u8]) -> Result<()> {
    put_said(rt, file)?;
    put_lines(rt, file)
}

/// Puts what a file says.
fn put_said(rt: &HostRuntime, file: &[u8]) -> Result<()> {
    let algorithm = read_flm(rt.alloc(), file)?;
    put_text(rt, &algorithm)
}

/// Puts the inspection of an algorithm.
fn put_text(rt: &HostRuntime, algorithm: &Algorithm) -> Result<()> {
    let mut out = MemorySink::new(rt.alloc(), 4096, &[])?;
    put_inspection(&mut out, algorithm)?;
    put_utf8(rt, out.bytes())
}

/// Puts bytes of text.
fn put_utf8(rt: &HostRuntime, bytes: &[u8]) -> Result<()> {
    let text = std::str::from_utf8(bytes)?;
    print!(rt; "{text}")?;
    Ok(())
}

/// Puts the bytes of a file, line by line.
fn put_lines(rt: &HostRuntime, file: &[u8]) -> Result<()> {
    for line in file.chunks(LINE_LEN) {
        put_bytes(rt, line)?;
    }
    Ok(())
}
