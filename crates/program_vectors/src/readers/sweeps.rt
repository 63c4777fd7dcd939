//! Many inputs made of one file. Their answers are counted.

use crate::print::put_line;
use crate::readers::reader::Reader;
use crate::readers::tally::Tally;
use anyhow::{Context, Result, bail};
use std::alloc::Global;
use std::fs;

/// The values that the 16-bit field at a place becomes.
const HALVES: [&[u8]; 4] = [b"\0\0", b"\x01\0", b"\0\x80", b"\xFF\xFF"];

/// The values that the 32-bit field at a place becomes.
const WORDS: [&[u8]; 4] = [
    b"\0\0\0\0",
    b"\x01\0\0\0",
    b"\0\0\0\x80",
    b"\xFF\xFF\xFF\xFF",
];

/// What is done with a file at a place of it.
#[derive(Clone, Copy)]
enum How {
    /// The file ends there.
    Prefix,
    /// The byte there becomes 00, FF and its complement.
    Byte,
    /// The character there becomes the digits 0 and F and a line feed.
    Char,
    /// The 16-bit field there becomes 0, 1, 2^15 and 2^16 - 1.
    Half,
    /// The 32-bit field there becomes 0, 1, 2^31 and 2^32 - 1.
    Word,
}

/// The places of a file from one on and before another, each `step` after the last, and what is done there.
#[derive(Clone, Copy)]
struct Sweep {
    reader: Reader,
    how: How,
    from: usize,
    to: usize,
    step: usize,
}

impl How {
    /// The way with this name.
    fn named(word: &str) -> Option<How> {
        match word {
            "prefix" => Some(How::Prefix),
            "byte" => Some(How::Byte),
            "char" => Some(How::Char),
            "half" => Some(How::Half),
            "word" => Some(How::Word),
            _ => None,
        }
    }
}

/// A file with other bytes from a place on.
fn changed(alloc: Global, file: &[u8], at: usize, bytes: &[u8]) -> Result<Vec<u8>> {
    let mut changed = Vec::from_slice(alloc, file)?;
    for (old, new) in changed.iter_mut().skip(at).zip(bytes.iter()) {
        *old = *new;
    }
    Ok(changed)
}

/// Counts the answer to a file.
fn try_file(alloc: Global, tally: &mut Tally, reader: Reader, file: &[u8]) -> Result<()> {
    let answer = reader.answer(alloc, file)?;
    tally.note(alloc, answer.as_str())
}

/// Counts the answer to a file with other bytes at a place.
fn try_change(
    alloc: Global,
    tally: &mut Tally,
    reader: Reader,
    file: &[u8],
    at: usize,
    bytes: &[u8],
) -> Result<()> {
    let input = changed(alloc, file, at, bytes)?;
    try_file(alloc, tally, reader, &input)
}

/// Counts the answers to a file with each of these lists of bytes at a place.
fn try_bytes(
    alloc: Global,
    tally: &mut Tally,
    reader: Reader,
    file: &[u8],
    at: usize,
    values: &[&[u8]],
) -> Result<()> {
    for bytes in values {
        try_change(alloc, tally, reader, file, at, bytes)?;
    }
    Ok(())
}

/// Counts the answers at one place.
fn try_place(
    alloc: Global,
    tally: &mut Tally,
    sweep: &Sweep,
    file: &[u8],
    at: usize,
) -> Result<()> {
    let reader = sweep.reader;
    match sweep.how {
        How::Prefix => try_file(alloc, tally, reader, &file[..at.min(file.len())]),
        How::Byte => {
            let old = file.get(at).copied().context("past the end")?;
            try_bytes(alloc, tally, reader, file, at, &[b"\0", b"\xFF", &[!old]])
        }
        How::Char => try_bytes(alloc, tally, reader, file, at, &[b"0", b"F", b"\n"]),
        How::Half => try_bytes(alloc, tally, reader, file, at, &HALVES),
        How::Word => try_bytes(alloc, tally, reader, file, at, &WORDS),
    }
}

/// Counts the answers at each place.
fn try_places(alloc: Global, tally: &mut Tally, sweep: &Sweep, file: &[u8]) -> Result<()> {
    for at in (sweep.from..sweep.to).step_by(sweep.step.max(1)) {
        try_place(alloc, tally, sweep, file, at)?;
    }
    Ok(())
}

/// Goes through a sweep of a file, and prints what came of it.
fn put_sweep(rt: &HostRuntime, sweep: &Sweep, file: &[u8]) -> Result<()> {
    let mut tally = Tally::new(rt.alloc());
    try_places(rt.alloc(), &mut tally, sweep, file)?;
    tally.put(rt);
    Ok(())
}

/// Goes through a sweep of the file of that name.
fn put_sweep_of(rt: &HostRuntime, sweep: &Sweep, name: &str) -> Result<()> {
    let file = fs::read(rt, name)?;
    put_sweep(rt, sweep, &file)
}

/// Goes through a sweep: `READER HOW FROM TO STEP FILE`.
fn go(rt: &HostRuntime, words: &[&str]) -> Result<()> {
    let [reader, how, from, to, step, name] = words else {
        bail!("READER HOW FROM TO STEP FILE is wanted");
    };
    let sweep = Sweep {
        reader: Reader::named(reader).context("a reader is wanted")?,
        how: How::named(how).context("a change is wanted")?,
        from: from.parse::<usize>()?,
        to: to.parse::<usize>()?,
        step: step.parse::<usize>()?,
    };
    put_sweep_of(rt, &sweep, name)
}

/// Goes through a sweep, after it prints what the sweep shows.
fn go_line(rt: &HostRuntime, line: &str) -> Result<()> {
    put_line(rt, line);
    let (_shows, words) = line.split_once("; ").context("what it shows is wanted")?;
    let words = words
        .split_ascii_whitespace()
        .collect::<Vec<&str>>(rt.alloc())?;
    go(rt, &words)
}

/// Goes through the sweeps of a text.
fn go_lines(rt: &HostRuntime, sweeps: &str) -> Result<()> {
    for line in sweeps.lines() {
        go_line(rt, line)?;
    }
    Ok(())
}

/// Goes through the sweeps of a list.
pub fn go_through(rt: &HostRuntime) -> Result<()> {
    let sweeps = fs::read_to_string(rt, "sweeps.txt")?;
    go_lines(rt, sweeps.as_str())
}
