//! The lines, with numbers in decimal digits and bytes in pairs of hexadecimal ones.
//!
//! - `# TEXT` is printed.
//! - `fill NAME COUNT BYTE` makes a file of COUNT bytes. `put NAME AT BYTES` writes bytes over those of a file, from the place AT on. `copy
//!   FROM TO` copies a file.
//! - `length NAME` prints how many bytes a file has.
//! - `call JOB CELLS COMMAND WORDS` or `call --gang JOB CELLS ..`: a call with these arguments. It prints the words, and then the status.
//! - `losses LOSS CELLS WORDS`: the job that these words begin on the cells of a file, with a loss of power after each of its calls.
//!   `killed CALLS LOSS CELLS WORDS`: the job is killed after CALLS calls, and the power is lost after each call of the `resume` that
//!   follows (`losses`).

use crate::host::files::{fill, length, put};
use crate::host::losses::{lose_after_kill, lose_all};
use crate::memory::lines::first_of;
use anyhow::{Result, bail};
use flm_main::{Arguments, HeldStreams, call};
use octets::Word;
use std::fs;

/// Goes through the lines of a file.
pub fn go_through(streams: HeldStreams, name: &str) -> Result<()> {
    let text = fs::read_to_string(&streams.host(), name)?;
    for line in text.lines() {
        step(streams, line)?;
    }
    Ok(())
}

/// Does what a line says.
fn step(streams: HeldStreams, line: &str) -> Result<()> {
    let rt = &streams.host();
    let words = line.split_whitespace().collect::<Vec<&str>>(rt.alloc())?;
    match words.as_slice() {
        [] => Ok(()),
        ["#", ..] => {
            println!(rt; "{line}")?;
            Ok(())
        }
        ["fill", name, count, byte] => fill(rt, name, count.parse::<usize>()?, byte),
        ["put", name, at, bytes] => put(rt, name, at.parse::<u64>()?, bytes),
        ["copy", from, to] => {
            fs::copy(rt, *from, *to)?;
            Ok(())
        }
        ["length", name] => length(rt, name),
        ["call", ..] => run_line(streams, line),
        ["losses", loss, cells, ..] => lose_all(rt, loss, cells, behind(line, 3)),
        ["killed", calls, loss, cells, ..] => {
            let calls = calls.parse::<u64>()?;
            lose_after_kill(rt, loss, calls, cells, behind(line, 4))
        }
        _ => bail!("{line}: no such line"),
    }
}

/// What comes after the first `words` words of a line.
fn behind(line: &str, words: usize) -> &str {
    let mut rest = line;
    for _word in 0..words {
        (_, rest) = first_of(rest);
    }
    rest
}

/// Makes the call of a line. The first word of the line is in the place of the program's own name. It prints the line and the status.
fn run_line(streams: HeldStreams, line: &str) -> Result<()> {
    let rt = &streams.host();
    println!(rt; "{line}")?;
    let mut arguments = Arguments::new(rt.alloc());
    for word in line.split_whitespace() {
        arguments.take(Word::copy(rt.alloc(), word)?)?;
    }
    let status = call(streams, arguments);
    println!(rt; "status {status}")?;
    Ok(())
}
