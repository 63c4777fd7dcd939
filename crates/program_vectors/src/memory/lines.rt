//! The lines of the rows, with numbers in decimal digits and bytes in pairs of hexadecimal ones.
//!
//! - `row NAME`: a row with 1,024 blank cells, an empty job file and no faults. The files stay.
//! - `text NAME LINE|LINE..`, `bytes NAME BYTES`, `empty NAME` or `file NAME PATH`: the file with a name. `patch NAME AT BYTES` changes it.
//!   `pad NAME LEN BYTE` fills it up to LEN bytes with a byte. `forge NAME KIND BOARD PAGE TIME [REGION]`: the FLM file of an algorithm A1
//!   to A7 or F1 for a region, from 0 on, of the board with a name. It has pages of PAGE bytes, and the erase of a sector takes TIME
//!   milliseconds. With no REGION it is for the first region.
//! - `cells COUNT VALUE`: COUNT cells of one byte. `count AT LEN` sets each cell of a range to its place modulo 256, `set AT BYTES` to
//!   these bytes. `job BYTES`: the job file. `from job NAME` and `from cells NAME`: the job file or the cells are a file. `spoil BACK`
//!   changes the byte of the job file that is BACK places before its end. `room LEN`: the job file has room for LEN bytes; by default it
//!   has 256 KiB. `open AT LEN`: the operation that is open when the row begins.
//! - `fail take N`, `fail file N`, `fail cells N`, `fail put N` or `fail line N`: call number N of one kind fails. The kinds are taking a
//!   file, a call on the job file, a call on the cells, a put on standard output and a put on standard error.
//! - `run WORDS`: a call on the row's bench. It prints what was put, the status, the cells that have changed since the row began, and the
//!   job file.
//! - `call WORDS`: a call on a new bench. It prints what was put, the status, and whether cells and job file are unchanged.
//! - `body NAME`: whether the job file is the file with that name, except for its first byte.
//! - `stop CALLS PICK WORDS`: a call on a new bench, which is stopped after CALLS of its calls that can fail. PICK is `written`, `old` or
//!   the byte that the stop leaves wherever it may leave any.
//! - `keep CALLS PICK WORDS`: the row begins with the cells and the job file that such a stop leaves.
//! - `random SECTORS SIZE`: a job that brings random bytes into a device full of other ones. The device has SECTORS sectors of SIZE bytes
//!   and pages of 1,024 bytes, and the algorithm is A1. It prints the status, and whether the cells are the image. The time that it takes
//!   is measured from outside. `random SECTORS SIZE FOLDER` puts the files of the same job into a folder, for `flm_tool`, and runs nothing.
//! - `stops PICK WORDS`: calls of `program` or `begin` that are stopped at each of their calls in turn. A job that is left is carried on by
//!   `resume`, and from the same stop back by `revert`. So is the job that a finished `begin` leaves.
//! - `tenths PICK WORDS`: calls that are stopped at every tenth of their calls, with an algorithm that breaks its duties. A job that is
//!   left is resumed as it is, and with the algorithm A1 in it.
//! - `faults WORDS`: calls in which each call on the job file and on the cells, each put on either stream and each taking of a file fails
//!   in turn. A job that is left is resumed.
//! - `pairs COUNT WORDS`: calls of `program`. Every pair of the first COUNT calls on the job file fails. Each job is then carried to its
//!   end.
//! - `words PATH`: prints each line of a file, and what its words ask for.

use crate::memory::files::lay;
use crate::memory::job::run_random;
use crate::memory::left::body_of;
use crate::memory::run::{keep, run, run_apart, stop};
use crate::memory::sweep::sweep_by;
use crate::memory::trial::{MOST, Trial};
use crate::memory::words::ask_all;
use crate::print::Piece::Text;
use crate::print::{put, put_line};
use anyhow::{Result, bail};
use bench_model::MemoryBench;
use row_text::{bytes_of, lines_of};
use std::alloc::Global;
use std::fs;

/// The first word of a text, and what comes after its blank.
pub fn first_of(text: &str) -> (&str, &str) {
    match text.split_once(' ') {
        Some(parts) => parts,
        None => (text, ""),
    }
}

/// Goes through the lines of a file.
pub fn go_through(rt: &HostRuntime, path: &str) -> Result<()> {
    let text = fs::read_to_string(rt, path)?;
    let mut trial = Trial::new(rt.alloc());
    let mut bench = None;
    follow(rt, &mut trial, &mut bench, &text)
}

/// Goes through the lines of a text.
fn follow(
    rt: &HostRuntime,
    trial: &mut Trial,
    bench: &mut Option<MemoryBench>,
    text: &str,
) -> Result<()> {
    for line in text.lines() {
        let (what, rest) = first_of(line);
        step(rt, trial, bench, what, rest)?;
    }
    Ok(())
}

/// Does what a line says.
fn step(
    rt: &HostRuntime,
    trial: &mut Trial,
    bench: &mut Option<MemoryBench>,
    what: &str,
    rest: &str,
) -> Result<()> {
    match what {
        "" => Ok(()),
        "row" => {
            put_line(rt, rest);
            *bench = None;
            trial.begin(rt.alloc())
        }
        "run" => run(rt, trial, bench, rest),
        "stop" => stop(rt, trial, bench, rest),
        "body" => same_body(rt, trial, bench, rest),
        "call" => run_apart(rt, trial, rest),
        "keep" => keep(rt.alloc(), trial, rest),
        "random" => run_random(rt, rest),
        "words" => ask_all(rt, rest),
        "stops" | "tenths" | "faults" | "pairs" => sweep_by(rt, trial, what, rest),
        _ => change(rt, trial, what, rest),
    }
}

/// Prints whether the job file is the file with a name, except for its first byte.
fn same_body(
    rt: &HostRuntime,
    trial: &Trial,
    bench: &Option<MemoryBench>,
    name: &str,
) -> Result<()> {
    let Some(bench) = bench else {
        bail!("no bench");
    };
    let job = if body_of(bench.file()) == body_of(trial.files.bytes(name)?) {
        "the job of "
    } else {
        "another job than that of "
    };
    put(rt, &[Text(job), Text(name), Text("\n")]);
    Ok(())
}

/// Changes the start of a row.
fn change(rt: &HostRuntime, trial: &mut Trial, what: &str, rest: &str) -> Result<()> {
    let (first, second) = first_of(rest);
    match what {
        "file" | "text" | "bytes" | "empty" | "forge" => {
            let bytes = contents(rt, trial, what, second)?;
            trial.files.give(rt.alloc(), first, bytes)
        }
        "patch" => {
            let (at, bytes) = first_of(second);
            let at = number(at)?;
            trial.files.patch(first, at, &bytes_of(rt.alloc(), bytes)?);
            Ok(())
        }
        "pad" => {
            let (len, byte) = first_of(second);
            let byte = u8::from_str_radix(byte, 16)?;
            trial.files.pad(first, number(len)?, byte)
        }
        _ => change_bench(rt.alloc(), trial, what, first, second),
    }
}

/// The bytes that a line gives to a name.
fn contents(rt: &HostRuntime, trial: &Trial, what: &str, text: &str) -> Result<Vec<u8>> {
    Ok(match what {
        "file" => fs::read(rt, text)?,
        "text" => lines_of(rt.alloc(), text)?,
        "bytes" => bytes_of(rt.alloc(), text)?,
        "forge" => trial.files.forged(rt.alloc(), text)?,
        _ => Vec::new(rt.alloc()),
    })
}

/// The number that decimal digits give.
pub fn number(digits: &str) -> Result<usize> {
    Ok(digits.parse::<usize>()?)
}

/// Changes the job file, the cells, and the calls that fail.
fn change_bench(
    alloc: Global,
    trial: &mut Trial,
    what: &str,
    first: &str,
    second: &str,
) -> Result<()> {
    match what {
        "job" => trial.job = bytes_of(alloc, first)?,
        "fail" => trial.fails.set(first, number(second)? as u64)?,
        "from" => trial.take(alloc, first, second)?,
        _ => change_at(alloc, trial, what, number(first)?, second)?,
    }
    Ok(())
}

/// Changes the job file or the cells at a place, or the call that fails by its number.
fn change_at(
    alloc: Global,
    trial: &mut Trial,
    what: &str,
    first: usize,
    second: &str,
) -> Result<()> {
    match what {
        "spoil" => trial.spoil(first)?,
        "room" => trial.room = (first as u64).min(1 << 24),
        "cells" => {
            let value = u8::from_str_radix(second, 16)?;
            trial.cells = vec![in alloc; value; first.min(MOST)]?;
        }
        "set" => lay(&mut trial.cells, first, &bytes_of(alloc, second)?),
        "count" => trial.count(first, number(second)?),
        "open" => trial.open = Some((u32::try_from(first)?, second.parse::<u32>()?)),
        _ => bail!("{what}: no such line"),
    }
    Ok(())
}
