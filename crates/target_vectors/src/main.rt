//! Tries instructions of Armv6-M (`instructions`), forges files of flash algorithms (`forged`), and tries an emulated target and its flash.
//! The target runs code (`runs`) and makes calls of flash algorithms (`calls`). Plans are made for devices of any shape (`plans`), and both
//! flash controllers are driven row by row of their tables (`controllers`).
//!
//! `target_vectors TABLE CODE STATEMENTS TEXT TEXT_CODE STEPS STEPS ENDS CONDITIONS COMPILED SUMS RUNS CALLS FLM PLANS ROWS..` goes through
//! files. It compares each file of instructions, forges files for boards and a listing in files of fixed names, and then goes through the
//! files of cases. The heads of `runs`, `calls`, `plans::commands` and `controllers` say how the lines of cases are read. The plans take
//! the geometry from an FLM file, and change the size, page and sector items in it.
//!
//! These commands are measured from outside:
//!
//! - `target_vectors measure ROUNDS FILE..` and `target_vectors measure ROUNDS` do only this step of the runs. `target_vectors files CELLS
//!   ROUNDS FILE..` does it over the file CELLS of 1,024 cells. They run a whole target with a tick for each step, over a bench in memory
//!   or over files, or the core alone. `tests/speed.sh` uses them.
//! - `target_vectors plan FLM BYTES` makes one plan that erases and programs all of a device of that size, in sectors of 256 bytes and pages
//!   of 16.
#![tactic(auto)]

mod calls;
mod controllers;
mod files;
mod forged;
mod instructions;
mod lines;
mod plans;
mod runs;

use anyhow::{Result, bail, ensure};
use runs::{measure, measure_files};
use std::{env, fs};

/// The kind of cases in a file.
#[derive(Clone, Copy)]
enum Kind {
    Runs,
    Calls,
    Rows,
}

/// Goes through a file of cases.
fn check_file(rt: &HostRuntime, kind: Kind, name: &str) -> Result<()> {
    let text = fs::read_to_string(rt, name)?;
    match kind {
        Kind::Runs => runs::go_through(rt, text.as_str()),
        Kind::Calls => calls::check(rt, text.as_str()),
        Kind::Rows => controllers::check(rt, text.as_str()),
    }
}

/// Goes through the files of cases.
fn check_cases(rt: &HostRuntime, names: &[&str]) -> Result<()> {
    let [runs, calls, flm, plans, rows @ ..] = names else {
        bail!("RUNS CALLS FLM PLANS ROWS.. are wanted");
    };
    check_file(rt, Kind::Runs, runs)?;
    check_file(rt, Kind::Calls, calls)?;
    plans::check_file(rt, flm, plans)?;
    for name in rows {
        check_file(rt, Kind::Rows, name)?;
    }
    Ok(())
}

/// Goes through all files: first the eleven of instructions, then those of cases.
fn check_all(rt: &HostRuntime, names: &[&str]) -> Result<()> {
    ensure!(names.len() >= 11, "the files of instructions are wanted");
    instructions::check_all(rt, &names[..11])?;
    forged::put_all(rt)?;
    check_cases(rt, &names[11..])
}

/// Does what the words say.
fn follow(rt: &HostRuntime, words: &[&str]) -> Result<()> {
    match words {
        ["measure", words @ ..] => measure(rt, words),
        ["files", words @ ..] => measure_files(rt, words),
        ["plan", flm, bytes] => plans::measure(rt, flm, bytes),
        names => check_all(rt, names),
    }
}

fn main(rt: HostRuntime) -> Result<()> {
    let words = env::args(&rt)?.skip(1).collect::<Vec<String>>(rt.alloc())?;
    let words = words
        .iter()
        .map(|word| word.as_str())
        .collect::<Vec<&str>>(rt.alloc())?;
    follow(&rt, &words)
}
