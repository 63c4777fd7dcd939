//! Tries what the flash programmer does, row by row: what its readers say of files (`readers`), its commands in memory (`memory`), and
//! whole jobs on real files (`host`).
//!
//! `program_vectors JOB CELLS COMMAND WORDS` goes through all of them, in that order. It ends as `host` does, which runs these words last.
//! Other words ask for one part alone. `rows FILE..` goes through files of rows (`memory`). `elf WORD..`, `map WORD..` and `symbols COUNT`
//! do only what is hard on a reader (`readers::hard`). `images BINARY IMAGE..` compares these image files. The time that each takes is
//! measured from outside.
#![tactic(auto)]

mod host;
mod memory;
mod print;
mod readers;

use anyhow::Result;
use std::env;
use std::process::ExitCode;

/// Goes through all parts.
fn go_through(rt: &HostRuntime) -> Result<ExitCode> {
    readers::answer_all(rt)?;
    memory::go_through_all(rt)?;
    Ok(host::carry(rt))
}

/// Does one thing alone.
fn measure(rt: &HostRuntime, words: &[&str]) -> Result<ExitCode> {
    match words {
        ["rows", names @ ..] => memory::go_through(rt, names)?,
        ["images", names @ ..] => readers::compare(rt, names)?,
        words => readers::read_hard(rt, words)?,
    }
    Ok(ExitCode::SUCCESS)
}

/// Does what the words ask for.
fn follow(rt: &HostRuntime, words: &[&str]) -> Result<ExitCode> {
    match words {
        ["rows" | "images" | "elf" | "map" | "symbols", ..] => measure(rt, words),
        _ => go_through(rt),
    }
}

fn main(rt: HostRuntime) -> Result<ExitCode> {
    let words = env::args(&rt)?.skip(1).collect::<Vec<String>>(rt.alloc())?;
    let words = words
        .iter()
        .map(|word| word.as_str())
        .collect::<Vec<&str>>(rt.alloc())?;
    follow(&rt, &words)
}
