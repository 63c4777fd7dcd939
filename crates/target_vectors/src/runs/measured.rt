//! Runs that are to be measured.

use crate::runs::bed::{Bed, CELLS};
use crate::runs::core_loop::run_loop;
use anyhow::{Result, bail};
use bench_model::{Bench, MemoryBench};
use host_files::FileBench;
use octets::Word;
use std::alloc::Global;
use std::fs;
use target_core::SliceEnd;

/// The units of recorded calls that a round may need: the algorithm's round opens and settles 513 operations.
const UNITS: u64 = 2100;

/// The rounds that there is room for.
const RECORDED: u64 = 2000;

/// The place of a target's cells.
#[derive(Clone, Copy)]
enum Cells<'a> {
    /// Blank cells in memory.
    Memory,
    /// The cells in the file of this name.
    File(&'a str),
}

/// Runs code for `rounds` rounds over a bench. Answers how the run ended, and how many steps were made.
fn run_over<B: Bench + Drop>(
    alloc: Global,
    bench: B,
    code: &[u8],
    rounds: u32,
) -> Result<(SliceEnd, u64)> {
    let mut bed = Bed::new(alloc, code, bench)?;
    Ok(bed.run(rounds))
}

/// Runs code for `rounds` rounds over blank cells in memory.
fn run_in_memory(alloc: Global, code: &[u8], rounds: u32) -> Result<(SliceEnd, u64)> {
    let room = u64::from(rounds).min(RECORDED) * UNITS;
    let blank = [0xFF; CELLS];
    let bench = MemoryBench::new(alloc, &blank, &[], 0, room, &[], &[], &[])?;
    run_over(alloc, bench, code, rounds)
}

/// Runs code for `rounds` rounds over the cells of a file.
fn run_over_file(
    rt: &HostRuntime,
    cells: &str,
    code: &[u8],
    rounds: u32,
) -> Result<(SliceEnd, u64)> {
    let job = Word::copy(rt.alloc(), "measured.job")?;
    let bench = FileBench::new(*rt, job, Word::copy(rt.alloc(), cells)?);
    run_over(rt.alloc(), bench, code, rounds)
}

/// Prints how a run ended, and how many steps were made.
fn put_run(rt: &HostRuntime, name: &str, end: SliceEnd, steps: u64) -> Result<()> {
    println!(rt; "{name}: {steps} steps, {end:?}")?;
    Ok(())
}

/// Runs the code of a file for `rounds` rounds over the bench that has the cells. Prints how the run ended, and how many steps were made.
fn run_file(rt: &HostRuntime, cells: Cells<'_>, name: &str, rounds: u32) -> Result<()> {
    let code = fs::read(rt, name)?;
    let (end, steps) = match cells {
        Cells::Memory => run_in_memory(rt.alloc(), &code, rounds)?,
        Cells::File(cells) => run_over_file(rt, cells, &code, rounds)?,
    };
    put_run(rt, name, end, steps)
}

/// Runs the code of each of some files, and prints how each run ended.
fn run_files(rt: &HostRuntime, cells: Cells<'_>, names: &[&str], rounds: u32) -> Result<()> {
    for name in names {
        run_file(rt, cells, name, rounds)?;
    }
    Ok(())
}

/// Runs the files that the words name after the number of rounds. With no file it runs the core's loop.
pub fn measure(rt: &HostRuntime, words: &[&str]) -> Result<()> {
    match words {
        [] => bail!("the number of rounds is missing"),
        [rounds] => run_loop(rt, rounds.parse::<u32>()?),
        [rounds, names @ ..] => run_files(rt, Cells::Memory, names, rounds.parse::<u32>()?),
    }
}

/// Runs files of code over the file of 1,024 cells that the first word names.
pub fn measure_files(rt: &HostRuntime, words: &[&str]) -> Result<()> {
    let [cells, rounds, names @ ..] = words else {
        bail!("the cells or the number of rounds is missing");
    };
    run_files(rt, Cells::File(*cells), names, rounds.parse::<u32>()?)
}
