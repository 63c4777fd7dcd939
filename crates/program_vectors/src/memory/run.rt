//! Makes calls one by one, and prints their outcomes.

use crate::memory::call::{call, stopped};
use crate::memory::lines::first_of;
use crate::memory::sweep::pick_of;
use crate::memory::trial::{Trial, copy};
use crate::print::Piece::{Count, Hex2, Text};
use crate::print::{put, put_line};
use anyhow::{Result, bail};
use bench_model::MemoryBench;
use std::alloc::Global;

/// Makes a call on the row's bench, which begins with the first call, and prints its outcome.
pub fn run(
    rt: &HostRuntime,
    trial: &Trial,
    bench: &mut Option<MemoryBench>,
    line: &str,
) -> Result<()> {
    if bench.is_none() {
        *bench = Some(trial.bench(rt.alloc())?);
    }
    let Some(bench) = bench else {
        bail!("no bench");
    };
    let before = copy(rt.alloc(), bench.file())?;
    say(rt, trial, bench, line, false)?;
    print_bench(rt, &trial.cells, &before, bench);
    Ok(())
}

/// Makes a call on a new bench, and prints its outcome.
pub fn run_apart(rt: &HostRuntime, trial: &Trial, line: &str) -> Result<()> {
    let mut bench = trial.bench(rt.alloc())?;
    say(rt, trial, &mut bench, line, true)
}

/// Makes a call, and prints what it says and, where that is wanted, what it left.
fn say(
    rt: &HostRuntime,
    trial: &Trial,
    bench: &mut MemoryBench,
    line: &str,
    tells_left: bool,
) -> Result<()> {
    let said = call(rt.alloc(), &trial.files, trial.fails, bench, line)?;
    let left = match (
        bench.cells() == trial.cells.as_slice(),
        bench.file() == trial.job.as_slice(),
    ) {
        _ if !tells_left => "",
        (true, true) => ", the same cells",
        (false, true) => ", other cells",
        (true, false) => ", the same cells, another job file",
        (false, false) => ", other cells, another job file",
    };
    said.print(rt, left);
    Ok(())
}

/// Stops a call on a new bench, which is the row's bench from then on, and prints what the stop leaves: `CALLS PICK WORDS`.
pub fn stop(
    rt: &HostRuntime,
    trial: &Trial,
    bench: &mut Option<MemoryBench>,
    text: &str,
) -> Result<()> {
    let left = stopped_by(rt.alloc(), trial, text)?;
    print_bench(rt, &trial.cells, &trial.job, &left);
    *bench = Some(left);
    Ok(())
}

/// Begins a row with what a stopped call leaves: `CALLS PICK WORDS`.
pub fn keep(alloc: Global, trial: &mut Trial, text: &str) -> Result<()> {
    let left = stopped_by(alloc, trial, text)?;
    trial.begin_with(alloc, left.cells(), left.file())
}

/// The bench that a stopped call leaves: `CALLS PICK WORDS`.
fn stopped_by(alloc: Global, trial: &Trial, text: &str) -> Result<MemoryBench> {
    let (calls, rest) = first_of(text);
    let (pick, line) = first_of(rest);
    let end = stopped(alloc, trial, line, calls.parse::<u64>()?, pick_of(pick)?)?;
    Ok(end.bench)
}

/// Prints the cells that differ from these, and what became of this job file.
fn print_bench(rt: &HostRuntime, cells: &[u8], file: &[u8], bench: &MemoryBench) {
    print_cells(rt, cells, bench.cells());
    let state = match bench.file() {
        same if same == file => "the same job file",
        [0xA5, _, ..] => "a job is open",
        [0x00, _, ..] => "a job is closed",
        _ => "a free job file",
    };
    put_line(rt, state);
}

/// Prints how many cells have changed since the row began, and the first four of them.
pub fn print_cells(rt: &HostRuntime, before: &[u8], after: &[u8]) {
    let mut others = 0usize;
    for (place, (old, new)) in before.iter().zip(after.iter()).enumerate() {
        if old != new {
            if others < 4 {
                let pieces = [
                    Count("cell ", place),
                    Hex2(": ", *old),
                    Hex2(" is ", *new),
                    Text("\n"),
                ];
                put(rt, &pieces);
            }
            others = others.saturating_add(1);
        }
    }
    match others {
        0 => put_line(rt, "the same cells"),
        _ => put(rt, &[Count("", others), Text(" other cells\n")]),
    }
}
