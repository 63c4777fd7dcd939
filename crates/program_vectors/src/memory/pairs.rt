//! Commands in which two calls on the job file fail.

use crate::memory::call::status_of;
use crate::memory::counts::{Counts, STATUSES};
use crate::memory::left::{Aims, Left, OTHER, is_open};
use crate::memory::trial::{Fails, Trial};
use crate::print::Piece::{Count, Text};
use crate::print::{put, put_line};
use anyhow::{Context, Result, bail, ensure};
use bench_model::MemoryBench;
use std::alloc::Global;

/// The outcomes of pairs of faults: how often the command and `resume` were called, and the statuses.
#[derive(Clone, Copy)]
struct Pairs {
    called: Counts,
    statuses: Counts,
}

/// The names of calls: the command itself, and `resume`.
const CALLED: [&str; 2] = ["begun", "resumed"];

/// Lets every pair of the first calls on the job file fail. Prints how many pairs there were, and how often each command was called.
pub fn fail_pairs(
    rt: &HostRuntime,
    trial: &Trial,
    aims: &Aims,
    most: u64,
    line: &str,
) -> Result<()> {
    let mut pairs = Pairs {
        called: Counts::new(),
        statuses: Counts::new(),
    };
    let mut count = 0u64;
    for second in 1..=most {
        bring_with(rt.alloc(), trial, aims, line, second, &mut pairs)?;
        count = count.saturating_add(second - 1);
    }
    put(rt, &[Count("", count as usize), Text(" pairs")]);
    pairs.called.put(rt, &CALLED);
    pairs.statuses.put(rt, &STATUSES);
    put_line(rt, "");
    Ok(())
}

/// Lets each call before the one with a number fail together with it.
fn bring_with(
    alloc: Global,
    trial: &Trial,
    aims: &Aims,
    line: &str,
    second: u64,
    pairs: &mut Pairs,
) -> Result<()> {
    for first in 1..second {
        bring(alloc, trial, aims, line, [first, second], pairs)?;
    }
    Ok(())
}

/// Calls until a command is done, where two calls on the job file fail.
fn bring(
    alloc: Global,
    trial: &Trial,
    aims: &Aims,
    line: &str,
    files: [u64; 2],
    pairs: &mut Pairs,
) -> Result<()> {
    let mut fails = Fails::none();
    fails.files = files;
    let mut bench = trial.bench_with(alloc, &trial.cells, &trial.job, fails)?;
    bring_on(alloc, trial, aims, line, &mut bench, pairs)
}

/// Calls the command on this bench, or `resume` where a job is left, until it is done. Three calls are enough.
fn bring_on(
    alloc: Global,
    trial: &Trial,
    aims: &Aims,
    line: &str,
    bench: &mut MemoryBench,
    pairs: &mut Pairs,
) -> Result<()> {
    for _call in 0..3 {
        let (line, called) = if is_open(bench.file()) {
            ("resume", 1)
        } else {
            (line, 0)
        };
        let status = status_of(alloc, trial, bench, line)?;
        pairs.statuses.count(status);
        pairs.called.count(called);
        let left = aims.look(trial, bench).context(OTHER)?;
        if status == 0 {
            ensure!(left == Left::Finished, "done, and not finished");
            return Ok(());
        }
    }
    bail!("two faults, and three calls that are not done");
}
