//! Sessions that are stopped.

use crate::PICKS;
use crate::session::carry::{Carried, carry};
use crate::session::job::Job;
use anyhow::{Result, bail};
use bench_model::{MemoryBench, Pick, StopBench};
use flash_session::Goal;
use std::alloc::Global;

/// The bench of a session that is stopped after `calls` calls, and whether the session came to its end before the stop.
fn stopped(alloc: Global, bench: MemoryBench, calls: u64, pick: Pick) -> (MemoryBench, bool) {
    let mut bench = StopBench::new(bench, calls);
    let first = carry(alloc, &mut bench, Goal::New);
    let mut bench = bench.into_inner();
    bench.power_loss(pick);
    (bench, matches!(first, Carried::Closed))
}

/// Carries on the job that a stop left, and checks the cells and the file. `ended` says whether the session came to its end before the
/// stop.
fn carry_on(
    alloc: Global,
    bench: &mut MemoryBench,
    goal: &[u8],
    calls: u64,
    ended: bool,
) -> Result<()> {
    let open = bench.file().first() == Some(&0xA5);
    let wrong = if open && !matches!(carry(alloc, bench, Goal::New), Carried::Closed) {
        "the job was not carried on"
    } else if bench.cells() != goal {
        "other cells"
    } else if ended && open {
        "the job was closed, and its file is open"
    } else {
        return Ok(());
    };
    bail!("{calls} calls: {wrong}");
}

/// Stops a session after `calls` calls, and carries the job on. Answers whether the session came to its end before the stop.
fn ends(rt: &HostRuntime, job: &Job, goal: &[u8], calls: u64, pick: Pick) -> Result<bool> {
    let (mut bench, ended) = stopped(rt.alloc(), job.bench(rt, 0)?, calls, pick);
    carry_on(rt.alloc(), &mut bench, goal, calls, ended)?;
    Ok(ended)
}

/// Stops sessions at each of their calls, with each pick. Answers how many calls there were before a session reached its end.
fn count_stops(rt: &HostRuntime, job: &Job, goal: &[u8]) -> Result<u64> {
    for calls in 0..100_000u64 {
        let mut ended = true;
        for pick in PICKS {
            ended = ends(rt, job, goal, calls, pick)? && ended;
        }
        if ended {
            return Ok(calls);
        }
    }
    bail!("no end");
}

/// Stops sessions at each of their calls, and prints how many there were.
pub fn stop_all(rt: &HostRuntime, job: &Job) -> Result<()> {
    let goal = job.goal(rt)?;
    let stops = count_stops(rt, job, &goal)?;
    println!(rt; "{stops} stops")?;
    Ok(())
}
