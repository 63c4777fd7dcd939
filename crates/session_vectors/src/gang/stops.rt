//! Gangs that are stopped.

use crate::PICKS;
use crate::gang::gangs::{Turns, drive};
use crate::gang::orders::Order;
use crate::gang::team::Team;
use anyhow::{Result, ensure};
use bench_model::{MemoryBench, Pick};
use std::alloc::Global;

/// Drives benches by turns that are drawn from a seed, and stops the power.
fn stop(alloc: Global, benches: &mut [MemoryBench], seed: u32, pick: Pick) -> Result<()> {
    let fours = seed % 1024;
    let (gang, _given) = drive(alloc, benches, Turns::Stopped { seed, fours })?;
    gang.free();
    for bench in benches.iter_mut() {
        bench.power_loss(pick);
    }
    Ok(())
}

/// What a stop of the gang leaves of the jobs.
fn left_after(alloc: Global, team: &Team, seed: u32, pick: Pick) -> Result<Team> {
    let mut benches = team.benches(alloc)?;
    stop(alloc, &mut benches, seed, pick)?;
    left_of(alloc, team, &benches)
}

/// The jobs as these benches hold them.
fn left_of(alloc: Global, team: &Team, benches: &[MemoryBench]) -> Result<Team> {
    let mut left = Team::new(alloc);
    for (job, bench) in team.jobs.iter().zip(benches.iter()) {
        left.add(job.left(alloc, bench)?)?;
    }
    Ok(left)
}

/// How many jobs were closed before a stop, and how many are done after it.
#[derive(Clone, Copy)]
struct Tally {
    closed: usize,
    done: usize,
}

/// Carries on what a stop left.
fn carry_on(alloc: Global, left: &mut Team, seed: u32, tally: &mut Tally) -> Result<()> {
    count_closed(left, tally)?;
    left.learn(alloc)?;
    let order = Order::Drawn(seed);
    left.take(alloc, Turns::Ordered { order, steps: 100 })?;
    tally.done = tally.done.saturating_add(left.done());
    Ok(())
}

/// Counts the jobs that were closed. Their cells must be their goals.
fn count_closed(left: &Team, tally: &mut Tally) -> Result<()> {
    for job in left.jobs.iter() {
        if job.file.first() == Some(&0x00) {
            ensure!(
                job.cells.as_slice() == job.goal.as_slice(),
                "closed, and other cells"
            );
            tally.closed = tally.closed.saturating_add(1);
        }
    }
    Ok(())
}

/// Stops `count` gangs, with each pick, and carries on what is left. Prints how many jobs were closed before a stop or are done after it.
pub fn stop_gangs(rt: &HostRuntime, team: &Team, count: u32) -> Result<()> {
    let mut tally = Tally { closed: 0, done: 0 };
    for number in 0..count {
        let seed = number.wrapping_mul(2_654_435_769);
        for pick in PICKS {
            let mut left = left_after(rt.alloc(), team, seed, pick)?;
            carry_on(rt.alloc(), &mut left, seed, &mut tally)?;
        }
    }
    ensure!(tally.closed > 0 && tally.done > 0, "no stop in the middle");
    let reached = tally.closed.saturating_add(tally.done);
    println!(rt; "{count} stops, three picks: {reached} reach their goals, as alone")?;
    Ok(())
}
