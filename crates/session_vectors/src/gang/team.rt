//! The targets of a gang, and how each of them ends alone.
ghost use Rattle.std.specs.Prelude.{◌≡◌, length};

use crate::gang::alone::carry_alone;
use crate::gang::call::call;
use crate::gang::gangs::{Turns, drive};
use crate::gang::job::Job;
use crate::gang::orders::Order;
use crate::gang::report::print_end;
use crate::output::put_line;
use anyhow::{Context, Result, bail, ensure};
use bench_model::MemoryBench;
use gang_run::{Gang, TargetEnd};
use std::alloc::Global;

/// How a target ended, and the bench that it left.
#[derive(Drop)]
struct Alone {
    end: TargetEnd,
    bench: MemoryBench,
}

#[derive(Drop)]
pub struct Team {
    pub jobs: Vec<Job>,
    alone: Vec<Alone>,
}

/// Whether a target with this end has no job.
fn is_refused(end: TargetEnd) -> bool {
    match end {
        TargetEnd::Open(_) | TargetEnd::Survey(_) => true,
        _ => false,
    }
}

/// Checks that a bench has these cells and this file.
fn look(target: usize, bench: &MemoryBench, cells: &[u8], file: &[u8]) -> Result<()> {
    let wrong = if bench.cells() != cells {
        "other cells"
    } else if bench.file() != file {
        "another file"
    } else {
        return Ok(());
    };
    bail!("{target}: {wrong}");
}

/// Prints how a job ends alone.
fn put_alone(rt: &HostRuntime, job: &Job, alone: &Alone) -> Result<()> {
    print_end(rt, alone.end)?;
    if alone.bench.cells() == job.goal.as_slice() {
        put_line(rt, ", the goal")
    } else if alone.end == TargetEnd::Done {
        bail!("done, and other cells")
    } else {
        put_line(rt, "")
    }
}

/// How many turns a job takes in a gang of its own, where one turn has all steps of a call.
fn count_turns(alloc: Global, job: &Job) -> Result<u32> {
    let order = Order::Forward;
    let steps = u64::MAX;
    let mut benches = [job.bench(alloc)?];
    let (gang, given) = drive(alloc, &mut benches, Turns::Ordered { order, steps })?;
    gang.free();
    Ok(given)
}

impl Team {
    pub fn new(alloc: Global) -> Team {
        Team {
            jobs: Vec::new(alloc),
            alone: Vec::new(alloc),
        }
    }

    /// Adds a job.
    pub fn add(&mut self, job: Job) -> Result<()> {
        self.jobs.push(job)?;
        Ok(())
    }

    /// The last job.
    pub fn last(&mut self) -> Option<&mut Job> {
        self.jobs.last_mut()
    }

    /// New benches for the jobs.
    pub fn benches(&self, alloc: Global) -> Result<Vec<MemoryBench>> {
        let mut benches = Vec::new(alloc);
        for job in self.jobs.iter() {
            benches.push(job.bench(alloc)?)?;
        }
        Ok(benches)
    }

    /// Carries each job alone.
    pub fn learn(&mut self, alloc: Global) -> Result<()> {
        for job in self.jobs.iter() {
            let mut bench = job.bench(alloc)?;
            let end = carry_alone(alloc, &mut bench);
            self.alone.push(Alone { end, bench })?;
        }
        Ok(())
    }

    /// Carries each job alone, and prints how it ends.
    pub fn carry_alone(&mut self, rt: &HostRuntime) -> Result<()> {
        self.learn(rt.alloc())?;
        for (job, alone) in self.jobs.iter().zip(self.alone.iter()) {
            put_alone(rt, job, alone)?;
        }
        Ok(())
    }

    /// How many are done alone.
    pub fn done(&self) -> usize {
        let ends = self
            .alone
            .iter()
            .filter(|alone| alone.end == TargetEnd::Done);
        ends.count()
    }

    /// Checks that a target ended as it does alone.
    fn check_one(&self, target: usize, end: TargetEnd, bench: &MemoryBench) -> Result<()> {
        let alone = self.alone.get(target).context("no such target")?;
        ensure!(end == alone.end, "{target}: {end:?}, alone {:?}", alone.end);
        look(target, bench, alone.bench.cells(), alone.bench.file())
    }

    /// Checks that each target of a gang ended as it does alone.
    fn check(&self, gang: &Gang, benches: &[MemoryBench]) -> Result<()>
        requires { length gang.now.slots.items ≡ length benches.now }
    {
        for target in 0..benches.len() {
            let Some(end) = gang.end(target) else {
                bail!("{target} goes on");
            };
            self.check_one(target, *end, &benches[target])?;
            ensure!(
                gang.job(target).is_none() == is_refused(*end),
                "{target}: its job"
            );
        }
        Ok(())
    }

    /// Drives the jobs by turns, and checks that each ends as it does alone.
    pub fn take(&self, alloc: Global, turns: Turns) -> Result<()> {
        let mut benches = self.benches(alloc)?;
        let (gang, _given) = drive(alloc, &mut benches, turns)?;
        let checked = self.check(&gang, &benches);
        gang.free();
        checked
    }

    /// Checks that the jobs take these numbers of turns, and prints them.
    pub fn take_counts(&self, rt: &HostRuntime, counts: &[&str]) -> Result<()> {
        ensure!(counts.len() == self.jobs.len(), "a count for each target");
        for (job, count) in self.jobs.iter().zip(counts.iter()) {
            let taken = count_turns(rt.alloc(), job)?;
            ensure!(taken == count.parse::<u32>()?, "{taken} turns, not {count}");
            print!(rt; "{taken} ")?;
        }
        put_line(rt, "turns")
    }

    /// Drives the jobs by `count` lists of turns. Prints how many ends there were, and how many of them were done.
    pub fn take_lists(&self, rt: &HostRuntime, count: u32) -> Result<()> {
        let mut ends = 0usize;
        let mut done = 0usize;
        for seed in 0..count {
            let seed = seed << 8;
            self.take(rt.alloc(), Turns::Listed { seed })?;
            ends = ends.saturating_add(self.jobs.len());
            done = done.saturating_add(self.done());
        }
        println!(rt; "{count} lists: {ends} ends, {done} done, as alone")?;
        Ok(())
    }

    /// Checks that a bench is as its target leaves it alone, or unchanged where the gang didn't begin.
    fn check_bench(&self, has_begun: bool, target: usize, bench: &MemoryBench) -> Result<()> {
        match (self.jobs.get(target), self.alone.get(target)) {
            (_, Some(alone)) if has_begun => {
                look(target, bench, alone.bench.cells(), alone.bench.file())
            }
            (Some(job), _) if !has_begun => look(target, bench, &job.cells, &job.file),
            _ => bail!("{target}: no such target"),
        }
    }

    /// Checks each bench that a call left.
    fn check_left(&self, has_begun: bool, benches: &[MemoryBench]) -> Result<()> {
        for (target, bench) in benches.iter().enumerate() {
            self.check_bench(has_begun, target, bench)?;
        }
        Ok(())
    }

    /// Calls a gang with `count` words. The put of number `fail` on standard output fails, or none at 0. Prints what was put and the
    /// status.
    pub fn call(&self, rt: &HostRuntime, count: usize, fail: u64) -> Result<()> {
        let mut benches = self.benches(rt.alloc())?;
        let status = call(rt, count, fail, &mut benches)?;
        self.check_left(status != 2, &benches)
    }
}
