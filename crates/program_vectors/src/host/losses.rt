//! Losses of power in the middle of a job.

use crate::host::cached_disk::{CachedDisk, Remains};
use crate::host::cached_file::{Fate, Loss};
use crate::memory::call::call;
use crate::memory::files::Files;
use crate::memory::trial::Fails;
use anyhow::{Context, Result, bail, ensure};
use disk_files::{DiskBench, WindowedDisk};
use std::alloc::Global;
use std::{fmt, fs};

/// More calls than any run makes.
const ENDLESS: u64 = u64::MAX;

/// The most calls of a run that is stopped at each of them.
const MOST: u64 = 10_000;

/// The most cells of a device.
const MOST_CELLS: usize = 1 << 20;

/// The loss with a name: the fate of every change that waits, or `mixed`, a round of the four fates.
fn loss_of(name: &str) -> Result<Loss> {
    let first = match name {
        "absent" | "mixed" => Fate::Absent,
        "whole" => Fate::Whole,
        "short" => Fate::CutShort,
        "garbage" => Fate::Garbage,
        _ => bail!("{name}: no such loss"),
    };
    let mixed = name == "mixed";
    Ok(Loss { first, mixed })
}

/// What a loss left: a free job file and the cells as they were; the job, whole in its file; or the job, done.
#[derive(Clone, Copy, PartialEq, Eq)]
enum Left {
    Untouched,
    Whole,
    Finished,
}

/// How often each kind was left.
#[derive(Clone, Copy)]
struct Tally {
    untouched: u64,
    whole: u64,
    finished: u64,
}

impl Tally {
    fn new() -> Tally {
        Tally {
            untouched: 0,
            whole: 0,
            finished: 0,
        }
    }

    fn count(&mut self, left: Left) {
        match left {
            Left::Untouched => self.untouched = self.untouched.saturating_add(1),
            Left::Whole => self.whole = self.whole.saturating_add(1),
            Left::Finished => self.finished = self.finished.saturating_add(1),
        }
    }
}

impl fmt::Display for Tally {
    fn fmt<W: fmt::Write>(&self, f: &mut fmt::Formatter<W>) -> fmt::Result {
        let Tally {
            untouched,
            whole,
            finished,
        } = self;
        write!(
            f,
            "{untouched} untouched, {whole} whole, {finished} finished"
        )
    }
}

/// A bench over files with a cache.
type CachedBench = DiskBench<WindowedDisk<CachedDisk>>;

/// A job on a device: the files that its words name, the cells before it, the job file without its byte 0, and the cells once it is done.
#[derive(Drop)]
struct Job {
    alloc: Global,
    files: Files,
    old: Vec<u8>,
    body: Vec<u8>,
    goal: Vec<u8>,
}

/// The files of this folder that some words name.
fn files_of(rt: &HostRuntime, words: &str) -> Result<Files> {
    let mut files = Files::new(rt.alloc());
    for word in words.split_whitespace() {
        if let Ok(bytes) = fs::read(rt, word) {
            files.give(rt.alloc(), word, bytes)?;
        }
    }
    Ok(files)
}

impl Job {
    /// The status of a command on these files over a bench.
    fn answer(&self, words: &str, bench: &mut CachedBench) -> Result<u8> {
        let said = call(self.alloc, &self.files, Fails::none(), bench, words)?;
        Ok(said.status)
    }

    /// The status of a command on these files, and the files.
    fn run(&self, words: &str, disk: CachedDisk) -> Result<(u8, CachedDisk)> {
        let count = disk.cells().len().min(MOST_CELLS) as u32;
        let mut bench = DiskBench::new(WindowedDisk::new(self.alloc, disk), count);
        let status = self.answer(words, &mut bench)?;
        Ok((status, bench.into_disk().into_disk()))
    }

    /// Runs a command on these files until the power is lost. Answers its status, and what is then on the disk.
    fn lose(&self, words: &str, disk: CachedDisk, loss: Loss) -> Result<(u8, Remains)> {
        let (status, disk) = self.run(words, disk)?;
        Ok((status, disk.lose(loss)?))
    }

    /// What a loss left. It fails where anything else was left.
    fn look(&self, left: &Remains) -> Result<Left> {
        let same_job = left.job.get(1..).unwrap_or(&[]) == self.body.as_slice();
        if left.job.first() == Some(&0xA5) {
            ensure!(same_job, "another job");
            return Ok(Left::Whole);
        }
        if left.cells.as_slice() == self.old.as_slice() {
            return Ok(Left::Untouched);
        }
        ensure!(
            same_job && left.cells.as_slice() == self.goal.as_slice(),
            "neither untouched, whole nor finished"
        );
        Ok(Left::Finished)
    }

    /// Brings what was left to its end by a command. Then the wanted cells and a closed job must be on the disk.
    fn carry(&self, left: &Remains, command: &str, wanted: &[u8]) -> Result<()> {
        let disk = CachedDisk::new(self.alloc, &left.job, &left.cells, ENDLESS)?;
        let (status, end) = self.lose(command, disk, loss_of("absent")?)?;
        ensure!(status == 0, "{command}: status {status}");
        ensure!(end.cells.as_slice() == wanted, "{command}: other cells");
        ensure!(
            end.job.first() == Some(&0x00),
            "{command}: the job isn't closed"
        );
        Ok(())
    }

    /// Looks at what was left. A whole job is carried on and, from the same files, back.
    fn carry_both(&self, left: &Remains) -> Result<Left> {
        let what = self.look(left)?;
        if what == Left::Whole {
            self.carry(left, "resume", &self.goal)?;
            self.carry(left, "revert", &self.old)?;
        }
        Ok(what)
    }

    /// The files before the job. Only `calls` calls on them go through.
    fn begin(&self, calls: u64) -> Result<CachedDisk> {
        Ok(CachedDisk::new(self.alloc, &[], &self.old, calls)?)
    }

    /// Does the job once with no loss, and keeps its file and its cells.
    fn learn(&mut self, words: &str) -> Result<()> {
        let (status, end) = self.lose(words, self.begin(ENDLESS)?, loss_of("absent")?)?;
        ensure!(status == 0, "not done");
        ensure!(
            end.job.first() == Some(&0x00),
            "done, and not closed on the disk"
        );
        self.body = Vec::from_slice(self.alloc, end.job.get(1..).context("no job")?)?;
        self.goal = end.cells;
        Ok(())
    }

    /// Loses the power after `calls` calls of the job. Answers its status, and what is left, which is carried on and back.
    fn lose_one(&self, words: &str, calls: u64, loss: Loss) -> Result<(u8, Left)> {
        let (status, left) = self.lose(words, self.begin(calls)?, loss)?;
        Ok((status, self.carry_both(&left)?))
    }

    /// Kills a job after `killed` calls, and loses the power after `calls` calls of a `resume`. Answers its status, and what is left, which
    /// is carried on and back.
    fn lose_resumed(&self, words: &str, killed: u64, calls: u64, loss: Loss) -> Result<(u8, Left)> {
        let (_, left) = self.run(words, self.begin(killed)?)?;
        let (status, left) = self.lose("resume", left.begin_again(calls), loss)?;
        Ok((status, self.carry_both(&left)?))
    }

    /// Loses the power after each call of the job. Prints how often each kind was left.
    fn lose_each(&self, rt: &HostRuntime, name: &str, words: &str) -> Result<()> {
        let loss = loss_of(name)?;
        let mut tally = Tally::new();
        for calls in 0..MOST {
            let (status, what) = self.lose_one(words, calls, loss)?;
            if status == 0 {
                ensure!(what == Left::Finished, "done, and not finished");
                println!(rt; "{name}: {calls} losses, {tally}")?;
                return Ok(());
            }
            tally.count(what);
        }
        bail!("no end");
    }

    /// Loses the power after each call of the `resume` that follows a job that was killed. Prints how often each kind was left.
    fn lose_each_resumed(
        &self,
        rt: &HostRuntime,
        name: &str,
        killed: u64,
        words: &str,
    ) -> Result<()> {
        let loss = loss_of(name)?;
        let mut tally = Tally::new();
        for calls in 0..MOST {
            let (status, what) = self.lose_resumed(words, killed, calls, loss)?;
            if status == 0 || status == 7 {
                println!(rt; "killed after {killed}, {name}: {calls} losses, {tally}")?;
                return Ok(());
            }
            tally.count(what);
        }
        bail!("no end");
    }
}

/// The job of these words, which is done once with no loss.
fn job_of(rt: &HostRuntime, cells: &str, words: &str) -> Result<Job> {
    let files = files_of(rt, words)?;
    let old = fs::read(rt, cells)?;
    let alloc = rt.alloc();
    let mut job = Job {
        alloc,
        files,
        old,
        body: Vec::new(alloc),
        goal: Vec::new(alloc),
    };
    job.learn(words)?;
    Ok(job)
}

/// Loses the power after each call of a job, with this fate of the changes that wait, and carries what is left on and back. Prints how
/// often each kind was left.
pub fn lose_all(rt: &HostRuntime, name: &str, cells: &str, words: &str) -> Result<()> {
    let job = job_of(rt, cells, words)?;
    job.lose_each(rt, name, words)
}

/// Kills a job after a number of calls, with no loss. Then loses the power after each call of a `resume` in the next run, and carries what
/// is left on and back. Prints how often each kind was left.
pub fn lose_after_kill(
    rt: &HostRuntime,
    name: &str,
    killed: u64,
    cells: &str,
    words: &str,
) -> Result<()> {
    let job = job_of(rt, cells, words)?;
    job.lose_each_resumed(rt, name, killed, words)
}
