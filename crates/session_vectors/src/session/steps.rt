//! The steps of the cases.

use crate::output::put_line;
use crate::session::apart::step_apart;
use crate::session::carry::carry;
use crate::session::job::Job;
use crate::session::report::print;
use crate::session::stops::stop_all;
use anyhow::{Context, Result, bail, ensure};
use bench_model::{MemoryBench, Pick};
use flash_session::Goal;
use row_text::all_bytes;
use std::alloc::Global;

/// Carries a job on, and prints how.
fn carried(rt: &HostRuntime, bench: &mut MemoryBench, goal: Goal) -> Result<bool> {
    print(rt, carry(rt.alloc(), bench, goal))?;
    Ok(true)
}

/// Which pair a stop leaves, by its word.
fn pick_of(word: &str) -> Result<Pick> {
    Ok(match word {
        "written" => Pick::AsWritten,
        "old" => Pick::AsOld,
        _ => Pick::Filled {
            value: u8::from_str_radix(word, 16)?,
        },
    })
}

/// Whether a bench has the cells that some words give.
fn has_cells(alloc: Global, bench: &MemoryBench, words: &[&str]) -> Result<bool> {
    let cells = all_bytes(alloc, words)?;
    Ok(bench.cells() == cells.as_slice())
}

/// Whether the file of a bench is as a word says.
fn has_file(bench: &MemoryBench, word: &str) -> Result<bool> {
    let gate = match word {
        "open" => 0xA5u8,
        "closed" => 0x00,
        _ => bail!("no such file"),
    };
    Ok(bench.file().first() == Some(&gate))
}

/// Stops the power of a bench, which leaves what a word says.
fn stop(bench: &mut MemoryBench, word: &str) -> Result<bool> {
    bench.power_loss(pick_of(word)?);
    Ok(true)
}

/// Does the step of a word and the words after it on a bench. Answers whether it finds what it says.
fn holds(rt: &HostRuntime, bench: &mut MemoryBench, word: &str, words: &[&str]) -> Result<bool> {
    match (word, words) {
        ("new", []) => carried(rt, bench, Goal::New),
        ("old", []) => carried(rt, bench, Goal::Old),
        ("cells", words) => has_cells(rt.alloc(), bench, words),
        ("file", [word]) => has_file(bench, word),
        ("stop", [word]) => stop(bench, word),
        _ => bail!("no step"),
    }
}

/// A session over three benches with a job. The first two words say which calls fail, and the others name the job.
fn apart(rt: &HostRuntime, words: &[&str]) -> Result<bool> {
    let [survey, go, words @ ..] = words else {
        bail!("SURVEY GO and a job are wanted");
    };
    let job = Job::read(rt, words)?;
    step_apart(rt, &job, survey, go)?;
    Ok(true)
}

/// Sessions with the job of some words, stopped at each of their calls.
fn stops(rt: &HostRuntime, words: &[&str]) -> Result<bool> {
    let job = Job::read(rt, words)?;
    stop_all(rt, &job)?;
    Ok(true)
}

/// Does the step of a line, if it has one. Answers whether it finds what it says. A step without a bench makes benches of its own.
fn step(rt: &HostRuntime, bench: Option<&mut MemoryBench>, words: &[&str]) -> Result<bool> {
    let [word, words @ ..] = words else {
        return Ok(true);
    };
    match (*word, bench) {
        ("apart", _) => apart(rt, words),
        ("stops", _) => stops(rt, words),
        (word, Some(bench)) => holds(rt, bench, word, words),
        _ => Ok(false),
    }
}

/// Sees that the step of a line finds what it says.
fn step_holds(rt: &HostRuntime, bench: Option<&mut MemoryBench>, line: &str) -> Result<()> {
    let words = line.split_whitespace().collect::<Vec<&str>>(rt.alloc())?;
    let holds = step(rt, bench, &words)?;
    ensure!(holds, "{line}");
    Ok(())
}

/// Does a line: prints the name of a case, or sees that its step finds what it says.
fn line_holds(rt: &HostRuntime, bench: Option<&mut MemoryBench>, line: &str) -> Result<()> {
    match line.strip_prefix("case ") {
        Some(name) => put_line(rt, name),
        None => step_holds(rt, bench, line),
    }
}

/// Goes through the lines of a bench.
fn go_through(rt: &HostRuntime, bench: &mut MemoryBench, text: &str) -> Result<()> {
    for line in text.lines() {
        line_holds(rt, Some(bench), line)?;
    }
    Ok(())
}

/// The bench of a job. The cell call of the given number fails.
fn failing(rt: &HostRuntime, fail: &str, words: &[&str]) -> Result<MemoryBench> {
    let fail = fail.parse::<u64>()?;
    let job = Job::read(rt, words)?;
    job.bench(rt, fail)
}

/// The bench that the words after `job` name.
fn bench_of(rt: &HostRuntime, line: &str) -> Result<MemoryBench> {
    let words = line.split_whitespace().collect::<Vec<&str>>(rt.alloc())?;
    match words.as_slice() {
        [fail, job @ ..] => failing(rt, fail, job),
        _ => bail!("{line}: no job"),
    }
}

/// Makes the bench that a text names first, and goes through its other lines.
fn try_one(rt: &HostRuntime, text: &str) -> Result<()> {
    let (line, text) = text.split_once('\n').context("a job has no lines")?;
    let mut bench = bench_of(rt, line)?;
    go_through(rt, &mut bench, text)
}

/// Does the lines before the first bench.
fn before_benches(rt: &HostRuntime, text: &str) -> Result<()> {
    for line in text.lines() {
        line_holds(rt, None, line)?;
    }
    Ok(())
}

/// Goes through the lines, and prints the name of each case.
pub fn check(rt: &HostRuntime, text: &str) -> Result<()> {
    let mut benches = text.split("\njob ");
    if let Some(text) = benches.next() {
        before_benches(rt, text)?;
    }
    for text in benches {
        try_one(rt, text)?;
    }
    Ok(())
}
