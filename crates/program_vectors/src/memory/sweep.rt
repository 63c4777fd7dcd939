//! Commands that are stopped at each of their calls in turn, or in which each call in turn fails.

use crate::memory::call::{Ended, call, call_over, status_of, stopped};
use crate::memory::counts::{Counts, STATUSES};
use crate::memory::left::{Aims, LEFT, Left, OTHER, body_of, brought};
use crate::memory::lines::first_of;
use crate::memory::pairs::fail_pairs;
use crate::memory::run::print_cells;
use crate::memory::trial::{Fails, Trial, copy};
use crate::print::Piece::{Count, Number, Text};
use crate::print::{put, put_line};
use anyhow::{Context, Result, bail, ensure};
use bench_model::{MemoryBench, Pick};
use std::alloc::Global;

/// What happens to the calls of a command. `Stops`: each call in turn is the last one, with this pick. `Tenths`: each tenth call is the
/// last one, with an algorithm that breaks its duties; the job with the algorithm that keeps them ended as given. `Fails`: each call on
/// this object fails in its turn.
#[derive(Clone, Copy)]
enum Way<'a> {
    Stops(Pick),
    Tenths(Pick, &'a Ended),
    Fails(&'a str),
}

/// How often each kind was left, and how often each status came. There are the statuses of calls that failed, of `resume` with the job's
/// own algorithm, and of `resume` with the algorithm that keeps its duties.
#[derive(Clone, Copy)]
struct Ends {
    left: Counts,
    failed: Counts,
    own: Counts,
    kept: Counts,
}

/// The call with the algorithm that keeps its duties.
const KEPT: &str = "program small a1 one";

/// What can fail: calls on the job file and on the cells, puts on the two streams, and taking a file. Each has the name that is printed and
/// that of a row.
const OBJECTS: [(&str, &str); 5] = [
    ("file", "file"),
    ("cells", "cells"),
    ("out", "put"),
    ("err", "line"),
    ("take", "take"),
];

/// The pick with a name: the file as written or as it was synced, or a byte wherever a stop may leave any.
pub fn pick_of(name: &str) -> Result<Pick> {
    Ok(match name {
        "written" => Pick::AsWritten,
        "old" => Pick::AsOld,
        _ => Pick::Filled {
            value: u8::from_str_radix(name, 16)?,
        },
    })
}

/// Makes calls one after the other that are stopped, or that have a failing call.
pub fn sweep_by(rt: &HostRuntime, trial: &Trial, what: &str, rest: &str) -> Result<()> {
    let (first, line) = match what {
        "faults" => ("", rest),
        _ => first_of(rest),
    };
    let aims = Aims::new(rt.alloc(), trial, line)?;
    sweep_to(rt, trial, &aims, what, first, line)
}

/// Makes these calls, where the call without a fault has this outcome.
fn sweep_to(
    rt: &HostRuntime,
    trial: &Trial,
    aims: &Aims,
    what: &str,
    first: &str,
    line: &str,
) -> Result<()> {
    match what {
        "stops" => sweep(rt, trial, aims, line, first, Way::Stops(pick_of(first)?)),
        "tenths" => stop_tenths(rt, trial, aims, first, line),
        "faults" => fail_each(rt, trial, aims, line),
        _ => fail_pairs(rt, trial, aims, first.parse::<u64>()?, line),
    }
}

/// Stops `program` with an algorithm that breaks its duties at every tenth of its calls, with one pick.
fn stop_tenths(rt: &HostRuntime, trial: &Trial, aims: &Aims, pick: &str, line: &str) -> Result<()> {
    let left = pick_of(pick)?;
    let kept = call_over(rt.alloc(), trial, &trial.cells, &trial.job, KEPT)?;
    sweep(rt, trial, aims, line, pick, Way::Tenths(left, &kept))
}

/// Prints the outcome of a call where nothing fails, and lets each call on each object fail in its turn.
fn fail_each(rt: &HostRuntime, trial: &Trial, aims: &Aims, line: &str) -> Result<()> {
    put(
        rt,
        &[Number("status ", u32::from(aims.said.status)), Text("\n")],
    );
    print_cells(rt, &trial.cells, aims.bench.cells());
    for (title, object) in OBJECTS.iter() {
        sweep(rt, trial, aims, line, title, Way::Fails(object))?;
    }
    Ok(())
}

/// Goes over the calls of a command, up to the first number that no call has. Prints how many there were, and the outcomes.
fn sweep(
    rt: &HostRuntime,
    trial: &Trial,
    aims: &Aims,
    line: &str,
    title: &str,
    way: Way<'_>,
) -> Result<()> {
    let mut ends = Ends {
        left: Counts::new(),
        failed: Counts::new(),
        own: Counts::new(),
        kept: Counts::new(),
    };
    for number in 0..100_000u64 {
        if is_done(rt.alloc(), trial, aims, line, number, way, &mut ends)? {
            print_ends(rt, title, number, way, &ends);
            return Ok(());
        }
    }
    bail!("no end");
}

/// Whether a command is done before the call that is to be the last, or to fail.
fn is_done(
    alloc: Global,
    trial: &Trial,
    aims: &Aims,
    line: &str,
    number: u64,
    way: Way<'_>,
    ends: &mut Ends,
) -> Result<bool> {
    let (calls, pick, kept) = match way {
        Way::Stops(pick) => (number, pick, None),
        Way::Tenths(pick, kept) => (number.saturating_mul(10), pick, Some(kept)),
        Way::Fails(object) => return fail(alloc, trial, aims, line, object, number, ends),
    };
    let end = stopped(alloc, trial, line, calls, pick)?;
    match kept {
        None => follow(alloc, trial, aims, &end, ends),
        Some(kept) => follow_tenth(alloc, trial, aims, kept, &end, ends),
    }
}

/// Prints how many calls there were, and the outcomes.
fn print_ends(rt: &HostRuntime, title: &str, number: u64, way: Way<'_>, ends: &Ends) {
    let (behind, stops) = match way {
        Way::Fails(_) => (" ", ""),
        _ => (": ", " stops"),
    };
    put(
        rt,
        &[Text(title), Count(behind, number as usize), Text(stops)],
    );
    ends.failed.put(rt, &STATUSES);
    ends.left.put(rt, &LEFT);
    put_line(rt, "");
    if let Way::Tenths(_, _) = way {
        put(rt, &[Text("resumed")]);
        ends.own.put(rt, &STATUSES);
        put(rt, &[Text("; with A1")]);
        ends.kept.put(rt, &STATUSES);
        put_line(rt, "");
    }
}

/// Looks at what a stopped `program` or `begin` left. A job that is left is carried on, and from the same stop back. Answers whether the
/// command reached its end before the stop.
fn follow(alloc: Global, trial: &Trial, aims: &Aims, end: &Ended, ends: &mut Ends) -> Result<bool> {
    let left = aims.look(trial, &end.bench).context(OTHER)?;
    if left == Left::Whole {
        let (cells, file) = (end.bench.cells(), end.bench.file());
        let resumed = brought(alloc, trial, cells, file, "resume", &aims.image)?;
        let reverted = brought(alloc, trial, cells, file, "revert", &trial.cells)?;
        ensure!(
            resumed == 0 && reverted == 0,
            "a job that isn't carried on and back"
        );
    }
    if end.status == 0 {
        ensure!(left == aims.last, "done, and not as it is then");
        return Ok(true);
    }
    ends.left.count(left.place());
    Ok(false)
}

/// Looks at what a stopped `program` left, with an algorithm that breaks its duties. A job that is left is resumed, as it is and with the
/// algorithm that keeps its duties. Answers whether `program` reached its end before the stop.
fn follow_tenth(
    alloc: Global,
    trial: &Trial,
    aims: &Aims,
    kept: &Ended,
    end: &Ended,
    ends: &mut Ends,
) -> Result<bool> {
    if end.status == aims.said.status {
        return Ok(true);
    }
    let left = aims.look(trial, &end.bench).context(OTHER)?;
    ends.left.count(left.place());
    if left == Left::Whole {
        let (cells, wanted) = (end.bench.cells(), kept.bench.cells());
        let status = brought(alloc, trial, cells, end.bench.file(), "resume", wanted)?;
        ends.own.count(status);
        let mut file = copy(alloc, &[0xA5])?;
        file.extend_from_slice(body_of(kept.bench.file()))?;
        let status = brought(alloc, trial, cells, &file, "resume", wanted)?;
        ends.kept.count(status);
    }
    Ok(false)
}

/// Lets the call after the first `number` calls on an object fail. A job that is left is resumed. Answers whether the command answers as if
/// nothing failed.
fn fail(
    alloc: Global,
    trial: &Trial,
    aims: &Aims,
    line: &str,
    object: &str,
    number: u64,
    ends: &mut Ends,
) -> Result<bool> {
    let mut fails = Fails::none();
    fails.set(object, number.saturating_add(1))?;
    let mut bench = trial.bench_with(alloc, &trial.cells, &trial.job, fails)?;
    fail_on(alloc, trial, aims, line, fails, &mut bench, ends)
}

/// Makes the call on this bench, on which one call fails. A job that is left is resumed. Answers whether the command answers as if nothing
/// failed.
fn fail_on(
    alloc: Global,
    trial: &Trial,
    aims: &Aims,
    line: &str,
    fails: Fails,
    bench: &mut MemoryBench,
    ends: &mut Ends,
) -> Result<bool> {
    let (status, is_done) = {
        let said = call(alloc, &trial.files, fails, bench, line)?;
        (said.status, said.is_like(&aims.said))
    };
    if !is_done {
        let left = left_after(alloc, trial, aims, bench)?;
        ends.failed.count(status);
        ends.left.count(left.place());
    }
    Ok(is_done)
}

/// What is left after a call failed. A job that is left is resumed.
fn left_after(alloc: Global, trial: &Trial, aims: &Aims, bench: &mut MemoryBench) -> Result<Left> {
    let left = aims.look(trial, bench).context(OTHER)?;
    if left == Left::Whole {
        let status = status_of(alloc, trial, bench, "resume")?;
        let is_right = status == 0 && bench.cells() == aims.image.as_slice();
        ensure!(is_right, "resume: another end");
    }
    Ok(left)
}
