//! `demo N`: the demonstration of a seed.
ghost use Rattle.std.specs.Prelude.{◌≡◌, IfOk};
ghost use Rattle.command_files.specs.Call.{sink_call};
ghost use Rattle.command_files.specs.Shown.{answer_of};
ghost use Rattle.demo_job.specs.Run.{answer_in};
ghost use Rattle.demo_job.specs.Command.{DemoSays, IsShown, Prints};

use crate::lines::put_demo;
use crate::made::made_cells;
use crate::run::{Demo, demo_run};
use bench_model::MemoryBench;
use faults::OutOfMemory;
use outside_io::Sink;
use report_text::Refusal;
use std::alloc::Global;

/// The longest job file, in bytes.
const FILE_ROOM: u64 = 4_194_304;

/// The room for the calls that the bench records, in its units.
const CALL_ROOM: u64 = 400_000;

/// Runs the demonstration of a seed in memory, and puts its lines. It ends as the resume in it does. If memory runs out before the resume
/// begins, nothing is put.
pub fn demo<'a, O: Sink>(alloc: Global, seed: u32, out: &mut O) -> Result<(), Refusal<'a>>
    ensures { DemoSays seed (sink_call O.tells (O.state out.old) (O.state out.new)) (answer_of result) }
{
    let demo = run(alloc, seed)?;
    tell(&demo, out)
}

/// Puts the lines of a demonstration, and ends as the demonstration did.
fn tell<'a, O: Sink>(demo: &Demo, out: &mut O) -> Result<(), Refusal<'a>>
    ensures { Prints (sink_call O.tells (O.state out.old) (O.state out.new)) demo.now (answer_of result) }
{
    put_demo(out, &demo.lines)?;
    end(demo)
}

/// The demonstration of a seed on a bench that it makes.
fn run(alloc: Global, seed: u32) -> Result<Demo, OutOfMemory>
    ensures { IfOk result (IsShown seed) }
{
    let cells = made_cells(alloc, seed)?;
    let bench = MemoryBench::new(alloc, &cells, &[], FILE_ROOM, CALL_ROOM, &[], &[], &[])?;
    demo_run(alloc, seed, bench)
}

/// The end of the resume.
fn end<'a>(demo: &Demo) -> Result<(), Refusal<'a>>
    ensures { answer_of result ≡ answer_in demo.now.refusal }
{
    match demo.refusal {
        None => Ok(()),
        Some(refusal) => Err(refusal),
    }
}
