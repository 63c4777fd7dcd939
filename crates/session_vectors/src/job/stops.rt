//! A job begun and closed, and stopped after every number of calls.
ghost use Rattle.job_text.specs.Parts.{AreParts};

use crate::PICKS;
use crate::job::benches::{blank, busy};
use crate::job::class::class;
use crate::output::put_line;
use anyhow::Result;
use bench_model::{Bench, MemoryBench, Pick, StopBench};
use job_file::{BeginFault, JobParts, begin, close};
use std::alloc::Global;

/// More calls than a job takes that is begun and closed.
const CALLS: u64 = 23;

/// Begins a job, and closes it if `closes` says so.
pub fn begin_job<B: Bench>(
    alloc: Global,
    bench: &mut B,
    parts: &JobParts,
    closes: bool,
) -> Result<(), BeginFault>
    requires { AreParts parts.now }
{
    begin(alloc, bench, parts)?;
    if closes && close(bench).is_err() {
        return Err(BeginFault::StoreFault);
    }
    Ok(())
}

/// How a job is begun and closed on this bench if only `calls` calls go through, and what is left of it after the power went.
fn stopped(
    alloc: Global,
    parts: &JobParts,
    bench: MemoryBench,
    calls: u64,
    pick: Pick,
) -> (Result<(), BeginFault>, MemoryBench)
    requires { AreParts parts.now }
{
    let mut stopped = StopBench::new(bench, calls);
    let end = begin_job(alloc, &mut stopped, parts, true);
    let mut left = stopped.into_inner();
    left.power_loss(pick);
    (end, left)
}

/// Says how a job was begun, or begun and closed.
pub fn put_end(rt: &HostRuntime, end: Result<(), BeginFault>, done: &str) -> Result<()> {
    match end {
        Ok(()) => print!(rt; "{done}")?,
        Err(fault) => print!(rt; "{fault}")?,
    }
    Ok(())
}

/// Says how a job ends if only `calls` of its calls go through.
fn put_calls(rt: &HostRuntime, parts: &JobParts, file: &[u8], calls: u64) -> Result<()>
    requires { AreParts parts.now }
{
    print!(rt; "{calls} calls: ")?;
    let bench = blank(rt.alloc(), 1024, file, 0, 0)?;
    let (end, _left) = stopped(rt.alloc(), parts, bench, calls, Pick::AsWritten);
    put_end(rt, end, "done")
}

/// Says whether all cells are blank.
fn said(cells: &[u8]) -> &'static str {
    if cells.iter().all(|cell| *cell == 0xFF) {
        ""
    } else {
        ", cells changed"
    }
}

/// Says what is left of a bench.
fn put_left(rt: &HostRuntime, left: &MemoryBench, job: &[u8]) -> Result<()> {
    let cells = said(left.cells());
    print!(rt; "; {}{cells}", class(rt.alloc(), left.file(), job)?)?;
    Ok(())
}

/// A line for a number of calls: how they end, and what each pick leaves.
fn put_stop(rt: &HostRuntime, parts: &JobParts, file: &[u8], calls: u64, job: &[u8]) -> Result<()>
    requires { AreParts parts.now }
{
    put_calls(rt, parts, file, calls)?;
    for pick in PICKS {
        let bench = blank(rt.alloc(), 1024, file, 0, 0)?;
        let (_end, left) = stopped(rt.alloc(), parts, bench, calls, pick);
        put_left(rt, &left, job)?;
    }
    put_line(rt, "")
}

/// A line for each number of calls.
fn put_lines(rt: &HostRuntime, parts: &JobParts, file: &[u8], job: &[u8]) -> Result<()>
    requires { AreParts parts.now }
{
    for calls in 0..CALLS {
        put_stop(rt, parts, file, calls, job)?;
    }
    Ok(())
}

/// The file of a job that was closed.
fn closed(alloc: Global, job: &[u8]) -> Result<Vec<u8>> {
    let mut closed = Vec::from_slice(alloc, job)?;
    if let Some(gate) = closed.first_mut() {
        *gate = 0;
    }
    Ok(closed)
}

/// Begins over an empty file and over that of a closed job, stopped after each number of calls; then once over a device on
/// which an operation is open.
pub fn begin_stopped(rt: &HostRuntime, parts: &JobParts, job: &[u8]) -> Result<()>
    requires { AreParts parts.now }
{
    put_line(rt, "an empty file")?;
    put_lines(rt, parts, &[], job)?;
    put_line(rt, "a closed job")?;
    put_lines(rt, parts, &closed(rt.alloc(), job)?, job)?;
    begin_busy(rt, parts, job)
}

/// Begins where an operation is open: the snapshot is taken once it is broken off.
fn begin_busy(rt: &HostRuntime, parts: &JobParts, job: &[u8]) -> Result<()>
    requires { AreParts parts.now }
{
    let mut bench = busy(rt.alloc(), &[])?;
    begin_job(rt.alloc(), &mut bench, parts, false)?;
    put_busy(rt, &bench, job)
}

/// Says what the job holds that was begun while an operation was open.
fn put_busy(rt: &HostRuntime, bench: &MemoryBench, job: &[u8]) -> Result<()> {
    let broken = bench.cells().iter().filter(|cell| **cell == 0x5A).count();
    println!(rt;
        "an open operation: {}, {broken} cells",
        class(rt.alloc(), bench.file(), job)?
    )?;
    println!(rt;
        "its snapshot is the cells: {}",
        bench.file().ends_with(bench.cells())
    )?;
    Ok(())
}
