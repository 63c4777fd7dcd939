//! Files over which no job is begun, files from which none is opened, and calls that fail.
ghost use Rattle.job_text.specs.Parts.{AreParts};

use crate::job::benches::blank;
use crate::job::class::class;
use crate::job::stops::{begin_job, put_end};
use crate::output::put_line;
use anyhow::Result;
use bench_model::MemoryBench;
use job_file::{JobParts, OpenFault, open};
use job_text::Job;

/// How many calls a job takes that is begun over a closed one: file calls and cell calls.
const STORE_CALLS: u64 = 18;

const DEVICE_CALLS: u64 = 2;

/// Begins on a bench, and says how it ends.
pub fn put_begin(
    rt: &HostRuntime,
    parts: &JobParts,
    bench: &mut MemoryBench,
    job: &[u8],
) -> Result<()>
    requires { AreParts parts.now }
{
    let end = begin_job(rt.alloc(), bench, parts, false);
    put_end(rt, end, "begun")?;
    put_file(rt, bench.file(), job)
}

/// Says what a file is then.
fn put_file(rt: &HostRuntime, file: &[u8], job: &[u8]) -> Result<()> {
    println!(rt; ", {}", class(rt.alloc(), file, job)?)?;
    Ok(())
}

/// Begins over a file on `cells` cells. The file call and the cell call with these numbers fail, or none at 0.
fn put_begin_on(
    rt: &HostRuntime,
    parts: &JobParts,
    job: &[u8],
    cells: u32,
    file: &[u8],
    fails: (u64, u64),
) -> Result<()>
    requires { AreParts parts.now }
{
    let (store, device) = fails;
    let mut bench = blank(rt.alloc(), cells, file, store, device)?;
    put_begin(rt, parts, &mut bench, job)
}

/// Begins over files that aren't free, with another number of cells, and where each call fails in its turn.
pub fn begin_refused(rt: &HostRuntime, parts: &JobParts, job: &[u8]) -> Result<()>
    requires { AreParts parts.now }
{
    put_line(rt, "begin")?;
    for (cells, file) in [
        (1024, job),
        (1024, &[0xA5, 0]),
        (1024, &[0xA5]),
        (512, &[]),
        (512, job),
    ] {
        put_begin_on(rt, parts, job, cells, file, (0, 0))?;
    }
    for call in 1..=STORE_CALLS {
        put_begin_on(rt, parts, job, 1024, &[0, 7, 7], (call, 0))?;
    }
    for call in 1..=DEVICE_CALLS {
        put_begin_on(rt, parts, job, 1024, &[0, 7, 7], (0, call))?;
    }
    Ok(())
}

/// Opens a bench, and says what it finds.
pub fn put_open(rt: &HostRuntime, cells: u32, file: &[u8], store: u64) -> Result<()> {
    let mut bench = blank(rt.alloc(), cells, file, store, 0)?;
    put_opened(rt, open(rt.alloc(), &mut bench))
}

/// Says what was found.
fn put_opened(rt: &HostRuntime, opened: Result<Job, OpenFault>) -> Result<()> {
    match opened {
        Ok(job) => put_job(rt, &job),
        Err(fault) => {
            println!(rt; "{fault}")?;
            Ok(())
        }
    }
}

/// A line for a job: the device of each of its algorithms, and the image's byte there.
fn put_job(rt: &HostRuntime, job: &Job) -> Result<()> {
    for algorithm in job.algorithms.as_slice() {
        let base = algorithm.device.base;
        print!(rt; "{base:08X} {}, ", algorithm.device.size)?;
        print!(rt; "{:?}, ", job.image.get(base))?;
    }
    println!(rt; "{} cells", job.cells())?;
    Ok(())
}

/// Opens files that are free, jobs and neither, with another number of cells, and where each call fails in its turn.
pub fn open_refused(rt: &HostRuntime, job: &[u8]) -> Result<()> {
    put_line(rt, "open")?;
    for (cells, file) in [
        (1024, job),
        (1024, &[]),
        (1024, &[0xA5]),
        (1024, &[0xA5, 0]),
        (512, &[0xA5, 0]),
        (512, job),
    ] {
        put_open(rt, cells, file, 0)?;
    }
    for call in 1..=12 {
        put_open(rt, 1024, job, call)?;
    }
    Ok(())
}
