//! Begins, opens and closes a job of the small board on benches in memory, each stopped after every number of calls and with every pick. It
//! also begins and opens a job of two regions, and reads files that are jobs or nearly so, of both formats. It prints what is answered, and
//! what each file is then.
//!
//! `job.bin` is the job file of `one.toml`, `algorithm.flm`, the bytes 01 to 04 at 0x08000000 and a blank device, byte by byte as the
//! format says. `first.bin` is the same job in the first format. `two.bin` is the job file of `two.toml`, both FLM files, these bytes, the
//! byte 55 at 0x1FFFF000 and a blank device. `changes.txt`, `first.txt` and `two.txt` have a line for each file that is made of one of
//! these. `tools/job_files.py` writes all of them, with hashes by Python's SHA-256.
ghost use Rattle.std.specs.Prelude.{◌<◌, ◌^◌, length, option_copied, IsTrue, IfOk};
ghost use Rattle.job_text.specs.Body.{flm_len};
ghost use Rattle.job_text.specs.Jobs.{AreFlms};
ghost use Rattle.job_text.specs.Parts.{AreParts, files_with};
ghost use Rattle.job_text.specs.Said.{algorithms_shown};

mod benches;
mod changes;
mod class;
mod refusals;
mod stops;

use crate::output::put_line;
use anyhow::{Result, bail, ensure};
use board_file::read_board;
use byte_map::ByteMap;
use flm_descriptor::read_flm;
use job_file::JobParts;
use job_text::{Algorithms, cells_in, suits};
use std::alloc::Global;
use std::fs;

/// The four bytes of the image in the first region, and the one in the second.
fn image(alloc: Global, both: bool) -> Result<ByteMap> {
    let mut image = ByteMap::new(alloc);
    image.lay(0x0800_0000, &[1, 2, 3, 4])?;
    if both {
        image.lay(0x1FFF_F000, &[0x55])?;
    }
    Ok(image)
}

/// What the FLM files say.
fn read_flms(alloc: Global, flm: &[u8], second: Option<&[u8]>) -> Result<Algorithms>
    ensures { IfOk result (λ all. AreFlms (files_with flm.now (option_copied second.entry)) (algorithms_shown all)) }
{
    let flm = read_flm(alloc, flm)?;
    match second {
        Some(second) => {
            let second = read_flm(alloc, second)?;
            Ok(Algorithms::new(alloc, flm, Some(second))?)
        }
        None => Ok(Algorithms::new(alloc, flm, None)?),
    }
}

/// Whether the lengths of the texts have a field each.
fn are_short(board: &[u8], flm: &[u8], second: Option<&[u8]>) -> bool
    ensures board { IsTrue result → length board.now < 2 ^ 32 }
    ensures first { IsTrue result → length flm.now < 2 ^ 32 }
    ensures second { IsTrue result → flm_len (files_with flm.now (option_copied second.entry)) 1 < 2 ^ 32 }
{
    let second_len = match second {
        Some(second) => second.len(),
        None => 0,
    };
    board.len() <= 0xFFFF && flm.len() <= 0xFFFF && second_len <= 0xFFFF
}

/// The parts of the job of these texts and this image, where they go together.
fn parts_of<'a>(
    alloc: Global,
    board: &'a [u8],
    flm: &'a [u8],
    second: Option<&'a [u8]>,
    image: &'a ByteMap,
) -> Result<JobParts<'a>>
    ensures { IfOk result AreParts }
{
    ensure!(are_short(board, flm, second), "the texts are too long");
    let read = read_board(alloc, board)?;
    let algorithms = read_flms(alloc, flm, second)?;
    if suits(&read, algorithms.as_slice(), image) {
        Ok(JobParts {
            board,
            flm,
            second,
            image,
            size: cells_in(&read),
        })
    } else {
        bail!("the texts don't go together")
    }
}

/// Begins a job over an empty file, and opens it.
fn begin_and_open(rt: &HostRuntime, parts: &JobParts, job: &[u8]) -> Result<()>
    requires { AreParts parts.now }
{
    let mut bench = benches::blank(rt.alloc(), parts.size, &[], 0, 0)?;
    refusals::put_begin(rt, parts, &mut bench, job)?;
    refusals::put_open(rt, parts.size, bench.file(), 0)
}

/// What is done with the job of these parts: that of two regions is only begun and opened.
fn follow(rt: &HostRuntime, parts: &JobParts, job: &[u8]) -> Result<()>
    requires { AreParts parts.now }
{
    if parts.second.is_some() {
        return begin_and_open(rt, parts, job);
    }
    stops::begin_stopped(rt, parts, job)?;
    refusals::begin_refused(rt, parts, job)?;
    refusals::open_refused(rt, job)
}

/// What is done with the job of these texts, where they go together: of its board, and of an FLM file for each region.
fn go_through(
    rt: &HostRuntime,
    board: &[u8],
    flm: &[u8],
    second: Option<&[u8]>,
    job: &[u8],
) -> Result<()> {
    let image = image(rt.alloc(), second.is_some())?;
    let parts = parts_of(rt.alloc(), board, flm, second, &image)?;
    follow(rt, &parts, job)
}

/// Reads files that are made of this one.
fn read_made(rt: &HostRuntime, job: &[u8], changes: &str) -> Result<()> {
    changes::read_prefixes(rt, job)?;
    changes::read_changed(rt, job, changes)
}

/// Does all with the job of the small board that is in this file.
fn do_small(rt: &HostRuntime, job: &[u8]) -> Result<()> {
    let board = fs::read(rt, "one.toml")?;
    let flm = fs::read(rt, "algorithm.flm")?;
    go_through(rt, &board, &flm, None, job)
}

/// Reads files that are made of one of the first format.
fn read_first(rt: &HostRuntime) -> Result<()> {
    put_line(rt, "a job of the first format")?;
    let job = fs::read(rt, "first.bin")?;
    read_made(rt, &job, "first.txt")
}

/// Reads files that are made of this one, of the second format.
fn read_second(rt: &HostRuntime, job: &[u8]) -> Result<()> {
    put_line(rt, "a job of the second format")?;
    read_made(rt, job, "changes.txt")?;
    changes::read_single_changes(rt, job)
}

/// Does all with the job of two regions that is in this file.
fn do_two(rt: &HostRuntime, flm: &[u8], job: &[u8]) -> Result<()> {
    let board = fs::read(rt, "two.toml")?;
    let second = fs::read(rt, "second.flm")?;
    go_through(rt, &board, flm, Some(&second), job)?;
    read_made(rt, job, "two.txt")
}

/// The job of one region, in either format.
fn one_region(rt: &HostRuntime) -> Result<()> {
    let job = fs::read(rt, "job.bin")?;
    do_small(rt, &job)?;
    read_first(rt)?;
    read_second(rt, &job)
}

/// The job of two regions.
fn two_regions(rt: &HostRuntime) -> Result<()> {
    put_line(rt, "a job of two regions")?;
    let flm = fs::read(rt, "algorithm.flm")?;
    let job = fs::read(rt, "two.bin")?;
    do_two(rt, &flm, &job)
}

/// Does all with both jobs.
pub fn check(rt: &HostRuntime) -> Result<()> {
    one_region(rt)?;
    two_regions(rt)
}
