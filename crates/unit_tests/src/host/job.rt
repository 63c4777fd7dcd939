//! The job file from one run to the next.

use super::{Files, Temporary, bench_over, over_cells};
use crate::expect::expect_all;
use bench_model::Bench;
use faults::OutOfMemory;
use host_files::FileBench;
use octets::Word;
use std::test::Fail;

/// A bench with this job file and no cells.
fn job_file(file: &Temporary) -> Result<FileBench, OutOfMemory> {
    let name = file.word()?;
    Ok(FileBench::new(file.rt, name, Word::copy(file.rt.alloc(), "")?))
}

/// Writes, cuts, and writes and cuts past the end.
fn grow(job: &mut FileBench) -> bool {
    job.file_write(0, b"abcdefgh").is_ok()
        && job.file_cut(3).is_ok()
        && job.file_write(3, b"xyz").is_ok()
        && job.file_write(5, b"12345").is_ok()
        && job.file_cut(10).is_ok()
}

/// Whether a job file has these bytes, and no more.
fn reads(job: &mut FileBench, bytes: [u8; 10]) -> bool {
    let mut found = [0; 10];
    matches!(job.file_len(), Ok(10)) && job.file_read(0, &mut found).is_ok() && found == bytes
}

#[test]
fn a_job_file_is_cut_and_grows(rt: HostRuntime) -> Result<(), Fail> {
    let file = Temporary::new(rt, "grown")?;
    let seen = grown(&file)?;
    expect_all(&rt, &seen);
    Ok(())
}

/// Whether one bench writes the file, another one reads it, and it is removed.
fn grown(file: &Temporary) -> Result<[bool; 3], OutOfMemory> {
    Ok([is_written(file)?, is_read(file)?, file.remove()])
}

/// Whether a bench writes the file.
fn is_written(file: &Temporary) -> Result<bool, OutOfMemory> {
    let mut job = job_file(file)?;
    Ok(grow(&mut job))
}

/// Whether a bench reads what was written.
fn is_read(file: &Temporary) -> Result<bool, OutOfMemory> {
    let mut job = job_file(file)?;
    Ok(reads(&mut job, *b"abcxy12345"))
}

/// Makes the file calls of a job that is begun.
fn begin(files: &mut Files, body: &[u8]) -> bool {
    files.bench.file_sync().is_ok()
        && files.write_synced(0, &[0])
        && files.write_synced(1, body)
        && files.write_synced(0, &[0xA5])
}

/// Takes another bench over the same files, and says whether there is memory for it.
fn reopen(files: &mut Files) -> bool {
    match bench_over(&files.job, &files.cells) {
        Ok(bench) => {
            files.bench = bench;
            true
        }
        Err(_) => false,
    }
}

/// A run that is killed does nothing more. So the test drops the first bench as it is, with an operation open.
#[test]
fn a_job_stands_after_its_run_was_killed(rt: HostRuntime) -> Result<(), Fail> {
    let ends = ("begun", "begun_on");
    over_cells(&rt, rt, ends, b"12345678", carried_on, [true; 11])
}

/// Whether a job is begun with an operation open, and another bench carries it on.
fn carried_on(files: &mut Files) -> [bool; 11] {
    [
        begin(files, b"body"),
        files.open(2, 4),
        reopen(files),
        files.has_length(5),
        files.reads(0, *b"\xA5bo"),
        files.reads(2, *b"ody"),
        files.open(3, 2),
        files.bench.cells_settle(b"xy").is_ok(),
        files.write_synced(0, &[0]),
        files.hold(b"\0body", b"123xy678"),
        files.remove(),
    ]
}

#[test]
fn a_link_that_leads_nowhere_is_no_job_file(rt: HostRuntime) -> Result<(), Fail> {
    let link = Temporary::new(rt, "link")?;
    let seen = linked(&link)?;
    expect_all(&rt, &seen);
    Ok(())
}

/// The answers for a job file that is named by a link.
fn linked(link: &Temporary) -> Result<[bool; 9], Fail> {
    let file = Temporary::new(link.rt, "linked")?;
    let made = link.link_to(&file);
    let mut job = job_file(link)?;
    Ok(named_by(&mut job, made, link, &file))
}

/// Whether the job file is missing and a write doesn't make it, but is written once the file was made.
fn named_by(job: &mut FileBench, made: bool, link: &Temporary, file: &Temporary) -> [bool; 9] {
    [
        made,
        job.file_len().is_err(),
        job.file_write(0, b"a").is_err(),
        file.is_missing(),
        file.write(b""),
        job.file_write(0, b"a").is_ok(),
        file.holds(b"a"),
        link.remove(),
        file.remove(),
    ]
}
