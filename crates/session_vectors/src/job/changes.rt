//! Files that are made of a job's.

use crate::job::class::{Found, class};
use anyhow::{Context, Result, bail};
use row_text::bytes_of;
use std::alloc::Global;
use std::fs;

/// Writes bytes from a place on.
fn write(file: &mut [u8], at: usize, bytes: &[u8]) -> Result<()> {
    for (index, byte) in bytes.iter().enumerate() {
        let place = at.checked_add(index).context("a place is wanted")?;
        match file.get_mut(place) {
            Some(kept) => *kept = *byte,
            None => bail!("{place}: past the end"),
        }
    }
    Ok(())
}

/// Changes a file as a word says it: `AT=BYTES` writes bytes, the place in decimal digits and the bytes in hexadecimal ones;
/// `cut=LEN` cuts the file; `more=BYTES` appends bytes.
fn change(alloc: Global, file: &mut Vec<u8>, word: &str) -> Result<()> {
    let (at, value) = word.split_once('=').context("a change is AT=BYTES")?;
    if at == "cut" {
        file.truncate(value.parse::<usize>()?);
        return Ok(());
    }
    let bytes = bytes_of(alloc, value)?;
    if at == "more" {
        file.extend_from_slice(&bytes)?;
        return Ok(());
    }
    write(file, at.parse::<usize>()?, &bytes)
}

/// The job's file, changed as the words say.
fn changed(alloc: Global, job: &[u8], words: &str) -> Result<Vec<u8>> {
    let mut file = Vec::from_slice(alloc, job)?;
    for word in words.split_ascii_whitespace() {
        change(alloc, &mut file, word)?;
    }
    Ok(file)
}

/// A line for a file: its name, and what it is.
fn put_changed(rt: &HostRuntime, job: &[u8], line: &str) -> Result<()> {
    let (name, words) = line.split_once(':').context("a name is wanted")?;
    let file = changed(rt.alloc(), job, words)?;
    println!(rt; "{name}: {}", class(rt.alloc(), &file, job)?)?;
    Ok(())
}

/// Reads each file of the changes under a name, a line for each: its name, and its changes.
pub fn read_changed(rt: &HostRuntime, job: &[u8], name: &str) -> Result<()> {
    let changes = fs::read_to_string(rt, name)?;
    for line in changes.lines() {
        put_changed(rt, job, line)?;
    }
    Ok(())
}

/// How many files there are of each class.
#[derive(Clone, Copy, Default)]
struct Count {
    free: u64,
    not_a_job: u64,
    damaged: u64,
    jobs: u64,
}

impl Count {
    /// Counts a file.
    fn count(&mut self, found: Found) {
        let count = match found {
            Found::Free { .. } => &mut self.free,
            Found::NotAJob { .. } => &mut self.not_a_job,
            Found::Damaged => &mut self.damaged,
            Found::Job | Found::AnotherJob => &mut self.jobs,
        };
        *count = count.saturating_add(1);
    }
}

/// Reads every proper prefix of the job's file, and counts how many are refused at their length, and how many as damaged. Others are named.
pub fn read_prefixes(rt: &HostRuntime, job: &[u8]) -> Result<()> {
    let mut count = Count::default();
    for len in 0..job.len() {
        match class(rt.alloc(), &job[..len], job)? {
            Found::NotAJob { at } if at != len as u64 => bail!("{len} bytes: not a job at {at}"),
            found => {
                if matches!(found, Found::NotAJob { .. } | Found::Damaged) {
                    count.count(found);
                } else {
                    println!(rt; "{len} bytes: {found}")?;
                }
            }
        }
    }
    println!(rt; "{} prefixes: not a job at their length", count.not_a_job)?;
    if count.damaged > 0 {
        println!(rt; "{} prefixes: damaged", count.damaged)?;
    }
    Ok(())
}

/// Counts what a file is with each single byte changed.
fn count_changed(alloc: Global, file: &mut [u8], job: &[u8]) -> Result<Count> {
    let mut count = Count::default();
    for at in 0..file.len() {
        file[at] ^= 1;
        count.count(class(alloc, file, job)?);
        file[at] ^= 1;
    }
    Ok(count)
}

/// Reads the job's file with each single byte changed, and counts what the files are.
pub fn read_single_changes(rt: &HostRuntime, job: &[u8]) -> Result<()> {
    let mut file = Vec::from_slice(rt.alloc(), job)?;
    put_count(rt, count_changed(rt.alloc(), &mut file, job)?)
}

/// Prints what files with a single byte changed are.
fn put_count(rt: &HostRuntime, count: Count) -> Result<()> {
    let (free, not_a_job) = (count.free, count.not_a_job);
    let (damaged, jobs) = (count.damaged, count.jobs);
    println!(rt;
        "single bytes: {free} free, {not_a_job} not a job, {damaged} damaged, {jobs} jobs"
    )?;
    Ok(())
}
