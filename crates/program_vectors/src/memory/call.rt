//! A call.

use crate::memory::files::Files;
use crate::memory::trial::{Fails, Trial};
use crate::print::Piece::{Number, Text};
use crate::print::put;
use anyhow::Result;
use bench_model::{Bench, MemoryBench, Pick, StopBench};
use octets::Word;
use outside_io::MemorySink;
use promise::flash;
use std::alloc::Global;
use std::str;

/// The room for what a call puts on standard output.
const PRINTED: usize = 4096;

/// The words of a line, which blanks separate. `""` is the empty word.
pub fn words_of(alloc: Global, line: &str) -> Result<Vec<Word>> {
    let mut words = Vec::new(alloc);
    for text in line.split_whitespace() {
        let text = match text {
            "\"\"" => "",
            _ => text,
        };
        words.push(Word::copy(alloc, text)?)?;
    }
    Ok(words)
}

/// What a call said: what it put on standard output and on standard error, and its status.
#[derive(Drop)]
pub struct Said {
    out: MemorySink,
    err: MemorySink,
    pub status: u8,
}

impl Said {
    /// Prints what the call put, and the status with what is left after it.
    pub fn print<'a>(&'a self, rt: &HostRuntime, left: &'a str) {
        let out = str::from_utf8(self.out.bytes()).unwrap_or("no text\n");
        let err = str::from_utf8(self.err.bytes()).unwrap_or("no text\n");
        let status = Number("status ", u32::from(self.status));
        put(rt, &[Text(out), Text(err), status, Text(left), Text("\n")]);
    }

    /// Whether another call put the same on standard error, with the same status.
    pub fn is_like(&self, other: &Said) -> bool {
        self.status == other.status && self.err.bytes() == other.err.bytes()
    }
}

/// What a call says with the words of a line. The calls of these numbers on its inputs and streams fail.
pub fn call<B: Bench>(
    alloc: Global,
    files: &Files,
    fails: Fails,
    bench: &mut B,
    line: &str,
) -> Result<Said> {
    call_in(alloc, files, fails, bench, line, PRINTED)
}

/// What a call says with the words of a line, with `printed` bytes of room on standard output. The calls of these numbers on its inputs and
/// streams fail.
pub fn call_in<B: Bench>(
    alloc: Global,
    files: &Files,
    fails: Fails,
    bench: &mut B,
    line: &str,
    printed: usize,
) -> Result<Said> {
    let words = words_of(alloc, line)?;
    let mut inputs = files.inputs(alloc, fails.take)?;
    let mut out = MemorySink::new(alloc, printed, &[fails.out])?;
    let mut err = MemorySink::new(alloc, 256, &[fails.err])?;
    let status = flash(alloc, &words, bench, &mut inputs, &mut out, &mut err);
    Ok(Said { out, err, status })
}

/// The status of a call with no failing input or stream.
pub fn status_of<B: Bench>(alloc: Global, trial: &Trial, bench: &mut B, line: &str) -> Result<u8> {
    let said = call(alloc, &trial.files, Fails::none(), bench, line)?;
    Ok(said.status)
}

/// How a call ended: its status, and the bench as it left it.
#[derive(Drop)]
pub struct Ended {
    pub status: u8,
    pub bench: MemoryBench,
}

/// Makes a call on a new bench with these cells and this job file.
pub fn call_over(
    alloc: Global,
    trial: &Trial,
    cells: &[u8],
    file: &[u8],
    line: &str,
) -> Result<Ended> {
    let mut bench = trial.bench_with(alloc, cells, file, Fails::none())?;
    let status = status_of(alloc, trial, &mut bench, line)?;
    Ok(Ended { status, bench })
}

/// Makes a call on a new bench. The call is stopped after `calls` of its calls that can fail.
pub fn stopped(alloc: Global, trial: &Trial, line: &str, calls: u64, pick: Pick) -> Result<Ended> {
    let mut bench = StopBench::new(trial.bench(alloc)?, calls);
    let status = status_of(alloc, trial, &mut bench, line)?;
    let mut bench = bench.into_inner();
    bench.power_loss(pick);
    Ok(Ended { status, bench })
}
