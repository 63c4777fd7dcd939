//! What a call leaves that doesn't reach its end.

use crate::memory::call::{Said, call, call_over};
use crate::memory::lines::first_of;
use crate::memory::trial::{Fails, Trial, copy};
use anyhow::{Result, ensure};
use bench_model::MemoryBench;
use std::alloc::Global;

/// What a call leaves: the bench unchanged; a free file and the cells unchanged; the job, whole in its file; or the job, done.
#[derive(Clone, Copy, PartialEq, Eq)]
pub enum Left {
    Same,
    Untouched,
    Whole,
    Finished,
}

/// The names of what is left, by their places.
pub const LEFT: [&str; 4] = ["as before", "untouched", "whole", "finished"];

impl Left {
    /// The place of this kind among the names.
    pub fn place(self) -> u8 {
        match self {
            Left::Same => 0,
            Left::Untouched => 1,
            Left::Whole => 2,
            Left::Finished => 3,
        }
    }
}

/// Whether a job file is open.
pub fn is_open(file: &[u8]) -> bool {
    file.len() > 1 && file.first() == Some(&0xA5)
}

/// The bytes of a job file after its byte 0.
pub fn body_of(file: &[u8]) -> &[u8] {
    file.get(1..).unwrap_or(&[])
}

/// Whether a command works on a job, and doesn't only look.
fn works(command: &str) -> bool {
    match command {
        "program" | "begin" | "resume" | "revert" => true,
        _ => false,
    }
}

/// The outcome of a call where nothing fails: what it says, the bench as it leaves it, whether its job is then whole or finished, and the
/// cells after `resume`.
#[derive(Drop)]
pub struct Aims {
    works: bool,
    pub said: Said,
    pub bench: MemoryBench,
    pub last: Left,
    pub image: Vec<u8>,
}

impl Aims {
    /// Makes the call. Its job is that of the file with which the row begins, or otherwise the one that the call begins.
    pub fn new(alloc: Global, trial: &Trial, line: &str) -> Result<Aims> {
        let mut bench = trial.bench_with(alloc, &trial.cells, &trial.job, Fails::none())?;
        let said = call(alloc, &trial.files, Fails::none(), &mut bench, line)?;
        let command = first_of(line).0;
        let image = image_of(alloc, trial, command, &bench)?;
        let last = match command {
            "begin" => Left::Whole,
            _ => Left::Finished,
        };
        Ok(Aims {
            works: works(command),
            said,
            bench,
            last,
            image,
        })
    }

    /// What is left on a bench on which the call didn't reach its end. It is none where that may not be left.
    pub fn look(&self, trial: &Trial, bench: &MemoryBench) -> Option<Left> {
        let old_cells = bench.cells() == trial.cells.as_slice();
        let same_job = body_of(bench.file()) == body_of(self.bench.file());
        if !self.works {
            let same = old_cells && bench.file() == trial.job.as_slice();
            return if same { Some(Left::Same) } else { None };
        }
        if is_open(bench.file()) {
            return if same_job { Some(Left::Whole) } else { None };
        }
        if old_cells && !is_open(&trial.job) {
            return Some(Left::Untouched);
        }
        if same_job && bench.cells() == self.bench.cells() {
            Some(Left::Finished)
        } else {
            None
        }
    }
}

/// The text for a bench on which `look` finds none of these.
pub const OTHER: &str = "neither as before, untouched, whole nor finished";

/// The cells to which `resume` brings the job of a command that left this bench.
fn image_of(alloc: Global, trial: &Trial, command: &str, bench: &MemoryBench) -> Result<Vec<u8>> {
    if works(command) && is_open(&trial.job) {
        resumed_cells(alloc, trial, &trial.cells, &trial.job)
    } else if command == "begin" {
        resumed_cells(alloc, trial, bench.cells(), bench.file())
    } else {
        copy(alloc, bench.cells())
    }
}

/// The cells to which `resume` brings a job.
fn resumed_cells(alloc: Global, trial: &Trial, cells: &[u8], file: &[u8]) -> Result<Vec<u8>> {
    let end = call_over(alloc, trial, cells, file, "resume")?;
    ensure!(end.status == 0, "resume: not done");
    copy(alloc, end.bench.cells())
}

/// The status of a command on a job that was left, on a new bench. Where it is 0, the job must be closed and the cells must be the wanted
/// ones. Otherwise the job must stay.
pub fn brought(
    alloc: Global,
    trial: &Trial,
    cells: &[u8],
    file: &[u8],
    command: &str,
    wanted: &[u8],
) -> Result<u8> {
    let end = call_over(alloc, trial, cells, file, command)?;
    let is_right = if end.status == 0 {
        end.bench.cells() == wanted && !is_open(end.bench.file())
    } else {
        end.bench.file() == file
    };
    ensure!(is_right, "a job at another end");
    Ok(end.status)
}
