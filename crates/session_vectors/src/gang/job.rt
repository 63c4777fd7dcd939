//! Begun jobs.

use crate::session::job::Job as Texts;
use anyhow::{Result, bail};
use bench_model::MemoryBench;
use row_text::{bytes_of, number};
use std::alloc::Global;
use std::fs;

/// How many cells the small board has.
const CELLS: usize = 1024;

/// The most cells that a bench has here.
const MOST: usize = 1 << 20;

/// A bench with the file of a begun job, and the cells that the job is to leave there. The cell call of number `fail` fails, or none at 0.
#[derive(Drop)]
pub struct Job {
    pub file: Vec<u8>,
    pub cells: Vec<u8>,
    pub goal: Vec<u8>,
    pub fail: u64,
}

/// Appends the cells of a device: the first `count` hold their place modulo 256, and the others FF.
fn put_cells(cells: &mut Vec<u8>, count: usize) -> Result<()> {
    for place in 0..CELLS {
        let cell = if place < count {
            (place % 256) as u8
        } else {
            0xFF
        };
        cells.push(cell)?;
    }
    Ok(())
}

/// Takes the texts of the small board, and what some words say: the FLM file, the address, the bytes to put there, and how many cells hold
/// their place.
fn fill(rt: &HostRuntime, texts: &mut Texts, words: &[&str]) -> Result<()> {
    let [flm, at, image, count] = words else {
        bail!("no job");
    };
    texts.board = fs::read(rt, "small.toml")?;
    texts.flm = fs::read(rt, *flm)?;
    texts.at = number(at)?;
    texts.image = bytes_of(rt.alloc(), image)?;
    put_cells(&mut texts.cells, count.parse::<usize>()?)
}

impl Job {
    /// The job that some words describe: its FLM file, an address, the bytes to put there, and how many cells hold their place.
    pub fn read(rt: &HostRuntime, words: &[&str]) -> Result<Job> {
        let mut texts = Texts::empty(rt.alloc());
        fill(rt, &mut texts, words)?;
        Job::begun(rt, &texts)
    }

    /// The begun job of these texts, over its snapshot.
    fn begun(rt: &HostRuntime, texts: &Texts) -> Result<Job> {
        Ok(Job {
            file: texts.file(rt)?,
            cells: Vec::from_slice(rt.alloc(), &texts.cells)?,
            goal: texts.goal(rt)?,
            fail: 0,
        })
    }

    /// Sets `len` cells to a byte.
    pub fn tear(&mut self, value: u8, from: usize, len: usize) -> Result<()> {
        for cell in self.cells.iter_mut().skip(from).take(len) {
            *cell = value;
        }
        Ok(())
    }

    /// Makes the job's file one that is no job.
    pub fn spoil(&mut self, alloc: Global) -> Result<()> {
        self.file = Vec::from_slice(alloc, b"no job")?;
        Ok(())
    }

    /// The job as a bench holds it. None of its calls fails.
    pub fn left(&self, alloc: Global, bench: &MemoryBench) -> Result<Job> {
        Ok(Job {
            file: Vec::from_slice(alloc, bench.file())?,
            cells: Vec::from_slice(alloc, bench.cells())?,
            goal: Vec::from_slice(alloc, &self.goal)?,
            fail: 0,
        })
    }

    /// A bench that holds the job. An operation that is broken off leaves 5A, and the next one 33.
    pub fn bench(&self, alloc: Global) -> Result<MemoryBench> {
        let cells = &self.cells[..self.cells.len().min(MOST)];
        let room = 1 << 18;
        let garbage = [0x5A, 0x33];
        Ok(MemoryBench::new(
            alloc,
            cells,
            &self.file,
            room,
            room,
            &[],
            &[self.fail],
            &garbage,
        )?)
    }
}
