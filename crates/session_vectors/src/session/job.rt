//! Benches with jobs.

use anyhow::{Result, bail};
use bench_model::MemoryBench;
use row_text::{all_bytes, counted_bytes, number};
use std::alloc::Global;
use std::fs;

/// The address of the first cell.
const BASE: u32 = 0x0800_0000;

/// The most cells that a bench has here.
const MOST: usize = 1 << 16;

/// A job: the text of its board, its FLM file, the one run of its image, and its snapshot.
#[derive(Drop)]
pub struct Job {
    pub board: Vec<u8>,
    pub flm: Vec<u8>,
    pub at: u32,
    pub image: Vec<u8>,
    pub cells: Vec<u8>,
}

/// Appends a length.
fn put_length(file: &mut Vec<u8>, len: usize) -> Result<()> {
    if len > 65536 {
        bail!("too long");
    }
    file.extend_from_slice(&(len as u32).to_le_bytes())?;
    Ok(())
}

/// Writes an image over cells, from a place on.
fn lay(cells: &mut [u8], from: usize, image: &[u8]) -> Result<()> {
    for (offset, byte) in image.iter().enumerate() {
        match cells.get_mut(from.wrapping_add(offset)) {
            Some(cell) => *cell = *byte,
            None => bail!("the image goes past the cells"),
        }
    }
    Ok(())
}

impl Job {
    /// A job of nothing.
    pub fn empty(alloc: Global) -> Job {
        Job {
            board: Vec::new(alloc),
            flm: Vec::new(alloc),
            at: 0,
            image: Vec::new(alloc),
            cells: Vec::new(alloc),
        }
    }

    /// The job that some words name: its board, its FLM file, an address with the bytes to put there, and its cells.
    pub fn read(rt: &HostRuntime, words: &[&str]) -> Result<Job> {
        let mut job = Job::empty(rt.alloc());
        job.fill(rt, words)?;
        Ok(job)
    }

    /// Reads the job from some words.
    fn fill(&mut self, rt: &HostRuntime, words: &[&str]) -> Result<()> {
        let [board, flm, at, image, cells @ ..] = words else {
            bail!("no job");
        };
        self.board = fs::read(rt, *board)?;
        self.flm = fs::read(rt, *flm)?;
        self.at = number(at)?;
        self.image = counted_bytes(rt.alloc(), image)?;
        self.cells = all_bytes(rt.alloc(), cells)?;
        Ok(())
    }

    /// Appends the job's lengths and texts.
    fn put_texts(&self, file: &mut Vec<u8>) -> Result<()> {
        for len in [self.board.len(), self.flm.len(), 1, self.cells.len()] {
            put_length(file, len)?;
        }
        file.extend_from_slice(&self.board)?;
        file.extend_from_slice(&self.flm)?;
        Ok(())
    }

    /// Appends the job's run and snapshot.
    fn put_bytes(&self, file: &mut Vec<u8>) -> Result<()> {
        file.extend_from_slice(&self.at.to_le_bytes())?;
        put_length(file, self.image.len())?;
        file.extend_from_slice(&self.image)?;
        file.extend_from_slice(&self.cells)?;
        Ok(())
    }

    /// The file that stands for the job.
    pub fn file(&self, rt: &HostRuntime) -> Result<Vec<u8>> {
        let mut file = Vec::from_slice(rt.alloc(), b"\xA5FLMJOB1")?;
        self.put_texts(&mut file)?;
        self.put_bytes(&mut file)?;
        Ok(file)
    }

    /// A bench whose file stands for the job, and whose cells are its snapshot. The cell call of number `fail` fails.
    pub fn bench(&self, rt: &HostRuntime, fail: u64) -> Result<MemoryBench> {
        let room = 1 << 20;
        let file = self.file(rt)?;
        let bench = MemoryBench::new(
            rt.alloc(),
            &self.cells[..self.cells.len().min(MOST)],
            &file,
            room,
            room,
            &[],
            &[fail],
            &[0x5A],
        )?;
        Ok(bench)
    }

    /// The cells of the job with its image over them.
    pub fn goal(&self, rt: &HostRuntime) -> Result<Vec<u8>> {
        let mut goal = Vec::from_slice(rt.alloc(), &self.cells)?;
        let from = self.at.wrapping_sub(BASE) as usize;
        lay(&mut goal, from, &self.image)?;
        Ok(goal)
    }
}
