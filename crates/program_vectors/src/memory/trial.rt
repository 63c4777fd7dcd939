//! What a row begins with.
ghost use Rattle.std.specs.Prelude.{◌≡◌, IfOk, None};
ghost use Rattle.bench_model.specs.Shown.{bench_of};

use crate::memory::files::Files;
use anyhow::{Context, Result, bail};
use bench_model::{Bench, MemoryBench};
use std::alloc::Global;

/// The numbers of the calls that fail, from 1 on, and 0 for none. They count calls on the job file (two may fail), calls on the cells, puts
/// on standard output, puts on standard error, and files that are taken.
#[derive(Clone, Copy)]
pub struct Fails {
    pub files: [u64; 2],
    pub cell: u64,
    pub out: u64,
    pub err: u64,
    pub take: u64,
}

impl Fails {
    /// No call fails.
    pub fn none() -> Fails {
        Fails {
            files: [0, 0],
            cell: 0,
            out: 0,
            err: 0,
            take: 0,
        }
    }

    /// Lets the call of this number on an object fail. The object is the job file, the cells, standard output, standard error, or the files
    /// that are taken.
    pub fn set(&mut self, object: &str, number: u64) -> Result<()> {
        match object {
            "file" => self.files = [number, 0],
            "cells" => self.cell = number,
            "put" => self.out = number,
            "line" => self.err = number,
            "take" => self.take = number,
            _ => bail!("{object}: no such call"),
        }
        Ok(())
    }
}

/// What a row has: its files, the room for the job file and for the record of the calls, and the calls that fail. A bench begins with the
/// row's job file, cells and open operation.
#[derive(Drop)]
pub struct Trial {
    pub files: Files,
    pub room: u64,
    pub job: Vec<u8>,
    pub cells: Vec<u8>,
    pub open: Option<(u32, u32)>,
    pub fails: Fails,
}

/// The most cells: 64 MiB, the longest file that is taken.
pub const MOST: usize = 1 << 26;

/// The room for the job file, and for the record of the calls, unless more is asked for.
const ROOM: u64 = 1 << 18;

impl Trial {
    /// No files, no job, no cells.
    pub fn new(alloc: Global) -> Trial {
        Trial {
            files: Files::new(alloc),
            room: ROOM,
            job: Vec::new(alloc),
            cells: Vec::new(alloc),
            open: None,
            fails: Fails::none(),
        }
    }

    /// Begins a row: the files stay.
    pub fn begin(&mut self, alloc: Global) -> Result<()> {
        self.cells = vec![in alloc; 0xFF; 1024]?;
        self.job = Vec::new(alloc);
        self.open = None;
        self.fails = Fails::none();
        self.room = ROOM;
        Ok(())
    }

    /// Sets each cell of a range to its place modulo 256.
    pub fn count(&mut self, at: usize, len: usize) {
        for (place, cell) in self.cells.iter_mut().enumerate() {
            if place >= at && place - at < len {
                *cell = (place % 256) as u8;
            }
        }
    }

    /// Makes the file with a name the job file or the cells.
    pub fn take(&mut self, alloc: Global, object: &str, name: &str) -> Result<()> {
        let bytes = copy(alloc, self.files.bytes(name)?)?;
        match object {
            "job" => self.job = bytes,
            _ => self.cells = bytes,
        }
        Ok(())
    }

    /// Makes the row begin with these cells and this job file.
    pub fn begin_with(&mut self, alloc: Global, cells: &[u8], job: &[u8]) -> Result<()> {
        self.cells = copy(alloc, cells)?;
        self.job = copy(alloc, job)?;
        Ok(())
    }

    /// Changes the byte of the job file that is `back` places before its end.
    pub fn spoil(&mut self, back: usize) -> Result<()> {
        let place = self.job.len().checked_sub(back).context("no such byte")?;
        let byte = self.job.get_mut(place).context("no such byte")?;
        *byte = !*byte;
        Ok(())
    }

    /// A bench as the row begins.
    pub fn bench(&self, alloc: Global) -> Result<MemoryBench> {
        let mut bench = self.bench_with(alloc, &self.cells, &self.job, self.fails)?;
        if let Some((at, len)) = self.open {
            let end = u64::from(at) + u64::from(len);
            if len == 0
                || end > u64::from(bench.cells_len())
                || bench.cells_open(at, len).is_err()
            {
                bail!("no such operation");
            }
        }
        Ok(bench)
    }

    /// A bench with these cells and this job file, and no open operation. The first operation that is broken off leaves 5A.
    pub fn bench_with(
        &self,
        alloc: Global,
        cells: &[u8],
        job: &[u8],
        fails: Fails,
    ) -> Result<MemoryBench>
        ensures { IfOk result (λ bench. (bench_of bench).operation ≡ None) }
    {
        let cells = &cells[..cells.len().min(MOST)];
        Ok(MemoryBench::new(
            alloc,
            cells,
            job,
            self.room,
            self.room,
            &fails.files,
            &[fails.cell],
            &[0x5A],
        )?)
    }
}

/// A copy of bytes.
pub fn copy(alloc: Global, bytes: &[u8]) -> Result<Vec<u8>> {
    Ok(Vec::from_slice(alloc, bytes)?)
}
