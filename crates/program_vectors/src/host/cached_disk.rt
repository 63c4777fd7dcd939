//! Files of a host, in memory, with a cache in which changes wait.

use crate::host::cached_file::{CachedFile, Fate, Loss};
use disk_files::Disk;
use std::alloc::{AllocError, Global};
use std::io;
use std::io::ErrorKind;

/// A job file and a cells file with a cache, as an operating system has one: changes wait in it until they are synced. The power is lost
/// after `calls` calls. This disk doesn't tell its contents, since a loss may leave cells that `Disk` doesn't describe. It is for tests of
/// whole jobs.
#[derive(Drop)]
pub struct CachedDisk {
    alloc: Global,
    job: CachedFile,
    cells: CachedFile,
    // whether the entry of the job file in its folder is on the disk
    entry: bool,
    // how many calls go through
    calls: u64,
}

/// What is on the disk after the power was lost.
#[derive(Drop)]
pub struct Remains {
    pub job: Vec<u8>,
    pub cells: Vec<u8>,
}

impl CachedDisk {
    /// Files with these bytes, all of them on the disk. Only `calls` calls go through. Where the job file has no bytes, it doesn't exist
    /// until its first call makes it.
    pub fn new(
        alloc: Global,
        job: &[u8],
        cells: &[u8],
        calls: u64,
    ) -> Result<CachedDisk, AllocError> {
        Ok(CachedDisk {
            alloc,
            job: CachedFile::new(alloc, job)?,
            cells: CachedFile::new(alloc, cells)?,
            entry: !job.is_empty(),
            calls,
        })
    }

    /// Begins a new run with the same files, after a run that was killed. From now on only `calls` calls go through.
    pub fn begin_again(self, calls: u64) -> CachedDisk {
        let CachedDisk {
            alloc,
            job,
            cells,
            entry,
            calls: _,
        } = self;
        CachedDisk {
            alloc,
            job,
            cells,
            entry,
            calls,
        }
    }

    /// The bytes of the job file, as a read gives them.
    pub fn job(&self) -> &[u8] {
        self.job.bytes()
    }

    /// The cells, as a read gives them.
    pub fn cells(&self) -> &[u8] {
        self.cells.bytes()
    }

    /// Loses the power. A job file whose entry isn't on the disk is lost if the fate of the first change is `Absent`.
    pub fn lose(self, loss: Loss) -> Result<Remains, AllocError> {
        let CachedDisk {
            alloc,
            job,
            cells,
            entry,
            calls: _,
        } = self;
        let job = if entry || loss.first != Fate::Absent {
            job.lose(loss)?
        } else {
            Vec::new(alloc)
        };
        Ok(Remains {
            job,
            cells: cells.lose(loss)?,
        })
    }

    /// Counts a call, which fails once the power is lost.
    fn pass(&mut self) -> io::Result<()> {
        if self.calls == 0 {
            return Err(io::Error::from(ErrorKind::Other));
        }
        self.calls -= 1;
        Ok(())
    }
}

impl Disk for CachedDisk {
    ghost use Rattle.std.specs.Prelude.{false};
    ghost use Rattle.bench_model.specs.Untold.{untold_law};
    ghost use Rattle.disk_files.specs.Untold.{untold_disk};

    ghost tells = { false };

    ghost state = { λ disk. untold_disk };

    ghost as_read = { λ disk told. untold_law told };

    ghost as_told = { λ disk cells told. untold_law told };

    ghost bytes = { λ disk told. untold_law told };

    ghost outside = { λ disk told. untold_law told };

    ghost inside = { λ disk told. untold_law told };

    ghost few_signals = { λ disk told. untold_law told };

    fn job_open(&mut self) -> io::Result<()> {
        self.pass()
    }

    fn folder_sync(&mut self) -> io::Result<()> {
        self.pass()?;
        self.entry = true;
        Ok(())
    }

    fn job_len(&mut self) -> io::Result<u64> {
        self.pass()?;
        Ok(self.job.bytes().len() as u64)
    }

    fn job_read_at(&mut self, at: u64, out: &mut [u8]) -> io::Result<usize> {
        self.pass()?;
        Ok(self.job.read(at as usize, out))
    }

    fn job_write_at(&mut self, at: u64, bytes: &[u8]) -> io::Result<usize> {
        self.pass()?;
        self.job.write(self.alloc, at as usize, bytes)?;
        Ok(bytes.len())
    }

    fn job_set_len(&mut self, len: u64) -> io::Result<()> {
        self.pass()?;
        self.job.cut(len as usize)?;
        Ok(())
    }

    fn job_sync(&mut self) -> io::Result<()> {
        self.pass()?;
        self.job.sync(self.alloc)?;
        Ok(())
    }

    fn cells_sync(&mut self) -> io::Result<()> {
        self.pass()?;
        self.cells.sync(self.alloc)?;
        Ok(())
    }

    fn cells_read_at(&mut self, at: u64, out: &mut [u8]) -> io::Result<usize> {
        self.pass()?;
        Ok(self.cells.read(at as usize, out))
    }

    fn cells_write_at(&mut self, at: u64, bytes: &[u8]) -> io::Result<usize> {
        self.pass()?;
        self.cells.write(self.alloc, at as usize, bytes)?;
        Ok(bytes.len())
    }

    fn open_range(&mut self, _at: u32, _len: u32) -> io::Result<()> {
        Ok(())
    }

    fn close_range(&mut self) -> io::Result<()> {
        Ok(())
    }

    fn break_range(&mut self) -> io::Result<()> {
        Ok(())
    }
}
