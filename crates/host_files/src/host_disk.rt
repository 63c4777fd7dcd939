//! The files of this host.
ghost use Rattle.std.specs.Prelude.{◌≡◌};

use crate::cells_file::CellsFile;
use crate::job_file::JobFile;
use disk_files::Disk;
use std::io;

/// A job file and a cells file of the system. Contracts see nothing of their contents.
#[derive(Drop)]
pub struct HostDisk {
    job: JobFile,
    cells: CellsFile,
}

impl HostDisk {
    /// The files of a host.
    pub fn new(job: JobFile, cells: CellsFile) -> HostDisk
        ensures job { result.job ≡ job }
        ensures cells { result.cells ≡ cells }
    {
        HostDisk { job, cells }
    }
}

impl Disk for HostDisk {
    ghost use Rattle.std.specs.Prelude.{false};
    ghost use Rattle.bench_model.specs.Untold.{untold_law};
    ghost use Rattle.disk_files.specs.Untold.{untold_disk};

    ghost tells = { false };

    ghost state = { λ disk. untold_disk };

    ghost as_read = { λ disk told. untold_law told };

    ghost as_told = { λ disk cells told. untold_law told };

    ghost outside = { λ disk told. untold_law told };

    ghost inside = { λ disk told. untold_law told };

    ghost bytes = { λ disk told. untold_law told };

    ghost few_signals = { λ disk told. untold_law told };

    fn job_open(&mut self) -> io::Result<()> {
        self.job.open()
    }

    fn folder_sync(&mut self) -> io::Result<()> {
        self.job.sync_folder()
    }

    fn job_len(&mut self) -> io::Result<u64> {
        self.job.len()
    }

    fn job_read_at(&mut self, at: u64, out: &mut [u8]) -> io::Result<usize> {
        self.job.read_at(at, out)
    }

    // a job is changed only if its cells can be changed too; otherwise it would begin and then fail
    fn job_write_at(&mut self, at: u64, bytes: &[u8]) -> io::Result<usize> {
        self.cells.keep()?;
        self.job.write_at(at, bytes)
    }

    fn job_set_len(&mut self, len: u64) -> io::Result<()> {
        self.cells.keep()?;
        self.job.cut(len)
    }

    fn job_sync(&mut self) -> io::Result<()> {
        self.job.sync()
    }

    fn cells_sync(&mut self) -> io::Result<()> {
        self.cells.sync()
    }

    fn cells_read_at(&mut self, at: u64, out: &mut [u8]) -> io::Result<usize> {
        self.cells.read_at(at, out)
    }

    fn cells_write_at(&mut self, at: u64, bytes: &[u8]) -> io::Result<usize> {
        self.cells.write_at(at, bytes)
    }

    fn open_range(&mut self, _at: u32, _len: u32) -> io::Result<()> {
        self.cells.begin()
    }

    fn close_range(&mut self) -> io::Result<()> {
        Ok(())
    }

    fn break_range(&mut self) -> io::Result<()> {
        self.cells.break_off()
    }
}
