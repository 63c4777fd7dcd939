//! A job file that is only read.

use disk_files::Disk;
use octets::Word;
use std::fs::{File, TryLockError};
use std::io::ErrorKind;
use std::os::unix::fs::FileExt;
use std::{fs, io};

/// A job file that is opened only for reading, without cells. Contracts see nothing of it. Calls that would change a file fail, and a sync
/// has nothing to do.
#[derive(Drop)]
pub struct ReadDisk {
    rt: HostRuntime,
    name: Word,
    file: Option<File>,
}

impl ReadDisk {
    /// The job file of this name, not opened yet.
    pub fn new(rt: HostRuntime, name: Word) -> ReadDisk {
        ReadDisk {
            rt,
            name,
            file: None,
        }
    }

    /// The file, if it is open.
    fn opened(&self) -> io::Result<&File> {
        match &self.file {
            Some(file) => Ok(file),
            None => Err(io::Error::from(ErrorKind::NotFound)),
        }
    }
}

/// Opens a file that no other program writes. A file that isn't plain, such as a folder or a pipe, is an error. On a file system without
/// locks the file is read without one.
fn open_shared(rt: HostRuntime, name: &str) -> io::Result<File> {
    if !fs::metadata(&rt, name)?.is_file() {
        return Err(io::Error::from(ErrorKind::InvalidInput));
    }
    let file = File::open(&rt, name)?;
    match file.try_lock_shared() {
        Ok(()) | Err(TryLockError::Error(_)) => Ok(file),
        Err(TryLockError::WouldBlock) => Err(io::Error::from(ErrorKind::WouldBlock)),
    }
}

impl Disk for ReadDisk {
    ghost use Rattle.std.specs.Prelude.{false};
    ghost use Rattle.bench_model.specs.Untold.{untold_law};
    ghost use Rattle.disk_files.specs.Untold.{untold_disk};

    ghost tells = { false };

    ghost state = { λ disk. untold_disk };

    ghost as_read = { λ disk told. untold_law told };

    ghost as_told = { λ disk cells told. untold_law told };

    ghost outside = { λ disk told. untold_law told };

    ghost inside = { λ disk told. untold_law told };

    ghost bytes = { λ disk told. untold_law told };

    ghost few_signals = { λ disk told. untold_law told };

    fn job_open(&mut self) -> io::Result<()> {
        if self.file.is_none() {
            self.file = Some(open_shared(self.rt, self.name.text())?);
        }
        Ok(())
    }

    fn folder_sync(&mut self) -> io::Result<()> {
        Ok(())
    }

    fn job_len(&mut self) -> io::Result<u64> {
        Ok(self.opened()?.metadata()?.len())
    }

    fn job_read_at(&mut self, at: u64, out: &mut [u8]) -> io::Result<usize> {
        self.opened()?.read_at(out, at)
    }

    fn job_write_at(&mut self, _at: u64, _bytes: &[u8]) -> io::Result<usize> {
        Err(io::Error::from(ErrorKind::PermissionDenied))
    }

    fn job_set_len(&mut self, _len: u64) -> io::Result<()> {
        Err(io::Error::from(ErrorKind::PermissionDenied))
    }

    fn job_sync(&mut self) -> io::Result<()> {
        Ok(())
    }

    fn cells_sync(&mut self) -> io::Result<()> {
        Ok(())
    }

    fn cells_read_at(&mut self, _at: u64, _out: &mut [u8]) -> io::Result<usize> {
        Err(io::Error::from(ErrorKind::NotFound))
    }

    fn cells_write_at(&mut self, _at: u64, _bytes: &[u8]) -> io::Result<usize> {
        Err(io::Error::from(ErrorKind::NotFound))
    }

    fn open_range(&mut self, _at: u32, _len: u32) -> io::Result<()> {
        Err(io::Error::from(ErrorKind::NotFound))
    }

    fn close_range(&mut self) -> io::Result<()> {
        Ok(())
    }

    fn break_range(&mut self) -> io::Result<()> {
        Ok(())
    }
}
