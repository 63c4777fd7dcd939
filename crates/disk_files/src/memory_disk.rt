//! A disk in memory, over a bench.
ghost use Rattle.std.specs.Prelude.{◌≡◌, ◌≤◌, ◌+◌, ◌<◌, IsTrue, vec_len, false, true, None};
ghost use Rattle.std.specs.Option.{ForSome};
ghost use Rattle.disk_files.specs.DiskDoes.{ClosesRange};
ghost use Rattle.disk_files.specs.DiskState.{disk_over};
ghost use Rattle.disk_files.specs.Fails.{CallEnds};
ghost use Rattle.disk_files.specs.Memory.{DiffersInside};

use crate::Disk;
use crate::lay::settle;
use bench_model::Bench;
use faults::FaultCount;
use std::io;
use std::io::ErrorKind;

/// A disk with the job file and the cells of a bench. Contracts see its contents where they see those of the bench.
///
/// The cells are written in the bench when a range is closed. Until then the written bytes are kept apart.
#[derive(Drop)]
pub struct MemoryDisk<B: Bench> {
    bench: B,
    // what a read of the cells gives
    bytes: Vec<u8>,
    operation: Option<(u32, u32)>,
    entry: bool,
    unsynced: bool,
    earlier: bool,
    errors: FaultCount,
    file_whole: bool,
    ghost same: { IsTrue B.tells → (B.state bench).operation ≡ operation },
    ghost apart: { IsTrue B.tells → DiffersInside operation (B.state bench).cells bytes.items },
    ghost long: { vec_len bytes ≡ (B.state bench).cell_count },
    ghost fits: { ForSome operation (λ range. range.0 + range.1 ≤ vec_len bytes) },
}

impl<B: Bench> MemoryDisk<B> {
    /// The disk of a bench with these cells, with no open operation. The entry of its job file isn't on the disk, and an
    /// earlier run may have left unsynced cells.
    pub fn new(bench: B, bytes: Vec<u8>) -> MemoryDisk<B>
        requires count { vec_len bytes ≡ (B.state bench).cell_count }
        requires cells { IsTrue B.tells → bytes.items ≡ (B.state bench).cells }
        requires idle { IsTrue B.tells → (B.state bench).operation ≡ None }
        ensures bench { result.bench ≡ bench }
        ensures bytes { result.bytes ≡ bytes }
        ensures operation { result.operation ≡ None }
        ensures entry { result.entry ≡ false }
        ensures unsynced { result.unsynced ≡ true }
        ensures earlier { result.earlier ≡ true }
        ensures errors { result.errors ≡ 0 }
        ensures whole { result.file_whole ≡ true }
    {
        MemoryDisk {
            bench,
            bytes,
            operation: None,
            entry: false,
            unsynced: true,
            earlier: true,
            errors: FaultCount::new(),
            file_whole: true,
        }
    }

    /// Writes the bytes of an open range into the bench.
    fn end_range(&mut self) -> io::Result<()>
        ensures does { ClosesRange B.tells (disk_over (B.state self.old.bench) self.old.entry self.old.bytes.items self.old.unsynced self.old.earlier
            self.old.errors self.old.file_whole)
            (disk_over (B.state self.new.bench) self.new.entry self.new.bytes.items self.new.unsynced self.new.earlier self.new.errors self.new.file_whole)
            result }
        ensures fails { CallEnds (disk_over (B.state self.old.bench) self.old.entry self.old.bytes.items self.old.unsynced self.old.earlier
            self.old.errors self.old.file_whole)
            (disk_over (B.state self.new.bench) self.new.entry self.new.bytes.items self.new.unsynced self.new.earlier self.new.errors self.new.file_whole)
            result }
    {
        let Some((at, len)) = self.operation else {
            return Ok(());
        };
        let from = at as usize;
        let to = from + len as usize;
        match self.bench.cells_settle(&self.bytes[from..to]) {
            Ok(()) => {
                self.operation = None;
                Ok(())
            }
            Err(_) => {
                self.errors.raise();
                Err(io::Error::from(ErrorKind::Other))
            }
        }
    }
}

impl<B: Bench + Drop> Disk for MemoryDisk<B> {
    ghost use Rattle.disk_files.specs.DiskState.{disk_over};
    ghost use Rattle.disk_files.specs.Laws.{disk_inside, no_signals};
    ghost use Rattle.disk_files.specs.Memory.{same_outside};

    ghost tells = { B.tells };

    ghost state = { λ d. disk_over (B.state d.bench) d.entry d.bytes.items d.unsynced d.earlier d.errors d.file_whole };

    ghost as_read = { λ d told. B.as_read d.bench told };

    ghost as_told = { λ d cells told. B.as_told d.bench cells told };

    ghost bytes = { λ d told. B.bytes d.bench told };

    ghost outside = { λ d told. same_outside (d.same told) (d.apart told) };

    ghost few_signals = { λ d told. no_signals };

    ghost inside = { λ d told. disk_inside (B.state d.bench).cells (B.inside d.bench told) (B.all_told d.bench told) };

    fn job_open(&mut self) -> io::Result<()> {
        Ok(())
    }

    fn folder_sync(&mut self) -> io::Result<()> {
        self.entry = true;
        Ok(())
    }

    fn job_len(&mut self) -> io::Result<u64> {
        match self.bench.file_len() {
            Ok(len) => Ok(len),
            Err(_) => {
                self.errors.raise();
                Err(io::Error::from(ErrorKind::Other))
            }
        }
    }

    fn job_read_at(&mut self, at: u64, out: &mut [u8]) -> io::Result<usize> {
        let wanted = out.len() as u64;
        match self.bench.file_len() {
            Ok(len) if wanted <= len && at <= len - wanted => {}
            Ok(_) => {
                self.errors.raise();
                return Ok(0);
            }
            Err(_) => {
                self.errors.raise();
                return Err(io::Error::from(ErrorKind::Other));
            }
        }
        match self.bench.file_read(at, out) {
            Ok(()) => Ok(out.len()),
            Err(_) => {
                self.errors.raise();
                Err(io::Error::from(ErrorKind::Other))
            }
        }
    }

    fn job_write_at(&mut self, at: u64, bytes: &[u8]) -> io::Result<usize> {
        match self.bench.file_write(at, bytes) {
            Ok(()) => Ok(bytes.len()),
            Err(_) => {
                self.errors.raise();
                Err(io::Error::from(ErrorKind::Other))
            }
        }
    }

    fn job_set_len(&mut self, len: u64) -> io::Result<()> {
        match self.bench.file_cut(len) {
            Ok(()) => Ok(()),
            Err(_) => {
                self.errors.raise();
                Err(io::Error::from(ErrorKind::Other))
            }
        }
    }

    fn job_sync(&mut self) -> io::Result<()> {
        match self.bench.file_sync() {
            Ok(()) => Ok(()),
            Err(_) => {
                self.file_whole = false;
                self.errors.raise();
                Err(io::Error::from(ErrorKind::Other))
            }
        }
    }

    fn cells_sync(&mut self) -> io::Result<()> {
        self.unsynced = false;
        self.earlier = false;
        Ok(())
    }

    fn cells_read_at(&mut self, at: u64, out: &mut [u8]) -> io::Result<usize> {
        let len = self.bytes.len();
        let from = at as usize;
        if from >= len {
            self.errors.raise();
            return Ok(0);
        }
        let count = out.len().min(len - from);
        out[..count].copy_from_slice(&self.bytes[from..from + count]);
        Ok(count)
    }

    fn cells_write_at(&mut self, at: u64, bytes: &[u8]) -> io::Result<usize> {
        let len = self.bytes.len();
        let from = at as usize;
        if self.operation.is_none() || bytes.len() > len || from > len - bytes.len() {
            self.errors.raise();
            return Err(io::Error::from(ErrorKind::InvalidInput));
        }
        self.unsynced = true;
        settle(&mut self.bytes, from, bytes);
        Ok(bytes.len())
    }

    fn open_range(&mut self, at: u32, len: u32) -> io::Result<()> {
        let count = self.bench.cells_len();
        if len > count || at > count - len {
            self.errors.raise();
            return Err(io::Error::from(ErrorKind::InvalidInput));
        }
        match self.bench.cells_open(at, len) {
            Ok(()) => {
                self.operation = Some((at, len));
                Ok(())
            }
            Err(_) => {
                self.operation = None;
                self.errors.raise();
                Err(io::Error::from(ErrorKind::Other))
            }
        }
    }

    fn close_range(&mut self) -> io::Result<()> {
        self.end_range()
    }

    fn break_range(&mut self) -> io::Result<()> {
        self.end_range()
    }
}
