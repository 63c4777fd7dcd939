//! Cells that are read through a window.
ghost use Rattle.std.specs.Prelude.{◌≡◌, ◌+◌, vec_len, IsTrue};
ghost use Rattle.disk_files.specs.DiskDoes.{ReadsBytes};
ghost use Rattle.disk_files.specs.Fails.{CallMoves};
ghost use Rattle.disk_files.specs.Window.{IsCopy};

use crate::Disk;
use crate::window::{WINDOW, Window};
use std::alloc::Global;
use std::io;

/// A disk whose cells are read through a window of those that were read last, so that few loads of single cells call the system. Each
/// write goes to the disk at once. The window is dropped if a call on the cells fails, at each break-off and at each sync.
#[derive(Drop)]
pub struct WindowedDisk<F: Disk> {
    disk: F,
    window: Window,
    ghost copy: { IsTrue F.tells → IsCopy window.at window.len window.bytes.items (F.state disk).bytes },
}

impl<F: Disk> WindowedDisk<F> {
    /// This disk, with a window that has no cells.
    pub fn new(alloc: Global, disk: F) -> WindowedDisk<F>
        ensures { result.disk ≡ disk }
    {
        WindowedDisk {
            disk,
            window: Window::new(alloc),
        }
    }

    /// Gives the disk back.
    pub fn into_disk(self) -> F
        ensures { result ≡ self.disk }
    {
        let WindowedDisk { disk, window: _ } = self;
        disk
    }

    /// Reads ahead, once. The window then has the cells round the place `at`, with `count` of them from there on if they fit in, as far as
    /// the disk gives them.
    fn fill(&mut self, at: u64, count: usize) -> io::Result<usize>
        ensures reads { ReadsBytes F.tells (F.state self.old.disk) (F.state self.new.disk) }
        ensures fails { IsTrue F.tells → CallMoves (F.state self.old.disk) (F.state self.new.disk) (vec_len self.old.window.bytes) result }
    {
        let skip = at % WINDOW as u64;
        let from = if count > WINDOW - skip as usize {
            at
        } else {
            at - skip
        };
        self.window.clear();
        let len = self.disk.cells_read_at(from, &mut self.window.bytes)?;
        self.window.at = from;
        self.window.len = len;
        Ok(len)
    }
}

impl<F: Disk + Drop> Disk for WindowedDisk<F> {
    ghost tells = { F.tells };

    ghost state = { λ d. F.state d.disk };

    ghost as_read = { λ d told. F.as_read d.disk told };

    ghost as_told = { λ d cells told. F.as_told d.disk cells told };

    ghost bytes = { λ d told. F.bytes d.disk told };

    ghost outside = { λ d told. F.outside d.disk told };

    ghost inside = { λ d told. F.inside d.disk told };

    ghost few_signals = { λ d told. F.few_signals d.disk told };

    fn job_open(&mut self) -> io::Result<()> {
        self.disk.job_open()
    }

    fn folder_sync(&mut self) -> io::Result<()> {
        self.disk.folder_sync()
    }

    fn job_len(&mut self) -> io::Result<u64> {
        self.disk.job_len()
    }

    fn job_read_at(&mut self, at: u64, out: &mut [u8]) -> io::Result<usize> {
        self.disk.job_read_at(at, out)
    }

    fn job_write_at(&mut self, at: u64, bytes: &[u8]) -> io::Result<usize> {
        self.disk.job_write_at(at, bytes)
    }

    fn job_set_len(&mut self, len: u64) -> io::Result<()> {
        self.disk.job_set_len(len)
    }

    fn job_sync(&mut self) -> io::Result<()> {
        self.disk.job_sync()
    }

    fn cells_sync(&mut self) -> io::Result<()> {
        self.window.clear();
        self.disk.cells_sync()
    }

    fn cells_read_at(&mut self, at: u64, out: &mut [u8]) -> io::Result<usize> {
        if self.window.copy(at, out) {
            return Ok(out.len());
        }
        if out.len() <= self.window.bytes.len() {
            if self.fill(at, out.len())? == 0 {
                return Ok(0);
            }
            if self.window.copy(at, out) {
                return Ok(out.len());
            }
        }
        match self.disk.cells_read_at(at, out) {
            Ok(count) if count == out.len() => Ok(count),
            answer => {
                self.window.clear();
                answer
            }
        }
    }

    #[inline(always)]
    fn cells_at_hand(&self, at: u64, out: &mut [u8]) -> bool {
        self.window.copy(at, out)
    }

    fn cells_write_at(&mut self, at: u64, bytes: &[u8]) -> io::Result<usize> {
        match self.disk.cells_write_at(at, bytes) {
            Ok(count) if count == bytes.len() => {
                self.window.follow(at, bytes);
                Ok(count)
            }
            answer => {
                self.window.clear();
                answer
            }
        }
    }

    fn open_range(&mut self, at: u32, len: u32) -> io::Result<()> {
        let answer = self.disk.open_range(at, len);
        if answer.is_err() {
            self.window.clear();
        }
        answer
    }

    fn close_range(&mut self) -> io::Result<()> {
        self.disk.close_range()
    }

    fn break_range(&mut self) -> io::Result<()> {
        self.window.clear();
        self.disk.break_range()
    }
}
