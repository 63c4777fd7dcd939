//! Targets that share their time.

use crate::gang::call::call;
use crate::gang::job::Job;
use crate::output::put_line;
use anyhow::{Result, ensure};
use bench_model::{Bench, DeviceFault, MemoryBench, StoreFault};
use std::cell::Cell;

/// A bench that passes every call on. At the first operation on its cells it adds 1 to a number. It notes that number at each write of its
/// file. The last write closes the job.
#[derive(Drop)]
struct Noting<'a, B> {
    inner: B,
    begun: &'a Cell<u32>,
    has_begun: bool,
    noted: u32,
}

impl<'a, B> Noting<'a, B> {
    /// A noting bench over this bench.
    fn new(inner: B, begun: &'a Cell<u32>) -> Noting<'a, B> {
        Noting {
            inner,
            begun,
            has_begun: false,
            noted: 0,
        }
    }
}

impl<'a, B: Bench> Bench for Noting<'a, B> {
    ghost tells = { B.tells };

    ghost state = { λ w. B.state w.inner };

    ghost acts = { λ before act after. B.acts before.inner act after.inner };

    ghost as_read = { λ w told. B.as_read w.inner told };

    ghost as_told = { λ w cells told. B.as_told w.inner cells told };

    ghost all_told = { λ w told. B.all_told w.inner told };

    ghost bytes = { λ w told. B.bytes w.inner told };

    ghost few = { λ w. B.few w.inner };

    ghost inside = { λ w told. B.inside w.inner told };

    fn file_len(&mut self) -> Result<u64, StoreFault> {
        self.inner.file_len()
    }

    fn file_read(&mut self, at: u64, out: &mut [u8]) -> Result<(), StoreFault> {
        self.inner.file_read(at, out)
    }

    fn file_write(&mut self, at: u64, bytes: &[u8]) -> Result<(), StoreFault> {
        self.noted = self.begun.get();
        self.inner.file_write(at, bytes)
    }

    fn file_cut(&mut self, len: u64) -> Result<(), StoreFault> {
        self.inner.file_cut(len)
    }

    fn file_sync(&mut self) -> Result<(), StoreFault> {
        self.inner.file_sync()
    }

    fn cells_len(&self) -> u32 {
        self.inner.cells_len()
    }

    fn cells_read(&mut self, at: u32, out: &mut [u8]) -> Result<(), DeviceFault> {
        self.inner.cells_read(at, out)
    }

    fn cells_open(&mut self, at: u32, len: u32) -> Result<(), DeviceFault> {
        if !self.has_begun {
            self.has_begun = true;
            self.begun.set(self.begun.get().wrapping_add(1));
        }
        self.inner.cells_open(at, len)
    }

    fn cells_settle(&mut self, bytes: &[u8]) -> Result<(), DeviceFault> {
        self.inner.cells_settle(bytes)
    }

    fn cells_settle_fill(&mut self, value: u8) -> Result<(), DeviceFault> {
        self.inner.cells_settle_fill(value)
    }

    fn cells_drop(&mut self) -> Result<(), DeviceFault> {
        self.inner.cells_drop()
    }
}

/// Calls a gang on two benches, and checks that both had begun when the last write of each file was made.
fn call_two(rt: &HostRuntime, benches: &mut [Noting<'_, MemoryBench>]) -> Result<()> {
    let _status = call(rt, 4, 0, benches)?;
    for bench in benches.iter() {
        ensure!(bench.noted == 2, "closed when {} had begun", bench.noted);
    }
    put_line(rt, "both have begun when either is closed")
}

/// Calls a gang on two benches with this job. Each job begins before either is closed.
pub fn share_turns(rt: &HostRuntime, job: &Job) -> Result<()> {
    let begun = Cell::new(0);
    let first = Noting::new(job.bench(rt.alloc())?, &begun);
    let mut benches = [first, Noting::new(job.bench(rt.alloc())?, &begun)];
    call_two(rt, &mut benches)
}
