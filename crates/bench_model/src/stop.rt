//! A bench that stops: a given number of calls goes through, and each later one fails.
ghost use Rattle.std.specs.Prelude.{◌≡◌};
ghost use Rattle.bench_model.specs.Stopped.{stopped, IsSameBench, IsSameButFaults};

use crate::{Bench, DeviceFault, StoreFault};
use faults::FaultCount;

/// A bench around another one. It passes on the first `calls` calls that can fail. Each later one fails, with its fault counted, and
/// doesn't reach the inner bench.
#[derive(Drop)]
pub struct StopBench<B> {
    inner: B,
    calls: u64,
    store_faults: FaultCount,
    device_faults: FaultCount,
}

impl<B: Bench> StopBench<B> {
    /// Passes on the first `calls` calls that can fail.
    pub fn new(inner: B, calls: u64) -> StopBench<B>
        ensures same { IsSameBench (B.state inner) (stopped B.state result) }
        ensures inner { result.inner ≡ inner }
        ensures calls { result.calls ≡ calls }
    {
        StopBench {
            inner,
            calls,
            store_faults: FaultCount::new(),
            device_faults: FaultCount::new(),
        }
    }

    /// Gives the inner bench back, with its own counts of faults.
    pub fn into_inner(self) -> B
        ensures inner { result ≡ self.inner }
        ensures same { IsSameButFaults (stopped B.state self) (B.state result) }
    {
        let StopBench {
            inner,
            calls: _,
            store_faults: _,
            device_faults: _,
        } = self;
        inner
    }
}

impl<B: Bench> Bench for StopBench<B> {
    ghost use Rattle.bench_model.specs.Stopped.{StopActs};

    ghost tells = { B.tells };

    ghost state = { λ s. stopped B.state s };

    ghost acts = { StopActs B.acts };

    ghost as_read = { λ s told. B.as_read s.inner told };

    ghost as_told = { λ s cells told. B.as_told s.inner cells told };

    ghost all_told = { λ s told. B.all_told s.inner told };

    ghost bytes = { λ s told. B.bytes s.inner told };

    ghost few = { λ s. B.few s.inner };

    ghost inside = { λ s told. B.inside s.inner told };

    fn cells_len(&self) -> u32 {
        self.inner.cells_len()
    }

    fn file_len(&mut self) -> Result<u64, StoreFault> {
        if self.calls == 0 {
            self.store_faults.raise();
            return Err(StoreFault);
        }
        self.calls -= 1;
        self.inner.file_len()
    }

    fn file_read(&mut self, at: u64, out: &mut [u8]) -> Result<(), StoreFault> {
        if self.calls == 0 {
            self.store_faults.raise();
            return Err(StoreFault);
        }
        self.calls -= 1;
        self.inner.file_read(at, out)
    }

    fn file_write(&mut self, at: u64, bytes: &[u8]) -> Result<(), StoreFault> {
        if self.calls == 0 {
            self.store_faults.raise();
            return Err(StoreFault);
        }
        self.calls -= 1;
        self.inner.file_write(at, bytes)
    }

    fn file_cut(&mut self, len: u64) -> Result<(), StoreFault> {
        if self.calls == 0 {
            self.store_faults.raise();
            return Err(StoreFault);
        }
        self.calls -= 1;
        self.inner.file_cut(len)
    }

    fn file_sync(&mut self) -> Result<(), StoreFault> {
        if self.calls == 0 {
            self.store_faults.raise();
            return Err(StoreFault);
        }
        self.calls -= 1;
        self.inner.file_sync()
    }

    fn cells_read(&mut self, at: u32, out: &mut [u8]) -> Result<(), DeviceFault> {
        if self.calls == 0 {
            self.device_faults.raise();
            return Err(DeviceFault);
        }
        self.calls -= 1;
        self.inner.cells_read(at, out)
    }

    fn cells_open(&mut self, at: u32, len: u32) -> Result<(), DeviceFault> {
        if self.calls == 0 {
            self.device_faults.raise();
            return Err(DeviceFault);
        }
        self.calls -= 1;
        self.inner.cells_open(at, len)
    }

    fn cells_settle(&mut self, bytes: &[u8]) -> Result<(), DeviceFault> {
        if self.calls == 0 {
            self.device_faults.raise();
            return Err(DeviceFault);
        }
        self.calls -= 1;
        self.inner.cells_settle(bytes)
    }

    fn cells_settle_fill(&mut self, value: u8) -> Result<(), DeviceFault> {
        if self.calls == 0 {
            self.device_faults.raise();
            return Err(DeviceFault);
        }
        self.calls -= 1;
        self.inner.cells_settle_fill(value)
    }

    fn cells_drop(&mut self) -> Result<(), DeviceFault> {
        if self.calls == 0 {
            self.device_faults.raise();
            return Err(DeviceFault);
        }
        self.calls -= 1;
        self.inner.cells_drop()
    }
}
