//! A bench that watches where operations are opened.
ghost use Rattle.std.specs.Prelude.{◌≡◌, ◌≤◌, ◌+◌, ◌↔◌, IsTrue};
ghost use Rattle.bench_model.specs.State.{cells_half};
ghost use Rattle.duty_trials.specs.Watched.{IsSeen};

use bench_model::{Bench, DeviceFault, MemoryBench, Pick, StoreFault};

/// A bench that keeps the last operation that wasn't within a range of the cells.
#[derive(Drop)]
pub(crate) struct Watch<B: Bench + Drop> {
    inner: B,
    from: u32,
    to: u32,
    /// The operation that is open.
    pub(crate) running: Option<(u32, u32)>,
    /// The last operation that wasn't within the range.
    pub(crate) outside: Option<(u32, u32)>,

    ghost tracks: { IsTrue B.tells → (B.state inner).operation ≡ running },
    ghost seen: { IsTrue B.tells → IsSeen outside (cells_half (B.state inner)) },
}

/// Whether an operation is within the range.
pub(crate) fn lies_in(from: u32, to: u32, at: u32, len: u32) -> bool
    ensures { IsTrue result ↔ (from ≤ at) × (at + len ≤ to) }
{
    from <= at && u64::from(at) + u64::from(len) <= u64::from(to)
}

#[tactic(auto, using(crate::proofs::WatchLemmas::seen_none))]
impl<B: Bench + Drop> Watch<B> {
    ghost use Rattle.std.specs.Prelude.{◌≡◌, None, IsTrue};

    /// Watches a bench with no open operation. The range is empty, so no operation is within it.
    pub(crate) fn new(inner: B) -> Watch<B>
        requires { IsTrue B.tells → (B.state inner).operation ≡ None }
        ensures { result.inner ≡ inner }
    {
        Watch {
            inner,
            from: 0,
            to: 0,
            running: None,
            outside: None,
        }
    }
}

#[tactic(auto, using(crate::proofs::WatchLemmas::seen_none))]
impl Watch<MemoryBench> {
    ghost use Rattle.std.specs.Prelude.{◌≡◌, None};
    ghost use Rattle.bench_model.specs.Shown.{bench_of};

    /// Forgets what was seen, and watches another range. No operation is open.
    pub(crate) fn renew(&mut self, from: u32, to: u32)
        requires { (bench_of self.old.inner).operation ≡ None }
        ensures cells { (bench_of self.new.inner).cells ≡ (bench_of self.old.inner).cells }
        ensures idle { (bench_of self.new.inner).operation ≡ None }
        ensures moment { (bench_of self.new.inner).moment ≡ 0 }
    {
        self.inner.power_loss(Pick::AsWritten);
        self.from = from;
        self.to = to;
        self.running = None;
        self.outside = None;
    }

    /// The cells of the bench.
    pub(crate) fn cells(&self) -> &[u8]
        ensures { result.now ≡ (bench_of self.now.inner).cells }
    {
        self.inner.cells()
    }
}

#[tactic(auto, using(crate::proofs::WatchLemmas::seen_later, crate::proofs::WatchLemmas::seen_none))]
impl<B: Bench + Drop> Bench for Watch<B> {
    ghost tells = { B.tells };

    ghost state = { λ w. B.state w.inner };

    ghost acts = { λ before act after. B.acts before.inner act after.inner };

    ghost as_read = { λ w told. B.as_read w.inner told };

    ghost as_told = { λ w cells told. B.as_told w.inner cells told };

    ghost all_told = { λ w told. B.all_told w.inner told };

    ghost bytes = { λ w told. B.bytes w.inner told };

    ghost few = { λ w. B.few w.inner };

    ghost inside = { λ w told. B.inside w.inner told };

    fn file_len(&mut self) -> Result<u64, StoreFault> {
        self.inner.file_len()
    }

    fn file_read(&mut self, at: u64, out: &mut [u8]) -> Result<(), StoreFault> {
        self.inner.file_read(at, out)
    }

    fn file_write(&mut self, at: u64, bytes: &[u8]) -> Result<(), StoreFault> {
        self.inner.file_write(at, bytes)
    }

    fn file_cut(&mut self, len: u64) -> Result<(), StoreFault> {
        self.inner.file_cut(len)
    }

    fn file_sync(&mut self) -> Result<(), StoreFault> {
        self.inner.file_sync()
    }

    fn cells_len(&self) -> u32 {
        self.inner.cells_len()
    }

    fn cells_read(&mut self, at: u32, out: &mut [u8]) -> Result<(), DeviceFault> {
        self.inner.cells_read(at, out)
    }

    fn cells_open(&mut self, at: u32, len: u32) -> Result<(), DeviceFault> {
        match self.inner.cells_open(at, len) {
            Ok(()) => {
                self.running = Some((at, len));
                if !lies_in(self.from, self.to, at, len) {
                    self.outside = Some((at, len));
                }
                Ok(())
            }
            Err(DeviceFault) => {
                self.running = None;
                Err(DeviceFault)
            }
        }
    }

    fn cells_settle(&mut self, bytes: &[u8]) -> Result<(), DeviceFault> {
        self.inner.cells_settle(bytes)?;
        self.running = None;
        Ok(())
    }

    fn cells_settle_fill(&mut self, value: u8) -> Result<(), DeviceFault> {
        self.inner.cells_settle_fill(value)?;
        self.running = None;
        Ok(())
    }

    fn cells_drop(&mut self) -> Result<(), DeviceFault> {
        self.inner.cells_drop()?;
        self.running = None;
        Ok(())
    }
}
