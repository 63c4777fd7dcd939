//! A job file as it would be with another hash.
ghost use Rattle.std.specs.Prelude.{◌≡◌, ◌≢◌, ◌<◌, ◌+◌, ℕ, All, length, get_or};
ghost use Rattle.job_parts.specs.Mended.{laid_byte};

use bench_model::{Bench, DeviceFault, StoreFault};
use faults::FaultCount;

/// Where the hash stands in a job file.
const HASH_AT: u64 = 8;

/// A bench that shows the job file of another one with this hash in place of the one that it keeps. It is for reading alone: each call that changes
/// the file, and each on the cells, is refused, and counted as a fault.
#[derive(Drop)]
pub struct MendedBench<B> {
    inner: B,
    hash: [u8; 32],
    writes: FaultCount,
    cells: FaultCount,
    ghost long: { length hash ≡ 32 },
    ghost bytes: { All (λ byte. byte < 256) hash },
}

impl<B: Bench> MendedBench<B> {
    /// Shows the job file of a bench with this hash.
    pub fn new(inner: B, hash: [u8; 32]) -> MendedBench<B>
        ensures inner { result.inner ≡ inner }
        ensures hash { result.hash ≡ hash }
        ensures writes { result.writes ≡ 0 }
        ensures cells { result.cells ≡ 0 }
    {
        know_bytes(&hash);
        MendedBench {
            inner,
            hash,
            writes: FaultCount::new(),
            cells: FaultCount::new(),
        }
    }
}

/// Each item is a byte.
fn know_bytes(hash: &[u8])
    ensures { All (λ byte. byte < 256) hash.now }
{
    // the slice is read, and with it that each item is a byte
    let _count = hash.len();
}

/// Lays a hash over bytes of a job file that stand from a place on.
fn lay_hash(hash: &[u8; 32], at: u64, out: &mut [u8])
    ensures length { length out.new ≡ length out.old }
    ensures each { (i d : ℕ) → i < length out.old → get_or out.new i d ≡ laid_byte hash.now 32 (at + i) (get_or out.old i d) }
{
    for index in 0..32 {
        lay_byte(hash[index], HASH_AT + index as u64, at, out);
    }
}

/// Lays the byte of a place over bytes that stand from `at` on, where the place is among theirs.
fn lay_byte(byte: u8, place: u64, at: u64, out: &mut [u8])
    ensures length { length out.new ≡ length out.old }
    ensures here { (i d : ℕ) → i < length out.old → at + i ≡ place → get_or out.new i d ≡ byte }
    ensures others { (i d : ℕ) → i < length out.old → at + i ≢ place → get_or out.new i d ≡ get_or out.old i d }
{
    if at <= place && place - at < out.len() as u64 {
        out[(place - at) as usize] = byte;
    }
}

impl<B: Bench> Bench for MendedBench<B> {
    ghost use Rattle.std.specs.Prelude.{refl};
    ghost use Rattle.job_parts.specs.Mended.{with_hash, mended_bytes};

    ghost tells = { B.tells };

    ghost state = { λ m. with_hash m.hash m.writes m.cells (B.state m.inner) };

    ghost acts = { λ before act after. after.hash ≡ before.hash };

    ghost as_read = { λ m told. ((B.state m.inner).file, B.as_read m.inner told, refl) };

    ghost as_told = { λ m cells told. B.as_told m.inner cells told };

    ghost all_told = { λ m told. B.all_told m.inner told };

    ghost bytes = { λ m told. (mended_bytes m.hash (B.state m.inner).file m.bytes (B.bytes m.inner told).0, (B.bytes m.inner told).1) };

    ghost few = { λ m. B.few m.inner };

    ghost inside = { λ m told. B.inside m.inner told };

    fn file_len(&mut self) -> Result<u64, StoreFault> {
        self.inner.file_len()
    }

    fn file_read(&mut self, at: u64, out: &mut [u8]) -> Result<(), StoreFault> {
        match self.inner.file_read(at, out) {
            Ok(()) => {
                lay_hash(&self.hash, at, out);
                Ok(())
            }
            Err(StoreFault) => Err(StoreFault),
        }
    }

    fn file_write(&mut self, _at: u64, _bytes: &[u8]) -> Result<(), StoreFault> {
        self.writes.raise();
        Err(StoreFault)
    }

    fn file_cut(&mut self, _len: u64) -> Result<(), StoreFault> {
        self.writes.raise();
        Err(StoreFault)
    }

    fn file_sync(&mut self) -> Result<(), StoreFault> {
        self.inner.file_sync()
    }

    fn cells_len(&self) -> u32 {
        self.inner.cells_len()
    }

    fn cells_read(&mut self, _at: u32, _out: &mut [u8]) -> Result<(), DeviceFault> {
        self.cells.raise();
        Err(DeviceFault)
    }

    fn cells_open(&mut self, _at: u32, _len: u32) -> Result<(), DeviceFault> {
        self.cells.raise();
        Err(DeviceFault)
    }

    fn cells_settle(&mut self, _bytes: &[u8]) -> Result<(), DeviceFault> {
        self.cells.raise();
        Err(DeviceFault)
    }

    fn cells_settle_fill(&mut self, _value: u8) -> Result<(), DeviceFault> {
        self.cells.raise();
        Err(DeviceFault)
    }

    fn cells_drop(&mut self) -> Result<(), DeviceFault> {
        self.cells.raise();
        Err(DeviceFault)
    }
}
