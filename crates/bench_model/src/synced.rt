//! A change of the file that is on the disk before the call answers Ok.
ghost use Rattle.std.specs.Prelude.{◌≡◌, ◌≤◌, length, take, IsTrue, OnOk};
ghost use Rattle.faults.specs.Counts.{HasCause};
ghost use Rattle.bench_model.specs.History.{Leaves, LeftOnly};
ghost use Rattle.bench_model.specs.State.{file_half};
ghost use Rattle.bench_model.specs.Calls.{written, Torn, Cut, Follows, CellsStay};

use crate::{Bench, StoreFault};

/// Writes over a range of the file, and past its end, and syncs. After the answer Ok, a stop leaves the file as written.
pub fn write_synced<B: Bench>(bench: &mut B, at: u64, bytes: &[u8]) -> Result<(), StoreFault>
    requires { IsTrue B.tells → at ≤ length (B.state bench.old).file }
    ensures ok { IsTrue B.tells → OnOk result (((B.state bench.new).file ≡ written at bytes.now (B.state bench.old).file)
        × LeftOnly (B.state bench.new).file (file_half (B.state bench.new))) }
    ensures moments { Leaves (file_half (B.state bench.old)) (file_half (B.state bench.new))
        (Follows (Torn at (length bytes.now)) (file_half (B.state bench.old))) }
    ensures cells { CellsStay (B.state bench.old) (B.state bench.new) }
    ensures cause { HasCause (B.state bench.old).store_faults (B.state bench.new).store_faults result }
{
    bench.file_write(at, bytes)?;
    bench.file_sync()
}

/// Cuts the file to a length, and syncs. After the answer Ok, a stop leaves the file as cut.
pub fn cut_synced<B: Bench>(bench: &mut B, len: u64) -> Result<(), StoreFault>
    requires { IsTrue B.tells → len ≤ length (B.state bench.old).file }
    ensures ok { IsTrue B.tells → OnOk result (((B.state bench.new).file ≡ take len (B.state bench.old).file)
        × LeftOnly (B.state bench.new).file (file_half (B.state bench.new))) }
    ensures moments { Leaves (file_half (B.state bench.old)) (file_half (B.state bench.new))
        (Follows (Cut len) (file_half (B.state bench.old))) }
    ensures cells { CellsStay (B.state bench.old) (B.state bench.new) }
    ensures cause { HasCause (B.state bench.old).store_faults (B.state bench.new).store_faults result }
{
    bench.file_cut(len)?;
    bench.file_sync()
}
