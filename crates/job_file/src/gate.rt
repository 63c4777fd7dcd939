//! The gate of a job file: byte 0 opens the body that follows it. It is opened once the body is on the disk.
ghost use Rattle.std.specs.Prelude.{◌≡◌, ◌≤◌, ◌++◌, ◌∷◌, [], length, IsTrue, OnOk, IfErr, None};
ghost use Rattle.faults.specs.Counts.{HasCause};
ghost use Rattle.bench_model.specs.History.{Leaves, LeftOnly};
ghost use Rattle.bench_model.specs.State.{file_half};
ghost use Rattle.bench_model.specs.Calls.{CellsStay, CellsAreRead};
ghost use Rattle.job_text.specs.Files.{IsFree, open_gate};
ghost use Rattle.job_text.specs.Parts.{AreParts, head_of_parts, front_of, with_hash};
ghost use Rattle.job_file.specs.Counted.{IsFault, begin_fault};
ghost use Rattle.bench_model.specs.Counted.{is_store_fault, is_device_fault, fault_in, IsCounted};
ghost use Rattle.job_file.specs.Stops.{IsFreeOrWhole};
ghost use Rattle.job_file.specs.Unopened.{UnopenedAtDeviceFault};

use crate::body::put_hashed;
use crate::fault::BeginFault;
use crate::pieces::PIECE;
use bench_model::{Bench, StoreFault, cut_synced, write_synced};
use job_text::JobParts;

/// The gate of an open job.
const OPEN: u8 = 0xA5;

/// The gate of a job that is closed, or isn't open yet.
pub const CLOSED: u8 = 0;

/// Writes a body into a free file, and opens the gate last. First come its parts one by one, then all cells, one window at a time, then
/// the hash in its place. The gate is closed on the disk before the body is written, and opened once body and hash are on the disk.
pub fn put_job<B: Bench>(
    bench: &mut B,
    head: &[u8],
    parts: &JobParts,
    window: &mut [u8],
) -> Result<(), BeginFault>
    requires parts { AreParts parts.now }
    requires head { head.now ≡ head_of_parts parts.now }
    requires free { IsTrue B.tells → IsFree (B.state bench.old).file }
    requires only { IsTrue B.tells → LeftOnly (B.state bench.old).file (file_half (B.state bench.old)) }
    requires idle { IsTrue B.tells → (B.state bench.old).operation ≡ None }
    requires room { length window.old ≡ PIECE }
    ensures ok { IsTrue B.tells → OnOk result (((B.state bench.new).file ≡ open_gate ∷ with_hash (front_of parts.now ++ (B.state bench.old).cells))
        × LeftOnly (open_gate ∷ with_hash (front_of parts.now ++ (B.state bench.old).cells)) (file_half (B.state bench.new))) }
    ensures moments { IsTrue B.tells → Leaves (file_half (B.state bench.old)) (file_half (B.state bench.new))
        (IsFreeOrWhole (with_hash (front_of parts.now ++ (B.state bench.old).cells))) }
    ensures unopened { IsTrue B.tells → UnopenedAtDeviceFault (file_half (B.state bench.old)) (file_half (B.state bench.new)) result }
    ensures cells { CellsAreRead B.tells (B.state bench.old) (B.state bench.new) }
    ensures fault { IfErr result IsFault }
    ensures store { IsCounted (B.state bench.old).store_faults (B.state bench.new).store_faults (is_store_fault (fault_in begin_fault result)) }
    ensures device { IsCounted (B.state bench.old).device_faults (B.state bench.new).device_faults (is_device_fault (fault_in begin_fault result)) }
{
    shut(bench)?;
    put_hashed(bench, head, parts, window)?;
    bench.file_sync()?;
    write_synced(bench, 0, &[OPEN])?;
    Ok(())
}

/// Cuts a free file to its byte 0, which closes the gate.
fn shut<B: Bench>(bench: &mut B) -> Result<(), StoreFault>
    requires free { IsTrue B.tells → IsFree (B.state bench.old).file }
    requires only { IsTrue B.tells → LeftOnly (B.state bench.old).file (file_half (B.state bench.old)) }
    ensures ok { IsTrue B.tells → OnOk result (((B.state bench.new).file ≡ 0 ∷ []) × LeftOnly (0 ∷ []) (file_half (B.state bench.new))) }
    ensures moments { IsTrue B.tells → Leaves (file_half (B.state bench.old)) (file_half (B.state bench.new)) IsFree }
    ensures cells { CellsStay (B.state bench.old) (B.state bench.new) }
    ensures cause { HasCause (B.state bench.old).store_faults (B.state bench.new).store_faults result }
{
    shorten(bench)?;
    write_synced(bench, 0, &[CLOSED])
}

/// Cuts a free file to at most one byte.
fn shorten<B: Bench>(bench: &mut B) -> Result<(), StoreFault>
    requires free { IsTrue B.tells → IsFree (B.state bench.old).file }
    requires only { IsTrue B.tells → LeftOnly (B.state bench.old).file (file_half (B.state bench.old)) }
    ensures ok { IsTrue B.tells → OnOk result ((length (B.state bench.new).file ≤ 1)
        × LeftOnly (B.state bench.new).file (file_half (B.state bench.new))) }
    ensures moments { IsTrue B.tells → Leaves (file_half (B.state bench.old)) (file_half (B.state bench.new)) IsFree }
    ensures cells { CellsStay (B.state bench.old) (B.state bench.new) }
    ensures cause { HasCause (B.state bench.old).store_faults (B.state bench.new).store_faults result }
{
    if bench.file_len()? <= 1 {
        return bench.file_sync();
    }
    cut_synced(bench, 1)
}
