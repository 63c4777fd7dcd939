//! Whole reads and writes of the cells.
ghost use Rattle.std.specs.Prelude.{◌≡◌, ◌≤◌, ◌<◌, ◌+◌, ◌^◌, length, take, drop, replicate, IsTrue, true, false, OnOk};
ghost use Rattle.bench_model.specs.Calls.{written};
ghost use Rattle.disk_files.specs.DiskDoes.{InRange, WritesBytes, ReadsBytes, IsSynced, IsReadyToChange};
ghost use Rattle.disk_files.specs.Fails.{Fails};

use crate::Disk;
use crate::job_half::open_job;
use crate::syncs::{CellsSyncs, JobSyncs};
use std::io;
use std::io::ErrorKind;

/// How many cells are filled at a time.
const CHUNK: usize = 4096;

/// Syncs the cells to the disk, unless an earlier sync of them has failed.
fn sync_cells<F: Disk>(disk: &mut F, cells: &mut CellsSyncs) -> io::Result<()>
    requires pending { IsTrue F.tells → cells.old.pending ≡ false → (F.state disk.old).unsynced ≡ false }
    requires fresh { IsTrue F.tells → cells.old.fresh ≡ false → (F.state disk.old).earlier ≡ false }
    requires safe { IsTrue F.tells → cells.old.failed ≡ false → (F.state disk.old).cells_whole ≡ true }
    requires spoilt { IsTrue F.tells → cells.old.failed ≡ true → (F.state disk.old).cells_whole ≡ false }
    ensures ok { IsTrue F.tells → OnOk result ((F.state disk.new).unsynced ≡ false) }
    ensures first { IsTrue F.tells → OnOk result ((F.state disk.new).earlier ≡ false) }
    ensures pending { IsTrue F.tells → cells.new.pending ≡ false → (F.state disk.new).unsynced ≡ false }
    ensures fresh { IsTrue F.tells → cells.new.fresh ≡ false → (F.state disk.new).earlier ≡ false }
    ensures safe { IsTrue F.tells → cells.new.failed ≡ false → (F.state disk.new).cells_whole ≡ true }
    ensures spoilt { IsTrue F.tells → cells.new.failed ≡ true → (F.state disk.new).cells_whole ≡ false }
    ensures does { IsSynced F.tells (F.state disk.old) (F.state disk.new) }
    ensures fails { IsTrue F.tells → Fails (F.state disk.old) (F.state disk.new) result }
{
    if cells.failed {
        return Err(io::Error::from(ErrorKind::Other));
    }
    cells.failed = true;
    disk.cells_sync()?;
    cells.failed = false;
    cells.pending = false;
    cells.fresh = false;
    Ok(())
}

/// Syncs the cells to the disk, if some may have been written.
pub fn sync_pending<F: Disk>(disk: &mut F, cells: &mut CellsSyncs) -> io::Result<()>
    requires pending { IsTrue F.tells → cells.old.pending ≡ false → (F.state disk.old).unsynced ≡ false }
    requires fresh { IsTrue F.tells → cells.old.fresh ≡ false → (F.state disk.old).earlier ≡ false }
    requires safe { IsTrue F.tells → cells.old.failed ≡ false → (F.state disk.old).cells_whole ≡ true }
    requires spoilt { IsTrue F.tells → cells.old.failed ≡ true → (F.state disk.old).cells_whole ≡ false }
    ensures ok { IsTrue F.tells → OnOk result ((F.state disk.new).unsynced ≡ false) }
    ensures pending { IsTrue F.tells → cells.new.pending ≡ false → (F.state disk.new).unsynced ≡ false }
    ensures fresh { IsTrue F.tells → cells.new.fresh ≡ false → (F.state disk.new).earlier ≡ false }
    ensures safe { IsTrue F.tells → cells.new.failed ≡ false → (F.state disk.new).cells_whole ≡ true }
    ensures spoilt { IsTrue F.tells → cells.new.failed ≡ true → (F.state disk.new).cells_whole ≡ false }
    ensures does { IsSynced F.tells (F.state disk.old) (F.state disk.new) }
    ensures fails { IsTrue F.tells → Fails (F.state disk.old) (F.state disk.new) result }
{
    if cells.pending {
        sync_cells(disk, cells)?;
    }
    Ok(())
}

/// Syncs the cells to the disk, if an earlier run may have left some unsynced.
pub fn sync_earlier<F: Disk>(disk: &mut F, cells: &mut CellsSyncs) -> io::Result<()>
    requires pending { IsTrue F.tells → cells.old.pending ≡ false → (F.state disk.old).unsynced ≡ false }
    requires fresh { IsTrue F.tells → cells.old.fresh ≡ false → (F.state disk.old).earlier ≡ false }
    requires safe { IsTrue F.tells → cells.old.failed ≡ false → (F.state disk.old).cells_whole ≡ true }
    requires spoilt { IsTrue F.tells → cells.old.failed ≡ true → (F.state disk.old).cells_whole ≡ false }
    ensures ok { IsTrue F.tells → OnOk result ((F.state disk.new).earlier ≡ false) }
    ensures pending { IsTrue F.tells → cells.new.pending ≡ false → (F.state disk.new).unsynced ≡ false }
    ensures fresh { IsTrue F.tells → cells.new.fresh ≡ false → (F.state disk.new).earlier ≡ false }
    ensures safe { IsTrue F.tells → cells.new.failed ≡ false → (F.state disk.new).cells_whole ≡ true }
    ensures spoilt { IsTrue F.tells → cells.new.failed ≡ true → (F.state disk.new).cells_whole ≡ false }
    ensures does { IsSynced F.tells (F.state disk.old) (F.state disk.new) }
    ensures fails { IsTrue F.tells → Fails (F.state disk.old) (F.state disk.new) result }
{
    if cells.fresh {
        sync_cells(disk, cells)?;
    }
    Ok(())
}

/// Opens the job file for a change: its entry is on the disk, and no cell is written and not synced.
pub fn ready_to_change<F: Disk>(
    disk: &mut F,
    job: &mut JobSyncs,
    cells: &mut CellsSyncs,
) -> io::Result<()>
    requires durable { IsTrue F.tells → job.old.entry ≡ true → (F.state disk.old).entry ≡ true }
    requires whole { IsTrue F.tells → job.old.failed ≡ false → (F.state disk.old).file_whole ≡ true }
    requires broken { IsTrue F.tells → job.old.failed ≡ true → (F.state disk.old).file_whole ≡ false }
    requires pending { IsTrue F.tells → cells.old.pending ≡ false → (F.state disk.old).unsynced ≡ false }
    requires fresh { IsTrue F.tells → cells.old.fresh ≡ false → (F.state disk.old).earlier ≡ false }
    requires safe { IsTrue F.tells → cells.old.failed ≡ false → (F.state disk.old).cells_whole ≡ true }
    requires spoilt { IsTrue F.tells → cells.old.failed ≡ true → (F.state disk.old).cells_whole ≡ false }
    ensures durable { IsTrue F.tells → job.new.entry ≡ true → (F.state disk.new).entry ≡ true }
    ensures whole { IsTrue F.tells → job.new.failed ≡ false → (F.state disk.new).file_whole ≡ true }
    ensures broken { IsTrue F.tells → job.new.failed ≡ true → (F.state disk.new).file_whole ≡ false }
    ensures pending { IsTrue F.tells → cells.new.pending ≡ false → (F.state disk.new).unsynced ≡ false }
    ensures fresh { IsTrue F.tells → cells.new.fresh ≡ false → (F.state disk.new).earlier ≡ false }
    ensures safe { IsTrue F.tells → cells.new.failed ≡ false → (F.state disk.new).cells_whole ≡ true }
    ensures spoilt { IsTrue F.tells → cells.new.failed ≡ true → (F.state disk.new).cells_whole ≡ false }
    ensures does { IsReadyToChange F.tells (F.state disk.old) (F.state disk.new) result }
    ensures fails { IsTrue F.tells → Fails (F.state disk.old) (F.state disk.new) result }
{
    open_job(disk, job)?;
    sync_pending(disk, cells)
}

/// Writes all bytes, within the open range.
pub fn write_range<F: Disk>(disk: &mut F, at: u64, bytes: &[u8]) -> io::Result<()>
    requires { IsTrue F.tells → InRange at (length bytes.now) (F.state disk.old).operation }
    ensures ok { IsTrue F.tells → OnOk result ((F.state disk.new).bytes ≡ written at bytes.now (F.state disk.old).bytes) }
    ensures does { WritesBytes F.tells (F.state disk.old) (F.state disk.new) }
    ensures whole { IsTrue F.tells → (F.state disk.new).cells_whole ≡ (F.state disk.old).cells_whole }
    ensures fails { IsTrue F.tells → at + length bytes.now < 2 ^ 64 → Fails (F.state disk.old) (F.state disk.new) result }
{
    if at.checked_add(bytes.len() as u64).is_none() {
        return Err(io::Error::from(ErrorKind::InvalidInput));
    }
    let mut done = 0;
    let mut stops = 0u64;
    while done < bytes.len() {
        match disk.cells_write_at(at + done as u64, &bytes[done..]) {
            Ok(0) => return Err(io::Error::from(ErrorKind::WriteZero)),
            Ok(count) => done += count,
            Err(fault) if fault.kind() == ErrorKind::Interrupted && stops < u64::MAX => stops += 1,
            Err(fault) => return Err(fault),
        }
    }
    Ok(())
}

/// Fills the open range with one value.
pub fn fill_range<F: Disk>(disk: &mut F, at: u32, len: u32, value: u8) -> io::Result<()>
    requires range { IsTrue F.tells → InRange at len (F.state disk.old).operation }
    requires within { IsTrue F.tells → at + len ≤ length (F.state disk.old).bytes }
    ensures ok { IsTrue F.tells → OnOk result ((F.state disk.new).bytes ≡ written at (replicate len value) (F.state disk.old).bytes) }
    ensures does { WritesBytes F.tells (F.state disk.old) (F.state disk.new) }
    ensures whole { IsTrue F.tells → (F.state disk.new).cells_whole ≡ (F.state disk.old).cells_whole }
    ensures fails { IsTrue F.tells → Fails (F.state disk.old) (F.state disk.new) result }
{
    let chunk = [value; CHUNK];
    let mut done = 0u64;
    while done < u64::from(len) {
        let size = (u64::from(len) - done).min(CHUNK as u64) as usize;
        write_range(disk, u64::from(at) + done, &chunk[..size])?;
        done += size as u64;
    }
    Ok(())
}

/// Fills the buffer with cells.
pub fn read_cells<F: Disk>(disk: &mut F, at: u64, out: &mut [u8]) -> io::Result<()>
    requires at { IsTrue F.tells → at + length out.old ≤ length (F.state disk.old).bytes }
    ensures ok { IsTrue F.tells → OnOk result (out.new ≡ take (length out.old) (drop at (F.state disk.old).bytes)) }
    ensures does { ReadsBytes F.tells (F.state disk.old) (F.state disk.new) }
    ensures whole { IsTrue F.tells → (F.state disk.new).cells_whole ≡ (F.state disk.old).cells_whole }
    ensures fails { IsTrue F.tells → at + length out.old < 2 ^ 64 → Fails (F.state disk.old) (F.state disk.new) result }
{
    if at.checked_add(out.len() as u64).is_none() {
        return Err(io::Error::from(ErrorKind::InvalidInput));
    }
    let mut done = 0;
    let mut stops = 0u64;
    while done < out.len() {
        match disk.cells_read_at(at + done as u64, &mut out[done..]) {
            Ok(0) => return Err(io::Error::from(ErrorKind::UnexpectedEof)),
            Ok(count) => done += count,
            Err(fault) if fault.kind() == ErrorKind::Interrupted && stops < u64::MAX => stops += 1,
            Err(fault) => return Err(fault),
        }
    }
    Ok(())
}
