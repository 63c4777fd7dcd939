//! The job file: opened with its entry on the disk, and read and written whole by as many calls as that takes.
ghost use Rattle.std.specs.Prelude.{◌≡◌, ◌≤◌, ◌<◌, ◌+◌, ◌^◌, length, take, drop, IsTrue, true, false, OnOk, IfOk};
ghost use Rattle.bench_model.specs.History.{Leaves, LeftOnly};
ghost use Rattle.bench_model.specs.Calls.{written, Torn, Follows};
ghost use Rattle.disk_files.specs.DiskState.{job_half, CellsAsWere};
ghost use Rattle.disk_files.specs.DiskDoes.{OnlyReadsJob, IsReady};
ghost use Rattle.disk_files.specs.Fails.{Fails};

use crate::Disk;
use crate::syncs::JobSyncs;
use std::io;
use std::io::ErrorKind;

/// Opens the job file and syncs its entry, unless that was done already. It fails once a sync of the file or its folder has failed.
pub fn open_job<F: Disk>(disk: &mut F, job: &mut JobSyncs) -> io::Result<()>
    requires durable { IsTrue F.tells → job.old.entry ≡ true → (F.state disk.old).entry ≡ true }
    requires whole { IsTrue F.tells → job.old.failed ≡ false → (F.state disk.old).file_whole ≡ true }
    requires broken { IsTrue F.tells → job.old.failed ≡ true → (F.state disk.old).file_whole ≡ false }
    ensures durable { IsTrue F.tells → job.new.entry ≡ true → (F.state disk.new).entry ≡ true }
    ensures whole { IsTrue F.tells → job.new.failed ≡ false → (F.state disk.new).file_whole ≡ true }
    ensures broken { IsTrue F.tells → job.new.failed ≡ true → (F.state disk.new).file_whole ≡ false }
    ensures does { IsReady F.tells (F.state disk.old) (F.state disk.new) result }
    ensures fails { IsTrue F.tells → Fails (F.state disk.old) (F.state disk.new) result }
{
    if !job.entry {
        disk.job_open()?;
        if job.failed {
            return Err(io::Error::from(ErrorKind::Other));
        }
        job.failed = true;
        disk.folder_sync()?;
        job.failed = false;
        job.entry = true;
    }
    Ok(())
}

/// The job file's length.
pub fn measure<F: Disk>(disk: &mut F, job: &mut JobSyncs) -> io::Result<u64>
    requires durable { IsTrue F.tells → job.old.entry ≡ true → (F.state disk.old).entry ≡ true }
    requires whole { IsTrue F.tells → job.old.failed ≡ false → (F.state disk.old).file_whole ≡ true }
    requires broken { IsTrue F.tells → job.old.failed ≡ true → (F.state disk.old).file_whole ≡ false }
    ensures ok { IsTrue F.tells → IfOk result (λ len. len ≡ length (F.state disk.old).file) }
    ensures durable { IsTrue F.tells → job.new.entry ≡ true → (F.state disk.new).entry ≡ true }
    ensures whole { IsTrue F.tells → job.new.failed ≡ false → (F.state disk.new).file_whole ≡ true }
    ensures broken { IsTrue F.tells → job.new.failed ≡ true → (F.state disk.new).file_whole ≡ false }
    ensures does { OnlyReadsJob F.tells (F.state disk.old) (F.state disk.new) }
    ensures fails { IsTrue F.tells → Fails (F.state disk.old) (F.state disk.new) result }
{
    open_job(disk, job)?;
    disk.job_len()
}

/// Fills the buffer with bytes of the job file.
pub fn read_job<F: Disk>(
    disk: &mut F,
    job: &mut JobSyncs,
    at: u64,
    out: &mut [u8],
) -> io::Result<()>
    requires durable { IsTrue F.tells → job.old.entry ≡ true → (F.state disk.old).entry ≡ true }
    requires whole { IsTrue F.tells → job.old.failed ≡ false → (F.state disk.old).file_whole ≡ true }
    requires broken { IsTrue F.tells → job.old.failed ≡ true → (F.state disk.old).file_whole ≡ false }
    requires at { IsTrue F.tells → at + length out.old ≤ length (F.state disk.old).file }
    ensures ok { IsTrue F.tells → OnOk result (out.new ≡ take (length out.old) (drop at (F.state disk.old).file)) }
    ensures durable { IsTrue F.tells → job.new.entry ≡ true → (F.state disk.new).entry ≡ true }
    ensures whole { IsTrue F.tells → job.new.failed ≡ false → (F.state disk.new).file_whole ≡ true }
    ensures broken { IsTrue F.tells → job.new.failed ≡ true → (F.state disk.new).file_whole ≡ false }
    ensures does { OnlyReadsJob F.tells (F.state disk.old) (F.state disk.new) }
    ensures fails { IsTrue F.tells → at + length out.old < 2 ^ 64 → Fails (F.state disk.old) (F.state disk.new) result }
{
    open_job(disk, job)?;
    read_all(disk, at, out)
}

/// Writes all bytes.
pub fn write_all<F: Disk>(disk: &mut F, at: u64, bytes: &[u8]) -> io::Result<()>
    requires entry { IsTrue F.tells → (F.state disk.old).entry ≡ true }
    requires at { IsTrue F.tells → at ≤ length (F.state disk.old).file }
    requires synced { IsTrue F.tells → (F.state disk.old).unsynced ≡ false }
    ensures ok { IsTrue F.tells → OnOk result ((F.state disk.new).file ≡ written at bytes.now (F.state disk.old).file) }
    ensures torn { IsTrue F.tells → Torn at (length bytes.now) (F.state disk.old).file (F.state disk.new).file }
    ensures entry { IsTrue F.tells → (F.state disk.new).entry ≡ (F.state disk.old).entry }
    ensures whole { IsTrue F.tells → (F.state disk.new).file_whole ≡ (F.state disk.old).file_whole }
    ensures moments { Leaves (job_half (F.state disk.old)) (job_half (F.state disk.new)) (Follows (Torn at (length bytes.now)) (job_half (F.state disk.old))) }
    ensures cells { CellsAsWere (F.state disk.old) (F.state disk.new) }
    ensures fails { IsTrue F.tells → at + length bytes.now < 2 ^ 64 → Fails (F.state disk.old) (F.state disk.new) result }
{
    if at.checked_add(bytes.len() as u64).is_none() {
        return Err(io::Error::from(ErrorKind::InvalidInput));
    }
    let mut done = 0;
    let mut stops = 0u64;
    while done < bytes.len() {
        match disk.job_write_at(at + done as u64, &bytes[done..]) {
            Ok(0) => return Err(io::Error::from(ErrorKind::WriteZero)),
            Ok(count) => done += count,
            Err(fault) if fault.kind() == ErrorKind::Interrupted && stops < u64::MAX => stops += 1,
            Err(fault) => return Err(fault),
        }
    }
    Ok(())
}

/// Fills the buffer.
pub fn read_all<F: Disk>(disk: &mut F, at: u64, out: &mut [u8]) -> io::Result<()>
    requires entry { IsTrue F.tells → (F.state disk.old).entry ≡ true }
    requires at { IsTrue F.tells → at + length out.old ≤ length (F.state disk.old).file }
    ensures ok { IsTrue F.tells → OnOk result (out.new ≡ take (length out.old) (drop at (F.state disk.old).file)) }
    ensures entry { IsTrue F.tells → (F.state disk.new).entry ≡ (F.state disk.old).entry }
    ensures whole { IsTrue F.tells → (F.state disk.new).file_whole ≡ (F.state disk.old).file_whole }
    ensures does { OnlyReadsJob F.tells (F.state disk.old) (F.state disk.new) }
    ensures fails { IsTrue F.tells → at + length out.old < 2 ^ 64 → Fails (F.state disk.old) (F.state disk.new) result }
{
    if at.checked_add(out.len() as u64).is_none() {
        return Err(io::Error::from(ErrorKind::InvalidInput));
    }
    let mut done = 0;
    let mut stops = 0u64;
    while done < out.len() {
        match disk.job_read_at(at + done as u64, &mut out[done..]) {
            Ok(0) => return Err(io::Error::from(ErrorKind::UnexpectedEof)),
            Ok(count) => done += count,
            Err(fault) if fault.kind() == ErrorKind::Interrupted && stops < u64::MAX => stops += 1,
            Err(fault) => return Err(fault),
        }
    }
    Ok(())
}

/// Syncs the job file and its entry. It fails once a sync of either has failed.
pub fn sync_job<F: Disk>(disk: &mut F, job: &mut JobSyncs) -> io::Result<()>
    requires durable { IsTrue F.tells → job.old.entry ≡ true → (F.state disk.old).entry ≡ true }
    requires whole { IsTrue F.tells → job.old.failed ≡ false → (F.state disk.old).file_whole ≡ true }
    requires broken { IsTrue F.tells → job.old.failed ≡ true → (F.state disk.old).file_whole ≡ false }
    ensures ok { IsTrue F.tells → OnOk result (LeftOnly (F.state disk.old).file (job_half (F.state disk.new))) }
    ensures durable { IsTrue F.tells → job.new.entry ≡ true → (F.state disk.new).entry ≡ true }
    ensures whole { IsTrue F.tells → job.new.failed ≡ false → (F.state disk.new).file_whole ≡ true }
    ensures broken { IsTrue F.tells → job.new.failed ≡ true → (F.state disk.new).file_whole ≡ false }
    ensures does { OnlyReadsJob F.tells (F.state disk.old) (F.state disk.new) }
    ensures fails { IsTrue F.tells → Fails (F.state disk.old) (F.state disk.new) result }
{
    open_job(disk, job)?;
    if job.failed {
        return Err(io::Error::from(ErrorKind::Other));
    }
    job.failed = true;
    disk.job_sync()?;
    job.failed = false;
    Ok(())
}
