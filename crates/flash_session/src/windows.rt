//! The reads of a target from its job file and its device.
ghost use Rattle.std.specs.Prelude.{◌≡◌, ◌<◌, ◌≤◌, ◌+◌, length, take, drop, IsTrue, OnOk, IfOk, None};
ghost use Rattle.bench_model.specs.Calls.{OnlyReads, IsRead};
ghost use Rattle.board_file.specs.Limits.{size_of};
ghost use Rattle.faults.specs.Counts.{HasCause};
ghost use Rattle.flash_session.specs.Differs.{FindsIn};
ghost use Rattle.flash_session.specs.Goals.{goal_in};
ghost use Rattle.bench_model.specs.Counted.{is_store_fault, is_device_fault, fault_in, IsCounted};
ghost use Rattle.job_text.specs.Stands.{StandsFor};
ghost use Rattle.flash_session.specs.Reads.{unread_fault};

use crate::goal::{Goal, want_into};
use bench_model::{Bench, DeviceFault, StoreFault};
use job_text::Job;
use readback::{Difference, first_difference};

/// Why cells, or the bytes wanted of them, were not read.
#[derive(Clone, Copy)]
pub(crate) enum Unread {
    Device,
    Store,
}

/// Fills the buffer with the goal of a job from place `at` on. For an empty buffer no bench is called.
pub(crate) fn read_bytes<B: Bench>(
    bench: &mut B,
    job: &Job,
    goal: Goal,
    at: u32,
    bytes: &mut [u8],
) -> Result<(), StoreFault>
    requires range { at + length bytes.old ≤ size_of job.now.board.regions }
    requires stands { IsTrue B.tells → StandsFor job.now (B.state bench.old).file }
    ensures ok { IsTrue B.tells → OnOk result (bytes.new ≡ take (length bytes.old) (drop at (goal_in job.now goal (B.state bench.old).file))) }
    ensures long { length bytes.new ≡ length bytes.old }
    ensures reads { OnlyReads B.tells (B.state bench.old) (B.state bench.new) }
    ensures cause { HasCause (B.state bench.old).store_faults (B.state bench.new).store_faults result }
{
    if bytes.is_empty() {
        return Ok(());
    }
    want_into(bench, job, goal, at, bytes)
}

/// Compares as many cells as the windows hold with the goal, from place `at` on. Returns the first cell that differs, or none.
pub(crate) fn compare_window<B: Bench>(
    bench: &mut B,
    job: &Job,
    goal: Goal,
    at: u32,
    wanted: &mut [u8],
    cells: &mut [u8],
) -> Result<Option<Difference>, Unread>
    requires range { at + length wanted.old ≤ (B.state bench.old).cell_count }
    requires some { 0 < length wanted.old }
    requires same { length cells.old ≡ length wanted.old }
    requires size { (B.state bench.old).cell_count ≡ size_of job.now.board.regions }
    requires idle { IsTrue B.tells → (B.state bench.old).operation ≡ None }
    requires stands { IsTrue B.tells → StandsFor job.now (B.state bench.old).file }
    ensures ok { IfOk result (λ found. FindsIn B.tells (B.state bench.old).cells (goal_in job.now goal (B.state bench.old).file) at (length wanted.old) found) }
    ensures reads { IsRead B.tells (B.state bench.old) (B.state bench.new) }
    ensures store { IsCounted (B.state bench.old).store_faults (B.state bench.new).store_faults (is_store_fault (fault_in unread_fault result)) }
    ensures device { IsCounted (B.state bench.old).device_faults (B.state bench.new).device_faults (is_device_fault (fault_in unread_fault result)) }
{
    match want_into(bench, job, goal, at, wanted) {
        Ok(()) => {}
        Err(StoreFault) => return Err(Unread::Store),
    }
    match first_difference(bench, at, wanted, cells) {
        Ok(found) => Ok(found),
        Err(DeviceFault) => Err(Unread::Device),
    }
}
