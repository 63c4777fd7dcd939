//! The snapshot of a job, read from its file.
ghost use Rattle.std.specs.Prelude.{◌≡◌, ◌≤◌, ◌+◌, length, take, drop, IsTrue, OnOk};
ghost use Rattle.faults.specs.Counts.{HasCause};
ghost use Rattle.bench_model.specs.Calls.{OnlyReads};
ghost use Rattle.board_file.specs.Limits.{size_of};
ghost use Rattle.job_text.specs.Stands.{StandsFor, snapshot_in};

use bench_model::{Bench, StoreFault};
use job_text::Job;

/// Fills the buffer with the snapshot of a job from place `at` on. The file stands for the job, and places are those of the device. After
/// a fault the buffer holds arbitrary bytes. It takes no memory.
pub fn snapshot_into<B: Bench>(
    bench: &mut B,
    job: &Job,
    at: u32,
    out: &mut [u8],
) -> Result<(), StoreFault>
    requires range { at + length out.old ≤ size_of job.now.board.regions }
    requires stands { IsTrue B.tells → StandsFor job.now (B.state bench.old).file }
    ensures ok { IsTrue B.tells → OnOk result (out.new ≡ take (length out.old) (drop at (snapshot_in job.now (B.state bench.old).file))) }
    ensures reads { OnlyReads B.tells (B.state bench.old) (B.state bench.new) }
    ensures cause { HasCause (B.state bench.old).store_faults (B.state bench.new).store_faults result }
{
    bench.file_read(job.snapshot_at + u64::from(at), out)
}
