//! Sessions that survey one bench and go over another.

ghost use Rattle.std.specs.Prelude.{◌≡◌, ◌<◌, ◌^◌, length, IsTrue, IfOk, None};
ghost use Rattle.bench_model.specs.History.{LeftOnly};
ghost use Rattle.bench_model.specs.Shown.{shown, bench_of};
ghost use Rattle.bench_model.specs.State.{file_half};

use crate::session::carry::{carry, carry_apart};
use crate::session::job::Job;
use crate::session::report::print;
use anyhow::{Result, ensure};
use bench_model::{Bench, MemoryBench};
use flash_session::Goal;
use std::alloc::Global;

/// A bench with these cells and this file. The file call of number `fail` fails, or none at 0.
fn bench(alloc: Global, cells: &[u8], file: &[u8], fail: u64) -> Result<MemoryBench>
    requires { length cells.now < 2 ^ 32 }
    ensures file { IfOk result (λ bench. (shown bench).file ≡ file.now) }
    ensures cells { IfOk result (λ bench. (shown bench).cells ≡ cells.now) }
    ensures idle { IfOk result (λ bench. (shown bench).operation ≡ None) }
    ensures only { IfOk result (λ bench. LeftOnly (bench_of bench).file (file_half (bench_of bench))) }
{
    let room = 1 << 20;
    let bench = MemoryBench::new(alloc, cells, file, room, room, &[fail], &[], &[])?;
    Ok(bench)
}

/// Opens a job over one bench, surveys a second one and goes over a third, which have the same file and cells. Then carries on the job of
/// the third. Prints how each ended.
fn put_apart<B: Bench>(rt: &HostRuntime, first: &mut B, second: &mut B, third: &mut B) -> Result<()>
    requires second_file { IsTrue B.tells → (B.state second.old).file ≡ (B.state first.old).file }
    requires second_count { (B.state second.old).cell_count ≡ (B.state first.old).cell_count }
    requires second_idle { IsTrue B.tells → (B.state second.old).operation ≡ None }
    requires third_file { IsTrue B.tells → (B.state third.old).file ≡ (B.state first.old).file }
    requires third_count { (B.state third.old).cell_count ≡ (B.state first.old).cell_count }
    requires third_idle { IsTrue B.tells → (B.state third.old).operation ≡ None }
    requires third_only { IsTrue B.tells → LeftOnly (B.state third.old).file (file_half (B.state third.old)) }
{
    print(rt, carry_apart(rt.alloc(), first, second, third))?;
    print(rt, carry(rt.alloc(), third, Goal::New))
}

/// Opens, surveys and goes over three benches with these cells and this file.
fn go_apart(
    rt: &HostRuntime,
    cells: &[u8],
    file: &[u8],
    survey_fail: u64,
    go_fail: u64,
) -> Result<()>
    requires { length cells.now < 2 ^ 32 }
{
    let mut first = bench(rt.alloc(), cells, file, 0)?;
    let mut second = bench(rt.alloc(), cells, file, survey_fail)?;
    let mut third = bench(rt.alloc(), cells, file, go_fail)?;
    put_apart(rt, &mut first, &mut second, &mut third)
}

/// Opens, surveys and goes over three benches with a job. The file call SURVEY of the second bench fails, and the file call GO of the
/// third.
pub fn step_apart(rt: &HostRuntime, job: &Job, survey: &str, go: &str) -> Result<()> {
    ensure!(job.cells.len() <= 65536, "too many cells");
    let survey = survey.parse::<u64>()?;
    let go = go.parse::<u64>()?;
    let file = job.file(rt)?;
    go_apart(rt, &job.cells, &file, survey, go)
}
