//! The run of a demonstration.
ghost use Rattle.std.specs.Prelude.{◌≡◌, ◌↔◌, IfOk, IsTrue};
ghost use Rattle.bench_model.specs.Shown.{bench_of};
ghost use Rattle.demo_job.specs.Demo.{Shows};
ghost use Rattle.algo_calls.specs.Duties.{device_of};
ghost use Rattle.command_files.specs.Shown.{answer_of};
ghost use Rattle.demo_job.specs.Run.{BeginsOver, IsFresh, IsLost, answer_in, plan_of, status_in};
ghost use Rattle.demo_job.specs.Scene.{IsScene, IsCounted, fixture_of};
ghost use Rattle.bench_model.specs.declared.memory.MemoryBench.{MemoryBench};

use crate::first_plan::{Counts, first_plan};
use crate::lines::DemoLines;
use crate::nowhere::Nowhere;
use crate::scene::{Scene, set_scene};
use bench_model::{Bench, MemoryBench, Pick, StopBench};
use faults::OutOfMemory;
use flash_session::Goal;
use job_commands::{begin_job, go_on};
use report_text::Refusal;
use std::alloc::Global;

/// The byte that the loss of the power leaves in each pending byte, and in each cell of an open operation.
const LOST: u8 = 0x5A;

/// The status of a job that ran out of memory.
const NO_MEMORY: u8 = 1;

/// How a demonstration ended: its lines, the refusal of the resume if there was one, and the bench as the resume left it.
#[derive(Drop)]
pub struct Demo {
    pub lines: DemoLines,
    pub refusal: Option<Refusal<'static>>,
    pub bench: MemoryBench,
}

/// Begins the seed's job on its bench, stops it after the number of calls that the seed gives, loses the power, and resumes the job on
/// what is left. It answers `OutOfMemory` only if the resume hasn't begun.
pub fn demo_run(alloc: Global, seed: u32, bench: MemoryBench) -> Result<Demo, OutOfMemory>
    requires { IsFresh seed (bench_of bench) }
    ensures { IfOk result (Shows seed bench) }
{
    let scene = set_scene(alloc, seed)?;
    play(alloc, seed, &scene, bench)
}

/// Runs the demonstration in its scene.
fn play(alloc: Global, seed: u32, scene: &Scene, bench: MemoryBench) -> Result<Demo, OutOfMemory>
    requires scene { IsScene seed scene.now }
    requires fresh { IsFresh seed (bench_of bench) }
    ensures { IfOk result (Shows seed bench) }
{
    let counts = first_plan(alloc, seed, scene)?;
    let lost = lose(alloc, seed, scene, bench)?;
    Ok(resume(alloc, seed, scene, counts, lost))
}

/// A bench that stops, as the job left it, and the refusal of the job.
#[derive(Drop)]
pub(crate) struct Stopped<B> {
    bench: StopBench<B>,
    refusal: Option<Refusal<'static>>,
}

/// Begins the job over a bench that stops. Only calls of the job go through it.
fn begin_stopped<B: Bench>(alloc: Global, seed: u32, scene: &Scene, bench: B) -> Stopped<B>
    requires { IsScene seed scene.now }
    ensures { BeginsOver B.tells B.acts B.state seed (fixture_of scene.now.fixture) bench result.bench (answer_in result.refusal) }
{
    let mut stopping = StopBench::new(bench, scene.made.calls);
    let refusal = refusal_of(begin_job(alloc, &scene.parts(), &mut stopping, &mut Nowhere));
    Stopped {
        bench: stopping,
        refusal,
    }
}

/// Begins the job over a bench that stops, and loses the power.
fn lose(
    alloc: Global,
    seed: u32,
    scene: &Scene,
    bench: MemoryBench,
) -> Result<MemoryBench, OutOfMemory>
    requires scene { IsScene seed scene.now }
    requires fresh { IsFresh seed (bench_of bench) }
    ensures { IfOk result (IsLost seed (fixture_of scene.now.fixture) bench) }
{
    let stopped = begin_stopped(alloc, seed, scene, bench);
    let Stopped { bench, refusal } = stopped;
    if status(&refusal) == NO_MEMORY {
        return Err(OutOfMemory);
    }
    let mut bench = bench.into_inner();
    bench.power_loss(Pick::Filled { value: LOST });
    Ok(bench)
}

/// Resumes the job on what is left.
fn resume(alloc: Global, seed: u32, scene: &Scene, counts: Counts, bench: MemoryBench) -> Demo
    requires scene { IsScene seed scene.now }
    requires counts { IsCounted (device_of (fixture_of scene.now.fixture).algorithm) (plan_of seed (fixture_of scene.now.fixture)) counts }
    ensures { (fresh : MemoryBench) → IsFresh seed (bench_of fresh) → IsLost seed (fixture_of scene.now.fixture) fresh bench → Shows seed fresh result }
{
    let mut bench = bench;
    let refusal = refusal_of(go_on(alloc, Goal::New, &mut bench, &mut Nowhere));
    let lines = DemoLines {
        seed,
        sectors: counts.sectors,
        pages: counts.pages,
        cost: counts.cost,
        calls: scene.made.calls,
        status: status(&refusal),
        same: is_same(bench.cells(), &scene.goal),
    };
    Demo {
        lines,
        refusal,
        bench,
    }
}

/// Whether cells are as wanted.
fn is_same(cells: &[u8], goal: &[u8]) -> bool
    ensures { IsTrue result ↔ (cells.now ≡ goal.now) }
{
    cells == goal
}

/// The refusal of an end, if there is one.
fn refusal_of(end: Result<(), Refusal<'static>>) -> Option<Refusal<'static>>
    ensures { answer_in result ≡ answer_of end.entry }
{
    match end {
        Ok(()) => None,
        Err(refusal) => Some(refusal),
    }
}

/// The status of an end.
fn status(refusal: &Option<Refusal<'_>>) -> u8
    ensures { result ≡ status_in refusal.now }
{
    match refusal {
        None => 0,
        Some(refusal) => refusal.status(),
    }
}
