//! What the first plan of a demonstration erases and programs, in numbers.
ghost use Rattle.std.specs.Prelude.{◌≡◌, IfOk};
ghost use Rattle.algo_calls.specs.Duties.{device_of};
ghost use Rattle.flm_descriptor.specs.Shown.{shown as flm_shown};
ghost use Rattle.demo_job.specs.Plan.{erased, programmed};
ghost use Rattle.demo_job.specs.Run.{plan_of};
ghost use Rattle.demo_job.specs.Scene.{IsScene, fixture_of, IsCounted};

use crate::made::SECTORS;
use crate::scene::Scene;
use erase_planner::{Plan, plan_into};
use faults::OutOfMemory;
use flm_descriptor::Algorithm;
use page_geometry::Geometry;
use std::alloc::Global;

/// How many sectors a plan erases, how many pages it programs, and what it costs.
#[derive(Clone, Copy)]
pub(crate) struct Counts {
    pub(crate) sectors: u32,
    pub(crate) pages: u32,
    pub(crate) cost: u64,
}

/// The counts of the plan that is chosen from the cells of a scene to its goal.
pub(crate) fn first_plan(alloc: Global, seed: u32, scene: &Scene) -> Result<Counts, OutOfMemory>
    requires { IsScene seed scene.now }
    ensures { IfOk result (IsCounted (device_of (flm_shown scene.now.fixture.algorithm)) (plan_of seed (fixture_of scene.now.fixture))) }
{
    let geometry = Geometry::of(alloc, &scene.fixture.algorithm)?;
    let plan = choose(alloc, seed, scene, &geometry)?;
    Ok(Counts {
        sectors: sectors(&geometry, &plan),
        pages: pages(&geometry, &plan),
        cost: plan.cost(),
    })
}

/// The plan that is chosen from the cells of a scene to its goal.
fn choose(alloc: Global, seed: u32, scene: &Scene, geometry: &Geometry) -> Result<Plan, OutOfMemory>
    requires scene { IsScene seed scene.now }
    requires geometry { geometry.now ≡ device_of (flm_shown scene.now.fixture.algorithm) }
    ensures { IfOk result (λ plan. plan.made ≡ plan_of seed (fixture_of scene.now.fixture)) }
{
    let mut plan = Plan::new(alloc);
    plan.reserve(geometry)?;
    let algorithm: &Algorithm = &scene.fixture.algorithm;
    plan_into(
        geometry,
        &scene.fixture.board.weights,
        algorithm.entries.erase_chip.is_some(),
        &scene.made.cells,
        &scene.goal,
        algorithm.device.empty,
        &mut plan,
    );
    Ok(plan)
}

/// How many sectors a plan erases: all of them where it erases the chip.
#[tactic(auto, unfolding(crate::specs::Plan::erased))]
fn sectors(geometry: &Geometry, plan: &Plan) -> u32
    ensures { result ≡ erased geometry.now plan.now.made }
{
    if plan.is_chip() {
        return SECTORS;
    }
    let mut count = 0;
    for index in 0..geometry.sectors() {
        if plan.sector_in(index) {
            count += 1;
        }
    }
    count
}

/// How many pages a plan programs.
#[tactic(auto, unfolding(crate::specs::Plan::programmed))]
fn pages(geometry: &Geometry, plan: &Plan) -> u32
    ensures { result ≡ programmed geometry.now plan.now.made }
{
    let mut count = 0;
    for index in 0..geometry.pages() {
        if plan.page_in(index) {
            count += 1;
        }
    }
    count
}
