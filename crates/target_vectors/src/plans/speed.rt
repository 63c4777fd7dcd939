//! One plan for a large device.
ghost use Rattle.std.specs.Prelude.{◌≡◌, length};
ghost use Rattle.erase_planner.specs.Marks.{Covers};

use crate::plans::device::{Item, geometry_of};
use crate::plans::trial::EMPTY;
use anyhow::Result;
use board_file::Weights;
use erase_planner::{Plan, plan_feed, plan_finish, plan_start};
use page_geometry::Geometry;
use std::alloc::Global;

/// How many bytes a plan is fed at a time.
const WINDOW: usize = 4096;

/// Makes the plan for a device of `bytes` bytes, with sectors of 256 bytes and pages of 16, in which every byte changes. Prints its cost.
pub fn plan_all(rt: &HostRuntime, flm: &[u8], bytes: u32) -> Result<()> {
    let item = Item {
        size: 256,
        offset: 0,
    };
    let geometry = geometry_of(rt.alloc(), flm, bytes, 16, &[item])?;
    let cost = cost_of(rt.alloc(), &geometry)?;
    println!(rt;
        "{} sectors, {} pages, cost {cost}",
        geometry.sectors(),
        geometry.pages()
    )?;
    Ok(())
}

/// What the plan costs.
fn cost_of(alloc: Global, geometry: &Geometry) -> Result<u64> {
    let weights = Weights {
        sector: 100,
        page: 10,
        chip: 2000,
    };
    let mut plan = Plan::new(alloc);
    plan.reserve(geometry)?;
    plan_start(geometry, &mut plan);
    feed_all(geometry, &mut plan);
    plan_finish(geometry, &weights, false, &mut plan);
    Ok(plan.cost())
}

/// Feeds a plan with all bytes of the device, a window at a time. Every byte changes.
fn feed_all(geometry: &Geometry, plan: &mut Plan)
    requires making { length plan.old.marks ≡ length geometry.now.pages }
    requires covers { Covers geometry.now plan.old }
    requires none { plan.old.count ≡ 0 }
    ensures making { length plan.new.marks ≡ length geometry.now.pages }
    ensures covers { Covers geometry.now plan.new }
    ensures whole { plan.new.count ≡ geometry.now.size }
{
    let old = [0x5A; WINDOW];
    let want = [0xA5; WINDOW];
    let size = geometry.size() as usize;
    let mut at = 0;
    while at < size {
        let len = WINDOW.min(size - at);
        plan_feed(geometry, EMPTY, &old[..len], &want[..len], plan);
        at += len;
    }
}
