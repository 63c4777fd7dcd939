//! One device with its old and its wanted contents, and the plan from the old to the wanted ones.
ghost use Rattle.std.specs.Prelude.{◌≡◌, ◌<◌, length};
ghost use Rattle.erase_planner.specs.Marks.{Covers};

use anyhow::{Result, bail};
use board_file::Weights;
use erase_planner::{Plan, plan_feed, plan_finish, plan_into, plan_start};
use page_geometry::Geometry;

/// The value of an erased byte.
pub const EMPTY: u8 = 0xFF;

/// A device, its contents and what a plan is made with.
#[derive(Drop)]
pub struct Trial {
    pub geometry: Geometry,
    pub weights: Weights,
    pub has_chip: bool,
    pub old: Vec<u8>,
    pub want: Vec<u8>,
}

/// The cost of the plan between two contents.
pub fn plan_cost(rt: &HostRuntime, trial: &Trial) -> Result<u64> {
    let plan = plan_whole(rt, trial)?;
    Ok(plan.cost())
}

/// The plan between two contents, made in one call.
fn plan_whole(rt: &HostRuntime, trial: &Trial) -> Result<Plan> {
    let geometry = &trial.geometry;
    let old = trial.old.as_slice();
    let want = trial.want.as_slice();
    if old.len() != geometry.size() as usize || want.len() != old.len() {
        bail!("contents of another length than the device");
    }
    let mut plan = Plan::new(rt.alloc());
    plan.reserve(geometry)?;
    plan_into(
        geometry,
        &trial.weights,
        trial.has_chip,
        old,
        want,
        EMPTY,
        &mut plan,
    );
    Ok(plan)
}

/// The plan between two contents that come in pieces of `piece` bytes.
fn plan_in_pieces(rt: &HostRuntime, trial: &Trial, piece: usize) -> Result<Plan>
    requires { 0 < piece }
{
    let geometry = &trial.geometry;
    let old = trial.old.as_slice();
    let want = trial.want.as_slice();
    if old.len() != geometry.size() as usize || want.len() != old.len() {
        bail!("contents of another length than the device");
    }
    let mut plan = Plan::new(rt.alloc());
    plan.reserve(geometry)?;
    plan_start(geometry, &mut plan);
    feed(geometry, old, want, piece, &mut plan);
    plan_finish(geometry, &trial.weights, trial.has_chip, &mut plan);
    Ok(plan)
}

/// Feeds a plan with both contents, `piece` bytes at a time.
fn feed(geometry: &Geometry, old: &[u8], want: &[u8], piece: usize, plan: &mut Plan)
    requires making { length plan.old.marks ≡ length geometry.now.pages }
    requires covers { Covers geometry.now plan.old }
    requires none { plan.old.count ≡ 0 }
    requires old { length old.now ≡ geometry.now.size }
    requires want { length want.now ≡ length old.now }
    requires piece { 0 < piece }
    ensures making { length plan.new.marks ≡ length geometry.now.pages }
    ensures covers { Covers geometry.now plan.new }
    ensures whole { plan.new.count ≡ geometry.now.size }
{
    let mut at = 0;
    while at < old.len() {
        let len = piece.min(old.len() - at);
        plan_feed(
            geometry,
            EMPTY,
            &old[at..at + len],
            &want[at..at + len],
            plan,
        );
        at += len;
    }
}

/// Whether two plans for one device are the same.
fn is_same(geometry: &Geometry, a: &Plan, b: &Plan) -> bool {
    a.is_chip() == b.is_chip()
        && a.cost() == b.cost()
        && (0..geometry.sectors()).all(|sector| a.sector_in(sector) == b.sector_in(sector))
        && (0..geometry.pages()).all(|page| a.page_in(page) == b.page_in(page))
}

/// Whether a plan is the same where the contents come in pieces.
fn is_planned(rt: &HostRuntime, trial: &Trial, plan: &Plan, piece: usize) -> Result<bool>
    requires { 0 < piece }
{
    let other = plan_in_pieces(rt, trial, piece)?;
    Ok(is_same(&trial.geometry, plan, &other))
}

/// Fails where the plan differs once the contents come in pieces of 100 bytes or of 1.
fn expect_same(rt: &HostRuntime, name: &str, trial: &Trial, plan: &Plan) -> Result<()> {
    if !is_planned(rt, trial, plan, 100)? || !is_planned(rt, trial, plan, 1)? {
        bail!("{name}: another plan from pieces");
    }
    Ok(())
}

/// Prints the sectors that a plan erases.
fn put_sectors(rt: &HostRuntime, geometry: &Geometry, plan: &Plan) -> Result<()> {
    for index in 0..geometry.sectors() {
        if plan.sector_in(index) {
            let (place, len) = geometry.sector(index);
            println!(rt; "  erase {place} {len}")?;
        }
    }
    Ok(())
}

/// Prints the pages that a plan programs.
fn put_pages(rt: &HostRuntime, geometry: &Geometry, plan: &Plan) -> Result<()> {
    for index in 0..geometry.pages() {
        if plan.page_in(index) {
            let (place, len) = geometry.page(index);
            println!(rt; "  program {place} {len}")?;
        }
    }
    Ok(())
}

/// Prints what a plan costs.
fn put_cost(rt: &HostRuntime, plan: &Plan) -> Result<()> {
    let nothing = if plan.is_empty() {
        ", nothing to do"
    } else {
        ""
    };
    println!(rt; "  cost {}{nothing}", plan.cost())?;
    Ok(())
}

/// Prints a plan.
fn put_plan(rt: &HostRuntime, name: &str, geometry: &Geometry, plan: &Plan) -> Result<()> {
    println!(rt;
        "{name}: {} sectors, {} pages",
        geometry.sectors(),
        geometry.pages()
    )?;
    if plan.is_chip() {
        println!(rt; "  erase chip")?;
    }
    put_sectors(rt, geometry, plan)?;
    put_pages(rt, geometry, plan)?;
    put_cost(rt, plan)
}

/// Prints the plan of a trial. It must be the same where the contents come in pieces of 100 bytes and of 1.
pub fn show_plan(rt: &HostRuntime, name: &str, trial: &Trial) -> Result<()> {
    let plan = plan_whole(rt, trial)?;
    put_plan(rt, name, &trial.geometry, &plan)?;
    expect_same(rt, name, trial, &plan)
}
