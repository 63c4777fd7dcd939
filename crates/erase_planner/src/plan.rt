//! A plan, and making it.
ghost use Rattle.std.specs.Prelude.{◌≡◌, ℕ, ◌+◌, ◌<◌, ◌≤◌, List, [], ◌++◌, length, get_or, false, true, ◌↔◌, IsTrue, OnOk, vec_capacity};
ghost use Rattle.erase_planner.specs.Plans.{IsLeastPlan, IsEmptyPlan, made_of, nothing};
ghost use Rattle.erase_planner.specs.Marks.{Fed, Covers, SpareStays};

use crate::choose::choose;
use crate::marks::{Mark, feed_marks, start_marks};
use board_file::Weights;
use faults::OutOfMemory;
use page_geometry::Geometry;
use std::alloc::{AllocError, Global};
use std::marker::Model;

/// What to erase and program: the whole chip or a set of sectors, then a set of pages with the bytes wanted of them. A plan is made, or it
/// is in the making between `plan_start` and `plan_finish`.
#[derive(Drop)]
pub struct Plan {
    chip: bool,
    sectors: Vec<bool>,
    pages: Vec<bool>,
    cost: u64,
    marks: Vec<Mark>,
    fed: u32,
}

impl Model for Plan {
    ghost use Rattle.std.specs.Prelude.{min, vec_capacity};
    ghost use Rattle.erase_planner.specs.Plans.{made_of};
    ghost use Rattle.erase_planner.specs.Marks.{PlanView};

    ghost Value = { PlanView };

    ghost view = { λ p. record {
      made = made_of p.chip p.sectors.items p.pages.items p.cost;
      marks = p.marks.items;
      count = p.fed;
      sectors_spare = vec_capacity p.sectors;
      pages_spare = min (vec_capacity p.pages) (vec_capacity p.marks);
    } };
}

impl Plan {
    /// A plan that asks for nothing, with room for no sector and no page.
    pub fn new(alloc: Global) -> Plan
        ensures made { result.made ≡ nothing }
        ensures marks { result.marks ≡ [] }
    {
        Plan {
            chip: false,
            sectors: Vec::new(alloc),
            pages: Vec::new(alloc),
            cost: 0,
            marks: Vec::new(alloc),
            fed: 0,
        }
    }

    /// Makes room for the sectors and pages of a device, so that making a plan takes no memory.
    pub fn reserve(&mut self, geometry: &Geometry) -> Result<(), OutOfMemory>
        ensures covers { OnOk result (Covers geometry.now self.new) }
        // The plan itself stays, whatever the result.
        ensures made { self.new.made ≡ self.old.made }
        ensures marks { self.new.marks ≡ self.old.marks }
        ensures count { self.new.count ≡ self.old.count }
        ensures spare { SpareStays self.old self.new }
    {
        reserve_in_all(&mut self.sectors, geometry.sectors())?;
        reserve_in_all(&mut self.pages, geometry.pages())?;
        reserve_in_all(&mut self.marks, geometry.pages())?;
        Ok(())
    }

    /// Whether the sector is in the set of sectors to erase. That set is empty if the chip is erased.
    pub fn sector_in(&self, index: u32) -> bool
        ensures { result ≡ get_or self.now.made.sectors index false }
    {
        (index as usize) < self.sectors.len() && self.sectors[index as usize]
    }

    /// Whether the page is in the set of pages to program.
    pub fn page_in(&self, index: u32) -> bool
        ensures { result ≡ get_or self.now.made.pages index false }
    {
        (index as usize) < self.pages.len() && self.pages[index as usize]
    }

    /// Whether the whole chip is erased.
    pub fn is_chip(&self) -> bool
        ensures { result ≡ self.now.made.chip }
    {
        self.chip
    }

    /// Whether the plan asks for nothing.
    pub fn is_empty(&self) -> bool
        ensures { IsTrue result ↔ IsEmptyPlan self.now.made }
    {
        is_nothing(self.chip, &self.sectors, &self.pages)
    }

    /// The cost of the plan, in the unit of the weights.
    pub fn cost(&self) -> u64
        ensures { result ≡ self.now.made.cost }
    {
        self.cost
    }
}

/// Begins a plan, with no byte fed.
pub fn plan_start(geometry: &Geometry, plan: &mut Plan)
    requires { Covers geometry.now plan.old }
    ensures fed { (empty : ℕ) → Fed geometry.now empty plan.new [] [] }
    ensures making { length plan.new.marks ≡ length geometry.now.pages }
    ensures count { plan.new.count ≡ 0 }
    ensures made { plan.new.made ≡ nothing }
    ensures spare { SpareStays plan.old plan.new }
{
    plan.chip = false;
    plan.cost = 0;
    plan.fed = 0;
    plan.sectors.clear();
    plan.pages.clear();
    start_marks(geometry.pages(), &mut plan.marks);
}

/// Feeds a plan in the making with the next bytes: the old ones and the wanted ones. `empty` is the value of an erased byte; it is the same
/// at each call.
pub fn plan_feed(geometry: &Geometry, empty: u8, old: &[u8], want: &[u8], plan: &mut Plan)
    requires making { length plan.old.marks ≡ length geometry.now.pages }
    requires same { length old.now ≡ length want.now }
    requires room { plan.old.count + length old.now ≤ geometry.now.size }
    ensures fed { (o w : List ℕ) → Fed geometry.now empty plan.old o w → Fed geometry.now empty plan.new (o ++ old.now) (w ++ want.now) }
    ensures making { length plan.new.marks ≡ length geometry.now.pages }
    ensures count { plan.new.count ≡ plan.old.count + length old.now }
    ensures made { plan.new.made ≡ plan.old.made }
    ensures spare { SpareStays plan.old plan.new }
{
    // the clause `limit` of this call is used: the number of the device's bytes is a u32
    let _size = geometry.size();
    feed_marks(geometry, empty, plan.fed, old, want, &mut plan.marks);
    plan.fed += old.len() as u32;
}

/// Finishes a plan in the making, after all bytes of the device were fed: it is the plan with the least cost.
pub fn plan_finish(geometry: &Geometry, weights: &Weights, has_chip: bool, plan: &mut Plan)
    requires covers { Covers geometry.now plan.old }
    requires making { length plan.old.marks ≡ length geometry.now.pages }
    requires whole { plan.old.count ≡ geometry.now.size }
    ensures least { (empty : ℕ) (o w : List ℕ) → Fed geometry.now empty plan.old o w → IsLeastPlan geometry.now weights.now has_chip empty o w plan.new.made }
    ensures entry { IsTrue plan.new.made.chip → IsTrue has_chip }
    ensures marks { plan.new.marks ≡ [] }
    ensures spare { SpareStays plan.old plan.new }
{
    // the clause `lawful` of this call is used: with these sectors and pages the plan has the least cost
    let _lawful = geometry.pages();
    let (chip, cost) = choose(
        geometry,
        weights,
        has_chip,
        &plan.marks,
        &mut plan.sectors,
        &mut plan.pages,
    );
    plan.chip = chip;
    plan.cost = cost;
    plan.marks.clear();
    plan.fed = 0;
}

/// Makes the plan with the least cost that leads from the old contents to the wanted ones. `has_chip` says whether the algorithm can erase
/// the chip; `empty` is the value of an erased byte.
pub fn plan_into(
    geometry: &Geometry,
    weights: &Weights,
    has_chip: bool,
    old: &[u8],
    want: &[u8],
    empty: u8,
    plan: &mut Plan,
)
    requires covers { Covers geometry.now plan.old }
    requires old { length old.now ≡ geometry.now.size }
    requires want { length want.now ≡ geometry.now.size }
    ensures least { IsLeastPlan geometry.now weights.now has_chip empty old.now want.now plan.new.made }
    ensures entry { IsTrue plan.new.made.chip → IsTrue has_chip }
    ensures spare { SpareStays plan.old plan.new }
{
    plan_start(geometry, plan);
    plan_feed(geometry, empty, old, want, plan);
    plan_finish(geometry, weights, has_chip, plan);
}

/// Makes room for `count` items in all.
fn reserve_in_all<T>(items: &mut Vec<T>, count: u32) -> Result<(), AllocError>
    ensures room { OnOk result (count ≤ vec_capacity items.new) }
    ensures items { items.new.items ≡ items.old.items }
    ensures spare { vec_capacity items.old ≤ vec_capacity items.new }
{
    let missing = (count as usize).saturating_sub(items.len());
    items.reserve(missing)
}

/// Whether no element of the set is true.
fn is_none(set: &[bool]) -> bool
    ensures { IsTrue result ↔ ((k : ℕ) → get_or set.now k false ≡ false) }
{
    for one in set {
        if *one {
            return false;
        }
    }
    true
}

/// Whether a plan with these sets asks for nothing.
fn is_nothing(chip: bool, sectors: &[bool], pages: &[bool]) -> bool
    ensures { IsTrue result ↔ IsEmptyPlan (made_of chip sectors.now pages.now 0) }
{
    if chip {
        return false;
    }
    if !is_none(sectors) {
        return false;
    }
    is_none(pages)
}
