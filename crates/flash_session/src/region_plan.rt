//! The plans that a player's script is made of.
ghost use Rattle.std.specs.Prelude.{◌≡◌, ◌<◌, ◌^◌, IfSome};
ghost use Rattle.flash_session.specs.Items.{IsSmall};

use crate::cursor::{Item, RegionIndex};
use crate::goal::Goal;
use crate::phase::Phase;
use algo_calls::Call;
use erase_planner::Plan;
use faults::OutOfMemory;
use flm_descriptor::Algorithm;
use page_geometry::Geometry;
use std::alloc::Global;

/// The plan of a region: its sectors and pages, what to erase and program, the address of its first byte, and the place of its first cell.
#[derive(Drop)]
pub struct RegionPlan {
    pub geometry: Geometry,
    pub plan: Plan,
    pub base: u32,
    pub start: u32,
}

/// The work of a session: its goal, and the plan of each region of the board.
#[derive(Drop)]
pub struct SessionWork {
    pub goal: Goal,
    pub first: RegionPlan,
    /// The plan of the second region, if the board has two.
    pub second: Option<RegionPlan>,
}

impl SessionWork {
    ghost use Rattle.std.specs.Prelude.{◌≡◌, IfSome};
    ghost use Rattle.flash_session.specs.Targets.{region_in};

    /// Has no effect. Its contract says the most sectors and pages that each region has.
    pub(crate) fn count(&self)
        ensures first { IsSmall self.now.first }
        ensures second { IfSome self.now.second IsSmall }
    {
        // the clause `limit` of these two calls is used
        let _sectors = self.first.geometry.sectors();
        let _pages = self.first.geometry.pages();
        count_second(&self.second);
    }

    /// The plan of a region.
    pub fn region(&self, region: RegionIndex) -> &RegionPlan
        ensures { result.now ≡ region_in self.now region }
    {
        match (region, &self.second) {
            (RegionIndex::Second, Some(part)) => part,
            (RegionIndex::First, _) | (RegionIndex::Second, None) => &self.first,
        }
    }
}

/// Has no effect. Its contract says the most sectors and pages of a second region, if there is one.
fn count_second(part: &Option<RegionPlan>)
    ensures { IfSome part.now IsSmall }
{
    if let Some(part) = part {
        // the clause `limit` of these two calls is used
        let _sectors = part.geometry.sectors();
        let _pages = part.geometry.pages();
    }
}

/// The value of an erased byte.
fn empty_of(algorithm: &Algorithm) -> u8
    ensures value { result ≡ algorithm.now.device.empty }
    ensures byte { algorithm.now.device.empty < 2 ^ 8 }
{
    algorithm.device.empty
}

impl RegionPlan {
    ghost use Rattle.std.specs.Prelude.{◌≡◌, ◌<◌, ◌≤◌, ◌+◌, ◌^◌, ℕ, List, Bool, true, false, [], length, get_or, IsTrue, is_some, IfOk, MatchOption};
    ghost use Rattle.flm_descriptor.specs.Shown.{shown as algorithm_of};
    ghost use Rattle.algo_calls.specs.Setups.{Setup};
    ghost use Rattle.flash_session.specs.RegionPlans.{IsRegionPlanFor};
    ghost use Rattle.flash_session.specs.Script.{IsRegionWork, has_verify, page_call};
    ghost use Rattle.flash_session.specs.Items.{sectors_on, pages_on, calls_on_phase};
    ghost use Rattle.flash_session.specs.Steps.{IsItem};
    ghost use Rattle.flash_session.specs.Targets.{planned_in};
    ghost use Rattle.flash_session.specs.declared.phase.Phase.TheVariants as stage;

    /// A plan of a region, by the algorithm for the region's device; the first cell is at place `start`. It takes the memory of the plan.
    pub fn new(alloc: Global, algorithm: &Algorithm, start: u32) -> Result<RegionPlan, OutOfMemory>
        ensures part { IfOk result (IsRegionPlanFor (algorithm_of algorithm.now)) }
        ensures place { IfOk result (λ part. part.start ≡ start) }
    {
        // the clause `byte` of this call is used: the value of an erased cell is a byte
        let _empty = empty_of(algorithm);
        let geometry = Geometry::of(alloc, algorithm)?;
        let mut plan = Plan::new(alloc);
        plan.reserve(&geometry)?;
        Ok(RegionPlan {
            geometry,
            plan,
            base: algorithm.device.base,
            start,
        })
    }

    /// The next sector to erase, from this one on.
    fn find_sector(&self, index: u32) -> Option<u32>
        ensures { MatchOption result ((s : Setup) (goal : List ℕ) → sectors_on s self.now goal index ≡ [])
            (λ k. (k < length self.now.geometry.sectors) × (get_or self.now.plan.made.sectors k false ≡ true)
            × ((s : Setup) (goal : List ℕ) → sectors_on s self.now goal index ≡ sectors_on s self.now goal k)) }
    {
        let count = self.geometry.sectors();
        for k in index..count {
            if self.plan.sector_in(k) {
                return Some(k);
            }
        }
        None
    }

    /// The next page to program or verify, from this one on.
    fn find_page(&self, index: u32) -> Option<u32>
        ensures { MatchOption result ((v : Bool) (s : Setup) (goal : List ℕ) → pages_on v s self.now goal index ≡ [])
            (λ k. (k < length self.now.geometry.pages) × (get_or self.now.plan.made.pages k false ≡ true)
            × ((v : Bool) (s : Setup) (goal : List ℕ) → pages_on v s self.now goal index ≡ pages_on v s self.now goal k)) }
    {
        let count = self.geometry.pages();
        for k in index..count {
            if self.plan.page_in(k) {
                return Some(k);
            }
        }
        None
    }

    /// The next call that erases a sector.
    fn sector_item(&self, index: u32) -> Option<Item>
        requires { self.now.base + self.now.geometry.size ≤ 2 ^ 32 }
        ensures { (s : Setup) → IsItem s self.now (sectors_on s self.now) index result }
    {
        // the clauses `lawful` and `limit` of this call are used: a sector ends within the region, and its number is below 2^32
        let _lawful = self.geometry.sectors();
        match self.find_sector(index) {
            None => None,
            Some(index) => {
                let (at, _) = self.geometry.sector(index);
                Some(Item {
                    call: Call::EraseSector { at: self.base + at },
                    from: 0,
                    len: 0,
                    index,
                })
            }
        }
    }

    /// The next call that erases, the chip or a sector.
    fn erase_item(&self, index: u32) -> Option<Item>
        requires { self.now.base + self.now.geometry.size ≤ 2 ^ 32 }
        ensures { (s : Setup) → IsRegionWork s (planned_in self.now) → IsItem s self.now (calls_on_phase stage.Erase s self.now) index result }
    {
        if !self.plan.is_chip() {
            return self.sector_item(index);
        }
        if index == 0 {
            Some(Item {
                call: Call::EraseChip,
                from: 0,
                len: 0,
                index,
            })
        } else {
            None
        }
    }

    /// The call for the page at an address.
    fn call_for(verifies: bool, at: u32) -> Call
        ensures { result ≡ page_call verifies at }
    {
        if verifies {
            Call::Verify { at }
        } else {
            Call::ProgramPage { at }
        }
    }

    /// The next call that programs or verifies a page.
    fn page_item(&self, verifies: bool, index: u32) -> Option<Item>
        requires { self.now.base + self.now.geometry.size ≤ 2 ^ 32 }
        ensures { (s : Setup) → IsRegionWork s (planned_in self.now) → (IsTrue verifies → IsTrue (is_some s.algorithm.entries.verify))
            → IsItem s self.now (pages_on verifies s self.now) index result }
    {
        // the clauses `lawful` and `limit` of this call are used: a page ends within the region, and its number is below 2^32
        let _lawful = self.geometry.pages();
        match self.find_page(index) {
            None => None,
            Some(index) => {
                let (at, len) = self.geometry.page(index);
                Some(Item {
                    call: RegionPlan::call_for(verifies, self.base + at),
                    from: at,
                    len,
                    index,
                })
            }
        }
    }

    /// The next call of a phase, from item `index` on. The algorithm may be unable to verify.
    pub(crate) fn item(&self, can_verify: bool, phase: Phase, index: u32) -> Option<Item>
        requires { self.now.base + self.now.geometry.size ≤ 2 ^ 32 }
        ensures { (s : Setup) → IsRegionWork s (planned_in self.now) → can_verify ≡ has_verify s
            → IsItem s self.now (calls_on_phase phase s self.now) index result }
    {
        match phase {
            Phase::Erase => self.erase_item(index),
            Phase::Program => self.page_item(false, index),
            Phase::Verify => {
                if can_verify {
                    self.page_item(true, index)
                } else {
                    None
                }
            }
        }
    }
}
