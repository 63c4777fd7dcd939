//! A gang of targets.
ghost use Rattle.std.specs.Prelude.{◌≡◌, ◌<◌, ◌≤◌, ℕ, List, All, true, false, length, get_or, IfOk};
ghost use Rattle.gang_run.specs.Gangs.{slot_at, IsGang, AreReady, OneTurn, GivesTurns, GivesRounds, one_round, AllSince, AllKept, Playing, gang_togo};
ghost use Rattle.gang_run.specs.Opening.{AreOpened, AreLookedAt, AreSynced};
ghost use Rattle.gang_run.specs.Slots.{slot_turn, SlotTakes, IsSlotEnd, IsSlotJob};
ghost use Rattle.gang_run.specs.declared.gang.Gang.{Gang};
ghost use Rattle.flash_session.specs.declared.target_end.Turn.TheVariants as a_turn;

use crate::open_slots::add_slot;
use crate::slot::Slot;
use bench_model::Bench;
use faults::OutOfMemory;
use flash_session::{TargetEnd, Turn};
use job_text::Job;
use ram_arena::Arena;
use std::alloc::Global;

/// Targets, with the windows of their RAM.
#[derive(Drop)]
pub struct Gang {
    arena: Arena,
    slots: Vec<Slot>,
}

/// A turn that is asked for: the target that takes it, and the most steps that it may have.
#[derive(Clone, Copy)]
pub struct Asked {
    pub target: usize,
    pub steps: u64,
}

impl Gang {
    /// Opens the job of each bench in order and surveys it to its new goal. It syncs each job file first. A refusal is the end of that
    /// target, except out of memory, which ends the opening. Then `open` makes the RAM of all targets that go on, in one allocation. There
    /// are 1 to 16 benches.
    ///
    /// # Errors
    ///
    /// `OutOfMemory` leaves the files as they were, and the cells too outside the operations that were open.
    pub fn open<B: Bench>(alloc: Global, benches: &mut [B]) -> Result<Gang, OutOfMemory>
        requires some { 1 ≤ length benches.old }
        requires few { length benches.old ≤ 16 }
        ensures opened { IfOk result (λ gang. AreOpened B.Bench benches.old gang benches.new) }
        ensures gang { IfOk result IsGang }
        ensures count { IfOk result (λ gang. length benches.new ≡ length gang.slots.items) }
        ensures ready { IfOk result (λ gang. AreReady B.Bench gang benches.new) }
        ensures looked { AreLookedAt B.Bench benches.old benches.new }
        ensures first { AreSynced B.Bench benches.old benches.new result }
        ensures benches { length benches.new ≡ length benches.old }
    {
        let mut slots = Vec::new(alloc);
        let mut sizes = Vec::new(alloc);
        for index in 0..benches.len() {
            match add_slot(alloc, &mut benches[index], &mut slots, &mut sizes) {
                Ok(()) => {}
                Err(OutOfMemory) => return Err(OutOfMemory),
            }
        }
        let arena = Arena::new(alloc, &sizes)?;
        Ok(Gang { arena, slots })
    }

    /// One turn of a target: while a call runs, its next steps, at most `steps` of them; otherwise one host action. A turn of a target that
    /// has ended changes nothing. A turn touches only the target's own bench and window, and takes no memory.
    pub fn turn<B: Bench>(&mut self, benches: &mut [B], target: usize, steps: u64) -> Turn
        requires gang { IsGang self.old }
        requires count { length benches.old ≡ length self.old.slots.items }
        requires target { target < length benches.old }
        requires steps { 1 ≤ steps }
        requires ready { AreReady B.Bench self.old benches.old }
        ensures result { result ≡ slot_turn (slot_at self.new target) }
        ensures turn { OneTurn B.Bench target self.old benches.old self.new benches.new }
        ensures one { (d : B) → SlotTakes B.tells steps (slot_at self.old target) self.old.arena (B.state (get_or benches.old target d))
            (slot_at self.new target) self.new.arena (B.state (get_or benches.new target d)) }
        ensures gang { IsGang self.new }
        ensures ready { AreReady B.Bench self.new benches.new }
    {
        self.slots[target].turn(&mut self.arena, &mut benches[target], steps);
        self.slots[target].state()
    }

    /// How a target has ended: none exactly where it hasn't.
    pub fn end(&self, target: usize) -> Option<&TargetEnd>
        requires { target < length self.now.slots.items }
        ensures { IsSlotEnd (slot_at self.now target) result }
    {
        self.slots[target].end()
    }

    /// A target's job: none exactly where its end is `Open` or `Survey`. It takes no memory.
    pub fn job(&self, target: usize) -> Option<&Job>
        requires { target < length self.now.slots.items }
        ensures { IsSlotJob (slot_at self.now target) result }
    {
        self.slots[target].job()
    }

    /// Gives the turns that are asked for, in order.
    pub fn turns<B: Bench>(&mut self, benches: &mut [B], asked: &[Asked])
        requires gang { IsGang self.old }
        requires count { length benches.old ≡ length self.old.slots.items }
        requires asked { All (λ x. (x.target < length benches.old) × (1 ≤ x.steps)) asked.now }
        requires ready { AreReady B.Bench self.old benches.old }
        ensures since { AllSince B.Bench self.old benches.old self.new benches.new }
        ensures kept { AllKept B.Bench self.old benches.old self.new benches.new }
        ensures gang { IsGang self.new }
        ensures ready { AreReady B.Bench self.new benches.new }
        ensures count { length benches.new ≡ length benches.old }
        ensures places { length benches.new ≡ length self.new.slots.items }
        ensures gives { GivesTurns B.Bench asked.now self.old benches.old self.new benches.new }
    {
        for next in asked {
            self.turn(benches, next.target, next.steps);
        }
    }

    /// Gives each target a turn, in order. Answers whether one of them still goes on.
    pub fn round<B: Bench>(&mut self, benches: &mut [B], steps: u64) -> bool
        requires gang { IsGang self.old }
        requires count { length benches.old ≡ length self.old.slots.items }
        requires steps { 1 ≤ steps }
        requires ready { AreReady B.Bench self.old benches.old }
        ensures plays { (g : Gang) (first : List B) → Playing B.Bench g first self.old benches.old → Playing B.Bench g first self.new benches.new }
        ensures gives { GivesTurns B.Bench (one_round steps (length benches.old)) self.old benches.old self.new benches.new }
        ensures gang { IsGang self.new }
        ensures ready { AreReady B.Bench self.new benches.new }
        ensures count { length benches.new ≡ length benches.old }
        ensures places { length benches.new ≡ length self.new.slots.items }
        ensures nearer { result ≡ true → gang_togo self.new < gang_togo self.old }
        ensures ended { result ≡ false → (i : ℕ) → i < length benches.old → slot_turn (slot_at self.new i) ≡ a_turn.Ended }
    {
        let mut goes_on = false;
        for target in 0..benches.len() {
            goes_on = still(goes_on, self.turn(benches, target, steps));
        }
        goes_on
    }

    /// Gives rounds until all targets have ended.
    pub fn run<B: Bench>(&mut self, benches: &mut [B], steps: u64)
        requires gang { IsGang self.old }
        requires count { length benches.old ≡ length self.old.slots.items }
        requires steps { 1 ≤ steps }
        requires ready { AreReady B.Bench self.old benches.old }
        ensures since { AllSince B.Bench self.old benches.old self.new benches.new }
        ensures kept { AllKept B.Bench self.old benches.old self.new benches.new }
        ensures gives { GivesRounds B.Bench steps self.old benches.old self.new benches.new }
        ensures gang { IsGang self.new }
        ensures count { length benches.new ≡ length benches.old }
        ensures places { length benches.new ≡ length self.new.slots.items }
        ensures ended { (i : ℕ) → i < length benches.old → slot_turn (slot_at self.new i) ≡ a_turn.Ended }
    {
        'rounds: loop {
            if !self.round(benches, steps) {
                return;
            }
        }
    }

    /// Ends the gang and frees the memory of all its targets.
    pub fn free(self) {}
}

/// Whether this target or one before it goes on.
fn still(goes_on: bool, turn: Turn) -> bool
    ensures more { turn ≡ a_turn.More → result ≡ true }
    ensures ended { turn ≡ a_turn.Ended → result ≡ goes_on }
{
    match turn {
        Turn::More => true,
        Turn::Ended => goes_on,
    }
}
