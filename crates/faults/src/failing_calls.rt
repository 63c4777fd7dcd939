//! Calls that are to fail by their numbers, as tests want of objects in memory.
ghost use Rattle.std.specs.Prelude.{◌≡◌, ◌≤◌, ◌⊎◌, ◌↔◌, IsTrue, IfOk, false};
ghost use Rattle.faults.specs.Counts.{Rose};
ghost use Rattle.faults.specs.FailingCalls.{unused, IsDue, went, failed};

use crate::{FaultCount, OutOfMemory};
use std::alloc::Global;
use std::marker::Model;

/// Counts calls from 1, and the faults among them. A call is to fail if its number is on a list.
#[derive(Drop)]
pub struct FailingCalls {
    calls: u64,
    fails: Vec<u64>,
    faults: FaultCount,
}

impl Model for FailingCalls {
    ghost use Rattle.std.specs.Prelude.{◌≤◌};
    ghost use Rattle.faults.specs.Counts.{greatest};
    ghost use Rattle.faults.specs.FailingCalls.{Numbered};

    ghost Value = { Numbered };

    ghost view = { λ n. record { calls = n.calls; fails = n.fails.items; faults = n.faults } };

    ghost invariant = { λ n. n.faults ≤ greatest };
}

impl FailingCalls {
    /// No call so far. `fails` are the numbers of the calls, counted from 1, that are to fail.
    pub fn new(alloc: Global, fails: &[u64]) -> Result<FailingCalls, OutOfMemory>
        ensures { IfOk result (λ n. n ≡ unused fails.now) }
    {
        Ok(FailingCalls {
            calls: 0,
            fails: fails.to_vec(alloc)?,
            faults: FaultCount::new(),
        })
    }

    /// Whether the next call is to fail.
    pub fn is_due(&self) -> bool
        ensures { IsTrue result ↔ IsDue self.now }
    {
        self.fails.contains(&self.calls.saturating_add(1))
    }

    /// Counts a call that went through.
    pub fn pass(&mut self)
        ensures { self.new ≡ went self.old }
    {
        self.calls = self.calls.saturating_add(1);
    }

    /// Counts a call that failed.
    pub fn fail(&mut self)
        ensures count { self.new ≡ failed self.old }
        ensures rose { (self.old.faults ≤ self.new.faults) × Rose self.old.faults self.new.faults }
    {
        self.calls = self.calls.saturating_add(1);
        self.faults.raise();
    }

    /// Counts a call and answers whether it goes through. It fails if its number is to fail or there is no room for it.
    pub fn next_goes(&mut self, room: bool) -> bool
        ensures goes { IsTrue result → (self.new ≡ went self.old) × IsTrue room × (IsDue self.old → ⊥) }
        ensures rose { result ≡ false → (self.old.faults ≤ self.new.faults) × Rose self.old.faults self.new.faults }
        ensures fails { result ≡ false → (self.new ≡ failed self.old) × ((room ≡ false) ⊎ IsDue self.old) }
    {
        if self.is_due() || !room {
            self.fail();
            return false;
        }
        self.pass();
        true
    }
}
