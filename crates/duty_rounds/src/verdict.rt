//! What lists of calls show of algorithms.
ghost use Rattle.std.specs.Prelude.{◌≡◌, ◌↔◌, IsTrue};

use crate::plan::Plan;
use duty_trials::{Breach, Tally, Turn};

/// A cell that differs from what the ideal device leaves: its place among all cells, the wanted byte, and the found one.
#[derive(Clone, Copy)]
pub struct Difference {
    pub place: usize,
    pub wanted: u8,
    pub found: u8,
}

/// A breach: the region of the board, the list, the seed of its contents and bytes, the call, how it broke, and the first cell that differs
/// after the call.
#[derive(Clone, Copy)]
pub struct Broken {
    pub region: usize,
    pub plan: Plan,
    pub seed: u64,
    pub turn: Turn,
    pub breach: Breach,
    pub difference: Option<Difference>,
}

/// What is known of algorithms.
#[derive(Clone, Copy)]
pub enum Verdict {
    /// The algorithms keep their duties, by a theorem.
    Proved,
    /// No list that was tried broke a duty.
    Tried,
    /// One algorithm doesn't keep its duties.
    Broken(Broken),
}

/// What is known of one algorithm, how many lists were tried, and what their calls took.
#[derive(Clone, Copy)]
pub struct Trials {
    pub verdict: Verdict,
    pub lists: u64,
    pub tally: Tally,
}

/// What is known of the algorithms of a board, and of each that was tried, in the order of the regions.
#[derive(Drop)]
pub struct Report {
    pub verdict: Verdict,
    pub trials: Vec<Trials>,
}

impl Verdict {
    ghost use Rattle.duty_rounds.specs.Verdicts.{IsBroken, beside};

    /// Whether a verdict is a breach.
    pub fn is_broken(&self) -> bool
        ensures { IsTrue result ↔ IsBroken self.now }
    {
        matches!(self, Verdict::Broken(_))
    }

    /// The verdict of several algorithms together, from that of the ones before and that of one more.
    pub(crate) fn beside(self, other: Verdict) -> Verdict
        ensures { result ≡ beside self other }
    {
        match (self, other) {
            (Verdict::Proved, own) => own,
            (Verdict::Tried, Verdict::Broken(broken)) => Verdict::Broken(broken),
            (Verdict::Tried, _) => Verdict::Tried,
            (Verdict::Broken(broken), _) => Verdict::Broken(broken),
        }
    }
}

impl Report {
    /// How many lists were tried.
    pub fn lists(&self) -> u64 {
        let mut lists: u64 = 0;
        for trials in &self.trials {
            lists = lists.saturating_add(trials.lists);
        }
        lists
    }

    /// How many calls were made.
    pub fn calls(&self) -> u64 {
        let mut calls: u64 = 0;
        for trials in &self.trials {
            calls = calls.saturating_add(trials.tally.calls());
        }
        calls
    }
}
