//! How many steps calls took.
ghost use Rattle.std.specs.Prelude.{◌≡◌};

use algo_calls::Call;

/// The calls of one function: how many, the most steps that one took, and the steps that its time-out allows.
#[derive(Clone, Copy, Default)]
pub struct Count {
    pub calls: u64,
    pub most: u64,
    pub allowed: u64,
}

/// The calls of each function.
#[derive(Clone, Copy, Default)]
pub struct Tally {
    pub init: Count,
    pub uninit: Count,
    pub erase_sector: Count,
    pub erase_chip: Count,
    pub program_page: Count,
    pub verify: Count,
}

impl Count {
    ghost use Rattle.duty_trials.specs.Tallies.{joined};

    /// These calls and other calls of the same function together.
    pub fn with(self, other: Count) -> Count
        ensures { result ≡ joined self other }
    {
        Count {
            calls: self.calls.saturating_add(other.calls),
            most: self.most.max(other.most),
            allowed: self.allowed.max(other.allowed),
        }
    }
}

impl Tally {
    ghost use Rattle.std.specs.Prelude.{◌-◌, ◌^◌, min};
    ghost use Rattle.duty_trials.specs.Tallies.{noted, calls_in, both};

    /// Counts a call.
    pub fn note(&mut self, call: &Call, steps: u64, allowed: u64)
        ensures { self.new ≡ noted self.old call.now steps allowed }
    {
        let one = Count {
            calls: 1,
            most: steps,
            allowed,
        };
        match call {
            Call::Init { .. } => self.init = self.init.with(one),
            Call::UnInit { .. } => self.uninit = self.uninit.with(one),
            Call::EraseSector { .. } => self.erase_sector = self.erase_sector.with(one),
            Call::EraseChip => self.erase_chip = self.erase_chip.with(one),
            Call::ProgramPage { .. } => self.program_page = self.program_page.with(one),
            Call::Verify { .. } => self.verify = self.verify.with(one),
        }
    }

    /// How many calls a tally has. The number stops at 2^64 - 1.
    pub fn calls(&self) -> u64
        ensures { result ≡ min (calls_in self.now) (2 ^ 64 - 1) }
    {
        self.init
            .calls
            .saturating_add(self.uninit.calls)
            .saturating_add(self.erase_sector.calls)
            .saturating_add(self.erase_chip.calls)
            .saturating_add(self.program_page.calls)
            .saturating_add(self.verify.calls)
    }

    /// These calls and others together.
    pub fn with(self, other: Tally) -> Tally
        ensures { result ≡ both self other }
    {
        Tally {
            init: self.init.with(other.init),
            uninit: self.uninit.with(other.uninit),
            erase_sector: self.erase_sector.with(other.erase_sector),
            erase_chip: self.erase_chip.with(other.erase_chip),
            program_page: self.program_page.with(other.program_page),
            verify: self.verify.with(other.verify),
        }
    }
}
