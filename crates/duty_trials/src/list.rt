//! Lists of calls.
ghost use Rattle.std.specs.Prelude.{◌≡◌};

use crate::stand::{Breach, Tried};

/// What the calls of a list between Init and UnInit work on.
#[derive(Clone, Copy)]
pub enum Work {
    /// Sectors, which are erased.
    Sectors,
    /// All sectors, which are erased by one call.
    Chip,
    /// Empty pages, which are programmed.
    Pages,
    /// Pages, which are verified.
    Checks,
}

/// A call of a list.
#[derive(Clone, Copy)]
pub enum Turn {
    /// Init, the first call.
    Init,
    /// The call that works on the sector or page with this number.
    Member(u32),
    /// UnInit, the last call.
    UnInit,
}

/// What the trial of a list shows.
#[derive(Clone, Copy)]
pub enum Ended {
    /// No breach was seen.
    Kept,
    /// A call broke its duty.
    Broken(Turn, Breach),
    /// The bench failed.
    Fault,
}

impl Work {
    ghost use Rattle.duty_trials.specs.Lists.{kind_in};

    /// The number that Init and UnInit get as their function code.
    pub fn kind(self) -> u32
        ensures { result ≡ kind_in self }
    {
        match self {
            Work::Sectors | Work::Chip => 1,
            Work::Pages => 2,
            Work::Checks => 3,
        }
    }
}

impl Ended {
    ghost use Rattle.duty_trials.specs.Ended.{ended_at};

    /// How a list ended, if this turn was tried last.
    pub(crate) fn at(turn: Turn, tried: Tried) -> Ended
        ensures { result ≡ ended_at turn tried }
    {
        match tried {
            Tried::Kept => Ended::Kept,
            Tried::Broken(breach) => Ended::Broken(turn, breach),
            Tried::Fault => Ended::Fault,
        }
    }
}
