//! The place of a target in its script.
ghost use Rattle.std.specs.Prelude.{◌≡◌};
ghost use Rattle.flash_session.specs.Regions.{other_than};

use crate::phase::Phase;
use crate::target_end::TargetEnd;
use algo_calls::Call;

/// A region of a board that has one or two regions.
#[derive(Clone, Copy, PartialEq, Eq)]
pub enum RegionIndex {
    First,
    Second,
}

impl RegionIndex {
    /// The other of two regions.
    pub(crate) fn other(self) -> RegionIndex
        ensures { result ≡ other_than self }
    {
        match self {
            RegionIndex::First => RegionIndex::Second,
            RegionIndex::Second => RegionIndex::First,
        }
    }
}

/// The place of a target in its script, between two moves. Each phase belongs to a region.
#[derive(Clone, Copy)]
pub enum Cursor {
    /// Before a phase; if the phase has no calls, before whatever follows it.
    Begin {
        region: RegionIndex,
        phase: Phase,
    },
    /// Loaded, before the phase's Init.
    Init {
        region: RegionIndex,
        phase: Phase,
    },
    /// Among the phase's calls, before the call for this sector or page, or the next one that is planned.
    Calls {
        region: RegionIndex,
        phase: Phase,
        index: u32,
    },
    /// Before the last reset.
    Last,
}

/// The place of a target between two turns.
#[derive(Clone, Copy)]
pub enum Place {
    /// Between two moves of the script.
    At(Cursor),
    /// In a call with `len` bytes and `left` steps of fuel. The next move is at the cursor.
    In {
        call: Call,
        len: u32,
        left: u64,
        next: Cursor,
    },
    /// All moves of the script are made, and the cells before this place are the goal's.
    Comparing {
        at: u32,
    },
    /// The cells are the goal.
    Closing,
    /// The target has ended.
    Ended(TargetEnd),
}

/// The next move of a script.
#[derive(Clone, Copy)]
pub(crate) enum Step {
    /// A phase begins, with a reset and a load.
    Begin {
        region: RegionIndex,
        phase: Phase,
    },
    /// A call with `len` bytes of the goal, from this place on.
    Call {
        call: Call,
        from: u32,
        len: u32,
        next: Cursor,
    },
    /// The last reset.
    Last,
}

/// A call for a sector or a page, with `len` bytes of the region's goal from this place on.
#[derive(Clone, Copy)]
pub(crate) struct Item {
    pub call: Call,
    pub from: u32,
    pub len: u32,
    pub index: u32,
}
