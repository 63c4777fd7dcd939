//! The phases of a script.

/// A phase of the script of a region.
#[derive(Clone, Copy)]
pub enum Phase {
    /// The region's sectors are erased, or the whole chip.
    Erase,
    /// The region's pages are programmed.
    Program,
    /// The region's pages are verified.
    Verify,
}

impl Phase {
    ghost use Rattle.std.specs.Prelude.{◌≡◌};
    ghost use Rattle.flash_session.specs.Script.{kind_of};

    /// The number that Init and UnInit of the phase are given.
    pub fn kind(self) -> u32
        ensures { result ≡ kind_of self }
    {
        match self {
            Phase::Erase => 1,
            Phase::Program => 2,
            Phase::Verify => 3,
        }
    }
}
