//! Quiet ranges: addresses that read as 0 and ignore writes.
ghost use Rattle.std.specs.Prelude.{◌≡◌};

use std::marker::Model;

/// A quiet range: `size` addresses from `base` on, both multiples of 4.
#[derive(Clone, Copy)]
pub struct QuietRange {
    /// The first address.
    pub base: u32,
    /// The number of addresses.
    pub size: u32,
}

/// The quiet ranges of a board, in the order of its text. A contract sees the list of the ranges.
#[derive(Drop)]
pub struct QuietRanges {
    ranges: Vec<QuietRange>,
}

impl Model for QuietRanges {
    ghost use Rattle.std.specs.Prelude.{List};
    ghost use Rattle.board_file.specs.declared.quiet.QuietRange.{QuietRange};

    ghost Value = { List QuietRange };

    ghost view = { λ q. q.ranges.items };
}

impl QuietRanges {
    /// The ranges that `ranges` holds, with no copy.
    pub fn from_vec(ranges: Vec<QuietRange>) -> QuietRanges
        ensures { result ≡ ranges.items }
    {
        QuietRanges { ranges }
    }

    /// The ranges, with no copy.
    pub fn into_vec(self) -> Vec<QuietRange>
        ensures { result.items ≡ self }
    {
        self.ranges
    }

    /// The ranges.
    pub fn as_slice(&self) -> &[QuietRange]
        ensures { result.now ≡ self.now }
    {
        self.ranges.as_slice()
    }
}
