//! The operation that runs, and what it leaves in its cells.
ghost use Rattle.std.specs.Prelude.{◌≡◌};
ghost use Rattle.flash_layout.specs.Work.{work_len, unit_work};

/// What an operation leaves in its cells.
#[derive(Clone, Copy)]
pub enum Work {
    /// The two bytes of a stored halfword, the low one first.
    Half {
        /// The halfword.
        value: u32,
    },
    /// The four bytes of a stored word, the low one first.
    Word {
        /// The word.
        value: u32,
    },
    /// Cells that all hold one byte.
    Fill {
        /// How many cells.
        len: u32,
        /// The byte.
        value: u8,
    },
}

/// An operation that runs.
#[derive(Clone, Copy)]
pub struct Operation {
    /// What the operation leaves.
    pub work: Work,
    /// The place of the operation's first cell.
    pub place: u32,
    /// The ticks that are left.
    pub ticks: u32,
}

impl Work {
    /// How many cells the operation covers.
    pub fn len(&self) -> u32
        ensures { result ≡ work_len self.now }
    {
        match self {
            Work::Half { value: _ } => 2,
            Work::Word { value: _ } => 4,
            Work::Fill { len, value: _ } => *len,
        }
    }
}

/// What storing a unit leaves: a halfword for a width of 2, else a word.
pub fn unit_work(width: u32, value: u32) -> Work
    ensures { result ≡ unit_work width value }
{
    if width == 2 {
        Work::Half { value }
    } else {
        Work::Word { value }
    }
}
