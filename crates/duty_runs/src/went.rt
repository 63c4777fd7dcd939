//! How the run of a call went.

use crate::between::Between;
use duty_proofs::CellMark;
use target_core::RunEnd;

/// Why a run decides nothing.
#[derive(Clone, Copy)]
pub enum Cause {
    /// The cells at hand don't fit the marks before the call, or don't exist.
    Cells,
    /// The RAM has no room for the bytes of the call.
    Room,
    /// The PC isn't in the RAM.
    Fetch,
    /// There are no marks after the instruction.
    NoMarks,
    /// An operation isn't in the place of the call, or the call has no place.
    Outside,
    /// The run ended this way.
    Ended(RunEnd),
    /// The call returned with this value, which isn't the value of success.
    Answer {
        /// R0 at the return.
        r0: u32,
    },
    /// The call returned with a value that may differ in other runs.
    AnswerAny,
    /// An operation was open at the return.
    Open,
    /// A cell of the place doesn't have the mark that it needs.
    Cell {
        /// The number of the cell in its place.
        index: u32,
        /// The mark that it has.
        mark: CellMark,
    },
    /// The call didn't return within its fuel, or within the steps allowed here.
    Long,
}

/// How the run of a call went.
#[derive(Drop)]
pub enum Went {
    /// The call returned, and so does every other run of it.
    Back {
        /// The target between this call and the next.
        left: Between,
        /// How many steps each run makes.
        steps: u64,
    },
    /// Nothing is decided.
    Undecided {
        /// The address of the instruction at which the run stopped.
        pc: u32,
        /// Why the run decides nothing.
        why: Cause,
    },
}
