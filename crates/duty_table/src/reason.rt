//! Why an algorithm's table isn't filled.

use algo_calls::Call;
use duty_runs::Cause;

/// What keeps a table from being filled.
#[derive(Clone, Copy)]
pub enum Why {
    /// The run of a call decides nothing.
    Run {
        /// The address of the instruction at which the run stopped.
        pc: u32,
        /// Why the run decides nothing.
        cause: Cause,
    },
    /// None of the states allows the target that a call leaves, or there are too many states.
    States,
    /// The empty value of the device isn't FF.
    Empty,
}

/// A call that isn't decided, and why.
#[derive(Clone, Copy)]
pub struct Reason {
    /// The call.
    pub call: Call,
    /// Why it isn't decided.
    pub why: Why,
}
