//! How a target ends.
use crate::fault::{SessionFault, SurveyFault};
use algo_calls::{Call, CallEnd};
use readback::Difference;

/// How a target ends.
#[derive(Clone, Copy, Debug, PartialEq, Eq)]
pub enum TargetEnd {
    /// The goal was reached, and the job is closed.
    Done,
    /// The job was not opened.
    Open(SessionFault),
    /// The cells were not surveyed.
    Survey(SurveyFault),
    /// The first call that was not done: its number, counted from 1 over the whole script, and its end, which is `Refused` or `Ended`.
    CallFailed {
        number: u32,
        call: Call,
        end: CallEnd,
    },
    /// All calls were done, but a cell differs from the goal: the first one that does.
    Mismatch(Difference),
    /// A call on the job file failed.
    StoreFault,
    /// A call on the device failed.
    DeviceFault,
}

/// Whether a target has ended.
#[derive(Clone, Copy)]
pub enum Turn {
    /// The target has more turns.
    More,
    /// The target has ended.
    Ended,
}
