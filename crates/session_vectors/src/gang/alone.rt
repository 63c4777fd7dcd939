//! A session alone.

use crate::session::carry::{Carried, carry};
use bench_model::MemoryBench;
use flash_session::Goal;
use gang_run::TargetEnd;
use std::alloc::Global;

/// How a target ends, from how its session ended. A job that can't be closed is a fault of its file.
fn end_of(carried: Carried) -> TargetEnd {
    match carried {
        Carried::Refused(fault) => TargetEnd::Open(fault),
        Carried::Unsurveyed(fault) => TargetEnd::Survey(fault),
        Carried::Closed => TargetEnd::Done,
        Carried::Mismatch(difference) => TargetEnd::Mismatch(difference),
        Carried::CallFailed { number, call, end } => TargetEnd::CallFailed { number, call, end },
        Carried::DeviceFault => TargetEnd::DeviceFault,
        Carried::Reached | Carried::Unclosed | Carried::StoreFault => TargetEnd::StoreFault,
    }
}

/// Opens the job of the file, brings the cells to its new goal, and closes the job. Answers the end as that of a target.
pub fn carry_alone(alloc: Global, bench: &mut MemoryBench) -> TargetEnd {
    end_of(carry(alloc, bench, Goal::New))
}
