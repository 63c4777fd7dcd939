//! The texts that the flash programmer prints, each put on a sink: a plan, the line of a region, a job, an inspection, an end, a refusal
//! and the line of one of many targets. No call takes memory.
#![tactic(auto)]

mod board_reason;
mod call_reason;
mod end;
mod image_reason;
mod inspection;
mod job;
mod pieces;
mod plan;
mod reason;
mod refusal;
mod region;
mod target;

pub use end::{End, put_end};
pub use inspection::put_inspection;
pub use job::put_job;
pub use plan::put_plan;
pub use refusal::{Refusal, put_refusal};
pub use region::put_region;
pub use target::put_target;
