//! The commands that work on a job. `program` begins one and carries it to its image, and `begin` only begins it; `resume` and `revert`
//! continue the job in the file. The contracts say when each answer comes, what it leaves in file and cells and on `out`, and what a stop
//! at any moment leaves.
#![tactic(auto)]

mod carry;
mod first_commands;
mod job_begin;
mod later_commands;
mod places;
mod put_plans;
mod refusals;
mod start;

pub use first_commands::{begin, program};
pub use job_begin::begin_job;
pub use later_commands::go_on;
pub use places::find_address;
pub use refusals::{session_refusal, survey_refusal};
