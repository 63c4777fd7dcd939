//! Drives several targets by turns, each with its own bench, over the windows of one arena.
//!
//! `specs/Gangs` says what a turn does to a gang and to its benches, and what any list of turns does. The laws say that each target ends as
//! it could alone, after any list of turns.
#![tactic(auto)]

mod gang;
mod law;
mod open_slots;
mod slot;
mod target;

pub use flash_session::{TargetEnd, Turn};
pub use gang::{Asked, Gang};
pub use law::{jobs_are_lent, targets_end_as_alone, turns_begin, turns_go_on};
