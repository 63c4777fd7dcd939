//! The call of a gang: the jobs of several benches, by turns, and a line for each.
//!
//! `specs/Gangs` says when each status comes, and what then holds. It gives the lines by the ends, and says for each bench how its file at
//! entry, its end and each moment of the call are related.
#![tactic(auto)]

mod lines;
mod refusals;
mod top;

pub use top::flmgang;
