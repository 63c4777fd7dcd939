//! Whether a flash algorithm keeps its duties, decided by one run of each call from each state between calls.
//!
//! `why_undecided` searches for the states between the calls of each kind of list. No contract says what this search finds. A last pass then
//! makes each call once from each state, and checks that one of the states allows the target that the call leaves. Where all calls pass, the
//! states and these runs fill the algorithm's table, and every run of every list keeps its duties.
#![tactic(auto)]

mod decide;
mod fits;
mod last;
mod reason;
mod runs;
mod search;
mod table;
mod works;

pub use decide::why_undecided;
pub use reason::{Reason, Why};
