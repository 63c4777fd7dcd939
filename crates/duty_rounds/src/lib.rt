//! Rounds of lists of calls that try the flash algorithms of a board: with which contents, sectors, pages and bytes, and what the lists
//! show together.
#![tactic(auto)]

mod choice;
mod contents;
mod plan;
mod rounds;
mod trial;
mod verdict;

pub use choice::choose;
pub use plan::{Contents, Plan};
pub use rounds::{Progress, Rounds, judge};
pub use verdict::{Broken, Difference, Report, Trials, Verdict};
