//! Lists of calls of a flash algorithm, tried on a bench in memory against the duties of the algorithm.
//!
//! A `Subject` is an algorithm for a region of a board. A `Stand` is a target with it, over known cells. `Stand::try_list` makes the calls
//! of a list, and compares each with what the ideal device does. If it reports a breach, the algorithm doesn't keep its duties. If it
//! reports none, nothing more is known.
#![tactic(auto)]

mod ideal;
mod law;
mod list;
mod stand;
mod subject;
mod tally;
mod watch;
mod works;

pub use ideal::{Filling, PageBytes, fill, mix, random_byte};
pub use law::a_breach_refutes;
pub use list::{Ended, Turn, Work};
pub use stand::{Breach, Stand, calls_of};
pub use subject::{Span, Subject};
pub use tally::{Count, Tally};
