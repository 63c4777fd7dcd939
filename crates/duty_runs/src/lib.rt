//! The run of one call of a flash algorithm, with marks that show whether every other run goes as the run at hand does.
//!
//! A `Hand` is a target with an algorithm. `Hand::go` puts it in a state between two calls, makes a call step by step, and keeps the marks
//! of registers, RAM, controller and cells. If it says that the call returned, the run is one that the table of a check needs.
#![tactic(auto)]

mod ask;
mod between;
mod go;
mod hand;
mod step;
mod went;

pub use ask::{Ask, Task};
pub use between::Between;
pub use hand::Hand;
pub use went::{Cause, Went};
