//! The top call of the flash programmer for one target, from the words of a command line to a status.
#![tactic(auto)]

mod compare;
mod comparison;
mod inspect;
mod plan;
mod top;
mod verify;

pub use demo_job::{Demo, DemoLines, demo_run, made_cells, put_demo};
pub use top::flmprog;
