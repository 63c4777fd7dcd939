//! The demonstration `demo N`, in memory: on a device with old data a job is stopped in the middle, the power is lost, and the job is
//! resumed. The seed N makes the cells, the image and the stop.
#![tactic(auto)]

mod command;
mod draws;
mod first_plan;
mod fixture;
mod lines;
mod made;
mod nowhere;
mod run;
mod scene;

pub use command::demo;
pub use lines::{DemoLines, put_demo};
pub use made::made_cells;
pub use run::{Demo, demo_run};
