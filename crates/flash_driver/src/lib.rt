//! The driver between a flash controller of any kind and the bench. A controller is only its registers, by the trait `Registers`: eight
//! functions that call no bench. `Driver` stands between the core's loads and stores and the bench that has the cells. Nothing else opens,
//! settles or breaks off an operation on the cells.
#![tactic(auto)]

mod driver;
mod erasures;
mod look;
mod place;
mod registers;
mod state;

pub use driver::Driver;
pub use erasures::{all_are, erases_first, erases_sector};
pub use place::Place;
pub use registers::Registers;
pub use state::{Effect, State};
