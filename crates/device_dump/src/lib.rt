//! `dump FORM BOARD`: the cells of a device as a text that any tool reads.
#![tactic(auto)]

mod cell_survey;
mod cells;
mod law;
mod text;

pub use cell_survey::survey;
pub use law::dumps_are_read_as_their_cells;
pub use text::dump;
