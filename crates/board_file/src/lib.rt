//! The description of a target board: where its RAM, its flash and its flash controller are, and the times of
//! the controller. It also gives the speed of the core and the weights of erasing and programming.
//!
//! The text is TOML. `read_board` reads it, and the ranges and limits of the format hold for every `Board`.
#![tactic(auto)]

mod arrays;
mod board;
mod fault;
mod key;
mod kind;
mod law;
mod limits;
mod place;
mod quiet;
mod read;
mod region;
mod rows;
mod sectors;
mod sum;
mod written;

pub use board::{Board, Weights};
pub use fault::BoardFault;
pub use key::{Key, Part};
pub use kind::ControllerKind;
pub use law::{
    boards_have_few_regions, each_place_has_a_sector, each_region_has_its_facts, parts_are_apart,
};
pub use quiet::{QuietRange, QuietRanges};
pub use read::read_board;
pub use region::{Region, Regions};
pub use sectors::{SectorRun, Sectors};
