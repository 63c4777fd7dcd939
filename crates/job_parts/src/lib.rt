//! The parts of an open job, read out of its job file: the texts as they were stored, and the image and snapshot as files that read back.
#![tactic(auto)]

mod board;
mod copy;
mod giving;
mod hashes;
mod lengths;
mod listing;
mod mended;
mod part;
mod pieces;

pub use giving::give;
pub use mended::MendedBench;
pub use part::{Part, Place};
