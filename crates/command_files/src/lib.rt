//! What the files of a command say: a board, an algorithm for each of its regions where the command has FLM files, and the union of images
//! in the board's regions. Files are refused for reasons in a fixed order. First all files are taken, and then they are read.
//!
//! This crate also defines what a call of the program answers, for every command. The commands' contracts cite it: the four objects of a
//! call, its answer, the counts of faults, and what an early refusal leaves.
#![tactic(auto)]

mod law;
mod take;
mod target_files;
mod wanted;

pub use law::files_say_one_thing;
pub use take::{Files, take_files, take_one};
pub use target_files::{TargetFiles, read_target_files};
pub use wanted::{Wanted, cells_of, read_algorithms, read_files, read_text};
