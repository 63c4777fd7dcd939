//! What the words of a command line ask for: a command with the names of its files, or with its number.
#![tactic(auto)]

mod address;
mod command;
mod fit;
mod law;
mod line;
mod names;

pub use address::read_number;
pub use command::{FileNames, Request, TextForm};
pub use law::words_ask_for_one_command;
pub use line::CommandLine;
pub use names::Names;
