//! The words of a command line, as `clap` reads them: a command, its addresses and its positional words. The caller decides which of these
//! a command may have, and how many.
#![tactic(auto)]

mod line;
mod parse;

pub use line::{Line, read_line};
pub use parse::LineFault;
