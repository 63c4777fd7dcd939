//! The Armv6-M instructions: the table of their encodings, in `specs/Table.antt`; the decoder, which is proved to agree with that table;
//! and the addresses that instructions give by their distance from the PC. No call takes memory.
#![tactic(auto)]

mod branches;
mod condition;
mod data;
mod decode;
pub mod instr;
mod memory;
mod miscellaneous;
mod pairs;
pub mod registers;
pub mod targets;

pub use condition::Condition;
pub use decode::{decode16, one_pair_row, one_row};
pub use instr::{Alu, Branch, Decoded, Instr, Many, Memory, Other};
pub use pairs::decode32;
