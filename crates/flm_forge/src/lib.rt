//! Flash algorithms from text: the listings A1 to A7 for a board, and FLM files made from listings (Open-CMSIS-Pack, flash programming
//! algorithms; System V ABI, chapter 4).
#![tactic(auto)]

mod algorithm;
mod device;
mod fault;
mod file;
mod kind;
mod section;
mod sizes;
mod source;
mod symbol;
mod write;

pub use algorithm::{listing, listing_at};
pub use fault::ForgeFault;
pub use file::forge;
pub use kind::Kind;
pub use source::{Listing, Names};
