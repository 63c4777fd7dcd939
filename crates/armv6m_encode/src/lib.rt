//! The encoder: from Armv6-M instructions to their code. It takes no memory.
#![tactic(auto)]

mod alu;
mod branch;
mod code;
mod many;
mod memory;
mod other;
mod pairs;

pub use code::{Encoding, encode, has_encoding};
