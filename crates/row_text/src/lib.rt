//! What the rows of test programs contain: bytes and numbers in hexadecimal digits, and lines that are joined by bars.
#![tactic(auto)]

mod digits;
mod lines;

pub use digits::{all_bytes, bytes_of, counted_bytes, number};
pub use lines::lines_of;
