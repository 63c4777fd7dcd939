//! The layout of a flash algorithm in the RAM of a target board.
//!
//! The RAM begins with the return point. Then come the code with its data and zeroed data, the buffer for the bytes of a page, and the
//! stack. `place` says at which addresses, or that the RAM is too small.
#![tactic(auto)]

mod layout;

pub use layout::{Layout, NoRoom, place};
