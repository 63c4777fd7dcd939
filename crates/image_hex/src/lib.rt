//! Images as Intel HEX.
#![tactic(auto)]

mod data;
mod fault;
mod format;
mod law;
mod reader;
mod record;

pub use fault::{HexFault, HexKind};
pub use law::hex_has_one_reading;
pub use reader::read_hex;
