//! Images as Motorola S-records.
#![tactic(auto)]

mod fault;
mod format;
mod law;
mod reader;
mod record;

pub use fault::{SrecFault, SrecKind};
pub use law::srec_has_one_reading;
pub use reader::read_srec;
