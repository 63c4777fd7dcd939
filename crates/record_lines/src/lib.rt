//! What Intel HEX and Motorola S-records have in common: texts of lines, each a record of hexadecimal digits, whose bytes
//! together are an image.
#![tactic(auto)]

mod by_address;
mod by_line;
mod digits;
mod fault;
mod gathered;
mod law;
mod payload;
mod reader;
mod record_cells;

pub use digits::{all_digits, byte_sum, decode};
pub use fault::{ClashFault, LineFault, TextFault};
pub use law::texts_have_one_reading;
pub use payload::Payload;
pub use reader::{RecordFormat, read_records};
pub use record_cells::lay_cells;
