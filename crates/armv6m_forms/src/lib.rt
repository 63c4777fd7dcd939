//! Armv6-M instructions as statements: the mnemonic and the operands of each instruction, and back.
#![tactic(auto)]

mod form;
mod form_data;
mod form_memory;
mod form_of;
mod instruction_of;
mod line;
mod mnemonic;
mod plain;
mod rows;
mod text;
mod word;

pub use form::{Aim, Form, Operands};
pub use form_of::form_at;
pub use instruction_of::{instruction, one_instruction, reach};
pub use line::Line;
pub use mnemonic::Mnemonic;
pub use text::disassemble;
pub use word::{read_branch, read_mnemonic, read_register, read_special};
