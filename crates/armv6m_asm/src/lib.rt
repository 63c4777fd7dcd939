//! The assembler and the disassembler of Armv6-M.
#![tactic(auto)]

mod assembler;
mod code;
mod destination;
mod fault;
mod find;
mod labels;
mod law;
mod list;
mod number;
mod operands;
mod operation;
mod read;
mod size;
mod statement;
mod symbol;
mod token;

pub use armv6m_forms::{Line, disassemble};
pub use assembler::{align_pads, assemble};
pub use code::Code;
pub use fault::AsmFault;
pub use labels::{Label, Labels};
pub use law::{one_refusal, one_statement_for_each_line, refused_or_assembled};
pub use statement::{Destination, Operation, Statement};
