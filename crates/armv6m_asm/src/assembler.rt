//! From a text to its code.

ghost use Rattle.std.specs.Prelude.{IfOk, IfErr};
ghost use Rattle.armv6m_asm.specs.Assembly.{AlignPads, IsAssembled, IsRefused};

use crate::code::{Code, write_code};
use crate::fault::AsmFault;
use crate::find::{check_destinations, find_labels};
use crate::read::read_all;
use std::alloc::Global;

/// Assembles a text. Each line is one statement, and the text begins at address 0.
pub fn assemble(alloc: Global, text: &[u8]) -> Result<Code, AsmFault>
    ensures ok { IfOk result (IsAssembled text.now) }
    ensures err { IfErr result (IsRefused text.now) }
{
    let statements = read_all(alloc, text)?;
    let labels = find_labels(alloc, statements.as_slice())?;
    check_destinations(alloc, statements.as_slice(), &labels)?;
    let bytes = write_code(alloc, statements.as_slice(), &labels)?;
    Ok(Code { bytes, labels })
}

/// A law: after an `.align` the place is a multiple of 4, wherever the `.align` stands in a text.
pub fn align_pads()
    ensures { AlignPads }
{}
