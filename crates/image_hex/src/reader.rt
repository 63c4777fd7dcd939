//! A text of Intel HEX.
ghost use Rattle.std.specs.Prelude.{ℕ, List, IfOk, IfErr};
ghost use Rattle.octets.specs.Lines.{lines_of};
ghost use Rattle.record_lines.specs.Format.{IsImageOfText, IsTextFault};
ghost use Rattle.image_hex.specs.Hex.{hex, IsHexFault};

use crate::fault::{HexFault, HexKind};
use crate::record::Base;
use byte_map::ByteMap;
use record_lines::{TextFault, read_records};
use std::alloc::Global;

/// Reads Intel HEX. The image is the union of the data records before the first end record; what follows that record is left
/// unread. If the text is refused, the fault is the first one of the first wrong line.
pub fn read_hex(alloc: Global, text: &[u8]) -> Result<ByteMap, HexFault>
    ensures ok { IfOk result (IsImageOfText hex (lines_of text.now)) }
    ensures err { IfErr result (λ fault. IsHexFault (lines_of text.now) fault.line fault.kind) }
{
    match read_records::<Base>(alloc, text) {
        Ok(map) => Ok(map),
        Err(fault) => Err(fault_of(fault)),
    }
}

/// A fault of the text with its line. Out of memory has line 0.
fn fault_of(fault: TextFault<HexKind>) -> HexFault
    ensures { (lines : List (List ℕ)) → IsTextFault hex lines fault → IsHexFault lines result.line result.kind }
{
    match fault {
        TextFault::Line { line, fault } => HexFault { line, kind: fault },
        TextFault::NoEnd { line } => HexFault {
            line,
            kind: HexKind::NoEnd,
        },
        TextFault::OutOfMemory => HexFault {
            line: 0,
            kind: HexKind::OutOfMemory,
        },
    }
}
