//! A text of S-records.
ghost use Rattle.std.specs.Prelude.{ℕ, List, IfOk, IfErr};
ghost use Rattle.octets.specs.Lines.{lines_of};
ghost use Rattle.record_lines.specs.Format.{IsImageOfText, IsTextFault};
ghost use Rattle.image_srec.specs.Srec.{srec, IsSrecFault};

use crate::fault::{SrecFault, SrecKind};
use crate::record::Seen;
use byte_map::ByteMap;
use record_lines::{TextFault, read_records};
use std::alloc::Global;

/// Reads S-records. The image is the union of the data records before the first end record; what follows that record is left
/// unread. If the text is refused, the fault is the first one of the first wrong line.
pub fn read_srec(alloc: Global, text: &[u8]) -> Result<ByteMap, SrecFault>
    ensures ok { IfOk result (IsImageOfText srec (lines_of text.now)) }
    ensures err { IfErr result (λ fault. IsSrecFault (lines_of text.now) fault.line fault.kind) }
{
    match read_records::<Seen>(alloc, text) {
        Ok(map) => Ok(map),
        Err(fault) => Err(fault_of(fault)),
    }
}

/// A fault of the text with its line. Out of memory has line 0.
fn fault_of(fault: TextFault<SrecKind>) -> SrecFault
    ensures { (lines : List (List ℕ)) → IsTextFault srec lines fault → IsSrecFault lines result.line result.kind }
{
    match fault {
        TextFault::Line { line, fault } => SrecFault { line, kind: fault },
        TextFault::NoEnd { line } => SrecFault {
            line,
            kind: SrecKind::NoEnd,
        },
        TextFault::OutOfMemory => SrecFault {
            line: 0,
            kind: SrecKind::OutOfMemory,
        },
    }
}
