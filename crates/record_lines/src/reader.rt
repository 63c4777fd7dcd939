//! A text of records: its image, or its first fault.
ghost use Rattle.std.specs.Prelude.{◌≡◌, ◌≤◌, ◌<◌, ◌+◌, ◌-◌, ◌^◌, ℕ, List, IfOk, IfErr};
ghost use Rattle.octets.specs.Lines.{lines_of};
ghost use Rattle.record_lines.specs.Cells.{Cell, IsImageOf};
ghost use Rattle.record_lines.specs.Format.{Format, TakesLine, IsLineFault, IsImageOfText, IsTextFault};

use crate::by_address::read_by_address;
use crate::by_line::read_by_line;
use crate::fault::{LineFault, TextFault};
use byte_map::ByteMap;
use std::alloc::Global;

/// An image of at most this many runs is built line by line. One of more is built in the order of its addresses.
const FEW_RUNS: usize = 64;

/// A format of records. A value holds what is known of the lines that were read.
pub trait RecordFormat: Drop {
    /// A record.
    type Record;
    /// Why a line is refused.
    type Fault: Drop;

    ghost format: { Format Self Self.Record Self.Fault };

    /// How many more lines may be taken.
    ghost room: { Self → ℕ };

    /// What is known before the first line.
    fn start() -> Self
        ensures known { result ≡ format.start }
        ensures room { 2 ^ 64 - 1 ≤ room result };

    /// Takes one line, and answers whether it ends the text.
    fn take_line(&mut self, map: &mut ByteMap, line: &[u8]) -> Result<bool, LineFault<Self::Fault>>
        requires { 0 < room self.old }
        ensures ok { IfOk result (λ ends. (before : List Cell) → IsImageOf before map.old
            → TakesLine format (format.read line.now) before self.old self.new ends map.new) }
        ensures err { IfErr result (λ fault. (before : List Cell) → IsImageOf before map.old
            → IsLineFault format (format.read line.now) before self.old fault) }
        ensures room { room self.old ≤ room self.new + 1 };
}

/// Reads a text of records. The image is the union of the records before the first end record; what follows that record is left
/// unread. If the text is refused, the fault is the first one of the first wrong line.
pub fn read_records<S: RecordFormat>(
    alloc: Global,
    text: &[u8],
) -> Result<ByteMap, TextFault<S::Fault>>
    ensures ok { IfOk result (IsImageOfText S.format (lines_of text.now)) }
    ensures err { IfErr result (IsTextFault S.format (lines_of text.now)) }
{
    if let Some(read) = read_by_line::<S>(alloc, text, FEW_RUNS) {
        return read;
    }
    if let Some(map) = read_by_address::<S>(alloc, text) {
        return Ok(map);
    }
    match read_by_line::<S>(alloc, text, usize::MAX) {
        Some(read) => read,
        None => unreachable!(),
    }
}
