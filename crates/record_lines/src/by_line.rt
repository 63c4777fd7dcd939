//! A text of records, added in the order of its lines.
ghost use Rattle.std.specs.Prelude.{◌≡◌, ◌-◌, ◌^◌, IfSome, IfOk, IfErr, IsSome};
ghost use Rattle.octets.specs.Lines.{lines_of};
ghost use Rattle.record_lines.specs.Format.{IsImageOfText, IsTextFault};

use crate::fault::{LineFault, TextFault};
use crate::reader::RecordFormat;
use byte_map::ByteMap;
use octets::next_line;
use std::alloc::Global;

/// Reads a text of records line by line and answers what `read_records` does, or nothing once there are more than `most` runs.
pub fn read_by_line<S: RecordFormat>(
    alloc: Global,
    text: &[u8],
    most: usize,
) -> Option<Result<ByteMap, TextFault<S::Fault>>>
    ensures ok { IfSome result (λ read. IfOk read (IsImageOfText S.format (lines_of text.now))) }
    ensures err { IfSome result (λ read. IfErr read (IsTextFault S.format (lines_of text.now))) }
    ensures all { most ≡ 2 ^ 64 - 1 → IsSome result }
{
    let mut map = ByteMap::new(alloc);
    let mut known = S::start();
    let mut line: u32 = 0;
    let mut from = 0;
    while from < text.len() {
        if map.runs() > most {
            return None;
        }
        let (start, end, next) = next_line(text, from);
        line = line.saturating_add(1);
        match known.take_line(&mut map, &text[start..end]) {
            Ok(false) => from = next,
            Ok(true) => return Some(Ok(map)),
            Err(LineFault::Refused(fault)) => return Some(Err(TextFault::Line { line, fault })),
            Err(LineFault::OutOfMemory) => return Some(Err(TextFault::OutOfMemory)),
        }
    }
    Some(Err(TextFault::NoEnd { line }))
}
