//! A text of records, added in the order of their addresses. Adding a record to a tree of runs is the faster the nearer it is
//! to the last one.
ghost use Rattle.std.specs.Prelude.{IfSome};
ghost use Rattle.octets.specs.Lines.{lines_of};
ghost use Rattle.record_lines.specs.Format.{IsImageOfText};
ghost use Rattle.record_lines.specs.Gathered.{AreRunsOfText, IsUnionOf};

use crate::gathered::Gathered;
use crate::reader::RecordFormat;
use byte_map::ByteMap;
use octets::next_line;
use std::alloc::Global;

/// Reads a text of records: the image, or nothing if a line is at fault, none ends the text, or memory runs out.
pub fn read_by_address<S: RecordFormat>(alloc: Global, text: &[u8]) -> Option<ByteMap>
    ensures { IfSome result (IsImageOfText S.format (lines_of text.now)) }
{
    let mut gathered = gather::<S>(alloc, text)?;
    gathered.sort().ok()?;
    lay_all(alloc, &gathered)
}

/// The runs of each line before the first end record, or nothing if a line is at fault by itself.
fn gather<S: RecordFormat>(alloc: Global, text: &[u8]) -> Option<Gathered>
    ensures { IfSome result (AreRunsOfText S.format (lines_of text.now)) }
{
    let mut gathered = Gathered::new(alloc);
    let mut known = S::start();
    let mut from = 0;
    while from < text.len() {
        let (start, end, next) = next_line(text, from);
        let mut map = ByteMap::new(alloc);
        match known.take_line(&mut map, &text[start..end]) {
            Ok(false) => gathered.push_runs(&map).ok()?,
            Ok(true) => return Some(gathered),
            Err(_) => return None,
        }
        from = next;
    }
    None
}

/// The union of runs, or nothing if two of them have unequal bytes at one address.
fn lay_all(alloc: Global, runs: &Gathered) -> Option<ByteMap>
    ensures { IfSome result (IsUnionOf runs.now) }
{
    let mut map = ByteMap::new(alloc);
    for index in 0..runs.len() {
        let (at, bytes) = runs.run(index);
        map.lay(at, bytes).ok()?;
    }
    Some(map)
}
