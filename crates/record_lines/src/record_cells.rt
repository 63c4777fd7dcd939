//! The bytes of a record added to the image of those before it.
ghost use Rattle.std.specs.Prelude.{◌≡◌, ◌+◌, ◌≤◌, ◌^◌, ◌++◌, List, None, length, OnOk, IfErr};
ghost use Rattle.record_lines.specs.Cells.{Cell, cells_from, first_clash, IsImageOf};
ghost use Rattle.record_lines.specs.Clashes.{IsClashFault};

use crate::fault::ClashFault;
use byte_map::{ByteMap, LayFault};

/// Adds `bytes` from `at` on to an image, unless they clash with a byte that it has.
/// Otherwise it answers the first clash, or out of memory.
pub fn lay_cells(map: &mut ByteMap, at: u32, bytes: &[u8]) -> Result<(), ClashFault>
    requires { at + length bytes.now ≤ 2 ^ 32 }
    ensures ok { OnOk result ((before : List Cell) → IsImageOf before map.old → (first_clash before (cells_from at bytes.now) ≡ None)
        × IsImageOf (cells_from at bytes.now ++ before) map.new) }
    ensures err { IfErr result (λ fault. (before : List Cell) → IsImageOf before map.old → IsClashFault fault (first_clash before (cells_from at bytes.now))) }
{
    match map.lay(at, bytes) {
        Ok(()) => Ok(()),
        Err(LayFault::Conflict { at, old, new }) => Err(ClashFault::Conflict { at, old, new }),
        Err(LayFault::PastEnd { .. }) => unreachable!(),
        Err(LayFault::OutOfMemory) => Err(ClashFault::OutOfMemory),
    }
}
