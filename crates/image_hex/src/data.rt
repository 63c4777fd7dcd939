//! The bytes of a data record.
ghost use Rattle.std.specs.Prelude.{◌≡◌, ◌+◌, ◌-◌, ◌≤◌, ◌<◌, ◌^◌, ◌++◌, ℕ, List, None, length, OnOk, IfErr};
ghost use Rattle.record_lines.specs.Cells.{Cell, first_clash, IsImageOf};
ghost use Rattle.record_lines.specs.Clashes.{IsClashFault};
ghost use Rattle.image_hex.specs.Hex.{address_of, data_cells};

use crate::record::Base;
use byte_map::ByteMap;
use record_lines::{ClashFault, lay_cells};

/// How many addresses there are, and how many a segment has.
const ADDRESSES: u64 = 1 << 32;

const SEGMENT: u64 = 1 << 16;

/// Where the bytes of a data record go. Their addresses may wrap once.
#[derive(Clone, Copy)]
struct Way {
    /// The address of the first byte.
    first: u32,
    /// How many bytes have addresses that follow one another from `first` on.
    room: u64,
    /// The address of the byte after those.
    low: u32,
}

/// Where the bytes at an offset from a base go.
fn way_behind(base: Base, offset: u16) -> Way
    ensures straight { (k : ℕ) → k < result.room → address_of base (offset + k) ≡ result.first + k }
    ensures wrapped { (k : ℕ) → k < 256 → address_of base (offset + (result.room + k)) ≡ result.low + k }
    ensures fits { result.first + result.room ≤ 2 ^ 32 }
    ensures lower { result.low ≤ result.first }
    ensures apart { result.low + 65536 ≤ result.first + result.room }
{
    match base {
        Base::Upper(half) => {
            let first = u32::from(half) * 65536 + u32::from(offset);
            Way {
                first,
                room: ADDRESSES - u64::from(first),
                low: 0,
            }
        }
        Base::Segment(segment) => {
            let low = u32::from(segment) * 16;
            Way {
                first: low + u32::from(offset),
                room: SEGMENT - u64::from(offset),
                low,
            }
        }
    }
}

/// Adds the bytes of a data record to an image.
pub fn lay_data(map: &mut ByteMap, base: Base, offset: u16, bytes: &[u8]) -> Result<(), ClashFault>
    requires { length bytes.now ≤ 255 }
    ensures ok { OnOk result ((before : List Cell) → IsImageOf before map.old → (first_clash before (data_cells base offset bytes.now) ≡ None)
        × IsImageOf (data_cells base offset bytes.now ++ before) map.new) }
    ensures err { IfErr result (λ fault. (before : List Cell) → IsImageOf before map.old
        → IsClashFault fault (first_clash before (data_cells base offset bytes.now))) }
{
    let way = way_behind(base, offset);
    let count = way.room.min(bytes.len() as u64) as usize;
    let (straight, wrapped) = bytes.split_at(count);
    match lay_cells(map, way.first, straight) {
        Ok(()) => lay_cells(map, way.low, wrapped),
        Err(fault) => Err(fault),
    }
}
