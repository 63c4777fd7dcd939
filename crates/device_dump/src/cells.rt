//! The cells of a board as a map from address to byte.
ghost use Rattle.std.specs.Prelude.{◌≡◌, ◌<◌, length, IfOk};
ghost use Rattle.std.specs.List.{All};
ghost use Rattle.board_file.specs.Limits.{size_of};
ghost use Rattle.device_dump.specs.CellMaps.{IsMapOfCells};

use board_file::Region;
use byte_map::ByteMap;
use faults::OutOfMemory;
use std::alloc::Global;

/// Each cell is a byte.
pub fn know_bytes(cells: &[u8])
    ensures { All (λ byte. byte < 256) cells.now }
{
    // the slice is read, and with it that each item is a byte
    let _count = cells.len();
}

/// The map that has every cell at its address. The first cells are those of the first region.
pub fn map_of_cells(alloc: Global, regions: &[Region], cells: &[u8]) -> Result<ByteMap, OutOfMemory>
    requires { length cells.now ≡ size_of regions.now }
    ensures { IfOk result (IsMapOfCells regions.now cells.now) }
{
    let mut map = ByteMap::new(alloc);
    let mut place = 0;
    for region in regions {
        let end = place + region.size as usize;
        // Regions share no address, and none ends past the last one.
        match map.lay(region.base, &cells[place..end]) {
            Ok(()) => {}
            Err(_) => return Err(OutOfMemory),
        }
        place = end;
    }
    Ok(map)
}
