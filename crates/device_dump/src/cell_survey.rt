//! The cells as they are.
ghost use Rattle.std.specs.Prelude.{◌≡◌, length, IsTrue, OnOk};
ghost use Rattle.command_files.specs.Call.{bench_call};
ghost use Rattle.device_dump.specs.Looks.{LooksAtCells};

use bench_model::{Bench, DeviceFault};
use readback::read_cells;

/// Breaks off an open operation, and reads all cells.
pub fn survey<B: Bench>(bench: &mut B, cells: &mut [u8]) -> Result<(), DeviceFault>
    requires { length cells.old ≡ (B.state bench.old).cell_count }
    ensures surveyed { IsTrue B.tells → OnOk result ((B.state bench.new).cells ≡ cells.new) }
    ensures looks { LooksAtCells (bench_call B.tells (B.state bench.old) (B.state bench.new)) result }
{
    bench.cells_drop()?;
    read_cells(bench, 0, cells)
}
