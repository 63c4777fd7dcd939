//! Cells into a buffer.
ghost use Rattle.std.specs.Prelude.{◌≡◌, ◌≤◌, ◌+◌, None, length, IsTrue};
ghost use Rattle.bench_model.specs.Does.{ReadsCells};

use bench_model::{Bench, DeviceFault};

/// Fills the buffer with the cells from place `at` on. The cells must exist, and no operation may be open. On a fault the buffer
/// may hold anything, and the cells are unchanged.
pub fn read_cells<B: Bench>(bench: &mut B, at: u32, out: &mut [u8]) -> Result<(), DeviceFault>
    requires range { at + length out.old ≤ (B.state bench.old).cell_count }
    requires idle { IsTrue B.tells → (B.state bench.old).operation ≡ None }
    ensures { ReadsCells B.tells (B.state bench.old) (B.state bench.new) at out.old out.new result }
{
    bench.cells_read(at, out)
}
