//! The bench as higher crates see it.
ghost use Rattle.std.specs.Prelude.{◌≡◌, ◌≤◌, ◌+◌, ◌<◌, ◌^◌, ◌↔◌, List, ℕ, Bool, All, length, replicate, IsTrue, IsSome, None};
ghost use Rattle.std.specs.Option.{ForSome};
ghost use Rattle.bench_model.specs.Act.{Act, FileLen, FileRead, FileWrite, FileCut, FileSync, CellsRead, CellsOpen, CellsSettle, CellsSettleFill, CellsDrop};
ghost use Rattle.bench_model.specs.History.{left};
ghost use Rattle.bench_model.specs.State.{BenchState, file_half, cells_half, SameOutside};
ghost use Rattle.bench_model.specs.Calls.{IsOpen};
ghost use Rattle.bench_model.specs.Does.{MeasuresFile, ReadsFile, WritesFile, CutsFile, SyncsFile, ReadsCells, OpensCells, SettlesCells, DropsCells};

use crate::{DeviceFault, StoreFault};

/// A job file and the cells of a device. Offsets and lengths in the file are in bytes, places and lengths on the device
/// in cells, which are bytes too. At most one operation on the cells is open at a time.
///
/// Each call states what happens to its own half (the file, or the cells) at every moment of the call, and that the other half stays. A
/// call fails only if its count of faults rose. `does` is what every bench keeps, and `acts` what one bench states beyond it.
pub trait Bench {
    /// Whether the bench shows its contents. Clauses and conditions on contents hold only if it does.
    ghost tells: { Bool };

    /// The meaning of the bench.
    ghost state: { Self → BenchState };

    /// What exactly a call may do: the bench before it, the call, and the bench after it.
    ghost acts: { Self → Act → Self → Type 0 };

    /// The file's length.
    fn file_len(&mut self) -> Result<u64, StoreFault>
        ensures does { MeasuresFile tells (state self.old) (state self.new) result }
        ensures acts { acts self.old (FileLen result) self.new };

    /// Reads a range of the file. On a fault the buffer holds any bytes.
    fn file_read(&mut self, at: u64, out: &mut [u8]) -> Result<(), StoreFault>
        requires { IsTrue tells → at + length out.old ≤ length (state self.old).file }
        ensures does { ReadsFile tells (state self.old) (state self.new) at out.old out.new result }
        ensures acts { acts self.old (FileRead at out.old out.new result) self.new };

    /// Writes over a range of the file, and past its end. Until the next sync a stop may leave the write torn. A fault may leave the file
    /// torn for reads too.
    fn file_write(&mut self, at: u64, bytes: &[u8]) -> Result<(), StoreFault>
        requires { IsTrue tells → at ≤ length (state self.old).file }
        ensures does { WritesFile tells (state self.old) (state self.new) at bytes.now result }
        ensures acts { acts self.old (FileWrite at bytes.now result) self.new };

    /// Cuts the file to a length. Until the next sync a stop may leave any length that it had, with any bytes from the cut on. A fault may
    /// cut only a part.
    fn file_cut(&mut self, len: u64) -> Result<(), StoreFault>
        requires { IsTrue tells → len ≤ length (state self.old).file }
        ensures does { CutsFile tells (state self.old) (state self.new) len result }
        ensures acts { acts self.old (FileCut len result) self.new };

    /// Writes the file to the disk: after it a stop leaves the file as a read gives it. After a fault all that was pending still is.
    fn file_sync(&mut self) -> Result<(), StoreFault>
        ensures does { SyncsFile tells (state self.old) (state self.new) result }
        ensures acts { acts self.old (FileSync result) self.new };

    /// The number of cells, which no call changes.
    fn cells_len(&self) -> u32
        ensures { result ≡ (state self.now).cell_count };

    /// Reads a range of the cells while no operation is open. On a fault the buffer holds any bytes.
    fn cells_read(&mut self, at: u32, out: &mut [u8]) -> Result<(), DeviceFault>
        requires range { at + length out.old ≤ (state self.old).cell_count }
        requires idle { IsTrue tells → (state self.old).operation ≡ None }
        ensures does { ReadsCells tells (state self.old) (state self.new) at out.old out.new result }
        ensures acts { acts self.old (CellsRead at out.old out.new result) self.new };

    /// Opens an operation on a range of the cells while none is open. Until it ends, a stop may leave any bytes in the range. On a fault
    /// none is open.
    fn cells_open(&mut self, at: u32, len: u32) -> Result<(), DeviceFault>
        requires range { at + len ≤ (state self.old).cell_count }
        requires some { 0 < len }
        requires idle { IsTrue tells → (state self.old).operation ≡ None }
        ensures does { OpensCells tells (state self.old) (state self.new) at len result }
        ensures acts { acts self.old (CellsOpen at len result) self.new };

    /// Ends the open operation with these bytes in its range. On a fault it stays open.
    fn cells_settle(&mut self, bytes: &[u8]) -> Result<(), DeviceFault>
        requires { IsTrue tells → IsOpen (length bytes.now) (state self.old).operation }
        ensures does { SettlesCells tells (state self.old) (state self.new) (λ n. bytes.now) result }
        ensures acts { acts self.old (CellsSettle bytes.now result) self.new };

    /// Ends the open operation with its range filled with one byte. On a fault it stays open.
    fn cells_settle_fill(&mut self, value: u8) -> Result<(), DeviceFault>
        requires { IsTrue tells → IsSome (state self.old).operation }
        ensures does { SettlesCells tells (state self.old) (state self.new) (λ n. replicate n value) result }
        ensures acts { acts self.old (CellsSettleFill value result) self.new };

    /// Breaks off an open operation. Its range then holds any bytes. On a fault it stays open.
    fn cells_drop(&mut self) -> Result<(), DeviceFault>
        ensures does { DropsCells tells (state self.old) (state self.new) result }
        ensures acts { acts self.old (CellsDrop result) self.new };

    /// A stop may leave the file as a read gives it.
    ghost as_read: { (bench : Self) → IsTrue tells → left (file_half (state bench)) (state bench).file };

    /// A stop may leave exactly those cells that differ from the bench's at most in the range of an open operation.
    ghost as_told: { (bench : Self) (cells : List ℕ) → IsTrue tells
        → left (cells_half (state bench)) cells ↔ SameOutside (state bench).operation (state bench).cells cells };

    /// The number of cells is the one that the bench states.
    ghost all_told: { (bench : Self) → IsTrue tells → length (state bench).cells ≡ (state bench).cell_count };

    /// The file and the cells are lists of bytes.
    ghost bytes: { (bench : Self) → IsTrue tells → All (λ byte. byte < 256) (state bench).file × All (λ byte. byte < 256) (state bench).cells };

    /// There are fewer cells than 2^32, even where the cells aren't known.
    ghost few: { (bench : Self) → (state bench).cell_count < 2 ^ 32 };

    /// An open operation has at least one cell, and is within the cells.
    ghost inside: { (bench : Self) → IsTrue tells
        → ForSome (state bench).operation (λ range. (0 < range.1) × (range.0 + range.1 ≤ (state bench).cell_count)) };
}
