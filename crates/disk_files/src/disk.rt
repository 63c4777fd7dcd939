//! What the files of a host can do.
ghost use Rattle.std.specs.Prelude.{◌≡◌, ◌≤◌, ◌+◌, ◌<◌, ◌^◌, ◌↔◌, List, ℕ, Bool, true, false, All, length, take, drop, IsTrue, IfOk, None};
ghost use Rattle.std.specs.Option.{ForSome};
ghost use Rattle.bench_model.specs.History.{left};
ghost use Rattle.bench_model.specs.State.{SameOutside};
ghost use Rattle.disk_files.specs.DiskState.{DiskState, job_half, range_half};
ghost use Rattle.disk_files.specs.Fails.{CallEnds, CallMoves, FileSyncEnds, CellsSyncEnds};
ghost use Rattle.disk_files.specs.DiskDoes.{OnlyReadsJob, ReadsSome, WritesSome, WritesJob, SetsJobLength, SyncsJob, SyncsFolder, SyncsBytes, WritesBytes};
ghost use Rattle.disk_files.specs.DiskDoes.{ReadsBytes, OpensRange, ClosesRange, InRange};

use std::io;

/// A job file and a cells file. Offsets and lengths are in bytes, and each cell is one byte.
///
/// A call may fail, and each failure is counted. The clauses also say what a failed call may leave. A read or a write that a signal
/// interrupted is no error: it can be made again. A call that was to move bytes and moved none is an error, as at the end of a
/// file that another program has cut. Once a sync of a file has failed, no later sync of it is sure to reach the disk.
/// The job file's entry in its folder must be on the disk before any call on the file but `job_open` and `folder_sync`.
pub trait Disk {
    /// Whether contracts see the contents of the files.
    ghost tells: { Bool };

    /// The state of the files.
    ghost state: { Self → DiskState };

    /// Opens the job file, or makes it if it is missing.
    fn job_open(&mut self) -> io::Result<()>
        ensures entry { IsTrue tells → (state self.new).entry ≡ (state self.old).entry }
        ensures does { OnlyReadsJob tells (state self.old) (state self.new) }
        ensures fails { IsTrue tells → CallEnds (state self.old) (state self.new) result };

    /// Syncs the folder of the job file, so that the file's entry is on the disk.
    fn folder_sync(&mut self) -> io::Result<()>
        ensures does { SyncsFolder tells (state self.old) (state self.new) result }
        ensures fails { IsTrue tells → FileSyncEnds (state self.old) (state self.new) result };

    /// The job file's length.
    fn job_len(&mut self) -> io::Result<u64>
        requires { IsTrue tells → (state self.old).entry ≡ true }
        ensures ok { IsTrue tells → IfOk result (λ len. len ≡ length (state self.old).file) }
        ensures entry { IsTrue tells → (state self.new).entry ≡ (state self.old).entry }
        ensures does { OnlyReadsJob tells (state self.old) (state self.new) }
        ensures fails { IsTrue tells → CallEnds (state self.old) (state self.new) result };

    /// Reads some bytes of the job file.
    fn job_read_at(&mut self, at: u64, out: &mut [u8]) -> io::Result<usize>
        requires { IsTrue tells → (state self.old).entry ≡ true }
        ensures reads { ReadsSome tells (state self.old).file at out.old out.new result }
        ensures entry { IsTrue tells → (state self.new).entry ≡ (state self.old).entry }
        ensures does { OnlyReadsJob tells (state self.old) (state self.new) }
        ensures fails { IsTrue tells → CallMoves (state self.old) (state self.new) (length out.old) result };

    /// Writes some bytes of the job file. No cell may be written and not synced.
    fn job_write_at(&mut self, at: u64, bytes: &[u8]) -> io::Result<usize>
        requires entry { IsTrue tells → (state self.old).entry ≡ true }
        requires at { IsTrue tells → at ≤ length (state self.old).file }
        requires synced { IsTrue tells → (state self.old).unsynced ≡ false }
        ensures writes { WritesSome tells (state self.old).file (state self.new).file at bytes.now result }
        ensures does { WritesJob tells (state self.old) (state self.new) at (length bytes.now) }
        ensures fails { IsTrue tells → CallMoves (state self.old) (state self.new) (length bytes.now) result };

    /// Cuts the job file. No cell may be written and not synced.
    fn job_set_len(&mut self, len: u64) -> io::Result<()>
        requires entry { IsTrue tells → (state self.old).entry ≡ true }
        requires len { IsTrue tells → len ≤ length (state self.old).file }
        requires synced { IsTrue tells → (state self.old).unsynced ≡ false }
        ensures does { SetsJobLength tells (state self.old) (state self.new) len result }
        ensures fails { IsTrue tells → CallEnds (state self.old) (state self.new) result };

    /// Syncs the bytes of the job file to the disk.
    fn job_sync(&mut self) -> io::Result<()>
        requires { IsTrue tells → (state self.old).entry ≡ true }
        ensures does { SyncsJob tells (state self.old) (state self.new) result }
        ensures fails { IsTrue tells → FileSyncEnds (state self.old) (state self.new) result };

    /// Syncs the cells to the disk.
    fn cells_sync(&mut self) -> io::Result<()>
        ensures does { SyncsBytes tells (state self.old) (state self.new) result }
        ensures fails { IsTrue tells → CellsSyncEnds (state self.old) (state self.new) result };

    /// Reads some of the cells.
    fn cells_read_at(&mut self, at: u64, out: &mut [u8]) -> io::Result<usize>
        ensures reads { ReadsSome tells (state self.old).bytes at out.old out.new result }
        ensures does { ReadsBytes tells (state self.old) (state self.new) }
        ensures fails { IsTrue tells → CallMoves (state self.old) (state self.new) (length out.old) result };

    /// Fills `out` with the cells from the place `at` on and answers true, if it has them all without a call of the host. Otherwise `out`
    /// is unchanged.
    fn cells_at_hand(&self, at: u64, out: &mut [u8]) -> bool
        ensures whole { IsTrue tells → IsTrue result → out.new ≡ take (length out.old) (drop at (state self.now).bytes) }
        ensures stays { result ≡ false → out.new ≡ out.old }
    {
        false
    }

    /// Writes some of the cells, within the open range.
    fn cells_write_at(&mut self, at: u64, bytes: &[u8]) -> io::Result<usize>
        requires { IsTrue tells → InRange at (length bytes.now) (state self.old).operation }
        ensures writes { WritesSome tells (state self.old).bytes (state self.new).bytes at bytes.now result }
        ensures does { WritesBytes tells (state self.old) (state self.new) }
        ensures fails { IsTrue tells → CallMoves (state self.old) (state self.new) (length bytes.now) result };

    /// Opens a range: its cells may be written from now on.
    fn open_range(&mut self, at: u32, len: u32) -> io::Result<()>
        requires idle { IsTrue tells → (state self.old).operation ≡ None }
        requires some { 0 < len }
        requires range { IsTrue tells → at + len ≤ length (state self.old).cells }
        ensures does { OpensRange tells (state self.old) (state self.new) at len result }
        ensures fails { IsTrue tells → CallEnds (state self.old) (state self.new) result };

    /// Closes the open range: it is written, and no cell may be written until another range is opened.
    fn close_range(&mut self) -> io::Result<()>
        ensures does { ClosesRange tells (state self.old) (state self.new) result }
        ensures fails { IsTrue tells → CallEnds (state self.old) (state self.new) result };

    /// Closes a range that may be written only in part, or none. What an earlier run left must be on the disk by then.
    fn break_range(&mut self) -> io::Result<()>
        requires { IsTrue tells → (state self.old).earlier ≡ false }
        ensures does { ClosesRange tells (state self.old) (state self.new) result }
        ensures fails { IsTrue tells → CallEnds (state self.old) (state self.new) result };

    /// The job file as it is read is among those that a stop may leave.
    ghost as_read: { (disk : Self) → IsTrue tells → left (job_half (state disk)) (state disk).file };

    /// A stop may leave any bytes in the open range, and the cells unchanged outside it.
    ghost as_told: { (disk : Self) (cells : List ℕ) → IsTrue tells
        → left (range_half (state disk)) cells ↔ SameOutside (state disk).operation (state disk).cells cells };

    /// The job file and the cells are lists of bytes.
    ghost bytes: { (disk : Self) → IsTrue tells → All (λ byte. byte < 256) (state disk).file × All (λ byte. byte < 256) (state disk).cells };

    /// The bytes of the cells file differ from the cells only in the open range.
    ghost outside: { (disk : Self) → IsTrue tells → SameOutside (state disk).operation (state disk).cells (state disk).bytes };

    /// The open range has at least one cell, and is within the cells.
    ghost inside: { (disk : Self) → IsTrue tells
        → ForSome (state disk).operation (λ range. (0 < range.1) × (range.0 + range.1 ≤ length (state disk).cells)) };

    /// Fewer than 2^63 of its calls are ever interrupted.
    ghost few_signals: { (disk : Self) → IsTrue tells → (state disk).interrupted < 2 ^ 63 };
}
