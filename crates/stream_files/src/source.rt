//! What the input files of a host can do.
ghost use Rattle.std.specs.Prelude.{◌≡◌, ◌<◌, ◌^◌, ℕ, List, Bool, Some, length, IsTrue, OnOk};
ghost use Rattle.stream_files.specs.Outside.{SourceState, CallEnds, CallMayStop, ReadsOn};

use std::io;

/// Files by name. One of them is read at a time, from its beginning.
///
/// A call may fail, and each failure is counted. A read that a signal interrupted is no error: it can be made again.
pub trait Source {
    /// Whether contracts see what file each name has.
    ghost tells: { Bool };

    /// The state of the files.
    ghost state: { Self → SourceState };

    /// Opens the file of a name. The file that was open before is closed.
    fn open(&mut self, name: &str) -> io::Result<()>
        ensures ok { IsTrue tells → OnOk result ((state self.old).stands name.now ≡ Some (state self.new).rest) }
        ensures names { (other : List ℕ) → (state self.new).stands other ≡ (state self.old).stands other }
        ensures fails { IsTrue tells → CallEnds (state self.old).calls (state self.new).calls result };

    /// About how many bytes the open file has, to make room for them.
    fn length(&mut self) -> io::Result<u64>
        ensures names { (other : List ℕ) → (state self.new).stands other ≡ (state self.old).stands other }
        ensures rest { IsTrue tells → (state self.new).rest ≡ (state self.old).rest }
        ensures fails { IsTrue tells → CallEnds (state self.old).calls (state self.new).calls result };

    /// Reads some of the next bytes of the open file into a buffer that has room. It reads none only at the end of the file.
    fn read(&mut self, out: &mut [u8]) -> io::Result<usize>
        requires { 0 < length out.old }
        ensures names { (other : List ℕ) → (state self.new).stands other ≡ (state self.old).stands other }
        ensures reads { ReadsOn tells (state self.old) (state self.new) out.old out.new result }
        ensures fails { IsTrue tells → CallMayStop (state self.old).calls (state self.new).calls result };

    /// Fewer than 2^63 of its calls are ever interrupted.
    ghost few_signals: { (source : Self) → IsTrue tells → (state source).calls.interrupted < 2 ^ 63 };
}
