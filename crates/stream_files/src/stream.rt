//! What a stream of a host can do.
ghost use Rattle.std.specs.Prelude.{◌<◌, ◌^◌, Bool, IsTrue};
ghost use Rattle.stream_files.specs.Outside.{StreamState, WriteEnds, WritesOn};

use std::io;

/// A stream that takes bytes. A call may fail, and each failure is counted; taking none of some bytes counts too. A call that a
/// signal interrupted is no error: it can be made again.
pub trait Stream {
    /// Whether contracts see what the stream has taken.
    ghost tells: { Bool };

    /// The state of the stream.
    ghost state: { Self → StreamState };

    /// Takes some of the bytes.
    fn write(&mut self, bytes: &[u8]) -> io::Result<usize>
        ensures writes { WritesOn tells (state self.old) (state self.new) bytes.now result }
        ensures fails { IsTrue tells → WriteEnds (state self.old).calls (state self.new).calls bytes.now result };

    /// Fewer than 2^63 of its calls are ever interrupted.
    ghost few_signals: { (stream : Self) → IsTrue tells → (state stream).calls.interrupted < 2 ^ 63 };
}
