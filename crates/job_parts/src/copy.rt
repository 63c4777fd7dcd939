//! Bytes of the job file, put as they are.
ghost use Rattle.std.specs.Prelude.{◌≤◌, ◌<◌, ◌+◌, ◌^◌, length, take, drop, IsTrue};
ghost use Rattle.command_files.specs.Call.{bench_call, sink_call};
ghost use Rattle.command_files.specs.Shown.{answer_of};
ghost use Rattle.job_parts.specs.Gives.{Gives};

use bench_model::{Bench, StoreFault};
use outside_io::{OutputFault, Sink};
use report_text::Refusal;

/// How many bytes are read at a time.
pub const PIECE: u64 = 4096;

/// The end of the next piece.
pub fn piece_end(at: u64, len: u64) -> u64
    requires { at < len }
    ensures more { at < result }
    ensures within { result ≤ len }
    ensures piece { result ≤ at + PIECE }
{
    if len - at < PIECE { len } else { at + PIECE }
}

/// Puts as many bytes of the file, from a place on, as the window holds.
fn copy_window<'a, B: Bench, O: Sink>(
    bench: &mut B,
    from: u64,
    window: &mut [u8],
    out: &mut O,
) -> Result<(), Refusal<'a>>
    requires { IsTrue B.tells → from + length window.old ≤ length (B.state bench.old).file }
    ensures { Gives (bench_call B.tells (B.state bench.old) (B.state bench.new)) (sink_call O.tells (O.state out.old) (O.state out.new))
        (take (length window.old) (drop from (B.state bench.old).file)) (answer_of result) }
{
    match bench.file_read(from, window) {
        Ok(()) => {}
        Err(StoreFault) => return Err(Refusal::StoreFault),
    }
    match out.put(window) {
        Ok(()) => Ok(()),
        Err(OutputFault) => Err(Refusal::OutputFault),
    }
}

/// Puts `len` bytes of the file from a place on, at most 4,096 at a time. It takes no memory.
pub fn copy<'a, B: Bench, O: Sink>(
    bench: &mut B,
    from: u64,
    len: u64,
    out: &mut O,
) -> Result<(), Refusal<'a>>
    requires told { IsTrue B.tells → from + len ≤ length (B.state bench.old).file }
    requires bound { from + len < 2 ^ 64 }
    ensures { Gives (bench_call B.tells (B.state bench.old) (B.state bench.new)) (sink_call O.tells (O.state out.old) (O.state out.new))
        (take len (drop from (B.state bench.old).file)) (answer_of result) }
{
    let mut window = [0; PIECE as usize];
    let mut at = 0;
    while at < len {
        let end = piece_end(at, len);
        match copy_window(bench, from + at, &mut window[..(end - at) as usize], out) {
            Ok(()) => {}
            Err(fault) => return Err(fault),
        }
        at = end;
    }
    Ok(())
}
