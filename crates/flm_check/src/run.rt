//! The program on files of the system.
ghost use Rattle.std.specs.Prelude.{◌≡◌, drop, IsErr};
ghost use Rattle.std.specs.Process.{exit_status};

use crate::check::check;
use duty_rounds::Progress;
use faults::OutOfMemory;
use host_files::{FileInputs, HeldStreams, ProgressLine, StdSink, hold_streams, read_arguments};
use octets::Word;
use outside_io::Sink;
use std::process::ExitCode;

/// The status where there is no memory for the words.
const NO_MEMORY: u8 = 1;

/// The status where the standard streams can't be held.
const NO_STREAMS: u8 = 10;

/// The line on a terminal that shows how far the trials have come.
#[derive(Drop)]
struct Shown {
    line: ProgressLine,
}

impl Progress for Shown {
    fn tried(&mut self, calls: u64) {
        self.line.tried(calls);
    }
}

/// Tries what the program's arguments ask for, and answers the status to end with. It is 1 if there is no memory for the arguments.
/// If the standard streams can't be held, no file is opened and it is 10, as when standard output fails.
pub fn run(rt: HostRuntime) -> ExitCode {
    match hold_streams(rt) {
        Ok(streams) => end(streams, read_arguments(rt)),
        Err(_) => end_without_streams(rt),
    }
}

/// Ends the program with the arguments that were read. The first of them is the program's own name.
fn end(streams: HeldStreams, arguments: Result<Vec<Word>, OutOfMemory>) -> ExitCode
    ensures { IsErr arguments → exit_status result ≡ 1 }
{
    match arguments {
        Ok(arguments) => ExitCode::from(call(streams, words_of(&arguments))),
        Err(OutOfMemory) => ExitCode::from(NO_MEMORY),
    }
}

/// The words after the program's own name.
fn words_of(arguments: &[Word]) -> &[Word]
    ensures { result.now ≡ drop 1 arguments.now }
{
    &arguments[arguments.len().min(1)..]
}

/// Ends the program if the streams can't be held.
fn end_without_streams(rt: HostRuntime) -> ExitCode
    ensures { exit_status result ≡ 10 }
{
    let _put = StdSink::new(rt.stderr()).put(b"flmprog: output fault\n");
    ExitCode::from(NO_STREAMS)
}

/// The call on files, with its text on standard output and its refusal on standard error. If standard error is a terminal, a line there
/// shows how far the trials have come.
fn call(streams: HeldStreams, words: &[Word]) -> u8 {
    let rt = streams.host();
    let line = ProgressLine::on_terminal(rt);
    let mut out = StdSink::new(rt.stdout());
    let mut err = StdSink::new(rt.stderr());
    out.wipe_first(line.share());
    err.wipe_first(line.share());
    let mut inputs = FileInputs::new(rt);
    let mut shown = Shown { line: line.share() };
    let status = check(
        rt.alloc(),
        words,
        &mut inputs,
        &mut out,
        &mut err,
        &mut shown,
    );
    line.wipe();
    status
}
