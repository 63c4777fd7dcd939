//! A call on files.
ghost use Rattle.std.specs.Prelude.{◌≡◌, IfOk, IsErr};
ghost use Rattle.std.specs.Process.{exit_status};
ghost use Rattle.flm_main.specs.Line.{IsForGang};

use crate::arguments::Arguments;
use crate::benches::{open_benches, open_one};
use faults::OutOfMemory;
use host_files::{FileInputs, HeldStreams, ProgressLine, StdSink, hold_streams, read_arguments};
use octets::Word;
use outside_io::Sink;
use promise::{flash, flash_gang};
use std::process::ExitCode;

/// The status if there is no memory for the words or the benches.
const NO_MEMORY: u8 = 1;

/// The status if the standard streams can't be held.
const NO_STREAMS: u8 = 10;

/// Runs the program by its own arguments, `JOB CELLS COMMAND [WORDS]` or `--gang JOB CELLS [JOB CELLS ..]`, and answers its exit status.
/// The status is 1 if there is no memory for the arguments. If the standard streams can't be held, no file is opened and the status is
/// 10, as where standard output failed.
pub fn run(rt: HostRuntime) -> ExitCode {
    match hold_streams(rt) {
        Ok(streams) => end(streams, read_arguments(rt)),
        Err(_) => end_without_streams(rt),
    }
}

/// Ends a call with the arguments that were read, with the status of the call.
fn end(streams: HeldStreams, arguments: Result<Vec<Word>, OutOfMemory>) -> ExitCode
    ensures { IsErr arguments → exit_status result ≡ 1 }
{
    match arguments {
        Ok(line) => ExitCode::from(call(streams, Arguments::of(line))),
        Err(OutOfMemory) => ExitCode::from(NO_MEMORY),
    }
}

/// Ends a call where no stream can be held.
fn end_without_streams(rt: HostRuntime) -> ExitCode
    ensures { exit_status result ≡ 10 }
{
    let _put = StdSink::new(rt.stderr()).put(b"flmprog: output fault\n");
    ExitCode::from(NO_STREAMS)
}

/// Runs what these arguments ask for on the files that they name, and answers the status of the call. Its text goes to standard output
/// and its refusal to standard error. If standard error is a terminal, a line there shows the progress of the cells meanwhile. If there
/// is no memory for the names or the benches, nothing is put and the status is 1.
pub fn call(streams: HeldStreams, arguments: Arguments) -> u8 {
    let rt = streams.host();
    let line = ProgressLine::on_terminal(rt);
    let answered = if arguments.are_for_gang() {
        call_many(rt, &line, arguments.gang_words())
    } else {
        call_one(rt, &line, &arguments)
    };
    line.wipe();
    status_of(answered)
}

/// The status of a call with this answer.
fn status_of(answered: Result<u8, OutOfMemory>) -> u8
    ensures answered { IfOk answered (λ status. result ≡ status) }
    ensures memory { IsErr answered → result ≡ 1 }
{
    match answered {
        Ok(status) => status,
        Err(OutOfMemory) => NO_MEMORY,
    }
}

/// Runs the command for one device.
fn call_one(rt: HostRuntime, line: &ProgressLine, arguments: &Arguments) -> Result<u8, OutOfMemory>
    requires { IsForGang arguments.now → ⊥ }
{
    let mut out = StdSink::new(rt.stdout());
    let mut err = StdSink::new(rt.stderr());
    let mut bench = open_one(rt, line, arguments)?;
    out.wipe_first(line.share());
    err.wipe_first(line.share());
    let mut inputs = FileInputs::new(rt);
    Ok(flash(
        rt.alloc(),
        arguments.words(),
        &mut bench,
        &mut inputs,
        &mut out,
        &mut err,
    ))
}

/// Carries out the jobs of several devices, on the files that the words name.
fn call_many(rt: HostRuntime, line: &ProgressLine, words: &[Word]) -> Result<u8, OutOfMemory> {
    let mut out = StdSink::new(rt.stdout());
    let mut err = StdSink::new(rt.stderr());
    out.wipe_first(line.share());
    err.wipe_first(line.share());
    let mut benches = open_benches(rt, line, words)?;
    Ok(flash_gang(
        rt.alloc(),
        words,
        benches.as_mut_slice(),
        &mut out,
        &mut err,
    ))
}
