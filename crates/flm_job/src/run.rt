//! The program on files of the system.
ghost use Rattle.std.specs.Prelude.{◌≡◌, drop, IfOk, IsErr};
ghost use Rattle.std.specs.Process.{exit_status};

use crate::call::show;
use crate::read_disk::ReadDisk;
use disk_files::DiskBench;
use faults::OutOfMemory;
use host_files::{HeldStreams, StdSink, hold_streams, read_arguments};
use job_file::{OpenFault, open};
use job_parts::MendedBench;
use octets::Word;
use outside_io::Sink;
use std::process::ExitCode;

/// The status where there is no memory for the words.
const NO_MEMORY: u8 = 1;

/// The status where the standard streams can't be held.
const NO_STREAMS: u8 = 10;

/// Reads out what the program's arguments ask for, and answers the status to end with. It is 1 if there is no memory for the arguments.
/// If the standard streams can't be held, no file is opened and it is 10, as when standard output fails.
pub fn run(rt: HostRuntime) -> ExitCode {
    match hold_streams(rt) {
        Ok(streams) => end(streams, read_arguments(rt)),
        Err(_) => end_without_streams(rt),
    }
}

/// Ends the program with the arguments that were read. The first of them is the program's own name.
fn end(streams: HeldStreams, arguments: Result<Vec<Word>, OutOfMemory>) -> ExitCode
    ensures { IsErr arguments → exit_status result ≡ 1 }
{
    match arguments {
        Ok(arguments) => ExitCode::from(status_of(call(streams, &arguments))),
        Err(OutOfMemory) => ExitCode::from(NO_MEMORY),
    }
}

/// Ends the program if the streams can't be held.
fn end_without_streams(rt: HostRuntime) -> ExitCode
    ensures { exit_status result ≡ 10 }
{
    let _put = StdSink::new(rt.stderr()).put(b"flmprog: output fault\n");
    ExitCode::from(NO_STREAMS)
}

/// The status for this answer of a call.
fn status_of(answered: Result<u8, OutOfMemory>) -> u8
    ensures answered { IfOk answered (λ status. result ≡ status) }
    ensures memory { IsErr answered → result ≡ 1 }
{
    match answered {
        Ok(status) => status,
        Err(OutOfMemory) => NO_MEMORY,
    }
}

/// The words after the program's own name and the name of the job file.
fn words_of(arguments: &[Word]) -> &[Word]
    ensures { result.now ≡ drop 2 arguments.now }
{
    &arguments[arguments.len().min(2)..]
}

/// The name of the job file. If it is missing it is empty, and no file has that name.
fn job_name(arguments: &[Word]) -> &str {
    match arguments.get(1) {
        Some(word) => word.text(),
        None => "",
    }
}

/// The call on files, with its text on standard output and its refusal on standard error.
fn call(streams: HeldStreams, arguments: &[Word]) -> Result<u8, OutOfMemory> {
    let rt = streams.host();
    let mut out = StdSink::new(rt.stdout());
    let mut err = StdSink::new(rt.stderr());
    let bench = bench_of(rt, job_name(arguments))?;
    Ok(show(rt.alloc(), words_of(arguments), bench, &mut out, &mut err))
}

/// A bench over a job file, with as many cells as its job says. The file stands for a job, or would with the hash that was found.
fn bench_of(rt: HostRuntime, name: &str) -> Result<DiskBench<ReadDisk>, OutOfMemory> {
    let mut bench = bench_with(rt, name, 0)?;
    match open(rt.alloc(), &mut bench) {
        Err(OpenFault::CellsDiffer { said, found: _ }) => bench_with(rt, name, said),
        Err(OpenFault::Damaged { kept: _, found }) => {
            bench_with(rt, name, cells_with(rt, bench, found))
        }
        _ => Ok(bench),
    }
}

/// The number of cells of the job that the file would stand for with this hash, or 0.
fn cells_with(rt: HostRuntime, bench: DiskBench<ReadDisk>, hash: [u8; 32]) -> u32 {
    let mut mended = MendedBench::new(bench, hash);
    match open(rt.alloc(), &mut mended) {
        Err(OpenFault::CellsDiffer { said, found: _ }) => said,
        _ => 0,
    }
}

/// A bench over a job file, with this number of cells.
fn bench_with(rt: HostRuntime, name: &str, cells: u32) -> Result<DiskBench<ReadDisk>, OutOfMemory> {
    let name = Word::copy(rt.alloc(), name)?;
    Ok(DiskBench::new(ReadDisk::new(rt, name), cells))
}
