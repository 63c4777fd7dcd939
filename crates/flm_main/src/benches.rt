//! The benches of several devices.
ghost use Rattle.std.specs.Prelude.{◌≡◌, ◌<◌, ◌+◌, ◌*◌, [], length, take, map, get_or, IfOk};
ghost use Rattle.host_files.specs.Bench.{job_name_of, cells_name_of, IsBeside, AllBeside};
ghost use Rattle.flm_main.specs.Line.{job_name, cells_name, IsForGang, job_names, cells_names};

use crate::arguments::Arguments;
use crate::pairs::{count_pairs, pair_at};
use faults::OutOfMemory;
use host_files::{FileBench, ProgressLine, Purpose};
use octets::Word;

/// What a command of these words will do with the files.
fn purpose_of(words: &[Word]) -> Purpose {
    match words.first() {
        Some(word) => purpose_named(word.text()),
        None => Purpose::Looks,
    }
}

/// What the command of this name will do with the files.
fn purpose_named(command: &str) -> Purpose {
    match command {
        "program" | "begin" => Purpose::Begins,
        "resume" | "revert" => Purpose::GoesOn,
        _ => Purpose::Looks,
    }
}

/// The bench of one device.
pub fn open_one(
    rt: HostRuntime,
    line: &ProgressLine,
    arguments: &Arguments,
) -> Result<FileBench, OutOfMemory>
    requires { IsForGang arguments.now → ⊥ }
    ensures job { IfOk result (λ bench. job_name_of bench ≡ job_name arguments.now) }
    ensures cells { IfOk result (λ bench. cells_name_of bench ≡ cells_name arguments.now) }
{
    let job = Word::copy(rt.alloc(), arguments.job())?;
    let cells = Word::copy(rt.alloc(), arguments.cells())?;
    let mut bench = FileBench::opened(rt, job, cells, &[], purpose_of(arguments.words()));
    bench.show_on(line.share());
    Ok(bench)
}

/// The bench of the pair with this index, opened while the earlier ones are open.
fn open_bench(
    rt: HostRuntime,
    line: &ProgressLine,
    words: &[Word],
    index: usize,
    others: &[FileBench],
) -> Result<FileBench, OutOfMemory>
    requires { 2 * index + 1 < length words.now }
    ensures beside { IfOk result (λ bench. IsBeside others.now bench) }
    ensures job { IfOk result (λ bench. job_name_of bench ≡ get_or words.now (2 * index) []) }
    ensures cells { IfOk result (λ bench. cells_name_of bench ≡ get_or words.now (2 * index + 1) []) }
{
    let pair = pair_at(words, index);
    let job = Word::copy(rt.alloc(), pair.job.text())?;
    let cells = Word::copy(rt.alloc(), pair.cells.text())?;
    let mut bench = FileBench::opened(rt, job, cells, others, Purpose::GoesOn);
    bench.show_on(line.share());
    Ok(bench)
}

/// A bench for each complete pair of names among these words, in turn, at most 16.
pub fn open_benches(
    rt: HostRuntime,
    line: &ProgressLine,
    words: &[Word],
) -> Result<Vec<FileBench>, OutOfMemory>
    ensures jobs { IfOk result (λ benches. map job_name_of benches.items ≡ take 16 (job_names words.now)) }
    ensures cells { IfOk result (λ benches. map cells_name_of benches.items ≡ take 16 (cells_names words.now)) }
    ensures beside { IfOk result (λ benches. AllBeside [] benches.items) }
{
    let mut benches = Vec::new(rt.alloc());
    for index in 0..count_pairs(words) {
        let bench = open_bench(rt, line, words, index, benches.as_slice())?;
        benches.push(bench)?;
    }
    Ok(benches)
}
