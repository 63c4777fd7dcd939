//! Reads the texts of a job's board and of its FLM files from a file, and what they describe.
ghost use Rattle.std.specs.Prelude.{◌≡◌, ◌≤◌, ◌+◌, length, drop, slice_get, false, IsTrue, IsOk, IfOk};
ghost use Rattle.bench_model.specs.Calls.{OnlyReads};
ghost use Rattle.board_file.specs.Shown.{shown as board_shown};
ghost use Rattle.board_file.specs.Text.{reading};
ghost use Rattle.flm_descriptor.specs.Shown.{shown as flm_shown};
ghost use Rattle.flm_descriptor.specs.Flm.{flm_of};
ghost use Rattle.job_text.specs.Fits.{all_fit};
ghost use Rattle.job_text.specs.Said.{algorithms_shown, one_or_two};
ghost use Rattle.job_text.specs.Reading.{read_or, fits_in, file_at, second_at, texts_at};
ghost use Rattle.bench_model.specs.Counted.{is_store_fault, fault_in, IsCounted};
ghost use Rattle.job_file.specs.Counted.{read_fault};
ghost use Rattle.job_file.specs.Readers.{Gives, board_read, algorithm_read, file_there, second_there, texts_there, SecondFits, CountsFiles};

use crate::fault::ReadFault;
use crate::pieces::read_text;
use bench_model::Bench;
use board_file::Board;
use flm_descriptor::Algorithm;
use job_text::{Head, JobFault, Places, algorithm_in, are_files, board_in, fits_in};
use std::alloc::Global;

/// What the texts describe, and where they end in the file.
#[derive(Drop)]
pub(crate) struct Said {
    pub board: Board,
    pub first: Algorithm,
    pub second: Option<Algorithm>,
    pub end: u64,
}

/// The board of a text that begins at an offset.
fn board_of(alloc: Global, at: u64, text: Vec<u8>) -> Result<Board, ReadFault>
    ensures gives { Gives board_shown result (read_or at (reading text.items)) }
    ensures no_store { is_store_fault (fault_in read_fault result) ≡ false }
{
    match board_in(alloc, at, &text) {
        Ok(board) => Ok(board),
        Err(JobFault::OutOfMemory) => Err(ReadFault::OutOfMemory),
        Err(JobFault::NotAJob { at }) => Err(ReadFault::NotAJob { at }),
    }
}

/// The algorithm of an FLM file that begins at an offset.
fn algorithm_of(alloc: Global, at: u64, file: Vec<u8>) -> Result<Algorithm, ReadFault>
    ensures gives { Gives flm_shown result (read_or at (flm_of file.items)) }
    ensures no_store { is_store_fault (fault_in read_fault result) ≡ false }
{
    match algorithm_in(alloc, at, &file) {
        Ok(algorithm) => Ok(algorithm),
        Err(JobFault::OutOfMemory) => Err(ReadFault::OutOfMemory),
        Err(JobFault::NotAJob { at }) => Err(ReadFault::NotAJob { at }),
    }
}

/// The board that the text of `len` bytes at an offset describes.
fn read_board<B: Bench>(
    alloc: Global,
    bench: &mut B,
    whole: u64,
    at: u64,
    len: u32,
) -> Result<Board, ReadFault>
    requires told { IsTrue B.tells → length (B.state bench.old).file ≡ whole }
    requires within { at ≤ whole }
    ensures gives { IsTrue B.tells → Gives board_shown result (board_read whole at len (drop at (B.state bench.old).file)) }
    ensures fits { IsOk result → at + len ≤ whole }
    ensures reads { OnlyReads B.tells (B.state bench.old) (B.state bench.new) }
    ensures counted { IsCounted (B.state bench.old).store_faults (B.state bench.new).store_faults (is_store_fault (fault_in read_fault result)) }
{
    match read_text(alloc, bench, whole, at, len) {
        Ok(text) => board_of(alloc, at, text),
        Err(fault) => Err(fault),
    }
}

/// The algorithm of the FLM file of `len` bytes at an offset.
fn read_algorithm<B: Bench>(
    alloc: Global,
    bench: &mut B,
    whole: u64,
    at: u64,
    len: u32,
) -> Result<Algorithm, ReadFault>
    requires told { IsTrue B.tells → length (B.state bench.old).file ≡ whole }
    requires within { at ≤ whole }
    ensures gives { IsTrue B.tells → Gives flm_shown result (algorithm_read whole at len (drop at (B.state bench.old).file)) }
    ensures fits { IsOk result → at + len ≤ whole }
    ensures reads { OnlyReads B.tells (B.state bench.old) (B.state bench.new) }
    ensures counted { IsCounted (B.state bench.old).store_faults (B.state bench.new).store_faults (is_store_fault (fault_in read_fault result)) }
{
    match read_text(alloc, bench, whole, at, len) {
        Ok(file) => algorithm_of(alloc, at, file),
        Err(fault) => Err(fault),
    }
}

/// The algorithm of the FLM file of a region. It must fit the region.
fn read_file<B: Bench>(
    alloc: Global,
    bench: &mut B,
    whole: u64,
    at: u64,
    board: &Board,
    region: usize,
    len: u32,
) -> Result<Algorithm, ReadFault>
    requires told { IsTrue B.tells → length (B.state bench.old).file ≡ whole }
    requires within { at ≤ whole }
    ensures gives { IsTrue B.tells → Gives (λ a. (file_there (B.state bench.old).file at len a, drop (at + len) (B.state bench.old).file)) result
        (file_at whole at (board_shown board.now) region len (drop at (B.state bench.old).file)) }
    ensures fits { IsOk result → at + len ≤ whole }
    ensures fit { IfOk result (λ a. IsTrue (fits_in (board_shown board.now) (slice_get board.now.regions region) (flm_shown a))) }
    ensures reads { OnlyReads B.tells (B.state bench.old) (B.state bench.new) }
    ensures counted { IsCounted (B.state bench.old).store_faults (B.state bench.new).store_faults (is_store_fault (fault_in read_fault result)) }
{
    let algorithm = match read_algorithm(alloc, bench, whole, at, len) {
        Ok(algorithm) => algorithm,
        Err(fault) => return Err(fault),
    };
    if !fits_in(board, region, &algorithm) {
        return Err(ReadFault::NotAJob { at });
    }
    Ok(algorithm)
}

/// The algorithm of the second FLM file, if there are two, and where the files end.
fn read_second<B: Bench>(
    alloc: Global,
    bench: &mut B,
    whole: u64,
    at: u64,
    board: &Board,
    head: &Head,
) -> Result<(Option<Algorithm>, u64), ReadFault>
    requires told { IsTrue B.tells → length (B.state bench.old).file ≡ whole }
    requires within { at ≤ whole }
    ensures gives { IsTrue B.tells → Gives (λ x. (second_there (B.state bench.old).file at head.now.second x.0, drop x.1 (B.state bench.old).file)) result
        (second_at whole at (board_shown board.now) head.now (drop at (B.state bench.old).file)) }
    ensures fits { IfOk result (λ x. x.1 ≤ whole) }
    ensures ends { IfOk result (λ x. x.1 ≤ at + head.now.second) }
    ensures fit { IfOk result (λ x. SecondFits (board_shown board.now) head.now.files x.0) }
    ensures reads { OnlyReads B.tells (B.state bench.old) (B.state bench.new) }
    ensures counted { IsCounted (B.state bench.old).store_faults (B.state bench.new).store_faults (is_store_fault (fault_in read_fault result)) }
{
    if head.files == 1 {
        return Ok((None, at));
    }
    match read_file(alloc, bench, whole, at, board, 1, head.second) {
        Ok(algorithm) => Ok((Some(algorithm), at + u64::from(head.second))),
        Err(fault) => Err(fault),
    }
}

/// Checks that there is one FLM file for each of `regions` regions, and that with one file the second length is 0.
fn check_files(places: &Places, head: &Head, regions: usize) -> Result<(), ReadFault>
    ensures { CountsFiles places.now head.now regions result }
{
    if !are_files(head.files, regions) {
        return Err(ReadFault::NotAJob { at: places.files });
    }
    if head.files != 1 || head.second == 0 {
        Ok(())
    } else {
        Err(ReadFault::NotAJob { at: places.second })
    }
}

/// What the texts describe. Each FLM file must fit its region.
pub(crate) fn read_said<B: Bench>(
    alloc: Global,
    bench: &mut B,
    whole: u64,
    places: &Places,
    head: &Head,
) -> Result<Said, ReadFault>
    requires told { IsTrue B.tells → length (B.state bench.old).file ≡ whole }
    requires within { places.now.front ≤ whole }
    requires small { places.now.front ≤ 64 }
    ensures gives { IsTrue B.tells → Gives (λ s. (texts_there (B.state bench.old).file places.now head.now s, drop s.end (B.state bench.old).file)) result
        (texts_at whole places.now head.now (drop places.now.front (B.state bench.old).file)) }
    ensures ends { IfOk result (λ s. s.end ≤ 64 + head.now.board + head.now.first + head.now.second) }
    ensures fits { IfOk result (λ s. s.end ≤ whole) }
    ensures fit { IfOk result (λ s. IsTrue (all_fit (board_shown s.board) s.board.regions (algorithms_shown (one_or_two s.first s.second)))) }
    ensures reads { OnlyReads B.tells (B.state bench.old) (B.state bench.new) }
    ensures counted { IsCounted (B.state bench.old).store_faults (B.state bench.new).store_faults (is_store_fault (fault_in read_fault result)) }
{
    let board = match read_board(alloc, bench, whole, places.front, head.board) {
        Ok(board) => board,
        Err(fault) => return Err(fault),
    };
    match check_files(places, head, board.regions.as_slice().len()) {
        Ok(()) => {}
        Err(fault) => return Err(fault),
    }
    let at = places.front + u64::from(head.board);
    let first = match read_file(alloc, bench, whole, at, &board, 0, head.first) {
        Ok(first) => first,
        Err(fault) => return Err(fault),
    };
    let second_at = at + u64::from(head.first);
    match read_second(alloc, bench, whole, second_at, &board, head) {
        Ok((second, end)) => Ok(Said {
            board,
            first,
            second,
            end,
        }),
        Err(fault) => Err(fault),
    }
}
