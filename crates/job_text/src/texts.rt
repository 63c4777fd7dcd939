//! The texts of a board and of FLM files in a body, and what they describe.
ghost use Rattle.std.specs.Prelude.{◌≡◌, ◌≤◌, ◌<◌, ◌+◌, length, slice_get, IfOk, IsTrue};
ghost use Rattle.board_file.specs.Shown.{shown as board_shown};
ghost use Rattle.board_file.specs.Text.{reading};
ghost use Rattle.flm_descriptor.specs.Shown.{shown as flm_shown};
ghost use Rattle.flm_descriptor.specs.Flm.{flm_of};
ghost use Rattle.job_text.specs.Fits.{all_fit};
ghost use Rattle.job_text.specs.Heads.{file_of, second_of, texts_of, said_in, SecondFits};
ghost use Rattle.job_text.specs.Reading.{read_or, fits_in, file_at, second_at, texts_at, are_files};
ghost use Rattle.job_text.specs.Shown.{Gives};

use crate::fault::JobFault;
use crate::fields::take_text;
use crate::fit::fits_in;
use crate::head::{Head, Places};
use board_file::{Board, BoardFault, read_board};
use flm_descriptor::{Algorithm, FlmFault, read_flm};
use std::alloc::Global;

/// An FLM file, and the algorithm that it describes.
#[derive(Drop)]
pub(crate) struct File<'a> {
    pub text: &'a [u8],
    pub algorithm: Algorithm,
}

/// The texts, and what they describe.
#[derive(Drop)]
pub(crate) struct Said<'a> {
    pub board_text: &'a [u8],
    pub board: Board,
    pub first: File<'a>,
    pub second: Option<File<'a>>,
}

/// The board of a text that begins at an offset.
pub fn board_in(alloc: Global, at: u64, text: &[u8]) -> Result<Board, JobFault>
    ensures { Gives board_shown result (read_or at (reading text.now)) }
{
    match read_board(alloc, text) {
        Ok(board) => Ok(board),
        Err(BoardFault::OutOfMemory) => Err(JobFault::OutOfMemory),
        Err(_) => Err(JobFault::NotAJob { at }),
    }
}

/// The algorithm of an FLM file that begins at an offset.
pub fn algorithm_in(alloc: Global, at: u64, file: &[u8]) -> Result<Algorithm, JobFault>
    ensures { Gives flm_shown result (read_or at (flm_of file.now)) }
{
    match read_flm(alloc, file) {
        Ok(algorithm) => Ok(algorithm),
        Err(FlmFault::OutOfMemory) => Err(JobFault::OutOfMemory),
        Err(_) => Err(JobFault::NotAJob { at }),
    }
}

/// Takes the FLM file of a region, which begins at an offset. It must fit the region.
#[tactic(auto, unfolding(crate::specs::Reading::file_at))]
fn take_file<'a>(
    alloc: Global,
    whole: u64,
    at: u64,
    board: &Board,
    region: usize,
    len: u32,
    bytes: &'a [u8],
) -> Result<(File<'a>, &'a [u8]), JobFault>
    ensures gives { Gives (λ x. (file_of x.0, x.1.now)) result (file_at whole at (board_shown board.now) region len bytes.now) }
    ensures shorter { IfOk result (λ x. length x.1.now ≤ length bytes.now) }
    ensures taken { IfOk result (λ x. length bytes.now ≤ length x.1.now + len) }
    ensures fit { IfOk result (λ x. IsTrue (fits_in (board_shown board.now) (slice_get board.now.regions region) (flm_shown x.0.algorithm))) }
{
    let (text, rest) = take_text(whole, len, bytes)?;
    let algorithm = algorithm_in(alloc, at, text)?;
    if !fits_in(board, region, &algorithm) {
        return Err(JobFault::NotAJob { at });
    }
    Ok((File { text, algorithm }, rest))
}

/// Takes the second FLM file, if there are two.
#[tactic(auto, unfolding(crate::specs::Reading::second_at))]
fn take_second<'a>(
    alloc: Global,
    whole: u64,
    at: u64,
    board: &Board,
    head: &Head,
    bytes: &'a [u8],
) -> Result<(Option<File<'a>>, &'a [u8]), JobFault>
    ensures gives { Gives (λ x. (second_of x.0, x.1.now)) result (second_at whole at (board_shown board.now) head.now bytes.now) }
    ensures shorter { IfOk result (λ x. length x.1.now ≤ length bytes.now) }
    ensures taken { IfOk result (λ x. length bytes.now ≤ length x.1.now + head.now.second) }
    ensures fit { IfOk result (λ x. SecondFits (board_shown board.now) head.now.files (second_of x.0)) }
{
    if head.files == 1 {
        return Ok((None, bytes));
    }
    let (file, rest) = take_file(alloc, whole, at, board, 1, head.second, bytes)?;
    Ok((Some(file), rest))
}

/// Whether there is one FLM file or two, and one for each region.
pub fn are_files(files: u32, regions: usize) -> bool
    ensures { result ≡ are_files files regions }
{
    (files == 1 || files == 2) && files as usize == regions
}

/// Takes the texts, and answers what they describe. Each FLM file must fit its region.
#[tactic(auto, unfolding(crate::specs::Reading::texts_at))]
pub(crate) fn take_texts<'a>(
    alloc: Global,
    whole: u64,
    places: &Places,
    head: &Head,
    bytes: &'a [u8],
) -> Result<(Said<'a>, &'a [u8]), JobFault>
    requires { places.now.front ≤ 64 }
    ensures gives { Gives (λ x. (texts_of x.0, x.1.now)) result (texts_at whole places.now head.now bytes.now) }
    ensures shorter { IfOk result (λ x. length x.1.now ≤ length bytes.now) }
    ensures taken { IfOk result (λ x. length bytes.now ≤ length x.1.now + head.now.board + head.now.first + head.now.second) }
    ensures fit { IfOk result (λ x. IsTrue (all_fit (board_shown x.0.board) x.0.board.regions (said_in (file_of x.0.first) (second_of x.0.second)))) }
{
    let (board_text, rest) = take_text(whole, head.board, bytes)?;
    let board = board_in(alloc, places.front, board_text)?;
    if !are_files(head.files, board.regions.as_slice().len()) {
        return Err(JobFault::NotAJob { at: places.files });
    }
    if head.files != 1 || head.second == 0 {
        let at = places.front + u64::from(head.board);
        let (first, rest) = take_file(alloc, whole, at, &board, 0, head.first, rest)?;
        let at = at + u64::from(head.first);
        let (second, rest) = take_second(alloc, whole, at, &board, head, rest)?;
        let said = Said {
            board_text,
            board,
            first,
            second,
        };
        Ok((said, rest))
    } else {
        Err(JobFault::NotAJob { at: places.second })
    }
}
