//! The head of a body: the mark and the lengths.
ghost use Rattle.std.specs.Prelude.{◌≡◌, ◌≤◌, ◌+◌, length, IfOk};
ghost use Rattle.job_text.specs.Reading.{first_head, second_head, head_at, places_of};
ghost use Rattle.job_text.specs.Shown.{Gives};

use crate::fault::JobFault;
use crate::fields::{take_mark, take_number, take_text};
use crate::format::Format;

/// The lengths of the texts in bytes, and the numbers of FLM files, of runs and of cells.
#[derive(Clone, Copy)]
pub struct Head {
    pub board: u32,
    pub files: u32,
    pub first: u32,
    pub second: u32,
    pub runs: u32,
    pub cells: u32,
}

/// The offset of the first text, and the offsets that show a wrong field: the number of FLM files, the length of the second one, and the
/// numbers of runs and of cells.
#[derive(Clone, Copy)]
pub struct Places {
    pub front: u64,
    pub files: u64,
    pub second: u64,
    pub runs: u64,
    pub cells: u64,
}

/// The length of a body of the second format up to its lengths: the mark and the hash.
const HASH_END: u32 = 39;

/// The offsets of a format. The first format doesn't write the number of FLM files. A board with more than one region is refused at its
/// text.
pub fn places_in(format: Format) -> Places
    ensures value { result ≡ places_of format }
    ensures small { result.front ≤ 64 }
{
    match format {
        Format::First => Places {
            front: 24,
            files: 24,
            second: 24,
            runs: 16,
            cells: 20,
        },
        Format::Second => Places {
            front: 64,
            files: 44,
            second: 52,
            runs: 56,
            cells: 60,
        },
    }
}

/// Takes the head of the first format.
#[tactic(auto, unfolding(crate::specs::Reading::first_head))]
fn take_first(whole: u64, bytes: &[u8]) -> Result<(Head, &[u8]), JobFault>
    requires { 7 ≤ length bytes.now }
    ensures gives { Gives (λ x. (x.0, x.1.now)) result (first_head whole bytes.now) }
    ensures shorter { IfOk result (λ x. length x.1.now ≤ length bytes.now) }
    ensures taken { IfOk result (λ x. length bytes.now ≤ length x.1.now + 23) }
{
    let rest = take_mark(bytes)?;
    let (board, rest) = take_number(whole, rest)?;
    let (first, rest) = take_number(whole, rest)?;
    let (runs, rest) = take_number(whole, rest)?;
    let (cells, rest) = take_number(whole, rest)?;
    let head = Head {
        board,
        files: 1,
        first,
        second: 0,
        runs,
        cells,
    };
    Ok((head, rest))
}

/// Takes the head of the second format.
#[tactic(auto, unfolding(crate::specs::Reading::second_head))]
fn take_second(whole: u64, bytes: &[u8]) -> Result<(Head, &[u8]), JobFault>
    ensures gives { Gives (λ x. (x.0, x.1.now)) result (second_head whole bytes.now) }
    ensures shorter { IfOk result (λ x. length x.1.now ≤ length bytes.now) }
    ensures taken { IfOk result (λ x. length bytes.now ≤ length x.1.now + 63) }
{
    let (_, rest) = take_text(whole, HASH_END, bytes)?;
    let (board, rest) = take_number(whole, rest)?;
    let (files, rest) = take_number(whole, rest)?;
    let (first, rest) = take_number(whole, rest)?;
    let (second, rest) = take_number(whole, rest)?;
    let (runs, rest) = take_number(whole, rest)?;
    let (cells, rest) = take_number(whole, rest)?;
    let head = Head {
        board,
        files,
        first,
        second,
        runs,
        cells,
    };
    Ok((head, rest))
}

/// Takes the head.
pub fn take_head(whole: u64, format: Format, bytes: &[u8]) -> Result<(Head, &[u8]), JobFault>
    requires { 7 ≤ length bytes.now }
    ensures gives { Gives (λ x. (x.0, x.1.now)) result (head_at whole format bytes.now) }
    ensures shorter { IfOk result (λ x. length x.1.now ≤ length bytes.now) }
    ensures taken { IfOk result (λ x. length bytes.now ≤ length x.1.now + 63) }
{
    match format {
        Format::First => take_first(whole, bytes),
        Format::Second => take_second(whole, bytes),
    }
}
