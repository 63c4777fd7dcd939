//! The words for several devices, as pairs.
ghost use Rattle.std.specs.Prelude.{◌≡◌, ◌<◌, ◌+◌, ◌*◌, [], length, take, get_or};
ghost use Rattle.flm_main.specs.Line.{job_names};

use octets::Word;

/// The largest number of devices in one call.
const MOST_PAIRS: usize = 16;

/// The names of a device's files.
#[derive(Clone, Copy)]
pub struct Pair<'a> {
    pub job: &'a Word,
    pub cells: &'a Word,
}

/// The number of complete pairs among these words, at most 16.
pub fn count_pairs(words: &[Word]) -> usize
    ensures { result ≡ length (take 16 (job_names words.now)) }
{
    (words.len() / 2).min(MOST_PAIRS)
}

/// The pair with this index.
pub fn pair_at(words: &[Word], index: usize) -> Pair<'_>
    requires { 2 * index + 1 < length words.now }
    ensures job { result.job.now ≡ get_or words.now (2 * index) [] }
    ensures cells { result.cells.now ≡ get_or words.now (2 * index + 1) [] }
{
    Pair {
        job: &words[2 * index],
        cells: &words[2 * index + 1],
    }
}
