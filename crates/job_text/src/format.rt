//! The formats of a body.
ghost use Rattle.std.specs.Prelude.{◌≡◌};
ghost use Rattle.job_text.specs.Reading.{format_in};

use crate::damage::is_second;

/// A format of a body. Jobs are written in the second one only.
#[derive(Clone, Copy)]
pub enum Format {
    /// `FLMJOB1`: one FLM file, and no hash.
    First,
    /// `FLMJOB2`: one FLM file or two, and the SHA-256 of everything after the hash.
    Second,
}

/// The format of a body by its mark. A body without a mark is read as the first format.
pub fn format_of(body: &[u8]) -> Format
    ensures { result ≡ format_in body.now }
{
    if is_second(body) {
        Format::Second
    } else {
        Format::First
    }
}
