//! How long the texts of a job are, by the fields of the job file's head.
ghost use Rattle.std.specs.Prelude.{◌≡◌, ◌≤◌, ◌<◌, ◌+◌, ◌^◌, length, take, drop, IsTrue, IfOk};
ghost use Rattle.faults.specs.Counts.{HasCause};
ghost use Rattle.bench_model.specs.Calls.{OnlyReads};
ghost use Rattle.octets.specs.Field.{field32};
ghost use Rattle.job_text.specs.Body.{Job, HasFields, body_of};
ghost use Rattle.job_text.specs.Files.{IsWhole};
ghost use Rattle.job_text.specs.Reading.{format_in};
ghost use Rattle.job_text.specs.Stands.{IsSomeJob};
ghost use Rattle.job_parts.specs.Lengths.{AreLengths, front_of, flm_at, flm_size};

use crate::part::Place;
use bench_model::{Bench, StoreFault};
use job_text::{Format, format_of, places_in};
use octets::le32;

/// The format of a job, and how many bytes its board and its FLM files have. The second FLM file may be missing.
#[derive(Clone, Copy)]
pub struct Lengths {
    pub format: Format,
    pub board: u32,
    pub first: u32,
    pub second: u32,
}

impl Lengths {
    /// Where the texts of the job begin; the board's is the first.
    pub fn front(&self) -> u64
        ensures value { result ≡ front_of self.now }
        ensures small { result ≤ 64 }
    {
        places_in(self.format).front
    }

    /// Where the FLM file of a region begins.
    pub fn flm_at(&self, place: Place) -> u64
        ensures value { result ≡ flm_at self.now place }
        ensures small { result < 2 ^ 34 }
    {
        let first = self.front() + u64::from(self.board);
        match place {
            Place::First => first,
            Place::Second => first + u64::from(self.first),
        }
    }

    /// How many bytes the FLM file of a region has.
    pub fn flm_len(&self, place: Place) -> u64
        ensures value { result ≡ flm_size self.now place }
        ensures small { result < 2 ^ 32 }
    {
        match place {
            Place::First => u64::from(self.first),
            Place::Second => u64::from(self.second),
        }
    }
}

/// The format that the file's mark gives.
fn read_mark<B: Bench>(bench: &mut B) -> Result<Format, StoreFault>
    requires { IsTrue B.tells → 8 ≤ length (B.state bench.old).file }
    ensures ok { IsTrue B.tells → IfOk result (λ f. f ≡ format_in (take 7 (drop 1 (B.state bench.old).file))) }
    ensures reads { OnlyReads B.tells (B.state bench.old) (B.state bench.new) }
    ensures cause { HasCause (B.state bench.old).store_faults (B.state bench.new).store_faults result }
{
    let mut mark = [0; 7];
    bench.file_read(1, &mut mark)?;
    Ok(format_of(&mark))
}

/// The number in a field.
fn read_number<B: Bench>(bench: &mut B, at: u64) -> Result<u32, StoreFault>
    requires { IsTrue B.tells → at + 4 ≤ length (B.state bench.old).file }
    ensures ok { IsTrue B.tells → IfOk result (λ n. n ≡ field32 (take 4 (drop at (B.state bench.old).file)) 0) }
    ensures reads { OnlyReads B.tells (B.state bench.old) (B.state bench.new) }
    ensures cause { HasCause (B.state bench.old).store_faults (B.state bench.new).store_faults result }
{
    let mut bytes = [0; 4];
    bench.file_read(at, &mut bytes)?;
    Ok(le32(&bytes, 0))
}

/// The lengths of the texts of a file that stands for a job.
pub fn read_lengths<B: Bench>(bench: &mut B) -> Result<Lengths, StoreFault>
    requires { IsTrue B.tells → IsSomeJob (B.state bench.old).file }
    ensures ok { IsTrue B.tells → (j : Job) → HasFields j → IsWhole (body_of j) (B.state bench.old).file → IfOk result (AreLengths j) }
    ensures reads { OnlyReads B.tells (B.state bench.old) (B.state bench.new) }
    ensures cause { HasCause (B.state bench.old).store_faults (B.state bench.new).store_faults result }
{
    match read_mark(bench)? {
        Format::First => read_first(bench),
        Format::Second => read_second(bench),
    }
}

/// The lengths in a head of the first format.
fn read_first<B: Bench>(bench: &mut B) -> Result<Lengths, StoreFault>
    requires { IsTrue B.tells → 24 ≤ length (B.state bench.old).file }
    ensures ok { IsTrue B.tells → (j : Job) → HasFields j → IsWhole (body_of j) (B.state bench.old).file → j.format ≡ Format.First
        → IfOk result (AreLengths j) }
    ensures reads { OnlyReads B.tells (B.state bench.old) (B.state bench.new) }
    ensures cause { HasCause (B.state bench.old).store_faults (B.state bench.new).store_faults result }
{
    let board = read_number(bench, 8)?;
    let first = read_number(bench, 12)?;
    Ok(Lengths {
        format: Format::First,
        board,
        first,
        second: 0,
    })
}

/// The lengths in a head of the second format.
fn read_second<B: Bench>(bench: &mut B) -> Result<Lengths, StoreFault>
    requires { IsTrue B.tells → 64 ≤ length (B.state bench.old).file }
    ensures ok { IsTrue B.tells → (j : Job) → HasFields j → IsWhole (body_of j) (B.state bench.old).file → j.format ≡ Format.Second
        → IfOk result (AreLengths j) }
    ensures reads { OnlyReads B.tells (B.state bench.old) (B.state bench.new) }
    ensures cause { HasCause (B.state bench.old).store_faults (B.state bench.new).store_faults result }
{
    let board = read_number(bench, 40)?;
    let first = read_number(bench, 48)?;
    let second = read_number(bench, 52)?;
    Ok(Lengths {
        format: Format::Second,
        board,
        first,
        second,
    })
}
