//! The listing of a job, line by line.
ghost use Rattle.std.specs.Prelude.{◌≡◌, ◌≤◌, length, IsTrue, IfOk};
ghost use Rattle.std.specs.List.{flat_map};
ghost use Rattle.faults.specs.Counts.{HasCause};
ghost use Rattle.bench_model.specs.Calls.{OnlyReads};
ghost use Rattle.outside_io.specs.Puts.{Puts};
ghost use Rattle.board_file.specs.Shown.{shown as board_shown};
ghost use Rattle.job_text.specs.Said.{algorithms_shown};
ghost use Rattle.job_text.specs.Stands.{StandsFor};
ghost use Rattle.report_text.specs.Inspection.{inspection_text};
ghost use Rattle.flm_descriptor.specs.Shown.{shown as flm_shown};
ghost use Rattle.report_text.specs.Lines.{hash_text};
ghost use Rattle.job_parts.specs.Listing.{format_text, span_line, hash_line, listing_of, IsSurvey};

use crate::board::put_board;
use crate::hashes::{hash_file, hash_image};
use crate::lengths::read_lengths;
use crate::pieces::put_pieces;
use bench_model::{Bench, StoreFault};
use byte_map::ByteMap;
use flm_descriptor::Algorithm;
use job_text::{Format, Job};
use octets::hex_digits;
use outside_io::{OutputFault, Sink};
use report_text::{put_inspection, put_job};

/// What is read of a job before its lines are put.
#[derive(Clone, Copy)]
pub struct Survey {
    pub format: Format,
    pub image: [u8; 32],
    pub snapshot: [u8; 32],
}

/// Reads the format of the job for which the file stands, and hashes its image and its snapshot.
pub fn read_survey<B: Bench>(bench: &mut B, job: &Job) -> Result<Survey, StoreFault>
    requires { IsTrue B.tells → StandsFor job.now (B.state bench.old).file }
    ensures ok { IsTrue B.tells → (stands : StandsFor job.now (B.state bench.old).file) → IfOk result (IsSurvey stands.text) }
    ensures reads { OnlyReads B.tells (B.state bench.old) (B.state bench.new) }
    ensures cause { HasCause (B.state bench.old).store_faults (B.state bench.new).store_faults result }
{
    let lengths = read_lengths(bench)?;
    let snapshot = hash_file(bench, job.snapshot_at, u64::from(job.cells()))?;
    Ok(Survey {
        format: lengths.format,
        image: hash_image(&job.image),
        snapshot,
    })
}

/// Puts the listing of a job. A fault may leave a beginning of it.
pub fn put_listing<O: Sink>(out: &mut O, job: &Job, survey: &Survey) -> Result<(), OutputFault>
    ensures { Puts O.tells (O.state out.old) (O.state out.new) (listing_of survey.now.format job.now.image survey.now.image survey.now.snapshot
        (board_shown job.now.board) (algorithms_shown job.now.algorithms)) result }
{
    put_job(out, Some(job))?;
    put_format(out, survey.format)?;
    put_board(out, &job.board)?;
    put_algorithms(out, job.algorithms.as_slice())?;
    put_span(out, &job.image)?;
    put_hash(out, b"image ", &survey.image)?;
    put_hash(out, b"snapshot ", &survey.snapshot)
}

/// Puts the lines of a format. If the format has a hash, that of an open job is right.
fn put_format<O: Sink>(out: &mut O, format: Format) -> Result<(), OutputFault>
    ensures { Puts O.tells (O.state out.old) (O.state out.new) (format_text format) result }
{
    match format {
        Format::First => put_pieces(out, &[b"format 1\nhash none\n"]),
        Format::Second => put_pieces(out, &[b"format 2\nhash right\n"]),
    }
}

/// Puts what each algorithm says of itself.
fn put_algorithms<O: Sink>(out: &mut O, algorithms: &[Algorithm]) -> Result<(), OutputFault>
    ensures { Puts O.tells (O.state out.old) (O.state out.new) (flat_map (λ a. inspection_text (flm_shown a)) algorithms.now) result }
{
    for algorithm in algorithms {
        put_inspection(out, algorithm)?;
    }
    Ok(())
}

/// Puts the line with the first and the last address of an image.
#[tactic(auto, unfolding(crate::specs::Listing::span_line))]
fn put_span<O: Sink>(out: &mut O, image: &ByteMap) -> Result<(), OutputFault>
    requires { 1 ≤ length image.now }
    ensures { Puts O.tells (O.state out.old) (O.state out.new) (span_line image.now) result }
{
    let (first, _) = image.run(0);
    let (at, bytes) = image.run(image.runs() - 1);
    let last = u64::from(at) + bytes.len() as u64 - 1;
    let first = hex_digits::<8>(first);
    let last = hex_digits::<8>(last as u32);
    put_pieces(out, &[b"first ", &first, b" last ", &last, b"\n"])
}

/// Puts the line of a hash.
#[tactic(auto, unfolding(crate::specs::Listing::hash_line))]
fn put_hash<O: Sink>(out: &mut O, what: &[u8], hash: &[u8]) -> Result<(), OutputFault>
    ensures { Puts O.tells (O.state out.old) (O.state out.new) (hash_line what.now hash.now) result }
{
    put_pieces(out, &[what, b"sha256 "])?;
    put_digits(out, hash)?;
    put_pieces(out, &[b"\n"])
}

/// Puts two digits for each byte.
fn put_digits<O: Sink>(out: &mut O, hash: &[u8]) -> Result<(), OutputFault>
    ensures { Puts O.tells (O.state out.old) (O.state out.new) (hash_text hash.now) result }
{
    for byte in hash {
        put_pieces(out, &[&hex_digits::<2>(u32::from(*byte))])?;
    }
    Ok(())
}
