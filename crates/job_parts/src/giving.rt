//! The call that reads out a part of a job.
ghost use Rattle.std.specs.Prelude.{◌≡◌, ◌<◌, ◌↔◌, length, IsTrue};
ghost use Rattle.command_files.specs.Call.{bench_call, sink_call};
ghost use Rattle.command_files.specs.Shown.{answer_of};
ghost use Rattle.device_dump.specs.Dump.{text_in};
ghost use Rattle.outside_io.specs.Puts.{Puts};
ghost use Rattle.job_text.specs.Stands.{StandsFor};
ghost use Rattle.job_parts.specs.Parts.{index_of, PutsPart, GivesPart, GiveEnds};

use crate::copy::copy;
use crate::lengths::read_lengths;
use crate::listing::{put_listing, read_survey};
use crate::part::{Part, Place};
use bench_model::{Bench, StoreFault};
use byte_map::ByteMap;
use command_words::TextForm;
use image_more::{write_hex, write_srec};
use job_file::open;
use job_text::Job;
use outside_io::{OutputFault, Sink};
use report_text::Refusal;
use std::alloc::Global;

/// Puts a part of the job for which the job file stands. The file is only read, and the cells aren't read. It takes memory for the
/// contents of the texts and for the image, and none for the snapshot.
pub fn give<'a, B: Bench, O: Sink>(
    alloc: Global,
    part: Part,
    bench: &mut B,
    out: &mut O,
) -> Result<(), Refusal<'a>>
    ensures { GiveEnds part (bench_call B.tells (B.state bench.old) (B.state bench.new)) (sink_call O.tells (O.state out.old) (O.state out.new))
        (answer_of result) }
{
    match open(alloc, bench) {
        Ok(job) => put_part(part, bench, &job, out),
        Err(fault) => Err(Refusal::from(fault)),
    }
}

/// Puts a part of a job.
fn put_part<'a, B: Bench, O: Sink>(
    part: Part,
    bench: &mut B,
    job: &Job,
    out: &mut O,
) -> Result<(), Refusal<'a>>
    requires { IsTrue B.tells → StandsFor job.now (B.state bench.old).file }
    ensures { GivesPart part job.now (bench_call B.tells (B.state bench.old) (B.state bench.new))
        (sink_call O.tells (O.state out.old) (O.state out.new)) (answer_of result) }
{
    match part {
        Part::Listing => put_lines(bench, job, out),
        Part::Board => put_board_text(bench, job, out),
        Part::Flm(place) => put_flm(place, bench, job, out),
        Part::Image(form) => put_image(form, bench, job, out),
        Part::Snapshot => put_snapshot(bench, job, out),
    }
}

/// Puts the listing of a job, line by line.
fn put_lines<'a, B: Bench, O: Sink>(
    bench: &mut B,
    job: &Job,
    out: &mut O,
) -> Result<(), Refusal<'a>>
    requires { IsTrue B.tells → StandsFor job.now (B.state bench.old).file }
    ensures { PutsPart Part.Listing job.now (bench_call B.tells (B.state bench.old) (B.state bench.new))
        (sink_call O.tells (O.state out.old) (O.state out.new)) (answer_of result) }
{
    let survey = match read_survey(bench, job) {
        Ok(survey) => survey,
        Err(StoreFault) => return Err(Refusal::StoreFault),
    };
    match put_listing(out, job, &survey) {
        Ok(()) => Ok(()),
        Err(OutputFault) => Err(Refusal::OutputFault),
    }
}

/// Puts the text of a job's board.
fn put_board_text<'a, B: Bench, O: Sink>(
    bench: &mut B,
    job: &Job,
    out: &mut O,
) -> Result<(), Refusal<'a>>
    requires { IsTrue B.tells → StandsFor job.now (B.state bench.old).file }
    ensures { PutsPart Part.Board job.now (bench_call B.tells (B.state bench.old) (B.state bench.new))
        (sink_call O.tells (O.state out.old) (O.state out.new)) (answer_of result) }
{
    match read_lengths(bench) {
        Ok(lengths) => copy(bench, lengths.front(), u64::from(lengths.board), out),
        Err(StoreFault) => Err(Refusal::StoreFault),
    }
}

/// Puts the FLM file of a region. A job of one region has only the first.
fn put_flm<'a, B: Bench, O: Sink>(
    place: Place,
    bench: &mut B,
    job: &Job,
    out: &mut O,
) -> Result<(), Refusal<'a>>
    requires { IsTrue B.tells → StandsFor job.now (B.state bench.old).file }
    ensures { GivesPart (Part.Flm place) job.now (bench_call B.tells (B.state bench.old) (B.state bench.new))
        (sink_call O.tells (O.state out.old) (O.state out.new)) (answer_of result) }
{
    if !has_flm(place, job) {
        return Err(Refusal::Usage);
    }
    copy_flm(place, bench, job, out)
}

/// The number of a region.
fn index_of(place: Place) -> usize
    ensures { result ≡ index_of place }
{
    match place {
        Place::First => 0,
        Place::Second => 1,
    }
}

/// Whether a job has an FLM file for a region.
fn has_flm(place: Place, job: &Job) -> bool
    ensures { IsTrue result ↔ (index_of place < length job.now.algorithms) }
{
    index_of(place) < job.algorithms.as_slice().len()
}

/// Puts the FLM file of a region that the job has.
fn copy_flm<'a, B: Bench, O: Sink>(
    place: Place,
    bench: &mut B,
    job: &Job,
    out: &mut O,
) -> Result<(), Refusal<'a>>
    requires stands { IsTrue B.tells → StandsFor job.now (B.state bench.old).file }
    requires has { index_of place < length job.now.algorithms }
    ensures { PutsPart (Part.Flm place) job.now (bench_call B.tells (B.state bench.old) (B.state bench.new))
        (sink_call O.tells (O.state out.old) (O.state out.new)) (answer_of result) }
{
    match read_lengths(bench) {
        Ok(lengths) => copy(bench, lengths.flm_at(place), lengths.flm_len(place), out),
        Err(StoreFault) => Err(Refusal::StoreFault),
    }
}

/// Puts an image as a text of this form.
fn put_image<'a, B: Bench, O: Sink>(
    form: TextForm,
    bench: &B,
    job: &Job,
    out: &mut O,
) -> Result<(), Refusal<'a>>
    ensures { PutsPart (Part.Image form) job.now (bench_call B.tells (B.state bench.now) (B.state bench.now))
        (sink_call O.tells (O.state out.old) (O.state out.new)) (answer_of result) }
{
    match put_map(form, &job.image, out) {
        Ok(()) => Ok(()),
        Err(OutputFault) => Err(Refusal::OutputFault),
    }
}

/// Puts the cells as they were when a job began.
fn put_snapshot<'a, B: Bench, O: Sink>(
    bench: &mut B,
    job: &Job,
    out: &mut O,
) -> Result<(), Refusal<'a>>
    requires { IsTrue B.tells → StandsFor job.now (B.state bench.old).file }
    ensures { PutsPart Part.Snapshot job.now (bench_call B.tells (B.state bench.old) (B.state bench.new))
        (sink_call O.tells (O.state out.old) (O.state out.new)) (answer_of result) }
{
    copy(bench, snapshot_at(job), u64::from(job.cells()), out)
}

/// Where the snapshot of a job begins in its file.
fn snapshot_at(job: &Job) -> u64
    ensures { result ≡ job.now.snapshot_at }
{
    job.snapshot_at
}

/// Puts a map as a text of this form.
fn put_map<O: Sink>(form: TextForm, map: &ByteMap, out: &mut O) -> Result<(), OutputFault>
    ensures { Puts O.tells (O.state out.old) (O.state out.new) (text_in form map.now) result }
{
    match form {
        TextForm::Hex => write_hex(map, out),
        TextForm::Srec => write_srec(map, out),
    }
}
