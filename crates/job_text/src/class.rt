//! What a job file is.
ghost use Rattle.std.specs.Prelude.{◌≡◌, ◌≤◌, ◌+◌, length, IfOk};
ghost use Rattle.job_text.specs.Said.{algorithms_shown};
ghost use Rattle.job_text.specs.Heads.{file_of, second_of, said_in};
ghost use Rattle.job_text.specs.Reading.{rest_at, job_as, job_at, class_behind, class_of, seen_of};
ghost use Rattle.job_text.specs.Shown.{Gives, seen_job, IsClass};
ghost use Rattle.job_text.specs.Stands.{IsClassOf};

use crate::algorithms::Algorithms;
use crate::damage::{differing_hashes, is_second};
use crate::fault::JobFault;
use crate::format::Format;
use crate::head::{Head, places_in, take_head};
use crate::job::{Class, Job, cells_in};
use crate::runs::take_runs;
use crate::texts::{File, Said, take_texts};
use faults::OutOfMemory;
use std::alloc::Global;

/// Byte 0 of a file whose job is open.
const OPEN_GATE: u8 = 0xA5;

/// The algorithms that the FLM files describe.
fn algorithms_in(
    alloc: Global,
    first: File,
    second: Option<File>,
) -> Result<Algorithms, OutOfMemory>
    ensures { IfOk result (λ all. algorithms_shown all ≡ said_in (file_of first.entry) (second_of second.entry)) }
{
    let File { algorithm: one, .. } = first;
    match second {
        None => Algorithms::new(alloc, one, None),
        Some(File { algorithm, .. }) => Algorithms::new(alloc, one, Some(algorithm)),
    }
}

/// Reads everything after the head.
#[tactic(auto, unfolding(crate::specs::Reading::rest_at))]
fn read_rest(
    alloc: Global,
    whole: u64,
    format: Format,
    head: Head,
    bytes: &[u8],
) -> Result<Job, JobFault>
    requires inside { length bytes.now ≤ whole }
    requires early { whole ≤ length bytes.now + 64 }
    ensures { Gives seen_job result (seen_of whole (rest_at whole format head bytes.now)) }
{
    let places = places_in(format);
    let (said, rest) = take_texts(alloc, whole, &places, &head, bytes)?;
    let Said {
        board,
        first,
        second,
        ..
    } = said;
    let algorithms = algorithms_in(alloc, first, second)?;
    if head.cells != cells_in(&board) {
        return Err(JobFault::NotAJob { at: places.cells });
    }
    if head.runs == 0 {
        return Err(JobFault::NotAJob { at: places.runs });
    }
    let (image, rest) = take_runs(alloc, whole, board.regions.as_slice(), head.runs, rest)?;
    if rest.len() != head.cells as usize {
        return Err(JobFault::NotAJob { at: whole });
    }
    Ok(Job {
        board,
        algorithms,
        image,
        snapshot_at: whole - rest.len() as u64,
    })
}

/// Reads the job of a body in this format, in a file of `whole` bytes.
#[tactic(auto, unfolding(crate::specs::Reading::job_as))]
fn read_job_as(alloc: Global, whole: u64, format: Format, body: &[u8]) -> Result<Job, JobFault>
    requires { whole ≡ length body.now + 1 }
    ensures { Gives seen_job result (seen_of whole (job_as whole format body.now)) }
{
    if whole < places_in(format).front {
        return Err(JobFault::NotAJob { at: whole });
    }
    let (head, rest) = take_head(whole, format, body)?;
    read_rest(alloc, whole, format, head, rest)
}

/// Reads the job of a body, in a file of `whole` bytes.
fn read_job(alloc: Global, whole: u64, body: &[u8]) -> Result<Job, JobFault>
    requires { whole ≡ length body.now + 1 }
    ensures { Gives seen_job result (seen_of whole (job_at whole body.now)) }
{
    if is_second(body) {
        read_job_as(alloc, whole, Format::Second, body)
    } else {
        read_job_as(alloc, whole, Format::First, body)
    }
}

/// What a file is that has an open gate and this body.
#[tactic(auto, unfolding(crate::specs::Reading::class_behind))]
fn read_body(alloc: Global, whole: u64, body: &[u8]) -> Result<Class, OutOfMemory>
    requires { whole ≡ length body.now + 1 }
    ensures { IfOk result (λ c. IsClass whole c (class_behind whole body.now)) }
{
    match differing_hashes(body) {
        Some(damage) => return Ok(Class::Damaged(damage)),
        None => {}
    }
    match read_job(alloc, whole, body) {
        Ok(job) => Ok(Class::Stands(job)),
        Err(JobFault::NotAJob { at }) => Ok(Class::NotAJob { at }),
        Err(JobFault::OutOfMemory) => Err(OutOfMemory),
    }
}

/// What a file is, by reading it.
#[tactic(auto, unfolding(crate::specs::Reading::class_of))]
fn read_class(alloc: Global, file: &[u8]) -> Result<Class, OutOfMemory>
    ensures { IfOk result (λ c. IsClass (length file.now) c (class_of file.now)) }
{
    if file.len() <= 1 || file[0] != OPEN_GATE {
        return Ok(Class::Free);
    }
    read_body(alloc, file.len() as u64, &file[1..])
}

/// What a job file is: free, standing for a job, damaged, or none of these.
pub fn class_of_file(alloc: Global, file: &[u8]) -> Result<Class, OutOfMemory>
    ensures { IfOk result (λ c. IsClassOf c file.now) }
{
    read_class(alloc, file)
}
