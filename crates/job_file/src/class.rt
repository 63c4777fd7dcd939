//! Decides what the file of a bench is, reading it from the front. Of a job's snapshot only the length is checked and, in the second
//! format, the hash of everything.
ghost use Rattle.std.specs.Prelude.{◌≡◌, ◌≤◌, ◌<◌, ◌+◌, ℕ, List, length, take, drop, true, false, IsTrue, OnOk, IfOk, IfErr};
ghost use Rattle.bench_model.specs.History.{LeftOnly};
ghost use Rattle.bench_model.specs.State.{file_half};
ghost use Rattle.bench_model.specs.Calls.{OnlyReads};
ghost use Rattle.job_text.specs.Reading.{head_at, rest_at, format_in, is_damaged, job_as, places_of};
ghost use Rattle.job_text.specs.Stands.{IsClassOf};
ghost use Rattle.job_file.specs.Counted.{read_fault, look_fault};
ghost use Rattle.bench_model.specs.Counted.{is_store_fault, fault_in, IsCounted};
ghost use Rattle.job_file.specs.Faults.{IsSoundClass};
ghost use Rattle.job_file.specs.First.{SyncsFirst};
ghost use Rattle.job_file.specs.Readers.{Fails, Gives, head_read, head_len, IsHeadOf, Counts, IsJobRest, IsJobBody, IsGate};

use crate::damage::{find_damage, read_format};
use crate::fault::{LookFault, ReadFault};
use crate::image::read_runs;
use crate::pieces::PIECE;
use crate::texts::{Said, read_said};
use bench_model::{Bench, StoreFault};
use faults::OutOfMemory;
use job_text::{
    Algorithms, Class, Format, Head, Job, JobFault, Places, cells_in, places_in, take_head,
};
use std::alloc::Global;

/// Byte 0 of a file whose job is open.
const OPEN_GATE: u8 = 0xA5;

/// The head of a job, from the bytes between the gate and the texts.
fn judge_head(whole: u64, format: Format, bytes: &[u8]) -> Result<Head, ReadFault>
    requires { length bytes.now ≡ head_len format }
    ensures said { (body : List ℕ) → head_len format ≤ length body → bytes.now ≡ take (head_len format) body
        → Gives (λ h. (h, drop (head_len format) body)) result (head_at whole format body) }
    ensures text { IfOk result (λ h. IsHeadOf format h bytes.now) }
    ensures no_store { is_store_fault (fault_in read_fault result) ≡ false }
{
    match take_head(whole, format, bytes) {
        Ok((head, _)) => Ok(head),
        Err(JobFault::OutOfMemory) => Err(ReadFault::OutOfMemory),
        Err(JobFault::NotAJob { at }) => Err(ReadFault::NotAJob { at }),
    }
}

/// Reads the head of a job in this format, from a file of `whole` bytes, into a buffer of the head's length.
fn read_head_into<B: Bench>(
    bench: &mut B,
    whole: u64,
    format: Format,
    bytes: &mut [u8],
) -> Result<Head, ReadFault>
    requires told { IsTrue B.tells → length (B.state bench.old).file ≡ whole }
    requires room { length bytes.old ≡ head_len format }
    requires long { head_len format + 1 ≤ whole }
    ensures said { IsTrue B.tells → Gives (λ h. (h, drop (head_len format) (drop 1 (B.state bench.old).file))) result
        (head_at whole format (drop 1 (B.state bench.old).file)) }
    ensures text { IsTrue B.tells → IfOk result (λ h. IsHeadOf format h (take (head_len format) (drop 1 (B.state bench.old).file))) }
    ensures reads { OnlyReads B.tells (B.state bench.old) (B.state bench.new) }
    ensures counted { IsCounted (B.state bench.old).store_faults (B.state bench.new).store_faults (is_store_fault (fault_in read_fault result)) }
{
    match bench.file_read(1, bytes) {
        Ok(()) => judge_head(whole, format, bytes),
        Err(StoreFault) => Err(ReadFault::StoreFault),
    }
}

/// Reads the head of a job in this format, from a file of `whole` bytes.
fn read_head<B: Bench>(bench: &mut B, whole: u64, format: Format) -> Result<Head, ReadFault>
    requires told { IsTrue B.tells → length (B.state bench.old).file ≡ whole }
    ensures said { IsTrue B.tells → Gives (λ h. (h, drop (places_of format).front (B.state bench.old).file)) result
        (head_read whole format (drop 1 (B.state bench.old).file)) }
    ensures text { IsTrue B.tells → IfOk result (λ h. IsHeadOf format h (take (head_len format) (drop 1 (B.state bench.old).file))) }
    ensures long { IfOk result (λ h. (places_of format).front ≤ whole) }
    ensures reads { OnlyReads B.tells (B.state bench.old) (B.state bench.new) }
    ensures counted { IsCounted (B.state bench.old).store_faults (B.state bench.new).store_faults (is_store_fault (fault_in read_fault result)) }
{
    let places = places_in(format);
    if whole < places.front {
        return Err(ReadFault::NotAJob { at: whole });
    }
    let size = places.front as usize - 1;
    read_head_into(bench, whole, format, &mut [0; 63][..size])
}

/// Checks the numbers of cells and of runs.
fn check_counts(places: &Places, head: &Head, size: u32) -> Result<(), ReadFault>
    ensures { Counts places.now head.now size result }
{
    let cells = head.cells;
    let runs = head.runs;
    if cells != size {
        return Err(ReadFault::NotAJob { at: places.cells });
    }
    if runs == 0 {
        return Err(ReadFault::NotAJob { at: places.runs });
    }
    Ok(())
}

/// Reads everything after the head.
fn read_rest<B: Bench>(
    alloc: Global,
    bench: &mut B,
    whole: u64,
    format: Format,
    head: Head,
    window: &mut [u8],
) -> Result<Job, ReadFault>
    requires told { IsTrue B.tells → length (B.state bench.old).file ≡ whole }
    requires within { (places_of format).front ≤ whole }
    requires room { length window.old ≡ PIECE }
    ensures ok { IsTrue B.tells → IfOk result (λ job. IsJobRest job format (B.state bench.old).file head) }
    ensures err { IsTrue B.tells → IfErr result (λ e. Fails e (rest_at whole format head (drop (places_of format).front (B.state bench.old).file))) }
    ensures reads { OnlyReads B.tells (B.state bench.old) (B.state bench.new) }
    ensures counted { IsCounted (B.state bench.old).store_faults (B.state bench.new).store_faults (is_store_fault (fault_in read_fault result)) }
{
    let places = places_in(format);
    let said = match read_said(alloc, bench, whole, &places, &head) {
        Ok(said) => said,
        Err(fault) => return Err(fault),
    };
    let Said {
        board,
        first,
        second,
        end,
    } = said;
    match check_counts(&places, &head, cells_in(&board)) {
        Ok(()) => {}
        Err(fault) => return Err(fault),
    }
    let regions = board.regions.as_slice();
    let (image, at) = match read_runs(alloc, bench, whole, regions, head.runs, end, window) {
        Ok(read) => read,
        Err(fault) => return Err(fault),
    };
    let left = whole - at;
    let cells = u64::from(head.cells);
    if left != cells {
        return Err(ReadFault::NotAJob { at: whole });
    }
    match Algorithms::new(alloc, first, second) {
        Ok(algorithms) => Ok(Job {
            board,
            algorithms,
            image,
            snapshot_at: at,
        }),
        Err(OutOfMemory) => Err(ReadFault::OutOfMemory),
    }
}

/// Reads the job after the gate of a file of `whole` bytes, in this format. The hash isn't checked.
fn read_job<B: Bench>(
    alloc: Global,
    bench: &mut B,
    whole: u64,
    format: Format,
    window: &mut [u8],
) -> Result<Job, ReadFault>
    requires told { IsTrue B.tells → length (B.state bench.old).file ≡ whole }
    requires room { length window.old ≡ PIECE }
    ensures ok { IsTrue B.tells → IfOk result (λ job. IsJobBody job format (drop 1 (B.state bench.old).file) (B.state bench.old).file) }
    ensures err { IsTrue B.tells → IfErr result (λ e. Fails e (job_as whole format (drop 1 (B.state bench.old).file))) }
    ensures reads { OnlyReads B.tells (B.state bench.old) (B.state bench.new) }
    ensures counted { IsCounted (B.state bench.old).store_faults (B.state bench.new).store_faults (is_store_fault (fault_in read_fault result)) }
{
    match read_head(bench, whole, format) {
        Ok(head) => read_rest(alloc, bench, whole, format, head, window),
        Err(fault) => Err(fault),
    }
}

/// Whether the gate of a file of `whole` bytes is open.
fn is_open<B: Bench>(bench: &mut B, whole: u64) -> Result<bool, LookFault>
    requires told { IsTrue B.tells → length (B.state bench.old).file ≡ whole }
    ensures gives { IsTrue B.tells → IfOk result (IsGate (B.state bench.old).file) }
    ensures reads { OnlyReads B.tells (B.state bench.old) (B.state bench.new) }
    ensures counted { IsCounted (B.state bench.old).store_faults (B.state bench.new).store_faults (is_store_fault (fault_in look_fault result)) }
{
    if whole <= 1 {
        return Ok(false);
    }
    let mut gate = [0];
    match bench.file_read(0, &mut gate) {
        Ok(()) => {}
        Err(StoreFault) => return Err(LookFault::StoreFault),
    }
    if gate[0] == OPEN_GATE {
        Ok(true)
    } else {
        Ok(false)
    }
}

/// What a file of `whole` bytes is, where its gate is open and it isn't damaged; it is read in the format of its mark.
fn class_of_job<B: Bench>(
    alloc: Global,
    bench: &mut B,
    whole: u64,
    format: Format,
    window: &mut [u8],
) -> Result<Class, LookFault>
    requires told { IsTrue B.tells → length (B.state bench.old).file ≡ whole }
    requires opened { IsTrue B.tells → IsGate (B.state bench.old).file true }
    requires format { IsTrue B.tells → format_in (drop 1 (B.state bench.old).file) ≡ format }
    requires intact { IsTrue B.tells → is_damaged (drop 1 (B.state bench.old).file) ≡ false }
    requires room { length window.old ≡ PIECE }
    ensures class { IsTrue B.tells → IfOk result (λ c. IsClassOf c (B.state bench.old).file) }
    ensures sound { IfOk result IsSoundClass }
    ensures reads { OnlyReads B.tells (B.state bench.old) (B.state bench.new) }
    ensures counted { IsCounted (B.state bench.old).store_faults (B.state bench.new).store_faults (is_store_fault (fault_in look_fault result)) }
{
    match read_job(alloc, bench, whole, format, window) {
        Ok(job) => Ok(Class::Stands(job)),
        Err(ReadFault::NotAJob { at }) => Ok(Class::NotAJob { at }),
        Err(ReadFault::OutOfMemory) => Err(LookFault::OutOfMemory),
        Err(ReadFault::StoreFault) => Err(LookFault::StoreFault),
    }
}

/// What a file of `whole` bytes is, where its gate is open.
fn read_opened<B: Bench>(
    alloc: Global,
    bench: &mut B,
    whole: u64,
    window: &mut [u8],
) -> Result<Class, LookFault>
    requires told { IsTrue B.tells → length (B.state bench.old).file ≡ whole }
    requires opened { IsTrue B.tells → IsGate (B.state bench.old).file true }
    requires room { length window.old ≡ PIECE }
    ensures class { IsTrue B.tells → IfOk result (λ c. IsClassOf c (B.state bench.old).file) }
    ensures sound { IfOk result IsSoundClass }
    ensures reads { OnlyReads B.tells (B.state bench.old) (B.state bench.new) }
    ensures counted { IsCounted (B.state bench.old).store_faults (B.state bench.new).store_faults (is_store_fault (fault_in look_fault result)) }
{
    let format = match read_format(bench, whole) {
        Ok(format) => format,
        Err(StoreFault) => return Err(LookFault::StoreFault),
    };
    match find_damage(bench, whole, format, window) {
        Ok(None) => class_of_job(alloc, bench, whole, format, window),
        Ok(Some(damage)) => Ok(Class::Damaged(damage)),
        Err(StoreFault) => Err(LookFault::StoreFault),
    }
}

/// What a file of `whole` bytes is.
fn read_class<B: Bench>(alloc: Global, bench: &mut B, whole: u64) -> Result<Class, LookFault>
    requires told { IsTrue B.tells → length (B.state bench.old).file ≡ whole }
    ensures class { IsTrue B.tells → IfOk result (λ c. IsClassOf c (B.state bench.old).file) }
    ensures sound { IfOk result IsSoundClass }
    ensures reads { OnlyReads B.tells (B.state bench.old) (B.state bench.new) }
    ensures counted { IsCounted (B.state bench.old).store_faults (B.state bench.new).store_faults (is_store_fault (fault_in look_fault result)) }
{
    match is_open(bench, whole) {
        Ok(true) => read_opened(alloc, bench, whole, &mut [0; PIECE]),
        Ok(false) => Ok(Class::Free),
        Err(fault) => Err(fault),
    }
}

/// What the file is. After Ok, a stop leaves these bytes and nothing else.
pub(crate) fn look<B: Bench>(alloc: Global, bench: &mut B) -> Result<Class, LookFault>
    ensures class { IsTrue B.tells → IfOk result (λ c. IsClassOf c (B.state bench.old).file) }
    ensures sound { IfOk result IsSoundClass }
    ensures only { IsTrue B.tells → OnOk result (LeftOnly (B.state bench.old).file (file_half (B.state bench.new))) }
    ensures reads { OnlyReads B.tells (B.state bench.old) (B.state bench.new) }
    ensures counted { IsCounted (B.state bench.old).store_faults (B.state bench.new).store_faults (is_store_fault (fault_in look_fault result)) }
    ensures first { SyncsFirst B.tells B.state B.acts bench.old bench.new (is_store_fault (fault_in look_fault result) ≡ true) }
{
    bench.file_sync()?;
    let whole = bench.file_len()?;
    read_class(alloc, bench, whole)
}
