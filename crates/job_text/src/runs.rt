//! The runs of an image in a body.
ghost use Rattle.std.specs.Prelude.{◌≡◌, ◌≤◌, ◌<◌, ◌+◌, ◌*◌, ◌^◌, ◌++◌, [], ◌∷◌, IfOk, OnOk, IsTrue, length};
ghost use Rattle.byte_map.specs.Image.{addresses, AreMaximal};
ghost use Rattle.byte_map.specs.Laying.{Lays};
ghost use Rattle.board_file.specs.Limits.{size_of};
ghost use Rattle.job_text.specs.Fits.{LiesIn};
ghost use Rattle.job_text.specs.Reading.{covers, run_at, runs_at};
ghost use Rattle.job_text.specs.Runs.{EndBelow, EndBy, run_of};
ghost use Rattle.job_text.specs.Shown.{Gives};

use crate::fault::JobFault;
use crate::fields::{take_number, take_text};
use crate::fit::covers;
use board_file::Region;
use byte_map::{ByteMap, LayFault};
use faults::OutOfMemory;
use std::alloc::Global;

/// The number of addresses.
const ADDRESSES: u64 = 0x1_0000_0000;

/// Takes a run: its address, its bytes, and the bytes after it. The run begins at `low` or above it, and each byte of it lies in a
/// region.
#[tactic(auto, unfolding(crate::specs::Reading::run_at))]
fn take_run<'a>(
    whole: u64,
    regions: &[Region],
    low: u64,
    bytes: &'a [u8],
) -> Result<(u32, &'a [u8], &'a [u8]), JobFault>
    requires { length bytes.now ≤ whole }
    ensures gives { Gives (λ x. (run_of x.0 x.1.now, x.2.now)) result (run_at whole regions.now low bytes.now) }
    ensures shorter { IfOk result (λ x. length x.2.now ≤ length bytes.now) }
    ensures taken { IfOk result (λ x. length bytes.now ≤ length x.2.now + length x.1.now + 8) }
    ensures low { IfOk result (λ x. low ≤ x.0) }
    ensures some { IfOk result (λ x. 1 ≤ length x.1.now) }
    ensures inside { IfOk result (λ x. x.0 + length x.1.now ≤ addresses) }
    ensures covered { IfOk result (λ x. IsTrue (covers regions.now x.0 (x.0 + length x.1.now))) }
{
    let (at, rest) = take_number(whole, bytes)?;
    let (len, rest) = take_number(whole, rest)?;
    let (text, rest) = take_text(whole, len, rest)?;
    let from = u64::from(at);
    let end = from + u64::from(len);
    if low <= from && 0 < len && end <= ADDRESSES && covers(regions, from, end) {
        Ok((at, text, rest))
    } else {
        Err(JobFault::NotAJob {
            at: whole - bytes.len() as u64,
        })
    }
}

/// Adds bytes after all others. They extend the run that ends where they begin, or else are a run of their own.
pub fn add_piece(image: &mut ByteMap, at: u32, bytes: &[u8]) -> Result<(), OutOfMemory>
    requires fits { at + length bytes.now ≤ 2 ^ 32 }
    requires behind { EndBy at image.old }
    ensures { OnOk result (Lays (run_of at bytes.now) image.old image.new) }
{
    match image.lay(at, bytes) {
        Ok(()) => Ok(()),
        Err(LayFault::OutOfMemory) => Err(OutOfMemory),
        Err(LayFault::Conflict { .. }) => unreachable!(),
        Err(LayFault::PastEnd { .. }) => unreachable!(),
    }
}

/// Adds a run that begins after all others and touches none.
fn add_run(image: &mut ByteMap, at: u32, bytes: &[u8]) -> Result<(), OutOfMemory>
    requires some { 1 ≤ length bytes.now }
    requires fits { at + length bytes.now ≤ 2 ^ 32 }
    requires maximal { AreMaximal 0 (2 ^ 32) image.old }
    requires behind { EndBelow at image.old }
    ensures { OnOk result (image.new ≡ image.old ++ run_of at bytes.now ∷ []) }
{
    add_piece(image, at, bytes)
}

/// Takes `count` runs, and answers their image. No run touches the one before it, and each lies in the regions.
pub(crate) fn take_runs<'a>(
    alloc: Global,
    whole: u64,
    regions: &[Region],
    count: u32,
    bytes: &'a [u8],
) -> Result<(ByteMap, &'a [u8]), JobFault>
    requires inside { length bytes.now ≤ whole }
    ensures gives { Gives (λ x. (x.0, x.1.now)) result (runs_at whole regions.now count 0 bytes.now) }
    ensures count { IfOk result (λ x. length x.0 ≡ count) }
    ensures inside { IfOk result (λ x. LiesIn regions.now x.0) }
    ensures shorter { IfOk result (λ x. length x.1.now ≤ whole) }
    // A run covers at least one cell, so it takes at most nine bytes a cell.
    ensures taken { IfOk result (λ x. length bytes.now ≤ length x.1.now + 9 * size_of regions.now) }
{
    let mut image = ByteMap::new(alloc);
    let mut from = 0;
    let mut rest = bytes;
    for _ in 0..count {
        let (at, text, after) = take_run(whole, regions, from, rest)?;
        add_run(&mut image, at, text)?;
        from = u64::from(at) + text.len() as u64 + 1;
        rest = after;
    }
    Ok((image, rest))
}
