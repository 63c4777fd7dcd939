//! Reads the image of a job from a file, run by run, and each run window by window.
ghost use Rattle.std.specs.Prelude.{◌≡◌, ◌≤◌, ◌<◌, ◌+◌, ◌*◌, ◌^◌, ◌++◌, ℕ, List, length, take, drop, false, IsTrue, IfOk, IfErr, OnOk};
ghost use Rattle.std.specs.List.{flat_map};
ghost use Rattle.bench_model.specs.Calls.{OnlyReads};
ghost use Rattle.byte_map.specs.Image.{AreMaximal};
ghost use Rattle.byte_map.specs.Laying.{Lays};
ghost use Rattle.board_file.specs.Limits.{size_of};
ghost use Rattle.job_text.specs.Fits.{LiesIn};
ghost use Rattle.job_text.specs.Body.{field, run_text};
ghost use Rattle.job_text.specs.Reading.{is_placed, run_at, runs_at};
ghost use Rattle.job_text.specs.Runs.{EndBelow, EndBy, run_of};
ghost use Rattle.bench_model.specs.Counted.{is_store_fault, fault_in, IsCounted};
ghost use Rattle.job_file.specs.Counted.{read_fault};
ghost use Rattle.job_file.specs.Readers.{Fails, Gives, IsNoVerdict, IsPlaced, IsLaid, AddsRun};

use crate::fault::ReadFault;
use crate::pieces::{PIECE, piece_end};
use bench_model::{Bench, StoreFault};
use board_file::Region;
use byte_map::ByteMap;
use job_text::{add_piece, covers};
use octets::le32;
use std::alloc::Global;

/// The length of a run's head in bytes: its address and its length.
const HEAD: u64 = 8;

/// The number of addresses.
const ADDRESSES: u64 = 0x1_0000_0000;

/// Whether a run begins at `low` or above it, has a byte, and lies in the regions.
fn is_placed(regions: &[Region], low: u64, place: u32, len: u32) -> bool
    ensures { result ≡ is_placed regions.now low place len }
{
    let from = u64::from(place);
    let end = from + u64::from(len);
    low <= from && 0 < len && end <= ADDRESSES && covers(regions, from, end)
}

/// The address and the length of a run, from its head, which is at offset `at` of a file of `whole` bytes.
fn judge_run(
    head: &[u8],
    whole: u64,
    regions: &[Region],
    low: u64,
    at: u64,
) -> Result<(u32, u32), ReadFault>
    requires head { length head.now ≡ 8 }
    requires within { at + 8 ≤ whole }
    ensures said { (file : List ℕ) → length file ≡ whole → head.now ≡ take 8 (drop at file)
        → Gives (λ x. (run_of x.0 (take x.1 (drop (at + 8) file)), drop (at + 8 + x.1) file)) result (run_at whole regions.now low (drop at file)) }
    ensures text { IfOk result (λ x. head.now ≡ field x.0 ++ field x.1) }
    ensures placed { IfOk result (λ x. IsPlaced whole regions.now low at x.0 x.1) }
    ensures no_store { is_store_fault (fault_in read_fault result) ≡ false }
{
    let place = le32(head, 0);
    let len = le32(head, 4);
    let left = whole - at - HEAD;
    let size = u64::from(len);
    if left < size {
        return Err(ReadFault::NotAJob { at: whole });
    }
    if is_placed(regions, low, place, len) {
        Ok((place, len))
    } else {
        Err(ReadFault::NotAJob { at })
    }
}

/// Reads the head of the run at an offset of the file: its address and its length. The run must lie in the regions.
fn read_run_head<B: Bench>(
    bench: &mut B,
    whole: u64,
    regions: &[Region],
    low: u64,
    at: u64,
) -> Result<(u32, u32), ReadFault>
    requires told { IsTrue B.tells → length (B.state bench.old).file ≡ whole }
    requires within { at ≤ whole }
    ensures said { IsTrue B.tells → Gives (λ x. (run_of x.0 (take x.1 (drop (at + 8) (B.state bench.old).file)), drop (at + 8 + x.1) (B.state bench.old).file))
        result
        (run_at whole regions.now low (drop at (B.state bench.old).file)) }
    ensures text { IsTrue B.tells → IfOk result (λ x. take 8 (drop at (B.state bench.old).file) ≡ field x.0 ++ field x.1) }
    ensures placed { IfOk result (λ x. IsPlaced whole regions.now low at x.0 x.1) }
    ensures reads { OnlyReads B.tells (B.state bench.old) (B.state bench.new) }
    ensures counted { IsCounted (B.state bench.old).store_faults (B.state bench.new).store_faults (is_store_fault (fault_in read_fault result)) }
{
    let left = whole - at;
    if left < HEAD {
        return Err(ReadFault::NotAJob { at: whole });
    }
    let mut head = [0; 8];
    match bench.file_read(at, &mut head) {
        Ok(()) => judge_run(&head, whole, regions, low, at),
        Err(StoreFault) => Err(ReadFault::StoreFault),
    }
}

/// Adds one window of the file's bytes at the end of an image.
fn lay_window<B: Bench>(
    bench: &mut B,
    image: &mut ByteMap,
    from: u64,
    place: u32,
    window: &mut [u8],
) -> Result<(), ReadFault>
    requires told { IsTrue B.tells → from + length window.old ≤ length (B.state bench.old).file }
    requires fits { place + length window.old ≤ 2 ^ 32 }
    requires behind { EndBy place image.old }
    ensures ok { OnOk result (Lays (run_of place window.new) image.old image.new) }
    ensures fault { IfErr result IsNoVerdict }
    ensures stand { IsTrue B.tells → OnOk result (window.new ≡ take (length window.old) (drop from (B.state bench.old).file)) }
    ensures reads { OnlyReads B.tells (B.state bench.old) (B.state bench.new) }
    ensures counted { IsCounted (B.state bench.old).store_faults (B.state bench.new).store_faults (is_store_fault (fault_in read_fault result)) }
{
    bench.file_read(from, window)?;
    add_piece(image, place, window)?;
    Ok(())
}

/// Adds a run of the file at the end of an image. It touches no run of the image.
fn lay_run<B: Bench>(
    bench: &mut B,
    image: &mut ByteMap,
    from: u64,
    place: u32,
    len: u32,
    window: &mut [u8],
) -> Result<(), ReadFault>
    requires told { IsTrue B.tells → from + len ≤ length (B.state bench.old).file }
    requires bound { from + len < 2 ^ 64 }
    requires fits { place + len ≤ 2 ^ 32 }
    requires some { 1 ≤ len }
    requires maximal { AreMaximal 0 (2 ^ 32) image.old }
    requires behind { EndBelow place image.old }
    requires room { length window.old ≡ PIECE }
    ensures ok { OnOk result (IsLaid B.tells (B.state bench.old).file from place len image.old image.new) }
    ensures fault { IfErr result IsNoVerdict }
    ensures reads { OnlyReads B.tells (B.state bench.old) (B.state bench.new) }
    ensures counted { IsCounted (B.state bench.old).store_faults (B.state bench.new).store_faults (is_store_fault (fault_in read_fault result)) }
{
    let count = len as usize;
    let mut at = 0;
    while at < count {
        let end = piece_end(at, count);
        lay_window(
            bench,
            image,
            from + at as u64,
            place + at as u32,
            &mut window[..end - at],
        )?;
        at = end;
    }
    Ok(())
}

/// Reads the run at an offset of the file into the end of an image, and answers its address and its length.
fn read_run<B: Bench>(
    bench: &mut B,
    image: &mut ByteMap,
    whole: u64,
    regions: &[Region],
    low: u64,
    at: u64,
    window: &mut [u8],
) -> Result<(u32, u32), ReadFault>
    requires told { IsTrue B.tells → length (B.state bench.old).file ≡ whole }
    requires within { at ≤ whole }
    requires maximal { AreMaximal 0 (2 ^ 32) image.old }
    requires behind { EndBelow low image.old }
    requires room { length window.old ≡ PIECE }
    ensures ok { IfOk result (λ x. AddsRun B.tells (B.state bench.old).file whole regions.now low at image.old image.new x.0 x.1) }
    ensures err { IsTrue B.tells → IfErr result (λ e. Fails e (run_at whole regions.now low (drop at (B.state bench.old).file))) }
    ensures reads { OnlyReads B.tells (B.state bench.old) (B.state bench.new) }
    ensures counted { IsCounted (B.state bench.old).store_faults (B.state bench.new).store_faults (is_store_fault (fault_in read_fault result)) }
{
    match read_run_head(bench, whole, regions, low, at) {
        Ok((place, len)) => match lay_run(bench, image, at + HEAD, place, len, window) {
            Ok(()) => Ok((place, len)),
            Err(fault) => Err(fault),
        },
        Err(fault) => Err(fault),
    }
}

/// Reads `count` runs from an offset of the file on, and answers their image and where they end. No run touches the one before it, and
/// each lies in the regions.
pub(crate) fn read_runs<B: Bench>(
    alloc: Global,
    bench: &mut B,
    whole: u64,
    regions: &[Region],
    count: u32,
    start: u64,
    window: &mut [u8],
) -> Result<(ByteMap, u64), ReadFault>
    requires told { IsTrue B.tells → length (B.state bench.old).file ≡ whole }
    requires within { start ≤ whole }
    requires room { length window.old ≡ PIECE }
    ensures gives { IsTrue B.tells → Gives (λ x. (x.0, drop x.1 (B.state bench.old).file)) result
        (runs_at whole regions.now count 0 (drop start (B.state bench.old).file)) }
    ensures text { IsTrue B.tells → IfOk result (λ x. drop start (B.state bench.old).file ≡ flat_map run_text x.0 ++ drop x.1 (B.state bench.old).file) }
    ensures count { IfOk result (λ x. length x.0 ≡ count) }
    ensures inside { IfOk result (λ x. LiesIn regions.now x.0) }
    ensures ends { IfOk result (λ x. x.1 ≤ whole) }
    // A run covers at least one cell, so it takes at most nine bytes a cell.
    ensures taken { IfOk result (λ x. x.1 ≤ start + 9 * size_of regions.now) }
    ensures reads { OnlyReads B.tells (B.state bench.old) (B.state bench.new) }
    ensures counted { IsCounted (B.state bench.old).store_faults (B.state bench.new).store_faults (is_store_fault (fault_in read_fault result)) }
{
    let mut image = ByteMap::new(alloc);
    let mut from = 0;
    let mut at = start;
    for _ in 0..count {
        let (place, len) = read_run(bench, &mut image, whole, regions, from, at, window)?;
        from = u64::from(place) + u64::from(len) + 1;
        at += HEAD + u64::from(len);
    }
    Ok((image, at))
}
