//! Writes the body of a job while the gate is closed. Nothing is synced: until a sync, a stop leaves any part of the body, and the gate
//! closed.
ghost use Rattle.std.specs.Prelude.{◌≡◌, ◌≤◌, ◌<◌, ◌+◌, ◌*◌, ◌^◌, ◌++◌, ◌∷◌, [], ℕ, List, length, take, drop, IsTrue, OnOk, IfOk, IfErr, None};
ghost use Rattle.std.specs.List.{concat, flat_map};
ghost use Rattle.sha2.specs.Sha256.{sha256};
ghost use Rattle.sha2.specs.Hashers.{Holds256};
ghost use Rattle.bench_model.specs.History.{Leaves, LeftOnly};
ghost use Rattle.bench_model.specs.State.{file_half};
ghost use Rattle.bench_model.specs.Calls.{Follows, CellsAreRead};
ghost use Rattle.job_text.specs.Body.{flm_len, run_text};
ghost use Rattle.job_text.specs.Parts.{AreParts, flms_of, head_of_parts, front_of, with_hash};
ghost use Rattle.job_text.specs.Runs.{run_of, AreShort};
ghost use Rattle.job_file.specs.Counted.{IsFault, begin_fault};
ghost use Rattle.bench_model.specs.Counted.{is_store_fault, is_device_fault, fault_in, IsCounted};
ghost use Rattle.job_file.specs.Stops.{IsShut, KeepsGate, Appends};

use crate::fault::BeginFault;
use crate::hash_front::hash_front;
use crate::pieces::{PIECE, piece_end};
use bench_model::{Bench, StoreFault};
use byte_map::ByteMap;
use job_text::{JobParts, run_head};
use sha2::{Digest, Sha256};

/// The offset of the hash in the file.
const HASH_AT: u64 = 8;

/// Appends bytes to the file, which has at least its byte 0.
fn append<B: Bench>(bench: &mut B, at: u64, bytes: &[u8]) -> Result<(), StoreFault>
    requires end { IsTrue B.tells → length (B.state bench.old).file ≡ at }
    requires behind { 1 ≤ at }
    ensures { Appends B.tells (B.state bench.old) (B.state bench.new) bytes.now result }
{
    bench.file_write(at, bytes)
}

/// Appends a run to the file: its address, its length, and its bytes.
fn put_run<B: Bench>(bench: &mut B, at: u64, place: u32, bytes: &[u8]) -> Result<(), StoreFault>
    requires end { IsTrue B.tells → length (B.state bench.old).file ≡ at }
    requires behind { 1 ≤ at }
    requires bound { at < 2 ^ 63 }
    requires short { length bytes.now < 2 ^ 32 }
    ensures { Appends B.tells (B.state bench.old) (B.state bench.new) (run_text (run_of place bytes.now)) result }
{
    match append(bench, at, &run_head(place, bytes.len() as u32)) {
        Ok(()) => append(bench, at + 8, bytes),
        Err(fault) => Err(fault),
    }
}

/// Appends the runs of an image to the file, and answers the new end of the file.
fn put_runs<B: Bench>(bench: &mut B, from: u64, image: &ByteMap) -> Result<u64, StoreFault>
    requires end { IsTrue B.tells → length (B.state bench.old).file ≡ from }
    requires behind { 1 ≤ from }
    requires bound { from < 2 ^ 62 }
    requires short { AreShort image.now }
    ensures appends { Appends B.tells (B.state bench.old) (B.state bench.new) (flat_map run_text image.now) result }
    ensures end { IfOk result (λ at. at ≡ from + length (flat_map run_text image.now)) }
    ensures bound { IfOk result (λ at. at < 2 ^ 63) }
{
    let mut at = from;
    for index in 0..image.runs() {
        let (place, bytes) = image.run(index);
        match put_run(bench, at, place, bytes) {
            Ok(()) => {}
            Err(fault) => return Err(fault),
        }
        at += 8 + bytes.len() as u64;
    }
    Ok(at)
}

/// Appends the FLM files to the file.
fn put_files<B: Bench>(bench: &mut B, at: u64, parts: &JobParts) -> Result<(), StoreFault>
    requires end { IsTrue B.tells → length (B.state bench.old).file ≡ at }
    requires behind { 1 ≤ at }
    requires bound { at < 2 ^ 61 }
    requires short { length parts.now.flm.now < 2 ^ 32 }
    ensures { Appends B.tells (B.state bench.old) (B.state bench.new) (concat (flms_of parts.now)) result }
{
    match append(bench, at, parts.flm) {
        Ok(()) => {}
        Err(fault) => return Err(fault),
    }
    match parts.second {
        None => Ok(()),
        Some(second) => append(bench, at + parts.flm.len() as u64, second),
    }
}

/// Appends the text of a board and the FLM files to the file.
fn put_texts<B: Bench>(bench: &mut B, at: u64, parts: &JobParts) -> Result<(), StoreFault>
    requires end { IsTrue B.tells → length (B.state bench.old).file ≡ at }
    requires behind { 1 ≤ at }
    requires bound { at < 2 ^ 60 }
    requires short_board { length parts.now.board.now < 2 ^ 32 }
    requires short_first { length parts.now.flm.now < 2 ^ 32 }
    ensures { Appends B.tells (B.state bench.old) (B.state bench.new) (parts.now.board.now ++ concat (flms_of parts.now)) result }
{
    match append(bench, at, parts.board) {
        Ok(()) => put_files(bench, at + parts.board.len() as u64, parts),
        Err(fault) => Err(fault),
    }
}

/// The total length of the FLM files in bytes.
fn files_len(parts: &JobParts) -> u64
    requires first { length parts.now.flm.now < 2 ^ 32 }
    requires second { flm_len (flms_of parts.now) 1 < 2 ^ 32 }
    ensures value { result ≡ length (concat (flms_of parts.now)) }
    ensures bound { result < 2 ^ 33 }
{
    let first = parts.flm.len() as u64;
    match parts.second {
        None => first,
        Some(second) => first + second.len() as u64,
    }
}

/// Writes everything before the snapshot, from byte 1 on, and answers where it ends.
fn put_front<B: Bench>(bench: &mut B, head: &[u8], parts: &JobParts) -> Result<u64, StoreFault>
    requires parts { AreParts parts.now }
    requires head { head.now ≡ head_of_parts parts.now }
    requires end { IsTrue B.tells → length (B.state bench.old).file ≡ 1 }
    ensures appends { Appends B.tells (B.state bench.old) (B.state bench.new) (front_of parts.now) result }
    ensures end { IfOk result (λ at. at ≡ 1 + length (front_of parts.now)) }
    ensures bound { IfOk result (λ at. at < 2 ^ 63) }
{
    let board_at = 1 + head.len() as u64;
    match append(bench, 1, head) {
        Ok(()) => {}
        Err(fault) => return Err(fault),
    }
    let runs_at = board_at + parts.board.len() as u64 + files_len(parts);
    match put_texts(bench, board_at, parts) {
        Ok(()) => put_runs(bench, runs_at, parts.image),
        Err(fault) => Err(fault),
    }
}

/// Writes a body while the gate is closed, with zeros in the place of its hash, and answers the hash.
fn put_body<B: Bench>(
    bench: &mut B,
    head: &[u8],
    parts: &JobParts,
    window: &mut [u8],
) -> Result<[u8; 32], BeginFault>
    requires parts { AreParts parts.now }
    requires head { head.now ≡ head_of_parts parts.now }
    requires file { IsTrue B.tells → (B.state bench.old).file ≡ 0 ∷ [] }
    requires only { IsTrue B.tells → LeftOnly (0 ∷ []) (file_half (B.state bench.old)) }
    requires idle { IsTrue B.tells → (B.state bench.old).operation ≡ None }
    requires room { length window.old ≡ PIECE }
    ensures ok { IsTrue B.tells → OnOk result ((B.state bench.new).file ≡ 0 ∷ front_of parts.now ++ (B.state bench.old).cells) }
    ensures hash { IsTrue B.tells → IfOk result (λ hash. hash ≡ sha256 (drop 39 (front_of parts.now ++ (B.state bench.old).cells))) }
    ensures moments { IsTrue B.tells → Leaves (file_half (B.state bench.old)) (file_half (B.state bench.new)) IsShut }
    ensures cells { CellsAreRead B.tells (B.state bench.old) (B.state bench.new) }
    ensures fault { IfErr result IsFault }
    ensures store { IsCounted (B.state bench.old).store_faults (B.state bench.new).store_faults (is_store_fault (fault_in begin_fault result)) }
    ensures device { IsCounted (B.state bench.old).device_faults (B.state bench.new).device_faults (is_device_fault (fault_in begin_fault result)) }
{
    let behind = put_front(bench, head, parts)?;
    let mut hasher = hash_front(head, parts);
    let count = bench.cells_len() as usize;
    let mut at = 0;
    while at < count {
        let end = piece_end(at, count);
        copy_cells(
            bench,
            &mut hasher,
            at as u32,
            behind + at as u64,
            &mut window[..end - at],
        )?;
        at = end;
    }
    Ok(hasher.finalize())
}

/// Writes a body while the gate is closed, and then its hash in its place.
pub(crate) fn put_hashed<B: Bench>(
    bench: &mut B,
    head: &[u8],
    parts: &JobParts,
    window: &mut [u8],
) -> Result<(), BeginFault>
    requires parts { AreParts parts.now }
    requires head { head.now ≡ head_of_parts parts.now }
    requires file { IsTrue B.tells → (B.state bench.old).file ≡ 0 ∷ [] }
    requires only { IsTrue B.tells → LeftOnly (0 ∷ []) (file_half (B.state bench.old)) }
    requires idle { IsTrue B.tells → (B.state bench.old).operation ≡ None }
    requires room { length window.old ≡ PIECE }
    ensures ok { IsTrue B.tells → OnOk result ((B.state bench.new).file ≡ 0 ∷ with_hash (front_of parts.now ++ (B.state bench.old).cells)) }
    ensures moments { IsTrue B.tells → Leaves (file_half (B.state bench.old)) (file_half (B.state bench.new)) IsShut }
    ensures cells { CellsAreRead B.tells (B.state bench.old) (B.state bench.new) }
    ensures fault { IfErr result IsFault }
    ensures store { IsCounted (B.state bench.old).store_faults (B.state bench.new).store_faults (is_store_fault (fault_in begin_fault result)) }
    ensures device { IsCounted (B.state bench.old).device_faults (B.state bench.new).device_faults (is_device_fault (fault_in begin_fault result)) }
{
    let hash = put_body(bench, head, parts, window)?;
    bench.file_write(HASH_AT, &hash)?;
    Ok(())
}

/// Appends to the file as many cells as the window holds, and feeds them to a hasher.
fn copy_cells<B: Bench>(
    bench: &mut B,
    hasher: &mut Sha256,
    at: u32,
    to: u64,
    window: &mut [u8],
) -> Result<(), BeginFault>
    requires range { at + length window.old ≤ (B.state bench.old).cell_count }
    requires idle { IsTrue B.tells → (B.state bench.old).operation ≡ None }
    requires end { IsTrue B.tells → length (B.state bench.old).file ≡ to }
    requires behind { 1 ≤ to }
    ensures ok { IsTrue B.tells → OnOk result ((B.state bench.new).file ≡ (B.state bench.old).file ++ take (length window.old)
        (drop at (B.state bench.old).cells)) }
    ensures hash { IsTrue B.tells → OnOk result ((m : List ℕ) → Holds256 hasher.old m
        → Holds256 hasher.new (m ++ take (length window.old) (drop at (B.state bench.old).cells))) }
    ensures moments { Leaves (file_half (B.state bench.old)) (file_half (B.state bench.new)) (Follows KeepsGate (file_half (B.state bench.old))) }
    ensures cells { CellsAreRead B.tells (B.state bench.old) (B.state bench.new) }
    ensures fault { IfErr result IsFault }
    ensures store { IsCounted (B.state bench.old).store_faults (B.state bench.new).store_faults (is_store_fault (fault_in begin_fault result)) }
    ensures device { IsCounted (B.state bench.old).device_faults (B.state bench.new).device_faults (is_device_fault (fault_in begin_fault result)) }
{
    bench.cells_read(at, window)?;
    bench.file_write(to, window)?;
    hasher.update(&*window);
    Ok(())
}
