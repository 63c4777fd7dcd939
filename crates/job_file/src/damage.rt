//! Compares the hash of a file of the second format with the one that it keeps.
ghost use Rattle.std.specs.Prelude.{◌≡◌, ◌≤◌, ◌<◌, ◌+◌, ◌^◌, ◌++◌, ℕ, List, length, take, drop, true, bytes_eq, IsTrue, OnOk, IfOk};
ghost use Rattle.faults.specs.Counts.{HasCause};
ghost use Rattle.bench_model.specs.Calls.{OnlyReads};
ghost use Rattle.sha2.specs.Sha256.{sha256};
ghost use Rattle.sha2.specs.Hashers.{Holds256};
ghost use Rattle.job_text.specs.Reading.{is_second, format_in};
ghost use Rattle.job_text.specs.Shown.{IsDamage};
ghost use Rattle.job_file.specs.Readers.{AreHashes, Differs};

use crate::pieces::{PIECE, piece_end};
use bench_model::{Bench, StoreFault};
use job_text::{Damage, Format, format_of};
use sha2::{Digest, Sha256};

/// The bytes of a file up to the end of its mark.
const MARK_END: u64 = 8;

/// The offset of the hash, and the offset of the first byte that is hashed.
const HASH_AT: u64 = 8;

const HASHED_AT: u64 = 40;

/// The length of a file of the second format up to its texts.
const FRONT: u64 = 64;

/// The format of a file of `whole` bytes, by its mark.
pub(crate) fn read_format<B: Bench>(bench: &mut B, whole: u64) -> Result<Format, StoreFault>
    requires told { IsTrue B.tells → length (B.state bench.old).file ≡ whole }
    ensures ok { IsTrue B.tells → IfOk result (λ f. format_in (drop 1 (B.state bench.old).file) ≡ f) }
    ensures reads { OnlyReads B.tells (B.state bench.old) (B.state bench.new) }
    ensures cause { HasCause (B.state bench.old).store_faults (B.state bench.new).store_faults result }
{
    if whole < MARK_END {
        return Ok(Format::First);
    }
    let mut mark = [0; 7];
    match bench.file_read(1, &mut mark) {
        Ok(()) => Ok(format_of(&mark)),
        Err(fault) => Err(fault),
    }
}

/// Feeds a hasher with as many bytes of the file, from an offset on, as the window holds.
fn hash_window<B: Bench>(
    bench: &mut B,
    hasher: &mut Sha256,
    from: u64,
    window: &mut [u8],
) -> Result<(), StoreFault>
    requires told { IsTrue B.tells → from + length window.old ≤ length (B.state bench.old).file }
    requires bound { from + length window.old < 2 ^ 64 }
    ensures ok { IsTrue B.tells → OnOk result ((m : List ℕ) → Holds256 hasher.old m
        → Holds256 hasher.new (m ++ take (length window.old) (drop from (B.state bench.old).file))) }
    ensures reads { OnlyReads B.tells (B.state bench.old) (B.state bench.new) }
    ensures cause { HasCause (B.state bench.old).store_faults (B.state bench.new).store_faults result }
{
    bench.file_read(from, window)?;
    hasher.update(&*window);
    Ok(())
}

/// The SHA-256 of a file of `whole` bytes, from byte 40 on. It is read one window at a time.
fn read_hash<B: Bench>(bench: &mut B, whole: u64, window: &mut [u8]) -> Result<[u8; 32], StoreFault>
    requires told { IsTrue B.tells → length (B.state bench.old).file ≡ whole }
    requires long { 40 ≤ whole }
    requires room { length window.old ≡ PIECE }
    ensures ok { IsTrue B.tells → IfOk result (λ hash. hash ≡ sha256 (drop 40 (B.state bench.old).file)) }
    ensures reads { OnlyReads B.tells (B.state bench.old) (B.state bench.new) }
    ensures cause { HasCause (B.state bench.old).store_faults (B.state bench.new).store_faults result }
{
    let mut hasher = Sha256::new();
    let count = (whole - HASHED_AT) as usize;
    let mut at = 0;
    while at < count {
        let end = piece_end(at, count);
        hash_window(
            bench,
            &mut hasher,
            HASHED_AT + at as u64,
            &mut window[..end - at],
        )?;
        at = end;
    }
    Ok(hasher.finalize())
}

/// The hash that a file keeps.
fn read_kept<B: Bench>(bench: &mut B) -> Result<[u8; 32], StoreFault>
    requires { IsTrue B.tells → 40 ≤ length (B.state bench.old).file }
    ensures ok { IsTrue B.tells → IfOk result (λ hash. hash ≡ take 32 (drop 8 (B.state bench.old).file)) }
    ensures reads { OnlyReads B.tells (B.state bench.old) (B.state bench.new) }
    ensures cause { HasCause (B.state bench.old).store_faults (B.state bench.new).store_faults result }
{
    let mut kept = [0; 32];
    bench.file_read(HASH_AT, &mut kept)?;
    Ok(kept)
}

/// Whether bytes are the same.
fn are_same(one: &[u8], other: &[u8]) -> bool
    ensures { result ≡ bytes_eq one.now other.now }
{
    one == other
}

/// The two hashes, if they differ.
fn differing(kept: [u8; 32], found: [u8; 32]) -> Option<Damage>
    ensures { AreHashes kept found result }
{
    if are_same(kept.as_slice(), found.as_slice()) {
        None
    } else {
        Some(Damage { kept, found })
    }
}

/// The hash that a file of the second format keeps and the one that was found, if they differ. A file of `whole` bytes that is too short
/// for a head isn't hashed.
fn compare_hashes<B: Bench>(
    bench: &mut B,
    whole: u64,
    window: &mut [u8],
) -> Result<Option<Damage>, StoreFault>
    requires told { IsTrue B.tells → length (B.state bench.old).file ≡ whole }
    requires second { IsTrue B.tells → is_second (drop 1 (B.state bench.old).file) ≡ true }
    requires room { length window.old ≡ PIECE }
    ensures ok { IsTrue B.tells → IfOk result (λ d. IsDamage d (drop 1 (B.state bench.old).file)) }
    ensures differ { IfOk result Differs }
    ensures reads { OnlyReads B.tells (B.state bench.old) (B.state bench.new) }
    ensures cause { HasCause (B.state bench.old).store_faults (B.state bench.new).store_faults result }
{
    if whole < FRONT {
        return Ok(None);
    }
    let found = read_hash(bench, whole, window)?;
    let kept = read_kept(bench)?;
    Ok(differing(kept, found))
}

/// The hash that a file of `whole` bytes keeps and the one that was found, if they differ. Only a file of the second format has a hash.
pub(crate) fn find_damage<B: Bench>(
    bench: &mut B,
    whole: u64,
    format: Format,
    window: &mut [u8],
) -> Result<Option<Damage>, StoreFault>
    requires told { IsTrue B.tells → length (B.state bench.old).file ≡ whole }
    requires format { IsTrue B.tells → format_in (drop 1 (B.state bench.old).file) ≡ format }
    requires room { length window.old ≡ PIECE }
    ensures ok { IsTrue B.tells → IfOk result (λ d. IsDamage d (drop 1 (B.state bench.old).file)) }
    ensures differ { IfOk result Differs }
    ensures reads { OnlyReads B.tells (B.state bench.old) (B.state bench.new) }
    ensures cause { HasCause (B.state bench.old).store_faults (B.state bench.new).store_faults result }
{
    match format {
        Format::First => Ok(None),
        Format::Second => compare_hashes(bench, whole, window),
    }
}
