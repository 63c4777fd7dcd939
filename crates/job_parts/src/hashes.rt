//! The hashes of an image and of a snapshot.
ghost use Rattle.std.specs.Prelude.{◌≡◌, ◌≤◌, ◌<◌, ◌+◌, ◌^◌, ◌++◌, ℕ, List, length, take, drop, IsTrue, OnOk, IfOk};
ghost use Rattle.faults.specs.Counts.{HasCause};
ghost use Rattle.bench_model.specs.Calls.{OnlyReads};
ghost use Rattle.sha2.specs.Sha256.{sha256};
ghost use Rattle.sha2.specs.Hashers.{Holds256};
ghost use Rattle.job_parts.specs.Listing.{bytes_of};

use crate::copy::{PIECE, piece_end};
use bench_model::{Bench, StoreFault};
use byte_map::ByteMap;
use sha2::{Digest, Sha256};

/// The SHA-256 of the bytes of an image, in the order of their addresses.
pub fn hash_image(image: &ByteMap) -> [u8; 32]
    ensures { result ≡ sha256 (bytes_of image.now) }
{
    let mut hasher = Sha256::new();
    for index in 0..image.runs() {
        let (_, bytes) = image.run(index);
        hasher.update(bytes);
    }
    hasher.finalize()
}

/// Feeds a hasher with as many bytes of the file, from a place on, as the window holds.
fn hash_window<B: Bench>(
    bench: &mut B,
    hasher: &mut Sha256,
    from: u64,
    window: &mut [u8],
) -> Result<(), StoreFault>
    requires told { IsTrue B.tells → from + length window.old ≤ length (B.state bench.old).file }
    ensures ok { IsTrue B.tells → OnOk result ((m : List ℕ) → Holds256 hasher.old m
        → Holds256 hasher.new (m ++ take (length window.old) (drop from (B.state bench.old).file))) }
    ensures reads { OnlyReads B.tells (B.state bench.old) (B.state bench.new) }
    ensures cause { HasCause (B.state bench.old).store_faults (B.state bench.new).store_faults result }
{
    bench.file_read(from, window)?;
    hasher.update(&*window);
    Ok(())
}

/// The SHA-256 of `len` bytes of the file from a place on, read at most 4,096 at a time.
pub fn hash_file<B: Bench>(bench: &mut B, from: u64, len: u64) -> Result<[u8; 32], StoreFault>
    requires told { IsTrue B.tells → from + len ≤ length (B.state bench.old).file }
    requires bound { from + len < 2 ^ 64 }
    ensures ok { IsTrue B.tells → IfOk result (λ hash. hash ≡ sha256 (take len (drop from (B.state bench.old).file))) }
    ensures reads { OnlyReads B.tells (B.state bench.old) (B.state bench.new) }
    ensures cause { HasCause (B.state bench.old).store_faults (B.state bench.new).store_faults result }
{
    let mut hasher = Sha256::new();
    let mut window = [0; PIECE as usize];
    let mut at = 0;
    while at < len {
        let end = piece_end(at, len);
        hash_window(
            bench,
            &mut hasher,
            from + at,
            &mut window[..(end - at) as usize],
        )?;
        at = end;
    }
    Ok(hasher.finalize())
}
