//! The hash of a body that is written, without its snapshot.
ghost use Rattle.std.specs.Prelude.{◌≡◌, ◌≤◌, ◌<◌, ◌^◌, ◌++◌, ℕ, List, length, drop};
ghost use Rattle.std.specs.List.{concat, flat_map};
ghost use Rattle.sha2.specs.Hashers.{Holds256};
ghost use Rattle.job_text.specs.Body.{run_text};
ghost use Rattle.job_text.specs.Parts.{AreParts, flms_of, head_of_parts, front_of};
ghost use Rattle.job_text.specs.Runs.{run_of, AreShort};

use byte_map::ByteMap;
use job_text::{JobParts, run_head};
use sha2::{Digest, Sha256};

/// The bytes of a body up to its lengths: the mark and the hash.
const HASHED_AT: usize = 39;

/// Feeds a hasher with a run: its address, its length, and its bytes.
fn hash_run(hasher: &mut Sha256, place: u32, bytes: &[u8])
    requires { length bytes.now < 2 ^ 32 }
    ensures { (m : List ℕ) → Holds256 hasher.old m → Holds256 hasher.new (m ++ run_text (run_of place bytes.now)) }
{
    hasher.update(&run_head(place, bytes.len() as u32));
    hasher.update(bytes);
}

/// Feeds a hasher with the runs of an image.
fn hash_runs(hasher: &mut Sha256, image: &ByteMap)
    requires { AreShort image.now }
    ensures { (m : List ℕ) → Holds256 hasher.old m → Holds256 hasher.new (m ++ flat_map run_text image.now) }
{
    for index in 0..image.runs() {
        let (place, bytes) = image.run(index);
        hash_run(hasher, place, bytes);
    }
}

/// Feeds a hasher with the FLM files.
fn hash_files(hasher: &mut Sha256, parts: &JobParts)
    ensures { (m : List ℕ) → Holds256 hasher.old m → Holds256 hasher.new (m ++ concat (flms_of parts.now)) }
{
    hasher.update(parts.flm);
    match parts.second {
        None => {}
        Some(second) => hasher.update(second),
    }
}

/// A hasher fed with everything that is hashed before the snapshot: the lengths, the texts and the runs.
pub(crate) fn hash_front(head: &[u8], parts: &JobParts) -> Sha256
    requires parts { AreParts parts.now }
    requires head { head.now ≡ head_of_parts parts.now }
    requires long { 39 ≤ length head.now }
    ensures { Holds256 result (drop 39 (front_of parts.now)) }
{
    let mut hasher = Sha256::new();
    hasher.update(&head[HASHED_AT..]);
    hasher.update(parts.board);
    hash_files(&mut hasher, parts);
    hash_runs(&mut hasher, parts.image);
    hasher
}
