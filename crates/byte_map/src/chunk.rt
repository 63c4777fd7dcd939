//! Where an address falls among runs that are side by side in memory.
ghost use Rattle.std.specs.Prelude.{◌≤◌, ◌<◌, ℕ, length};
ghost use Rattle.byte_map.specs.Image.{addresses, run_at, end_of, AreMaximal};

use crate::run_buffer::RunBuffer;

/// How many runs end below an address: a binary search.
pub fn ending_in(runs: &[RunBuffer], address: u64) -> usize
    requires { AreMaximal 0 addresses runs.now }
    ensures within { result ≤ length runs.now }
    ensures below { (k : ℕ) → k < result → end_of (run_at runs.now k) < address }
    ensures others { (k : ℕ) → result ≤ k → k < length runs.now → address ≤ end_of (run_at runs.now k) }
{
    runs.partition_point(|run| run.end() < address)
}

/// How many runs begin below an address: a binary search.
pub fn beginning_in(runs: &[RunBuffer], address: u64) -> usize
    requires { AreMaximal 0 addresses runs.now }
    ensures within { result ≤ length runs.now }
    ensures below { (k : ℕ) → k < result → (run_at runs.now k).at < address }
    ensures others { (k : ℕ) → result ≤ k → k < length runs.now → address ≤ (run_at runs.now k).at }
{
    runs.partition_point(|run| u64::from(run.at()) < address)
}
