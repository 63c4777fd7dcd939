//! The comparison of cells with bytes.
ghost use Rattle.std.specs.Prelude.{◌≡◌, ◌≢◌, ◌≤◌, ◌<◌, ◌+◌, ◌^◌, None, length, take, slice_index, IsTrue, IfOk, MatchOption};
ghost use Rattle.faults.specs.Counts.{HasCause};
ghost use Rattle.readback.specs.Readback.{Finds, OnlyReadsCells};

use crate::cells::read_cells;
use bench_model::{Bench, DeviceFault};

/// A cell that isn't the wanted byte: its place, the byte that is wanted there and the one that it holds.
#[derive(Clone, Copy, Debug, PartialEq, Eq)]
pub struct Difference {
    pub at: u32,
    pub want: u8,
    pub got: u8,
}

/// Compares the cells from place `at` on with `want`, as many at a time as the window holds. Answers the first place that
/// differs, or none. The cells must exist, the window must not be empty, and no operation may be open.
pub fn first_difference<B: Bench>(
    bench: &mut B,
    at: u32,
    want: &[u8],
    window: &mut [u8],
) -> Result<Option<Difference>, DeviceFault>
    requires range { at + length want.now ≤ (B.state bench.old).cell_count }
    requires room { 0 < length window.old }
    requires idle { IsTrue B.tells → (B.state bench.old).operation ≡ None }
    ensures ok { IfOk result (λ found. Finds B.tells (B.state bench.old).cells at want.now found) }
    ensures bench { OnlyReadsCells B.tells (B.state bench.old) (B.state bench.new) }
    ensures cause { HasCause (B.state bench.old).device_faults (B.state bench.new).device_faults result }
{
    // every place below this is a u32
    let _cells = bench.cells_len();
    let mut done = 0usize;
    while done < want.len() {
        let size = window.len().min(want.len() - done);
        let found = difference_in(
            bench,
            at + done as u32,
            &want[done..done + size],
            &mut window[..size],
        )?;
        if found.is_some() {
            return Ok(found);
        }
        done += size;
    }
    Ok(None)
}

/// The first difference between the device and at most a window of bytes.
fn difference_in<B: Bench>(
    bench: &mut B,
    at: u32,
    want: &[u8],
    window: &mut [u8],
) -> Result<Option<Difference>, DeviceFault>
    requires range { at + length want.now ≤ (B.state bench.old).cell_count }
    requires places { at + length want.now < 2 ^ 32 }
    requires fits { length window.old ≡ length want.now }
    requires idle { IsTrue B.tells → (B.state bench.old).operation ≡ None }
    ensures ok { IfOk result (λ found. Finds B.tells (B.state bench.old).cells at want.now found) }
    ensures bench { OnlyReadsCells B.tells (B.state bench.old) (B.state bench.new) }
    ensures cause { HasCause (B.state bench.old).device_faults (B.state bench.new).device_faults result }
{
    read_cells(bench, at, window)?;
    match first_unequal(want, window) {
        None => Ok(None),
        Some(offset) => Ok(Some(Difference {
            at: at + offset as u32,
            want: want[offset],
            got: window[offset],
        })),
    }
}

/// The first index at which two lists of one length differ. They are compared whole first, which is much faster than byte by byte.
fn first_unequal(want: &[u8], got: &[u8]) -> Option<usize>
    requires { length got.now ≡ length want.now }
    ensures { MatchOption result (got.now ≡ want.now) (λ i. (i < length want.now)
        × (slice_index want.now i ≢ slice_index got.now i) × (take i got.now ≡ take i want.now)) }
{
    if got == want {
        return None;
    }
    for i in 0..want.len() {
        if want[i] != got[i] {
            return Some(i);
        }
    }
    None
}
