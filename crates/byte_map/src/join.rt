//! A piece joined with the runs that it touches.
ghost use Rattle.std.specs.Prelude.{◌≡◌, ◌+◌, ◌-◌, ◌≤◌, ◌<◌, length, OnOk, OnErr};
ghost use Rattle.byte_map.specs.Image.{run_at, end_of};
ghost use Rattle.byte_map.specs.Joining.{CanJoin};
ghost use Rattle.byte_map.specs.Laying.{Lays};

use crate::run_buffer::RunBuffer;
use crate::run_list::RunList;
use std::alloc::AllocError;

/// Adds a piece, `bytes` from `at` on, to the runs of a map. It touches the runs from `first` on
/// and before `last`, and agrees with them. If memory runs out, the runs are unchanged.
pub fn join(
    runs: &mut RunList,
    first: usize,
    last: usize,
    at: u32,
    bytes: &[u8],
) -> Result<(), AllocError>
    requires { CanJoin (record { at = at; bytes = bytes.now }) runs.old first last }
    ensures ok { OnOk result (Lays (record { at = at; bytes = bytes.now }) runs.old runs.new) }
    ensures err { OnErr result (runs.new ≡ runs.old) }
{
    if first == last {
        return put_apart(runs, first, at, bytes);
    }
    let end = u64::from(at) + bytes.len() as u64;
    let front = runs.get(first).at();
    let back = runs.get(last - 1).end();
    match (front < at, end < back) {
        (false, false) => cover(runs, first, last, at, bytes),
        (true, false) => extend_first(runs, first, last, at, bytes),
        (false, true) => extend_last(runs, first, last, at, bytes),
        (true, true) if first + 1 == last => Ok(()),
        // The longer one of the two runs that are bridged stays where it is.
        (true, true) if back - end <= u64::from(at - front) => extend_first(
            runs, first, last, at, bytes,
        ),
        (true, true) => extend_last(runs, first, last, at, bytes),
    }
}

/// Inserts a piece that touches no run.
fn put_apart(runs: &mut RunList, first: usize, at: u32, bytes: &[u8]) -> Result<(), AllocError>
    requires { CanJoin (record { at = at; bytes = bytes.now }) runs.old first first }
    ensures ok { OnOk result (Lays (record { at = at; bytes = bytes.now }) runs.old runs.new) }
    ensures err { OnErr result (runs.new ≡ runs.old) }
{
    let run = RunBuffer::new(runs.allocator(), at, bytes)?;
    runs.insert(first, run)?;
    Ok(())
}

/// Puts a piece in place of the runs that it covers.
fn cover(
    runs: &mut RunList,
    first: usize,
    last: usize,
    at: u32,
    bytes: &[u8],
) -> Result<(), AllocError>
    requires can { CanJoin (record { at = at; bytes = bytes.now }) runs.old first last }
    requires some { first < last }
    requires begins { at ≤ (run_at runs.old first).at }
    requires ends { end_of (run_at runs.old (last - 1)) ≤ at + length bytes.now }
    ensures ok { OnOk result (Lays (record { at = at; bytes = bytes.now }) runs.old runs.new) }
    ensures err { OnErr result (runs.new ≡ runs.old) }
{
    let run = RunBuffer::new(runs.allocator(), at, bytes)?;
    runs.replace(first, run);
    runs.remove(first + 1, last);
    Ok(())
}

/// Extends the first run that a piece touches up to the end of the piece and of the last run.
fn extend_first(
    runs: &mut RunList,
    first: usize,
    last: usize,
    at: u32,
    bytes: &[u8],
) -> Result<(), AllocError>
    requires can { CanJoin (record { at = at; bytes = bytes.now }) runs.old first last }
    requires some { first < last }
    requires begins { (run_at runs.old first).at ≤ at }
    requires ends { end_of (run_at runs.old first) ≤ at + length bytes.now }
    ensures ok { OnOk result (Lays (record { at = at; bytes = bytes.now }) runs.old runs.new) }
    ensures err { OnErr result (runs.new ≡ runs.old) }
{
    let end = u64::from(at) + bytes.len() as u64;
    let back = Vec::from_slice(runs.allocator(), runs.get(last - 1).bytes_from(end))?;
    let covered = (runs.get(first).end() - u64::from(at)) as usize;
    runs.append(first, &bytes[covered..], &back)?;
    runs.remove(first + 1, last);
    Ok(())
}

/// Extends the last run that a piece touches down to the beginning of the piece and of the first run.
fn extend_last(
    runs: &mut RunList,
    first: usize,
    last: usize,
    at: u32,
    bytes: &[u8],
) -> Result<(), AllocError>
    requires can { CanJoin (record { at = at; bytes = bytes.now }) runs.old first last }
    requires some { first < last }
    requires begins { at ≤ (run_at runs.old (last - 1)).at }
    requires ends { at + length bytes.now ≤ end_of (run_at runs.old (last - 1)) }
    ensures ok { OnOk result (Lays (record { at = at; bytes = bytes.now }) runs.old runs.new) }
    ensures err { OnErr result (runs.new ≡ runs.old) }
{
    let front = Vec::from_slice(runs.allocator(), runs.get(first).bytes_before(at))?;
    let uncovered = (runs.get(last - 1).at() - at) as usize;
    runs.prepend(last - 1, &front, &bytes[..uncovered])?;
    runs.remove(first, last - 1);
    Ok(())
}
