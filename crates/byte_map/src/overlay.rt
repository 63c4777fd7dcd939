//! The bytes of a map laid over a list of cells.
ghost use Rattle.std.specs.Prelude.{◌≡◌, ◌+◌, ◌≤◌, [], ◌∷◌, length};
ghost use Rattle.byte_map.specs.Image.{addresses, AreMaximal, over};

use crate::run_buffer::RunBuffer;
use crate::run_list::RunList;

/// Lays a map, given by its runs, over cells. The first cell has the address `base`.
pub fn overlay(runs: &RunList, base: u32, cells: &mut [u8])
    requires maximal { AreMaximal 0 addresses runs.now }
    requires fits { base + length cells.old ≤ addresses }
    ensures { cells.new ≡ over runs.now base cells.old }
{
    let base = u64::from(base);
    let first = runs.count_ending_below(base + 1);
    let last = runs.count_beginning_below(base + cells.len() as u64);
    for index in first..last {
        copy_run(runs.get(index), base, cells);
    }
}

/// Lays one run over cells.
fn copy_run(run: &RunBuffer, base: u64, cells: &mut [u8])
    requires { base + length cells.old ≤ addresses }
    ensures { cells.new ≡ over (run.now ∷ []) base cells.old }
{
    let at = u64::from(run.at());
    let start = at.max(base);
    let end = run.end().min(base + cells.len() as u64);
    if start < end {
        let bytes = &run.bytes()[(start - at) as usize..(end - at) as usize];
        cells[(start - base) as usize..(end - base) as usize].copy_from_slice(bytes);
    }
}
