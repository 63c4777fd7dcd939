//! Where an address falls among the runs of a map.
ghost use Rattle.std.specs.Prelude.{◌+◌, ◌≤◌, length};
ghost use Rattle.byte_map.specs.Image.{addresses, AreMaximal};
ghost use Rattle.byte_map.specs.Joining.{Touches};

use crate::run_list::RunList;

/// The runs that touch a piece, `bytes` from `at` on: from the first index answered on, and before the second.
pub fn find_touched(runs: &RunList, at: u32, bytes: &[u8]) -> (usize, usize)
    requires maximal { AreMaximal 0 addresses runs.now }
    requires fits { at + length bytes.now ≤ addresses }
    ensures { Touches (record { at = at; bytes = bytes.now }) runs.now result.0 result.1 }
{
    let at = u64::from(at);
    let end = at + bytes.len() as u64;
    (
        runs.count_ending_below(at),
        runs.count_beginning_below(end + 1),
    )
}
