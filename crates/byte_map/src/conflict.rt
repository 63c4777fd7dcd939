//! The least address at which a piece and a map have unequal bytes.
ghost use Rattle.std.specs.Prelude.{◌+◌, ◌≤◌, length, MatchOption};
ghost use Rattle.byte_map.specs.Image.{addresses, Run, AreMaximal};
ghost use Rattle.byte_map.specs.Joining.{Touches};
ghost use Rattle.byte_map.specs.Laying.{AgreesBelow, AgreesWithRun, ClashesWithRun, IsFirstClash};

use crate::run_buffer::RunBuffer;
use crate::run_list::RunList;

/// Two unequal bytes at an address.
#[derive(Clone, Copy)]
pub struct Clash {
    pub at: u32,
    pub old: u8,
    pub new: u8,
}

/// The first byte of a piece, `bytes` from `at` on, that differs from the byte of a run.
fn first_clash(run: &RunBuffer, at: u32, bytes: &[u8]) -> Option<Clash>
    requires { at + length bytes.now ≤ addresses }
    ensures { let piece : Run = record { at = at; bytes = bytes.now } in MatchOption result (AgreesWithRun piece run.now addresses)
        (λ c. ClashesWithRun piece run.now c.at c.old c.new) }
{
    let start = run.at().max(at);
    let end = run.end().min(u64::from(at) + bytes.len() as u64);
    for address in u64::from(start)..end {
        let old = run.bytes()[(address - u64::from(run.at())) as usize];
        let new = bytes[(address - u64::from(at)) as usize];
        if old != new {
            return Some(Clash {
                at: address as u32,
                old,
                new,
            });
        }
    }
    None
}

/// The first byte of a piece that differs from the byte of a map. The piece touches the map's runs from `first` on
/// and before `last`.
pub fn find_clash(runs: &RunList, first: usize, last: usize, at: u32, bytes: &[u8]) -> Option<Clash>
    requires fits { at + length bytes.now ≤ addresses }
    requires maximal { AreMaximal 0 addresses runs.now }
    requires touches { Touches (record { at = at; bytes = bytes.now }) runs.now first last }
    ensures { let piece : Run = record { at = at; bytes = bytes.now } in MatchOption result (AgreesBelow piece runs.now addresses)
        (λ c. IsFirstClash piece runs.now c.at c.old c.new) }
{
    for index in first..last {
        if let Some(clash) = first_clash(runs.get(index), at, bytes) {
            return Some(clash);
        }
    }
    None
}
