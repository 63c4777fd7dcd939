//! A finite map from address to byte.
ghost use Rattle.std.specs.Prelude.{◌≡◌, ◌+◌, ◌≤◌, ◌<◌, [], length, slice_get, Some, OnOk, OnErr, IfErr};
ghost use Rattle.byte_map.specs.Image.{addresses, byte_at, over, AreMaximal};

use crate::conflict::find_clash;
use crate::fault::LayFault;
use crate::join::join;
use crate::overlay::overlay;
use crate::run_list::RunList;
use crate::search::find_touched;
use std::alloc::Global;
use std::marker::Model;

/// How many addresses there are.
const ADDRESSES: u64 = 1 << 32;

/// A finite map from address to byte. A contract sees it as its runs, which rise, don't touch, and are each as long as
/// possible: each map has exactly one such list.
#[derive(Drop)]
pub struct ByteMap {
    runs: RunList,
}

impl Model for ByteMap {
    ghost use Rattle.std.specs.Prelude.{List};
    ghost use Rattle.byte_map.specs.Image.{addresses, Run, AreMaximal};

    ghost Value = { List Run };

    ghost view = { λ m. m.runs };

    ghost invariant = { λ m. AreMaximal 0 addresses m.runs };
}

impl ByteMap {
    ghost use Rattle.byte_map.specs.Joining.{Touches};
    ghost use Rattle.byte_map.specs.Laying.{Lays, IsLayFault};

    /// The empty map.
    pub fn new(alloc: Global) -> ByteMap
        ensures { result ≡ [] }
    {
        ByteMap {
            runs: RunList::new(alloc),
        }
    }

    /// Adds the bytes from the address `at` on. A byte that the map already has is accepted. A record costs
    /// time logarithmic in the number of runs, in whatever order records come, and amortised constant time a
    /// byte. Bytes at the last few runs or after them are added without a walk down the tree.
    pub fn lay(&mut self, at: u32, bytes: &[u8]) -> Result<(), LayFault>
        ensures ok { OnOk result (Lays (record { at = at; bytes = bytes.now }) self.old self.new) }
        ensures refused { IfErr result (IsLayFault (record { at = at; bytes = bytes.now }) self.old) }
        ensures err { OnErr result (self.new ≡ self.old) }
    {
        if u64::from(at) + bytes.len() as u64 > ADDRESSES {
            return Err(LayFault::PastEnd { at });
        }
        let (first, last) = find_touched(&self.runs, at, bytes);
        self.add(first, last, at, bytes)
    }

    /// Adds a piece, `bytes` from `at` on, that touches the runs from `first` on and before `last`.
    fn add(&mut self, first: usize, last: usize, at: u32, bytes: &[u8]) -> Result<(), LayFault>
        requires fits { at + length bytes.now ≤ addresses }
        requires touches { Touches (record { at = at; bytes = bytes.now }) self.old first last }
        ensures ok { OnOk result (Lays (record { at = at; bytes = bytes.now }) self.old self.new) }
        ensures refused { IfErr result (IsLayFault (record { at = at; bytes = bytes.now }) self.old) }
        ensures err { OnErr result (self.new ≡ self.old) }
    {
        if let Some(clash) = find_clash(&self.runs, first, last, at, bytes) {
            return Err(LayFault::Conflict {
                at: clash.at,
                old: clash.old,
                new: clash.new,
            });
        }
        if bytes.is_empty() {
            return Ok(());
        }
        join(&mut self.runs, first, last, at, bytes)?;
        Ok(())
    }

    /// The byte at an address, if there is one, in a time logarithmic in the number of runs.
    pub fn get(&self, at: u32) -> Option<u8>
        ensures { result ≡ byte_at self.now at }
    {
        let index = self.runs.count_ending_below(u64::from(at) + 1);
        if index == self.runs.len() {
            return None;
        }
        let run = self.runs.get(index);
        if at < run.at() {
            return None;
        }
        Some(run.bytes()[(at - run.at()) as usize])
    }

    /// How many runs the map has.
    pub fn runs(&self) -> usize
        ensures count { result ≡ length self.now }
        ensures maximal { AreMaximal 0 addresses self.now }
    {
        self.runs.len()
    }

    /// The address of a run's first byte, and the run's bytes, in a time logarithmic in the number of runs. The
    /// runs rise with their index.
    pub fn run(&self, index: usize) -> (u32, &[u8])
        requires { index < length self.now }
        ensures { slice_get self.now index ≡ Some (record { at = result.0; bytes = result.1.now }) }
    {
        let run = self.runs.get(index);
        (run.at(), run.bytes())
    }

    /// Lays the map over cells, where the first cell has the address `base`. Each cell becomes the map's byte
    /// at its address, and is unchanged where the map has none.
    pub fn overlay_into(&self, base: u32, old: &mut [u8])
        requires { base + length old.old ≤ addresses }
        ensures { old.new ≡ over self.now base old.old }
    {
        overlay(&self.runs, base, old);
    }
}
