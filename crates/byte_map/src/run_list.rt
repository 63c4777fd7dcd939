//! The runs of a map in order: a balanced tree, and then a short tail with the last runs. Runs that come in rising order go into
//! the tail. From there they go into the tree a node at a time, so that no walk down the tree is needed.
ghost use Rattle.std.specs.Prelude.{◌≡◌, ◌+◌, ◌-◌, ◌<◌, ◌≤◌, ◌^◌, [], ◌∷◌, ◌++◌, length, take, drop, OnOk, OnErr};
ghost use Rattle.std.proofs.Math.ListN.{set};
ghost use Rattle.byte_map.specs.Image.{addresses, run_at, end_of, AreMaximal};
ghost use Rattle.byte_map.specs.Tree.{put_in, taken_out, IsCut};

use crate::chunk::{beginning_in, ending_in};
use crate::run_buffer::RunBuffer;
use crate::tree::{
    LIMIT, Side, append, beginning_below, count_of, ending_below, get, insert, prepend, put_last,
    remove, replace, split_front,
};
use std::alloc::{AllocError, Global};
use std::marker::Model;

/// Runs in order.
#[derive(Drop)]
pub struct RunList {
    alloc: Global,
    tree: Side,
    /// The last runs, which aren't in the tree.
    tail: Vec<RunBuffer>,
}

impl Model for RunList {
    ghost use Rattle.std.specs.Prelude.{◌+◌, ◌<◌, ◌^◌, ◌++◌, List, length};
    ghost use Rattle.byte_map.specs.Image.{Run};
    ghost use Rattle.byte_map.specs.Tree.{runs_of};

    ghost Value = { List Run };

    ghost view = { λ r. runs_of r.tree ++ r.tail.items };

    ghost invariant = { λ r. length (runs_of r.tree) + length r.tail.items < 2 ^ 64 };
}

impl RunList {
    /// No runs.
    pub fn new(alloc: Global) -> RunList
        ensures { result ≡ [] }
    {
        RunList {
            alloc,
            tree: None,
            tail: Vec::new(alloc),
        }
    }

    /// The allocator of the runs.
    pub fn allocator(&self) -> Global {
        self.alloc
    }

    /// How many runs there are.
    #[tactic(auto, using(crate::proofs::Sides::sides))]
    pub fn len(&self) -> usize
        ensures length { result ≡ length self.now }
        ensures few { length self.now < 2 ^ 64 }
    {
        count_of(&self.tree) + self.tail.len()
    }

    /// The run at an index.
    #[tactic(auto, using(crate::proofs::Sides::sides))]
    pub fn get(&self, index: usize) -> &RunBuffer
        requires { index < length self.now }
        ensures { result.now ≡ run_at self.now index }
    {
        let count = count_of(&self.tree);
        if index < count {
            get(&self.tree, index)
        } else {
            &self.tail[index - count]
        }
    }

    /// How many runs end below an address.
    #[tactic(auto, using(crate::proofs::Cuts::cuts))]
    pub fn count_ending_below(&self, address: u64) -> usize
        requires { AreMaximal 0 addresses self.now }
        ensures { IsCut (λ r. end_of r) self.now address result }
    {
        if self.tail.is_empty() {
            return ending_below(&self.tree, address);
        }
        if address < u64::from(self.tail[0].at()) {
            ending_below(&self.tree, address)
        } else {
            count_of(&self.tree) + ending_in(&self.tail, address)
        }
    }

    /// How many runs begin below an address.
    #[tactic(auto, using(crate::proofs::Cuts::cuts))]
    pub fn count_beginning_below(&self, address: u64) -> usize
        requires { AreMaximal 0 addresses self.now }
        ensures { IsCut (λ r. r.at) self.now address result }
    {
        if self.tail.is_empty() {
            return beginning_below(&self.tree, address);
        }
        if address < u64::from(self.tail[0].at()) {
            beginning_below(&self.tree, address)
        } else {
            count_of(&self.tree) + beginning_in(&self.tail, address)
        }
    }

    /// Inserts a run at an index.
    #[tactic(auto, using(crate::proofs::Sides::sides))]
    pub fn insert(&mut self, index: usize, run: RunBuffer) -> Result<(), AllocError>
        requires within { index ≤ length self.old }
        requires few { length self.old + 1 < 2 ^ 64 }
        ensures ok { OnOk result (self.new ≡ put_in self.old index (run ∷ [])) }
        ensures err { OnErr result (self.new ≡ self.old) }
    {
        let count = count_of(&self.tree);
        if index < count {
            insert(&mut self.tree, index, run)?;
            return Ok(());
        }
        self.tail.insert(index - count, run)?;
        self.shorten_tail();
        Ok(())
    }

    /// Moves all runs but the last one of a full tail into the tree. If memory runs out for that, the tail
    /// is unchanged.
    #[tactic(auto, using(crate::proofs::Sides::sides))]
    fn shorten_tail(&mut self)
        ensures { self.new ≡ self.old }
    {
        if self.tail.len() < LIMIT {
            return;
        }
        let last = self.tail.len() - 1;
        if let Ok(node) = split_front(&mut self.tail, last) {
            self.tree = Some(put_last(self.tree.take(), node));
        }
    }

    /// Replaces the run at an index.
    #[tactic(auto, using(crate::proofs::Sides::resets))]
    pub fn replace(&mut self, index: usize, run: RunBuffer)
        requires { index < length self.old }
        ensures { self.new ≡ set self.old index run }
    {
        let count = count_of(&self.tree);
        if index < count {
            replace(&mut self.tree, index, run);
        } else {
            self.tail[index - count] = run;
        }
    }

    /// Appends `middle` and then `end` to a run.
    #[tactic(auto, using(crate::proofs::Sides::resets))]
    pub fn append(&mut self, index: usize, middle: &[u8], end: &[u8]) -> Result<(), AllocError>
        requires within { index < length self.old }
        requires fits { end_of (run_at self.old index) + (length middle.now + length end.now) ≤ addresses }
        ensures ok { let run = run_at self.old index in OnOk result (self.new
            ≡ set self.old index (record { at = run.at; bytes = run.bytes ++ (middle.now ++ end.now) })) }
        ensures err { OnErr result (self.new ≡ self.old) }
    {
        let count = count_of(&self.tree);
        if index < count {
            append(&mut self.tree, index, middle, end)
        } else {
            self.tail[index - count].append(middle, end)
        }
    }

    /// Puts `front` and then `middle` before a run.
    #[tactic(auto, using(crate::proofs::Sides::resets))]
    pub fn prepend(&mut self, index: usize, front: &[u8], middle: &[u8]) -> Result<(), AllocError>
        requires within { index < length self.old }
        requires fits { length front.now + length middle.now ≤ (run_at self.old index).at }
        ensures ok { let run = run_at self.old index in OnOk result (self.new
            ≡ set self.old index (record { at = run.at - (length front.now + length middle.now); bytes = front.now ++ (middle.now ++ run.bytes) })) }
        ensures err { OnErr result (self.new ≡ self.old) }
    {
        let count = count_of(&self.tree);
        if index < count {
            prepend(&mut self.tree, index, front, middle)
        } else {
            self.tail[index - count].prepend(front, middle)
        }
    }

    /// Removes the runs from `start` on and before `end`.
    #[tactic(auto, using(crate::proofs::Sides::tables))]
    pub fn remove(&mut self, start: usize, end: usize)
        requires ordered { start ≤ end }
        requires within { end ≤ length self.old }
        ensures { self.new ≡ take start self.old ++ drop end self.old }
    {
        for _index in start..end {
            self.remove_one(start);
        }
    }

    /// Removes a run.
    #[tactic(auto, using(crate::proofs::Sides::sides))]
    fn remove_one(&mut self, index: usize)
        requires { index < length self.old }
        ensures { self.new ≡ taken_out self.old index }
    {
        let count = count_of(&self.tree);
        if index < count {
            self.tree = remove(self.tree.take(), index);
        } else {
            let _run = self.tail.remove(index - count);
        }
    }
}
