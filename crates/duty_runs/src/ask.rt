//! What the run of a call has to meet.
#![tactic(auto, using(std::proofs::lemmas::Bool::Decides::nat_tests))]

ghost use Rattle.std.specs.Prelude.{◌≡◌, ◌<◌, ◌≤◌, ◌+◌, ◌^◌, length, IfSome, ℕ, slice_index, slice_index_or, IsTrue, IfOk, IfNone};
ghost use Rattle.duty_proofs.specs.declared.cells.CellMark.TheVariants.{Holds};
ghost use Rattle.shadow_step.specs.declared.marks.Mark.TheVariants.{Any};
ghost use Rattle.duty_proofs.specs.Decided.{named_cells};
ghost use Rattle.duty_runs.specs.Asks.{place_in, before_in, count_in, after_in, FitsCell};

use crate::went::Cause;
use algo_calls::Call;
use duty_proofs::{CellMark, Marked};
use faults::OutOfMemory;
use shadow_step::Mark;
use std::alloc::Global;

/// What a call has to do.
#[derive(Clone, Copy, PartialEq, Eq)]
pub enum Task {
    /// The call changes no cell, such as Init and UnInit.
    Quiet,
    /// The call erases its cells.
    Erases,
    /// The call programs the bytes to its cells, which are erased before.
    Programs,
    /// The call compares its cells with the bytes, which they hold before.
    Compares,
}

/// A call, its bytes, its task, and its cells: the first one and how many.
#[derive(Clone, Copy)]
pub struct Ask<'a> {
    pub call: Call,
    pub bytes: &'a [u8],
    pub task: Task,
    pub from: u32,
    pub many: u32,
}

/// How many bytes there are, if the number fits 32 bits.
pub(crate) fn count_of(bytes: &[u8]) -> Option<u32>
    ensures count { IfSome result (λ count. count ≡ length bytes.now) }
    ensures bytes { (k : ℕ) → slice_index bytes.now k < 2 ^ 8 }
{
    match u32::try_from(bytes.len()) {
        Ok(count) => Some(count),
        Err(_) => None,
    }
}

/// The marks of `count` cells that hold the bytes of the page.
#[tactic(auto, using(crate::proofs::AskLemmas::no_cells, crate::proofs::AskLemmas::one_cell_more))]
fn named_cells(alloc: Global, count: u32) -> Result<Vec<CellMark>, OutOfMemory>
    ensures { IfOk result (λ cells. cells.items ≡ named_cells count) }
{
    let mut cells = Vec::with_capacity(alloc, count as usize)?;
    for at in 0..count {
        cells.push(CellMark::Holds(Mark::Page { width: 1, at }))?;
    }
    Ok(cells)
}

/// The mark of a cell, or a mark that says nothing if none is kept.
fn mark_at(marks: &[CellMark], index: usize) -> CellMark
    ensures { result ≡ slice_index_or marks.now index (Holds Any) }
{
    match marks.get(index) {
        Some(mark) => *mark,
        None => CellMark::Holds(Mark::Any),
    }
}

impl<'a> Ask<'a> {
    /// The cells in which the call may open operations.
    pub(crate) fn place(&self) -> Option<(u32, u32)>
        ensures { result ≡ place_in self.now.task self.now.from self.now.many }
    {
        match self.task {
            Task::Erases | Task::Programs => Some((self.from, self.many)),
            Task::Quiet | Task::Compares => None,
        }
    }

    /// The marks of the call's cells before it.
    pub(crate) fn before(&self, alloc: Global) -> Result<Vec<CellMark>, OutOfMemory>
        ensures { IfOk result (λ cells. cells.items ≡ before_in self.now.task self.now.many) }
    {
        let many = self.many as usize;
        match self.task {
            Task::Quiet => Ok(Vec::new(alloc)),
            Task::Erases => Ok(vec![in alloc; CellMark::Holds(Mark::Any); many]?),
            Task::Programs => Ok(vec![in alloc; CellMark::Blank; many]?),
            Task::Compares => named_cells(alloc, self.many),
        }
    }

    /// Whether a cell at hand has the value that its mark before the call gives.
    fn cell_fits(&self, index: u32, value: u8) -> bool
        ensures { IsTrue result → FitsCell self.now.task self.now.bytes.now index value }
    {
        match self.task {
            Task::Quiet | Task::Erases => true,
            Task::Programs => value == 0xFF,
            Task::Compares => {
                let index = index as usize;
                index < self.bytes.len() && self.bytes[index] == value
            }
        }
    }

    /// Whether the call's cells exist, and have the values that their marks before the call give.
    pub(crate) fn fits(&self, cells: &[u8]) -> bool
        ensures room { IsTrue result → self.now.from + self.now.many ≤ length cells.now }
        ensures fits { IsTrue result → (k : ℕ) → k < self.now.many → FitsCell self.now.task self.now.bytes.now k (slice_index cells.now (self.now.from + k)) }
    {
        let from = self.from as usize;
        if from + self.many as usize > cells.len() {
            return false;
        }
        for index in 0..self.many {
            if !self.cell_fits(index, cells[from + index as usize]) {
                return false;
            }
        }
        true
    }

    /// How many cells need a mark after the call.
    pub(crate) fn count(&self) -> u32
        ensures { result ≡ count_in self.now.task self.now.many }
    {
        match self.task {
            Task::Erases | Task::Programs => self.many,
            Task::Quiet | Task::Compares => 0,
        }
    }

    /// Whether a cell has the mark that it needs after the call.
    fn is_left(&self, index: u32, mark: CellMark) -> bool
        ensures { IsTrue result → mark ≡ after_in self.now.task index }
    {
        match (self.task, mark) {
            (Task::Erases, CellMark::Blank) => true,
            (Task::Programs, CellMark::Holds(Mark::Page { width, at })) => width == 1
                && at == index,
            _ => false,
        }
    }

    /// The first cell without the mark that it needs after the call, and the mark that it has.
    pub(crate) fn odd_cell(&self, marks: &[CellMark]) -> Option<(u32, CellMark)>
        ensures { IfNone result ((k : ℕ) → k < count_in self.now.task self.now.many → slice_index_or marks.now k (Holds Any) ≡ after_in self.now.task k) }
    {
        for index in 0..self.count() {
            let mark = mark_at(marks, index as usize);
            if !self.is_left(index, mark) {
                return Some((index, mark));
            }
        }
        None
    }

    /// Why the marks of the cells after the call aren't those that they need, if so.
    pub(crate) fn odd(&self, marks: &Marked<'_>) -> Option<Cause>
        ensures from { IfNone result (marks.now.from ≡ self.now.from) }
        ensures all { IfNone result ((k : ℕ) → k < count_in self.now.task self.now.many
            → slice_index_or marks.now.cells.items k (Holds Any) ≡ after_in self.now.task k) }
    {
        if marks.from != self.from {
            return Some(Cause::Outside);
        }
        match self.odd_cell(&marks.cells) {
            Some((index, mark)) => Some(Cause::Cell { index, mark }),
            None => None,
        }
    }
}
