//! The marks at the beginning of a call.
ghost use Rattle.std.specs.Prelude.{◌≡◌, ◌≤◌, ◌+◌, length};
ghost use Rattle.duty_proofs.specs.TargetMarks.{laid};
ghost use Rattle.duty_proofs.specs.Starts.{names, started};
ghost use Rattle.duty_proofs.specs.Views.{marks_in};

use crate::cells::CellMark;
use crate::target_marks::Marked;
use shadow_step::Mark;

/// Marks the `count` bytes in the buffer as those of the page.
#[tactic(auto, using(crate::proofs::NameLemmas::no_names, crate::proofs::NameLemmas::one_name_more))]
pub fn put_names(marks: &mut [Mark], at: usize, count: u32)
    requires { at + count ≤ length marks.old }
    ensures { marks.new ≡ laid at (names 0 count) marks.old }
{
    for i in 0..count {
        marks[at + i as usize] = Mark::Page { width: 1, at: i };
    }
}

impl<'a> Marked<'a> {
    /// The marks at the beginning of a call: its bytes are in the buffer, and the cells from a place on have these marks.
    pub fn start(&mut self, buffer: usize, count: u32, from: u32, cells: Vec<CellMark>)
        requires { buffer + count ≤ length self.old.ram.items }
        ensures { marks_in self.new ≡ started (marks_in self.old) buffer count from cells.items }
    {
        put_names(&mut self.ram, buffer, count);
        self.from = from;
        self.cells = cells;
    }
}
