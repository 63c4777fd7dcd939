//! The calls for a table, each on one sector or page or on the whole device.

ghost use Rattle.std.specs.Prelude.{◌≡◌, ◌<◌, ◌^◌, length, All, IfOk};

use crate::table::Table;
use algo_calls::Call;
use duty_runs::{Ask, Between, Task, Went};
use duty_trials::Work;
use faults::OutOfMemory;
use std::alloc::Global;

/// Bytes for a page: their values don't matter.
fn page_bytes(alloc: Global, count: u32) -> Result<Vec<u8>, OutOfMemory>
    ensures count { IfOk result (λ bytes. length bytes.items ≡ count) }
    ensures bytes { IfOk result (λ bytes. All (λ v. v < 2 ^ 8) bytes.items) }
{
    Ok(vec![in alloc; 0x5A; count as usize]?)
}

impl<'h, 's, 'b> Table<'h, 's, 'b> {
    ghost use Rattle.std.specs.Prelude.{[], IsSome};
    ghost use Rattle.algo_calls.specs.Shows.{MayAsk};
    ghost use Rattle.duty_runs.specs.Runs.{IfBack};
    ghost use Rattle.duty_trials.specs.declared.list.Work.TheVariants as a_work;
    ghost use Rattle.duty_trials.specs.Lists.{count_of, HasFunction};
    ghost use Rattle.duty_trials.specs.Subjects.{algorithm_in, setup_for, site_in};
    ghost use Rattle.duty_table.specs.Tables.{QuietLeaves, WorkLeaves};

    /// The cells of the board's regions, all erased.
    fn blank(&self) -> Result<Vec<u8>, OutOfMemory>
        ensures { IfOk result (λ cells. length cells.items ≡ self.now.subject.now.cells) }
    {
        Ok(vec![in self.alloc; 0xFF; self.subject.cells as usize]?)
    }

    /// Makes a call that opens no operation on any cell.
    pub(crate) fn quiet(&mut self, state: &Between, call: Call) -> Result<Went, OutOfMemory>
        requires { MayAsk (setup_for self.old.subject.now) call [] }
        ensures goes { IfOk result (λ went. IfBack went (λ left steps. QuietLeaves self.old.subject.now call state.now left)) }
        ensures subject { self.new.subject ≡ self.old.subject }
    {
        let cells = self.blank()?;
        let ask = Ask {
            call,
            bytes: &[],
            task: Task::Quiet,
            from: 0,
            many: 0,
        };
        self.run(state, &ask, &cells)
    }

    /// Calls the function that erases the sector of this number.
    fn sector(&mut self, state: &Between, number: u32) -> Result<Went, OutOfMemory>
        requires { number < length (site_in self.old.subject.now).layout.sectors }
        ensures goes { IfOk result (λ went. IfBack went (λ left steps. WorkLeaves self.old.subject.now a_work.Sectors number state.now left)) }
        ensures subject { self.new.subject ≡ self.old.subject }
    {
        let span = self.subject.sector(number);
        let cells = self.blank()?;
        let ask = Ask {
            call: Call::EraseSector { at: span.address },
            bytes: &[],
            task: Task::Erases,
            from: span.from,
            many: span.to - span.from,
        };
        self.run(state, &ask, &cells)
    }

    /// Calls the function that erases all sectors.
    fn chip(&mut self, state: &Between) -> Result<Went, OutOfMemory>
        requires { IsSome (algorithm_in self.old.subject.now).entries.erase_chip }
        ensures goes { IfOk result (λ went. IfBack went (λ left steps. WorkLeaves self.old.subject.now a_work.Chip 0 state.now left)) }
        ensures subject { self.new.subject ≡ self.old.subject }
    {
        let span = self.subject.whole();
        let cells = self.blank()?;
        let ask = Ask {
            call: Call::EraseChip,
            bytes: &[],
            task: Task::Erases,
            from: span.from,
            many: span.to - span.from,
        };
        self.run(state, &ask, &cells)
    }

    /// Calls the function that programs the page of this number, whose cells are erased.
    fn page(&mut self, state: &Between, number: u32) -> Result<Went, OutOfMemory>
        requires { number < length (site_in self.old.subject.now).layout.pages }
        ensures goes { IfOk result (λ went. IfBack went (λ left steps. WorkLeaves self.old.subject.now a_work.Pages number state.now left)) }
        ensures subject { self.new.subject ≡ self.old.subject }
    {
        let span = self.subject.page(number);
        let bytes = page_bytes(self.alloc, span.to - span.from)?;
        let held = bytes.as_slice();
        let cells = self.blank()?;
        let ask = Ask {
            call: Call::ProgramPage { at: span.address },
            bytes: held,
            task: Task::Programs,
            from: span.from,
            many: span.to - span.from,
        };
        self.run(state, &ask, &cells)
    }

    /// Calls the function that verifies the page of this number, whose cells hold the bytes.
    fn check(&mut self, state: &Between, number: u32) -> Result<Went, OutOfMemory>
        requires number { number < length (site_in self.old.subject.now).layout.pages }
        requires function { IsSome (algorithm_in self.old.subject.now).entries.verify }
        ensures goes { IfOk result (λ went. IfBack went (λ left steps. WorkLeaves self.old.subject.now a_work.Checks number state.now left)) }
        ensures subject { self.new.subject ≡ self.old.subject }
    {
        let span = self.subject.page(number);
        let bytes = page_bytes(self.alloc, span.to - span.from)?;
        let held = bytes.as_slice();
        let mut cells = self.blank()?;
        cells[span.from as usize..span.to as usize].copy_from_slice(held);
        let ask = Ask {
            call: Call::Verify { at: span.address },
            bytes: held,
            task: Task::Compares,
            from: span.from,
            many: span.to - span.from,
        };
        self.run(state, &ask, &cells)
    }

    /// Calls a function on the sector or page of this number.
    pub(crate) fn work(
        &mut self,
        state: &Between,
        work: Work,
        number: u32,
    ) -> Result<Went, OutOfMemory>
        requires number { number < count_of (site_in self.old.subject.now).layout work }
        requires function { HasFunction (algorithm_in self.old.subject.now).entries work }
        ensures goes { IfOk result (λ went. IfBack went (λ left steps. WorkLeaves self.old.subject.now work number state.now left)) }
        ensures subject { self.new.subject ≡ self.old.subject }
    {
        match work {
            Work::Sectors => self.sector(state, number),
            Work::Chip => self.chip(state),
            Work::Pages => self.page(state, number),
            Work::Checks => self.check(state, number),
        }
    }
}
