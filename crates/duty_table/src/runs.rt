//! The run of one call, on a bench of its own.

ghost use Rattle.std.specs.Prelude.{◌≡◌, ◌<◌, ◌^◌, length, None, IfOk};
ghost use Rattle.bench_model.specs.Shown.{bench_of};

use crate::table::Table;
use bench_model::MemoryBench;
use duty_runs::{Ask, Between, Cause, Went};
use duty_trials::Subject;
use faults::OutOfMemory;
use std::alloc::Global;

/// The units of the bench's record. They are enough for a call that erases each sector in an operation of its own, or that programs each byte
/// of a page in one and reads it.
fn room(subject: &Subject<'_>) -> u64 {
    let sectors = u64::from(subject.geometry.sectors());
    4096 + 4 * sectors + 8 * u64::from(subject.algorithm.device.page)
}

/// A bench with these cells, on which no operation is open.
fn bench_over(
    alloc: Global,
    subject: &Subject<'_>,
    cells: &[u8],
) -> Result<MemoryBench, OutOfMemory>
    requires { length cells.now < 2 ^ 32 }
    ensures cells { IfOk result (λ bench. (bench_of bench).cells ≡ cells.now) }
    ensures idle { IfOk result (λ bench. (bench_of bench).operation ≡ None) }
{
    Ok(MemoryBench::new(alloc, cells, &[], 0, room(subject), &[], &[], &[])?)
}

impl<'h, 's, 'b> Table<'h, 's, 'b> {
    ghost use Rattle.algo_calls.specs.Shows.{MayAsk};
    ghost use Rattle.duty_runs.specs.Runs.{IfBack};
    ghost use Rattle.duty_trials.specs.Subjects.{setup_for};
    ghost use Rattle.duty_table.specs.States.{RunsTo};

    /// Makes a call from a state over these cells, and counts its steps.
    pub(crate) fn run(
        &mut self,
        state: &Between,
        ask: &Ask<'_>,
        cells: &[u8],
    ) -> Result<Went, OutOfMemory>
        requires may { MayAsk (setup_for self.old.subject.now) ask.now.call ask.now.bytes.now }
        requires cells { length cells.now ≡ self.old.subject.now.cells }
        ensures runs { IfOk result (λ went. IfBack went (λ left steps. RunsTo self.old.subject.now ask.now state.now left)) }
        ensures subject { self.new.subject ≡ self.old.subject }
    {
        if state.ram.len() != self.subject.board.ram_size as usize {
            let why = Cause::Room;
            return Ok(Went::Undecided { pc: 0, why });
        }
        let mut bench = bench_over(self.alloc, self.subject, cells)?;
        let went = self.hand.go(self.alloc, &mut bench, state, ask, self.left)?;
        if let Went::Back { left: _, steps } = &went {
            self.left = self.left.saturating_sub(*steps);
        }
        Ok(went)
    }
}
