//! One step of the run at hand, and the marks after it.

ghost use Rattle.std.specs.Prelude.{◌≡◌, IsTrue};
ghost use Rattle.flash_layout.specs.Work.{range_of};
ghost use Rattle.algo_calls.specs.Duties.{OpensIn};

use crate::hand::Hand;
use crate::went::Cause;
use bench_model::MemoryBench;
use duty_proofs::Marked;
use flash_layout::Operation;
use shadow_step::CoreMarks;

/// The marks of a run: those of the registers and flags, and those of the target.
#[derive(Drop)]
pub(crate) struct RunMarks<'a> {
    pub core: CoreMarks,
    pub target: Marked<'a>,
}

/// Whether an open operation is in a place. Without a place none may be open.
#[tactic(auto, using(std::proofs::lemmas::Bool::Decides::nat_tests))]
fn opens_in(place: Option<(u32, u32)>, operation: Option<Operation>) -> bool
    ensures { IsTrue result → OpensIn place (range_of operation) }
{
    let Some(operation) = operation else {
        return true;
    };
    let Some((at, len)) = place else {
        return false;
    };
    let from = operation.place;
    let end = u64::from(from) + u64::from(operation.work.len());
    at <= from && end <= u64::from(at) + u64::from(len)
}

impl<'a> Hand<'a> {
    ghost use Rattle.std.specs.Prelude.{true, length, IfOk};
    ghost use Rattle.bench_model.specs.Shown.{bench_of};
    ghost use Rattle.algo_calls.specs.Shows.{AgreesAt};
    ghost use Rattle.duty_runs.specs.Hands.{hand_setup, hand_map, hand_point, run_marks};
    ghost use Rattle.duty_runs.specs.Steps.{Steps};

    /// Makes one step with its marks, if it continues and the marks say that every other run does.
    pub(crate) fn step(
        &mut self,
        bench: &mut MemoryBench,
        marks: &mut RunMarks<'_>,
        place: Option<(u32, u32)>,
    ) -> Result<(), Cause>
        requires { AgreesAt true self.old.calls (bench_of bench.old) }
        ensures steps { IfOk result (λ done. Steps self.old.calls.machine.return_at place (hand_point self.old (bench_of bench.old).cells)
            (hand_point self.new (bench_of bench.new).cells) (run_marks marks.old) (run_marks marks.new)) }
        ensures agrees { AgreesAt true self.new.calls (bench_of bench.new) }
        ensures return_at { self.new.calls.machine.return_at ≡ self.old.calls.machine.return_at }
        ensures setup { hand_setup self.new ≡ hand_setup self.old }
        ensures map { hand_map self.new ≡ hand_map self.old }
    {
        let pc = self.calls.machine().core.pc();
        let (Some(half), Some(second)) = (self.half(pc), self.half(pc.wrapping_add(2))) else {
            return Err(Cause::Fetch);
        };
        let core = &self.calls.machine().core;
        if !marks.core.step(&mut marks.target, core, half, second) {
            return Err(Cause::NoMarks);
        }
        if !opens_in(place, marks.target.state.operation) {
            return Err(Cause::Outside);
        }
        marks.target.tick();
        match self.advance(bench) {
            Ok(()) => Ok(()),
            Err(end) => Err(Cause::Ended(end)),
        }
    }
}
