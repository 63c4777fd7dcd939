//! The run of one call.

ghost use Rattle.std.specs.Prelude.{◌≡◌, true, IsTrue};
ghost use Rattle.armv6m_decode.specs.declared.registers.TheConstants.{PC};
ghost use Rattle.shadow_step.specs.Marks.{is_known, mark_at};
ghost use Rattle.duty_proofs.specs.Starts.{all_known};

use crate::ask::{Ask, count_of};
use crate::between::Between;
use crate::hand::Hand;
use crate::step::RunMarks;
use crate::went::{Cause, Went};
use algo_calls::CallEnd;
use armv6m_decode::registers::PC;
use bench_model::MemoryBench;
use faults::OutOfMemory;
use shadow_step::{CoreMarks, Mark};
use std::alloc::Global;
use target_core::RunEnd;

/// The marks of the core at a call: its frame sets all registers and flags.
fn all_known() -> CoreMarks
    ensures { result ≡ all_known }
{
    CoreMarks {
        regs: [Mark::Known; 16],
        n: true,
        z: true,
        c: true,
        v: true,
        primask: true,
    }
}

/// Whether the PC and R0 are the same in every run.
fn is_answer_known(marks: &CoreMarks) -> bool
    ensures counter { IsTrue result → is_known (mark_at marks.now PC) ≡ true }
    ensures value { IsTrue result → is_known (mark_at marks.now 0) ≡ true }
{
    marks.regs[PC as usize].is_known() && marks.regs[0].is_known()
}

impl<'a> Hand<'a> {
    ghost use Rattle.std.specs.Prelude.{◌<◌, ◌≤◌, ◌+◌, ◌-◌, ◌^◌, ℕ, List, length, slice_index, None, IfOk, IfSome};
    ghost use Rattle.bench_model.specs.Shown.{bench_of};
    ghost use Rattle.flash_layout.specs.Areas.{cells_in};
    ghost use Rattle.algo_calls.specs.Frames.{asked, fuel_of, first_point};
    ghost use Rattle.target_core.specs.Units.{unit_state};
    ghost use Rattle.algo_calls.specs.Ends.{success_of};
    ghost use Rattle.algo_calls.specs.Shows.{MayAsk};
    ghost use Rattle.duty_proofs.specs.Runs.{start_marks};
    ghost use Rattle.duty_runs.specs.Asks.{before_in};
    ghost use Rattle.duty_runs.specs.States.{state_of, state_marks, state_world};
    ghost use Rattle.duty_runs.specs.Hands.{hand_setup, hand_base, hand_map, hand_point, run_marks};
    ghost use Rattle.duty_runs.specs.Runs.{Decides, IfBack, Returns};

    /// The marks at the beginning of a call from a state between calls, or none if the RAM has no room for its bytes.
    fn begin(
        &self,
        alloc: Global,
        state: &Between,
        ask: &Ask<'_>,
    ) -> Result<Option<RunMarks<'a>>, OutOfMemory>
        ensures marks { IfOk result (λ begun. IfSome begun (λ marks. run_marks marks ≡ start_marks (hand_setup self.now)
            (state_marks (hand_base self.now) (hand_map self.now) state.now) (length ask.now.bytes.now) ask.now.from
            (before_in ask.now.task ask.now.many))) }
        ensures room { IfOk result (λ begun. IfSome begun (λ marks. (hand_setup self.now).layout.buffer_at - (hand_setup self.now).layout.return_at
            + length ask.now.bytes.now ≤ length state.now.known.items)) }
        ensures bytes { IfOk result (λ begun. IfSome begun (λ marks. (k : ℕ) → slice_index ask.now.bytes.now k < 2 ^ 8)) }
    {
        let layout = self.calls.layout();
        let buffer = layout.buffer_at.saturating_sub(layout.return_at) as usize;
        let Some(count) = count_of(ask.bytes) else {
            return Ok(None);
        };
        if buffer + count as usize > state.known.len() {
            return Ok(None);
        }
        let base = self.calls.machine().ram_base;
        let mut target = state.marks(alloc, base, self.map)?;
        target.start(buffer, count, ask.from, ask.before(alloc)?);
        Ok(Some(RunMarks {
            core: all_known(),
            target,
        }))
    }

    /// Goes to the first point of a call from a state between two calls. The answer is how many steps the call may make.
    fn stand(&mut self, state: &Between, ask: &Ask<'_>) -> u64
        requires may { MayAsk (hand_setup self.old) ask.now.call ask.now.bytes.now }
        requires ram { length state.now.ram.items ≡ (hand_setup self.old).ram_size }
        ensures first { (cells : List ℕ) → hand_point self.new cells ≡ first_point (hand_setup self.old)
            (state_world (hand_base self.old) (hand_map self.old) cells state.now) (asked ask.now.call ask.now.bytes.now) }
        ensures fuel { result ≡ fuel_of (hand_setup self.old) ask.now.call }
        ensures return_at { self.new.calls.machine.return_at ≡ (hand_setup self.old).layout.return_at }
        ensures setup { hand_setup self.new ≡ hand_setup self.old }
        ensures map { hand_map self.new ≡ hand_map self.old }
        ensures state { unit_state self.new.calls.machine.unit ≡ state.now.state }
    {
        self.calls
            .stand_at(&mut self.arena, 0, &state.ram, &state.state);
        self.calls.prepare(&mut self.arena, 0, &ask.call, ask.bytes)
    }

    /// What a run decides that reached the return point after this number of steps.
    fn back(
        &self,
        alloc: Global,
        marks: &RunMarks<'_>,
        ask: &Ask<'_>,
        steps: u64,
    ) -> Result<Went, OutOfMemory>
        requires { length marks.now.target.ram.items ≡ (hand_setup self.now).ram_size }
        ensures { IfOk result (λ went. IfBack went (λ left made. (made ≡ steps) × Returns self.now marks.now ask.now left)) }
    {
        let core = &self.calls.machine().core;
        let pc = core.pc();
        if !is_answer_known(&marks.core) {
            let why = Cause::AnswerAny;
            return Ok(Went::Undecided { pc, why });
        }
        if !self.succeeds(ask) {
            let why = Cause::Answer { r0: core.regs[0] };
            return Ok(Went::Undecided { pc, why });
        }
        if marks.target.state.operation.is_some() {
            let why = Cause::Open;
            return Ok(Went::Undecided { pc, why });
        }
        if let Some(why) = ask.odd(&marks.target) {
            return Ok(Went::Undecided { pc, why });
        }
        let left = self.left(alloc, &marks.target)?;
        Ok(Went::Back { left, steps })
    }

    /// Whether R0 is the value of success.
    #[tactic(auto, using(std::proofs::lemmas::Bool::Decides::nat_tests))]
    fn succeeds(&self, ask: &Ask<'_>) -> bool
        ensures { IsTrue result → slice_index self.now.calls.machine.core.regs 0 ≡ success_of ask.now.call (length ask.now.bytes.now) }
    {
        let Some(len) = count_of(ask.bytes) else {
            return false;
        };
        let r0 = self.calls.machine().core.regs[0];
        let end = self.calls.end_of(&ask.call, len, RunEnd::Returned { r0 });
        matches!(end, CallEnd::Done)
    }

    /// Makes a call from a state between two calls, step by step, over the cells of a bench, in fewer than `limit` steps. If it returns,
    /// the run decides the call from this state: every other run goes the same way. After any other answer the target is at some point of
    /// the call.
    pub fn go(
        &mut self,
        alloc: Global,
        bench: &mut MemoryBench,
        state: &Between,
        ask: &Ask<'_>,
        limit: u64,
    ) -> Result<Went, OutOfMemory>
        requires may { MayAsk (hand_setup self.old) ask.now.call ask.now.bytes.now }
        requires cells { length (bench_of bench.old).cells ≡ cells_in (hand_map self.old).areas }
        requires idle { (bench_of bench.old).operation ≡ None }
        requires ram { length state.now.ram.items ≡ (hand_setup self.old).ram_size }
        ensures decides { IfOk result (λ went. IfBack went (λ left steps. (cells : List ℕ) → length cells ≡ length (bench_of bench.old).cells
            → Decides (hand_setup self.old) ask.now.task (state_of (hand_base self.old) (hand_map self.old) cells state.now) ask.now.call
            ask.now.bytes.now ask.now.from ask.now.many (bench_of bench.old).cells steps (state_of (hand_base self.old) (hand_map self.old) cells left))) }
        ensures left { IfOk result (λ went. IfBack went (λ left steps. length left.ram.items ≡ (hand_setup self.old).ram_size)) }
        ensures setup { hand_setup self.new ≡ hand_setup self.old }
        ensures base { IfOk result (λ went. IfBack went (λ left steps. hand_base self.new ≡ hand_base self.old)) }
        ensures map { hand_map self.new ≡ hand_map self.old }
        ensures many { length (bench_of bench.new).cells ≡ length (bench_of bench.old).cells }
        ensures bench { IfOk result (λ went. IfBack went (λ left steps. (bench_of bench.new).operation ≡ None)) }
    {
        if !ask.fits(bench.cells()) {
            let why = Cause::Cells;
            return Ok(Went::Undecided { pc: 0, why });
        }
        let Some(mut marks) = self.begin(alloc, state, ask)? else {
            let why = Cause::Room;
            return Ok(Went::Undecided { pc: 0, why });
        };
        let place = ask.place();
        let fuel = self.stand(state, ask).min(limit);
        for made in 0..fuel {
            let pc = self.calls.machine().core.pc();
            if pc == self.calls.layout().return_at {
                return self.back(alloc, &marks, ask, made);
            }
            match self.step(bench, &mut marks, place) {
                Ok(()) => {}
                Err(why) => return Ok(Went::Undecided { pc, why }),
            }
        }
        Ok(Went::Undecided {
            pc: self.calls.machine().core.pc(),
            why: Cause::Long,
        })
    }
}
