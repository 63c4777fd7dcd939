//! A target with an algorithm, for calls that are made step by step.

ghost use Rattle.std.specs.Prelude.{◌≡◌};
ghost use Rattle.flash_layout.specs.Maps.{map_of};
ghost use Rattle.target_core.specs.Units.{unit_map};
ghost use Rattle.algo_calls.specs.Shows.{Fits};

use crate::between::{Between, known_of};
use algo_calls::CallsIn;
use bench_model::MemoryBench;
use duty_proofs::Marked;
use faults::OutOfMemory;
use flash_layout::FlashMap;
use ram_arena::Arena;
use std::alloc::Global;
use target_core::{RunEnd, SliceEnd};

/// A target with a loaded algorithm, and the map of its flash.
#[derive(Drop)]
pub struct Hand<'a> {
    pub(crate) calls: CallsIn,
    pub(crate) arena: Arena,
    pub(crate) map: &'a FlashMap,

    pub ghost fits: { Fits calls arena 0 },
    pub ghost maps: { map_of map.now ≡ unit_map calls.machine.unit },
}

impl<'a> Hand<'a> {
    ghost use Rattle.std.specs.Prelude.{◌≡◌, ◌<◌, ◌≤◌, ◌^◌, ℕ, List, length, map, replicate, true, None, Ok, IfOk, IfSome};
    ghost use Rattle.armv6m_step.specs.Access.{Load};
    ghost use Rattle.bench_model.specs.Shown.{bench_of};
    ghost use Rattle.flash_layout.specs.Areas.{cells_in};
    ghost use Rattle.target_core.specs.World.{world_answer};
    ghost use Rattle.target_core.specs.Windows.{window_of};
    ghost use Rattle.target_core.specs.Units.{unit_state};
    ghost use Rattle.algo_calls.specs.Shows.{AgreesAt, setup_at};
    ghost use Rattle.shadow_step.specs.Marks.{is_known};
    ghost use Rattle.duty_proofs.specs.Views.{marks_in};
    ghost use Rattle.duty_runs.specs.Hands.{hand_setup, hand_base, hand_map, hand_point};
    ghost use Rattle.duty_runs.specs.Steps.{Advances};

    /// The calls of an algorithm that is loaded in the first window of an arena, and the map of the board.
    pub fn new(calls: CallsIn, arena: Arena, map: &'a FlashMap) -> Hand<'a>
        requires fits { Fits calls arena 0 }
        requires map { map_of map.now ≡ unit_map calls.machine.unit }
        ensures calls { result.calls ≡ calls }
        ensures arena { result.arena ≡ arena }
    {
        Hand { calls, arena, map }
    }

    /// The bytes of the RAM.
    pub(crate) fn ram(&self, alloc: Global) -> Result<Vec<u8>, OutOfMemory>
        ensures { IfOk result (λ ram. ram.items ≡ window_of self.now.arena 0) }
    {
        let machine = self.calls.machine();
        let mut ram = vec![in alloc; 0; machine.ram_size as usize]?;
        machine.read_ram(&self.arena, 0, machine.ram_base, &mut ram);
        Ok(ram)
    }

    /// The present state of the target, as after a load: all of it is the same in every run. No operation is open.
    pub fn loaded(&self, alloc: Global) -> Result<Between, OutOfMemory>
        requires { (unit_state self.now.calls.machine.unit).operation ≡ None }
        ensures ram { IfOk result (λ state. state.ram.items ≡ window_of self.now.arena 0) }
        ensures known { IfOk result (λ state. state.known.items ≡ replicate (hand_setup self.now).ram_size true) }
        ensures state { IfOk result (λ state. state.state ≡ unit_state self.now.calls.machine.unit) }
        ensures address { IfOk result (λ state. state.address ≡ true) }
    {
        let machine = self.calls.machine();
        let ram = self.ram(alloc)?;
        let known = vec![in alloc; true; machine.ram_size as usize]?;
        Ok(Between {
            ram,
            known,
            state: machine.unit.state,
            address: true,
        })
    }

    /// The state of the target after a call, with the marks that the call left. No operation is open.
    pub(crate) fn left(&self, alloc: Global, marks: &Marked<'_>) -> Result<Between, OutOfMemory>
        requires idle { marks.now.state.operation ≡ None }
        requires long { length marks.now.ram.items ≡ (hand_setup self.now).ram_size }
        ensures ram { IfOk result (λ state. state.ram.items ≡ window_of self.now.arena 0) }
        ensures known { IfOk result (λ state. state.known.items ≡ map is_known marks.now.ram.items) }
        ensures state { IfOk result (λ state. state.state ≡ marks.now.state) }
        ensures address { IfOk result (λ state. state.address ≡ marks.now.address) }
    {
        let ram = self.ram(alloc)?;
        let known = known_of(alloc, &marks.ram)?;
        Ok(Between {
            ram,
            known,
            state: marks.state,
            address: marks.address,
        })
    }

    /// The halfword of the RAM at an address, if there is one.
    #[tactic(auto, using(crate::proofs::HandLemmas::half_read))]
    pub(crate) fn half(&self, at: u32) -> Option<u16>
        ensures { IfSome result (λ half. (cells : List ℕ) → (world_answer (hand_point self.now cells).world (Load 2 at)).0 ≡ Ok half) }
    {
        let machine = self.calls.machine();
        let base = machine.ram_base;
        if at < base || u64::from(at) + 2 > u64::from(base) + u64::from(machine.ram_size) {
            return None;
        }
        Some(self.arena.load16(0, at - base) as u16)
    }

    /// Makes one step, if it continues.
    pub(crate) fn advance(&mut self, bench: &mut MemoryBench) -> Result<(), RunEnd>
        requires { AgreesAt true self.old.calls (bench_of bench.old) }
        ensures goes { IfOk result (λ done. Advances self.old.calls.machine.return_at (hand_point self.old (bench_of bench.old).cells)
            (hand_point self.new (bench_of bench.new).cells)) }
        ensures agrees { AgreesAt true self.new.calls (bench_of bench.new) }
        ensures return_at { self.new.calls.machine.return_at ≡ self.old.calls.machine.return_at }
        ensures setup { hand_setup self.new ≡ hand_setup self.old }
        ensures map { hand_map self.new ≡ hand_map self.old }
    {
        let mut left = 2;
        match self.calls.slice(&mut self.arena, 0, bench, &mut left, 1) {
            SliceEnd::More => Ok(()),
            SliceEnd::Ended(RunEnd::Returned { .. }) if left == 1 => Ok(()),
            SliceEnd::Ended(end) => Err(end),
        }
    }
}
