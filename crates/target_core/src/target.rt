//! The target as a whole.
ghost use Rattle.std.specs.Prelude.{◌≡◌, length};
ghost use Rattle.target_core.specs.Windows.{IsRam};

use crate::machine::{Frame, Machine};
use crate::run::{RunEnd, SliceEnd};
use bench_model::{Bench, DeviceFault};
use board_file::Board;
use faults::OutOfMemory;
use ram_arena::Arena;
use std::alloc::Global;

/// A core with its RAM and the flash controller of its board.
#[derive(Drop)]
pub struct Target {
    /// The core and the controller.
    pub machine: Machine,
    /// The RAM, as the one window of an arena.
    pub arena: Arena,

    ghost one: { length arena ≡ 1 },
    ghost ram: { IsRam arena 0 machine.ram_size },
}

impl Target {
    ghost use Rattle.std.specs.Prelude.{◌≡◌, ◌≤◌, ◌+◌, ◌-◌, length, take, drop, replicate, IsTrue, OnOk, OnErr, IfOk};
    ghost use Rattle.faults.specs.Counts.{HasCause};
    ghost use Rattle.bench_model.specs.Calls.{FileStays, written};
    ghost use Rattle.bench_model.specs.Counted.{IsCounted};
    ghost use Rattle.bench_model.specs.Does.{IsBrokenOff, StaysOpen};
    ghost use Rattle.board_file.specs.Shown.{shown};
    ghost use Rattle.flash_layout.specs.Bench.{Settles};
    ghost use Rattle.flash_layout.specs.Maps.{board_map};
    ghost use Rattle.target_core.specs.Path.{is_device_end, is_device_slice};
    ghost use Rattle.target_core.specs.Runs.{RunGives};
    ghost use Rattle.target_core.specs.Targets.{fresh_core, stands, after_start, point_in, SliceGives, GoesOn};
    ghost use Rattle.target_core.specs.Units.{fresh, UnitAgrees, unit_cells, unit_map, unit_state, state_reset};

    /// The target of a board, after a reset.
    pub fn new(alloc: Global, board: &Board) -> Result<Target, OutOfMemory>
        ensures ram { IfOk result (λ target. (stands target).ram ≡ replicate board.now.ram_size 0) }
        ensures base { IfOk result (λ target. (stands target).ram_base ≡ board.now.ram_base) }
        ensures map { IfOk result (λ target. unit_map (stands target).unit ≡ board_map (shown board.now)) }
        ensures state { IfOk result (λ target. unit_state (stands target).unit ≡ fresh board.now.kind) }
        ensures core { IfOk result (λ target. (stands target).core ≡ fresh_core) }
        ensures return_at { IfOk result (λ target. (stands target).return_at ≡ 0) }
    {
        let machine = Machine::new(alloc, board)?;
        let arena = Arena::new(alloc, &[board.ram_size])?;
        Ok(Target { machine, arena })
    }

    /// Sets all registers, clears the flags and PRIMASK, and keeps the return point for the slices that follow.
    pub fn start(&mut self, frame: &Frame)
        ensures { stands self.new ≡ after_start (stands self.old) frame.now }
    {
        self.machine.start(&mut self.arena, 0, frame);
    }

    /// Breaks off an operation that is open on the bench, resets the controller and the core, and zeroes the RAM. A device fault leaves
    /// everything as it was.
    pub fn reset<B: Bench>(&mut self, bench: &mut B) -> Result<(), DeviceFault>
        requires { (B.state bench.old).cell_count ≡ unit_cells (stands self.old).unit }
        ensures unit { OnOk result (unit_state (stands self.new).unit ≡ state_reset (unit_map (stands self.old).unit)) }
        ensures ram { OnOk result ((stands self.new).ram ≡ replicate (length (stands self.old).ram) 0) }
        ensures core { OnOk result ((stands self.new).core ≡ fresh_core) }
        ensures map { unit_map (stands self.new).unit ≡ unit_map (stands self.old).unit }
        ensures base { (stands self.new).ram_base ≡ (stands self.old).ram_base }
        ensures len { length (stands self.new).ram ≡ length (stands self.old).ram }
        ensures return_at { (stands self.new).return_at ≡ (stands self.old).return_at }
        ensures ok_cells { IsTrue B.tells → OnOk result (IsBrokenOff (B.state bench.old) (B.state bench.new)) }
        ensures err_cells { IsTrue B.tells → OnErr result (StaysOpen (B.state bench.old) (B.state bench.new)) }
        ensures err { OnErr result (stands self.new ≡ stands self.old) }
        ensures bench { Settles B.tells (B.state bench.old) (B.state bench.new) }
        ensures agrees { OnOk result (UnitAgrees B.tells (stands self.new).unit (B.state bench.new)) }
        ensures cause { HasCause (B.state bench.old).device_faults (B.state bench.new).device_faults result }
    {
        self.machine.reset(&mut self.arena, 0, bench)
    }

    /// Restarts as after a reset, without calling a bench: an operation that is open on one stays open.
    pub fn restart(&mut self)
        ensures unit { unit_state (stands self.new).unit ≡ state_reset (unit_map (stands self.old).unit) }
        ensures ram { (stands self.new).ram ≡ replicate (length (stands self.old).ram) 0 }
        ensures core { (stands self.new).core ≡ fresh_core }
        ensures map { unit_map (stands self.new).unit ≡ unit_map (stands self.old).unit }
        ensures base { (stands self.new).ram_base ≡ (stands self.old).ram_base }
        ensures len { length (stands self.new).ram ≡ length (stands self.old).ram }
        ensures return_at { (stands self.new).return_at ≡ (stands self.old).return_at }
    {
        self.machine.restart(&mut self.arena, 0);
    }

    /// Zeroes the RAM.
    pub fn clear_ram(&mut self)
        ensures ram { (stands self.new).ram ≡ replicate (length (stands self.old).ram) 0 }
        ensures machine { self.new.machine ≡ self.old.machine }
    {
        self.machine.clear_ram(&mut self.arena, 0);
    }

    /// Writes bytes into the RAM, from an address on.
    pub fn write_ram(&mut self, at: u32, bytes: &[u8])
        requires from { (stands self.old).ram_base ≤ at }
        requires to { at - (stands self.old).ram_base + length bytes.now ≤ length (stands self.old).ram }
        ensures ram { (stands self.new).ram ≡ written (at - (stands self.old).ram_base) bytes.now (stands self.old).ram }
        ensures len { length (stands self.new).ram ≡ length (stands self.old).ram }
        ensures machine { self.new.machine ≡ self.old.machine }
    {
        self.machine.write_ram(&mut self.arena, 0, at, bytes);
    }

    /// Reads bytes of the RAM, from an address on.
    pub fn read_ram(&self, at: u32, out: &mut [u8])
        requires from { (stands self.now).ram_base ≤ at }
        requires to { at - (stands self.now).ram_base + length out.old ≤ length (stands self.now).ram }
        ensures { out.new ≡ take (length out.old) (drop (at - (stands self.now).ram_base) (stands self.now).ram) }
    {
        self.machine.read_ram(&self.arena, 0, at, out);
    }

    /// Continues from the last start or slice by at most `steps` steps. `left` is the fuel, and falls by the steps made.
    pub fn run_slice<B: Bench>(&mut self, bench: &mut B, left: &mut u64, steps: u64) -> SliceEnd
        requires { UnitAgrees B.tells (stands self.old).unit (B.state bench.old) }
        ensures run { IsTrue B.tells → SliceGives (stands self.old) (B.state bench.old) left.old left.new steps result (stands self.new) (B.state bench.new) }
        ensures left { left.new ≤ left.old }
        ensures steps { left.old ≤ left.new + steps }
        ensures more { GoesOn result left.old left.new steps }
        ensures file { FileStays (B.state bench.old) (B.state bench.new) }
        ensures agrees { UnitAgrees B.tells (stands self.new).unit (B.state bench.new) }
        ensures cause { IsCounted (B.state bench.old).device_faults (B.state bench.new).device_faults (is_device_slice result) }
        ensures return_at { (stands self.new).return_at ≡ (stands self.old).return_at }
        ensures map { unit_map (stands self.new).unit ≡ unit_map (stands self.old).unit }
        ensures base { (stands self.new).ram_base ≡ (stands self.old).ram_base }
        ensures len { length (stands self.new).ram ≡ length (stands self.old).ram }
    {
        self.machine
            .run_slice(&mut self.arena, 0, bench, left, steps)
    }

    /// Starts with a frame and runs until an end holds, for at most `fuel` steps.
    pub fn run<B: Bench>(&mut self, bench: &mut B, frame: &Frame, fuel: u64) -> RunEnd
        requires { UnitAgrees B.tells (stands self.old).unit (B.state bench.old) }
        ensures run { IsTrue B.tells → RunGives frame.now.return_at fuel (point_in (after_start (stands self.old) frame.now) (B.state bench.old).cells)
            (B.state bench.old) result (point_in (stands self.new) (B.state bench.new).cells) (B.state bench.new) }
        ensures file { FileStays (B.state bench.old) (B.state bench.new) }
        ensures agrees { UnitAgrees B.tells (stands self.new).unit (B.state bench.new) }
        ensures cause { IsCounted (B.state bench.old).device_faults (B.state bench.new).device_faults (is_device_end result) }
        ensures return_at { (stands self.new).return_at ≡ frame.now.return_at }
        ensures map { unit_map (stands self.new).unit ≡ unit_map (stands self.old).unit }
        ensures base { (stands self.new).ram_base ≡ (stands self.old).ram_base }
        ensures len { length (stands self.new).ram ≡ length (stands self.old).ram }
    {
        self.machine.run(&mut self.arena, 0, bench, frame, fuel)
    }
}
