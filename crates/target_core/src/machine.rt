//! A target without its RAM, which is a window of an arena.
ghost use Rattle.std.specs.Prelude.{◌≡◌, ◌≤◌, ◌+◌, ◌-◌, length, take, drop, replicate, IsTrue, OnOk, OnErr, IfOk};
ghost use Rattle.faults.specs.Counts.{HasCause};
ghost use Rattle.bench_model.specs.Calls.{FileStays, written};
ghost use Rattle.bench_model.specs.Counted.{IsCounted};
ghost use Rattle.bench_model.specs.Does.{IsBrokenOff, StaysOpen};
ghost use Rattle.board_file.specs.Shown.{shown};
ghost use Rattle.flash_layout.specs.Bench.{Settles};
ghost use Rattle.flash_layout.specs.Maps.{board_map};
ghost use Rattle.target_core.specs.Path.{is_device_end, is_device_slice};
ghost use Rattle.target_core.specs.Runs.{RunGives};
ghost use Rattle.target_core.specs.Windows.{window_of, IsRam, OnlyIn};
ghost use Rattle.target_core.specs.Targets.{core_at, fresh_core, with_ram, over, after_start, point_in, SliceGives, GoesOn};
ghost use Rattle.target_core.specs.Units.{fresh, UnitAgrees, unit_cells, unit_map, unit_state, state_reset};

use crate::line::Line;
use crate::place::{apart, reach, steps_in};
use crate::run::{RunEnd, SliceEnd, slice};
use crate::unit::Unit;
use armv6m_decode::registers::PC;
use armv6m_step::Core;
use bench_model::{Bench, DeviceFault};
use board_file::Board;
use faults::OutOfMemory;
use ram_arena::Arena;
use std::alloc::Global;

/// The state in which a run begins.
#[derive(Clone, Copy)]
pub struct Frame {
    /// All registers: R0 to R12, SP, LR and PC.
    pub regs: [u32; 16],
    /// The return point of the run.
    pub return_at: u32,
}

/// A core with the flash controller of its board. Each call is lent the RAM.
#[derive(Drop)]
pub struct Machine {
    /// The core.
    pub core: Core,
    /// The address of the first byte of the RAM.
    pub ram_base: u32,
    /// The number of bytes of RAM.
    pub ram_size: u32,
    /// The controller.
    pub unit: Unit,
    /// The return point of the run that was started last.
    pub return_at: u32,
}

/// A core with these registers, no flag set, and PRIMASK clear.
fn core_at(regs: &[u32; 16]) -> Core
    ensures { result ≡ core_at regs.now }
{
    Core {
        regs: *regs,
        n: false,
        z: false,
        c: false,
        v: false,
        primask: false,
    }
}

/// The core after a reset.
fn fresh_core() -> Core
    ensures { result ≡ fresh_core }
{
    core_at(&[0; 16])
}

impl Machine {
    /// The machine of a board, after a reset.
    pub fn new(alloc: Global, board: &Board) -> Result<Machine, OutOfMemory>
        ensures base { IfOk result (λ machine. machine.ram_base ≡ board.now.ram_base) }
        ensures size { IfOk result (λ machine. machine.ram_size ≡ board.now.ram_size) }
        ensures map { IfOk result (λ machine. unit_map machine.unit ≡ board_map (shown board.now)) }
        ensures state { IfOk result (λ machine. unit_state machine.unit ≡ fresh board.now.kind) }
        ensures core { IfOk result (λ machine. machine.core ≡ fresh_core) }
        ensures return_at { IfOk result (λ machine. machine.return_at ≡ 0) }
    {
        let unit = Unit::new(alloc, board)?;
        Ok(Machine {
            core: fresh_core(),
            ram_base: board.ram_base,
            ram_size: board.ram_size,
            unit,
            return_at: 0,
        })
    }

    /// Sets all registers, clears the flags and PRIMASK, and keeps the return point for the slices that follow. The RAM stays.
    pub fn start(&mut self, arena: &mut Arena, window: usize, frame: &Frame)
        requires { IsRam arena.old window self.old.ram_size }
        ensures starts { with_ram self.new (window_of arena.old window) ≡ after_start (over self.old arena.old window) frame.now }
        ensures arena { arena.new ≡ arena.old }
        ensures size { self.new.ram_size ≡ self.old.ram_size }
    {
        self.begin(frame);
    }

    /// Sets all registers, clears the flags and PRIMASK, and keeps the return point.
    fn begin(&mut self, frame: &Frame)
        ensures { self.new ≡ record self.old { core = core_at frame.now.regs; return_at = frame.now.return_at } }
    {
        self.core = core_at(&frame.regs);
        self.return_at = frame.return_at;
    }

    /// Breaks off an operation that is open on the bench, resets the controller and the core, and zeroes the RAM. A device fault leaves
    /// everything as it was. No other window changes.
    pub fn reset<B: Bench>(
        &mut self,
        arena: &mut Arena,
        window: usize,
        bench: &mut B,
    ) -> Result<(), DeviceFault>
        requires window { IsRam arena.old window self.old.ram_size }
        requires cells { (B.state bench.old).cell_count ≡ unit_cells self.old.unit }
        ensures unit { OnOk result (unit_state self.new.unit ≡ state_reset (unit_map self.old.unit)) }
        ensures bytes { OnOk result (window_of arena.new window ≡ replicate self.old.ram_size 0) }
        ensures others { OnlyIn window arena.old arena.new }
        ensures core { OnOk result (self.new.core ≡ fresh_core) }
        ensures map { unit_map self.new.unit ≡ unit_map self.old.unit }
        ensures base { self.new.ram_base ≡ self.old.ram_base }
        ensures size { self.new.ram_size ≡ self.old.ram_size }
        ensures ram_stays { IsRam arena.new window self.old.ram_size }
        ensures return_at { self.new.return_at ≡ self.old.return_at }
        ensures ok_cells { IsTrue B.tells → OnOk result (IsBrokenOff (B.state bench.old) (B.state bench.new)) }
        ensures err_cells { IsTrue B.tells → OnErr result (StaysOpen (B.state bench.old) (B.state bench.new)) }
        ensures err { OnErr result ((self.new ≡ self.old) × (arena.new ≡ arena.old)) }
        ensures bench { Settles B.tells (B.state bench.old) (B.state bench.new) }
        ensures agrees { OnOk result (UnitAgrees B.tells self.new.unit (B.state bench.new)) }
        ensures cause { HasCause (B.state bench.old).device_faults (B.state bench.new).device_faults result }
    {
        match self.unit.reset(bench) {
            Ok(()) => {
                arena.fill(window, 0);
                self.core = fresh_core();
                Ok(())
            }
            Err(DeviceFault) => Err(DeviceFault),
        }
    }

    /// Restarts as after a reset, without calling a bench: an operation that is open on one stays open. No other window changes.
    pub fn restart(&mut self, arena: &mut Arena, window: usize)
        requires { IsRam arena.old window self.old.ram_size }
        ensures unit { unit_state self.new.unit ≡ state_reset (unit_map self.old.unit) }
        ensures bytes { window_of arena.new window ≡ replicate self.old.ram_size 0 }
        ensures others { OnlyIn window arena.old arena.new }
        ensures core { self.new.core ≡ fresh_core }
        ensures map { unit_map self.new.unit ≡ unit_map self.old.unit }
        ensures base { self.new.ram_base ≡ self.old.ram_base }
        ensures size { self.new.ram_size ≡ self.old.ram_size }
        ensures ram_stays { IsRam arena.new window self.old.ram_size }
        ensures return_at { self.new.return_at ≡ self.old.return_at }
    {
        self.unit.restart();
        arena.fill(window, 0);
        self.core = fresh_core();
    }

    /// Zeroes the RAM. No other window changes.
    pub fn clear_ram(&self, arena: &mut Arena, window: usize)
        requires { IsRam arena.old window self.now.ram_size }
        ensures bytes { window_of arena.new window ≡ replicate self.now.ram_size 0 }
        ensures others { OnlyIn window arena.old arena.new }
        ensures ram_stays { IsRam arena.new window self.now.ram_size }
    {
        arena.fill(window, 0);
    }

    /// Writes bytes into the RAM, from an address on. No other window changes.
    pub fn write_ram(&mut self, arena: &mut Arena, window: usize, at: u32, bytes: &[u8])
        requires window { IsRam arena.old window self.old.ram_size }
        requires from { self.old.ram_base ≤ at }
        requires to { at - self.old.ram_base + length bytes.now ≤ self.old.ram_size }
        ensures bytes { window_of arena.new window ≡ written (at - self.old.ram_base) bytes.now (window_of arena.old window) }
        ensures others { OnlyIn window arena.old arena.new }
        ensures ram_stays { IsRam arena.new window self.old.ram_size }
        ensures same { self.new ≡ self.old }
    {
        arena.copy_in(window, at - self.ram_base, bytes);
    }

    /// Reads bytes of the RAM, from an address on.
    pub fn read_ram(&self, arena: &Arena, window: usize, at: u32, out: &mut [u8])
        requires window { IsRam arena.now window self.now.ram_size }
        requires from { self.now.ram_base ≤ at }
        requires to { at - self.now.ram_base + length out.old ≤ self.now.ram_size }
        ensures { out.new ≡ take (length out.old) (drop (at - self.now.ram_base) (window_of arena.now window)) }
    {
        let from = at - self.ram_base;
        for i in 0..out.len() {
            out[i] = arena.load8(window, from + i as u32) as u8;
        }
    }

    /// Continues from the last start or slice by at most `steps` steps. `left` is the fuel, and falls by the steps made. No other window
    /// changes.
    #[inline(always)]
    pub fn run_slice<B: Bench>(
        &mut self,
        arena: &mut Arena,
        window: usize,
        bench: &mut B,
        left: &mut u64,
        steps: u64,
    ) -> SliceEnd
        requires window { IsRam arena.old window self.old.ram_size }
        requires agrees { UnitAgrees B.tells self.old.unit (B.state bench.old) }
        ensures run { IsTrue B.tells → SliceGives (over self.old arena.old window) (B.state bench.old) left.old left.new steps result
            (over self.new arena.new window) (B.state bench.new) }
        ensures left { left.new ≤ left.old }
        ensures steps { left.old ≤ left.new + steps }
        ensures more { GoesOn result left.old left.new steps }
        ensures file { FileStays (B.state bench.old) (B.state bench.new) }
        ensures agrees { UnitAgrees B.tells self.new.unit (B.state bench.new) }
        ensures cause { IsCounted (B.state bench.old).device_faults (B.state bench.new).device_faults (is_device_slice result) }
        ensures return_at { self.new.return_at ≡ self.old.return_at }
        ensures map { unit_map self.new.unit ≡ unit_map self.old.unit }
        ensures base { self.new.ram_base ≡ self.old.ram_base }
        ensures size { self.new.ram_size ≡ self.old.ram_size }
        ensures ram_stays { IsRam arena.new window self.old.ram_size }
        ensures others { OnlyIn window arena.old arena.new }
    {
        let from = arena.begin(window);
        let reach = reach(self.ram_base, self.ram_size);
        let halves = steps_in(self.ram_base, reach, 2);
        let block = self.unit.layout.base;
        let runs = self.unit.is_running();
        let mut line = Line {
            from,
            ram_base: self.ram_base,
            ram_size: self.ram_size,
            reach: reach as usize,
            halves,
            words: steps_in(self.ram_base, reach, 4),
            code: self.ram_base,
            code_halves: halves,
            block,
            apart: apart(self.ram_base, self.ram_size, block, self.unit.layout.block),
            runs,
            window,
            arena,
            unit: &mut self.unit,
            bench,
        };
        let sliced = slice(&mut self.core, &mut line, self.return_at, *left, steps);
        *left -= sliced.made;
        sliced.end
    }

    /// Starts with a frame and runs until an end holds, for at most `fuel` steps. No other window changes.
    #[inline(always)]
    pub fn run<B: Bench>(
        &mut self,
        arena: &mut Arena,
        window: usize,
        bench: &mut B,
        frame: &Frame,
        fuel: u64,
    ) -> RunEnd
        requires window { IsRam arena.old window self.old.ram_size }
        requires agrees { UnitAgrees B.tells self.old.unit (B.state bench.old) }
        ensures run { IsTrue B.tells → RunGives frame.now.return_at fuel
            (point_in (after_start (over self.old arena.old window) frame.now) (B.state bench.old).cells) (B.state bench.old) result
            (point_in (over self.new arena.new window) (B.state bench.new).cells) (B.state bench.new) }
        ensures file { FileStays (B.state bench.old) (B.state bench.new) }
        ensures agrees { UnitAgrees B.tells self.new.unit (B.state bench.new) }
        ensures cause { IsCounted (B.state bench.old).device_faults (B.state bench.new).device_faults (is_device_end result) }
        ensures return_at { self.new.return_at ≡ frame.now.return_at }
        ensures map { unit_map self.new.unit ≡ unit_map self.old.unit }
        ensures base { self.new.ram_base ≡ self.old.ram_base }
        ensures size { self.new.ram_size ≡ self.old.ram_size }
        ensures ram_stays { IsRam arena.new window self.old.ram_size }
        ensures others { OnlyIn window arena.old arena.new }
    {
        self.begin(frame);
        let mut left = fuel;
        match self.run_slice(arena, window, bench, &mut left, fuel) {
            SliceEnd::Ended(end) => end,
            SliceEnd::More => RunEnd::NoFuel {
                pc: self.core.regs[PC as usize],
            },
        }
    }
}
