//! The driver of a controller, between the core and the bench.
ghost use Rattle.std.specs.Prelude.{◌≡◌, ◌<◌, ◌%◌, ◌^◌, ◌≤◌, ◌+◌, ◌⊎◌, ℕ, List, IsTrue, OnOk, OnErr, IfOk, IfSome, Ok, Err, Some, None, is_some, true, false, []};
ghost use Rattle.faults.specs.Counts.{HasCause};
ghost use Rattle.bench_model.specs.Act.{CellsDrop};
ghost use Rattle.bench_model.specs.Device.{is_device};
ghost use Rattle.bench_model.specs.Does.{IsBrokenOff, StaysOpen};
ghost use Rattle.board_file.specs.Shown.{shown};
ghost use Rattle.flash_layout.specs.Areas.{cells_in};
ghost use Rattle.flash_layout.specs.Bench.{Settles, Ticks, IsWidth};
ghost use Rattle.flash_layout.specs.Maps.{map_of, board_map, in_quiet};
ghost use Rattle.flash_layout.specs.Work.{range_of, settles, tick_at};
ghost use Rattle.flash_driver.specs.Calls.{LoadGives, StoreGives, DriverAgrees, DriverTouches, LowersTo};
ghost use Rattle.flash_driver.specs.Places.{place_of};
ghost use Rattle.flash_driver.specs.Table.{fresh, is_running, load_row, store_row, bus_load, bus_store, tick_row, programmed, leaves, reads, compares, opens, asks, begins, MayBegin, done, running, with_block};

use crate::look::look;
use crate::place::{Place, place_of};
use crate::registers::Registers;
use crate::state::{Effect, State};
use bench_model::{Bench, BusEnd, DeviceFault};
use board_file::Board;
use faults::OutOfMemory;
use flash_layout::{FlashMap, Found, Operation, read, settle};
use std::alloc::Global;

/// The most bytes of an access.
const WORD: usize = 4;

/// The driver of a board's controller: its map and its state.
#[derive(Drop)]
pub struct Driver<R> {
    /// The map of the flash and the registers.
    pub layout: FlashMap,
    /// The registers, and the operation that runs.
    pub state: State<R>,
}

/// Counts an operation down by a tick if it has more than one left, and returns whether it did. There is an operation.
#[inline(always)]
fn lowers(operation: &mut Option<Operation>) -> bool
    requires { is_some operation.old ≡ true }
    ensures { LowersTo operation.old operation.new result }
{
    match operation {
        Some(operation) if operation.ticks > 1 => {
            operation.ticks -= 1;
            true
        }
        Some(_) => false,
        None => unreachable!(),
    }
}

impl<R: Registers> Driver<R> {
    /// The controller of a board, after a reset.
    pub fn new(alloc: Global, board: &Board) -> Result<Driver<R>, OutOfMemory>
        ensures map { IfOk result (λ driver. map_of driver.layout ≡ with_block R.table (board_map (shown board.now))) }
        ensures state { IfOk result (λ driver. driver.state ≡ fresh R.table board.now.kind) }
    {
        let mut layout = FlashMap::of(alloc, board)?;
        layout.block = R::block(board.kind);
        let registers = R::fresh(board.kind);
        let operation = None;
        Ok(Driver {
            layout,
            state: State {
                registers,
                operation,
            },
        })
    }

    /// How many cells the flash has.
    pub fn cells(&self) -> u32
        ensures { result ≡ cells_in self.now.layout.areas.items }
    {
        self.layout.cells()
    }

    /// Whether an operation runs.
    #[inline(always)]
    pub fn is_running(&self) -> bool
        ensures { result ≡ is_running self.now.state }
    {
        self.state.operation.is_some()
    }

    /// Whether the address lies in a quiet range.
    pub fn is_quiet(&self, at: u32) -> bool
        ensures { result ≡ in_quiet self.now.layout.quiet.items at }
    {
        self.layout.is_quiet(at)
    }

    /// Loads `width` bytes (1, 2 or 4) from the address `at`, a multiple of the width. It answers what the row says, or a device fault.
    #[inline(always)]
    #[tactic(auto, unfolding(crate::specs::Table::load_row))]
    pub fn load<B: Bench>(&mut self, bench: &mut B, at: u32, width: u32) -> Result<u32, BusEnd>
        requires agrees { DriverAgrees B.tells self.old.layout self.old.state (B.state bench.old) }
        requires width { IsWidth width }
        requires aligned { at % width ≡ 0 }
        ensures row { IsTrue B.tells → LoadGives (load_row R.table (map_of self.old.layout) self.old.state (B.state bench.old).cells at width) result }
        ensures elsewhere { reads self.old.state (place_of (map_of self.old.layout) at width) ≡ false
            → result ≡ load_row R.table (map_of self.old.layout) self.old.state [] at width }
        ensures same { self.new ≡ self.old }
        ensures byte { width ≡ 1 → IfOk result (λ value. value < 2 ^ 8) }
        ensures half { width ≡ 2 → IfOk result (λ value. value < 2 ^ 16) }
        ensures touches { DriverTouches B.tells self.new.layout self.new.state (B.state bench.old) (B.state bench.new) result }
    {
        match place_of(&self.layout, at, width) {
            Place::Register { offset } => {
                match self.state.registers.load(self.state.operation, offset) {
                    Some(value) => Ok(value),
                    None => Err(BusEnd::Fault),
                }
            }
            Place::Flash { found } => {
                if self.is_running() {
                    return Err(BusEnd::Fault);
                }
                read(bench, found.place, width)
            }
            Place::Nowhere => Err(BusEnd::Fault),
        }
    }

    /// Stores `width` bytes (1, 2 or 4) to the address `at`, a multiple of the width. It answers and leaves what the row says, or it
    /// answers a device fault and leaves the state as it was.
    #[inline(always)]
    #[tactic(auto, unfolding(crate::specs::Table::store_row))]
    pub fn store<B: Bench>(
        &mut self,
        bench: &mut B,
        at: u32,
        width: u32,
        value: u32,
    ) -> Result<(), BusEnd>
        requires agrees { DriverAgrees B.tells self.old.layout self.old.state (B.state bench.old) }
        requires width { IsWidth width }
        requires aligned { at % width ≡ 0 }
        ensures row { IsTrue B.tells → StoreGives (store_row R.table (map_of self.old.layout) self.old.state (B.state bench.old).cells at width value)
            self.old.state result self.new.state }
        ensures elsewhere { compares R.table self.old.state width value (place_of (map_of self.old.layout) at width) ≡ false
            → StoreGives (store_row R.table (map_of self.old.layout) self.old.state [] at width value) self.old.state result self.new.state }
        ensures quiet { compares R.table self.old.state width value (place_of (map_of self.old.layout) at width) ≡ false
            → opens R.table (map_of self.old.layout) self.old.state width value (place_of (map_of self.old.layout) at width) ≡ false
            → is_device result ≡ false }
        ensures device { is_device result ≡ true → self.new.state ≡ self.old.state }
        ensures layout { self.new.layout ≡ self.old.layout }
        ensures touches { DriverTouches B.tells self.new.layout self.new.state (B.state bench.old) (B.state bench.new) result }
    {
        match place_of(&self.layout, at, width) {
            Place::Register { offset } => {
                let before = self.state.registers;
                let operation = self.state.operation;
                let registers = &mut self.state.registers;
                let effect = registers.store(&self.layout, operation, offset, value);
                self.take(bench, before, effect)
            }
            Place::Flash { found } => {
                if self.is_running() {
                    return Err(BusEnd::Fault);
                }
                self.program(bench, found, width, value)
            }
            Place::Nowhere => Err(BusEnd::Fault),
        }
    }

    /// Opens the operation that a store begins. If that fails, the registers are as they were before the store.
    #[inline(always)]
    fn take<B: Bench>(&mut self, bench: &mut B, before: R, effect: Effect) -> Result<(), BusEnd>
        requires agrees { DriverAgrees B.tells self.old.layout self.old.state (B.state bench.old) }
        requires begins { MayBegin (cells_in self.old.layout.areas.items) self.old.state.operation effect }
        ensures gives { StoreGives (leaves self.old.state (effect, self.old.state.registers)) (record self.old.state { registers = before }) result self.new.state }
        ensures quiet { begins effect ≡ false → is_device result ≡ false }
        ensures device { is_device result ≡ true → self.new.state ≡ record self.old.state { registers = before } }
        ensures layout { self.new.layout ≡ self.old.layout }
        ensures touches { DriverTouches B.tells self.new.layout self.new.state (B.state bench.old) (B.state bench.new) result }
    {
        let operation = match effect {
            Effect::Fault => return Err(BusEnd::Fault),
            Effect::Taken => return Ok(()),
            Effect::Begins { operation } => operation,
        };
        match bench.cells_open(operation.place, operation.work.len()) {
            Ok(()) => {
                self.state.operation = Some(operation);
                Ok(())
            }
            Err(DeviceFault) => {
                self.state.registers = before;
                Err(BusEnd::Device)
            }
        }
    }

    /// Makes a store to a cell, where no operation runs.
    #[inline(always)]
    fn program<B: Bench>(
        &mut self,
        bench: &mut B,
        found: Found,
        width: u32,
        value: u32,
    ) -> Result<(), BusEnd>
        requires agrees { DriverAgrees B.tells self.old.layout self.old.state (B.state bench.old) }
        requires idle { self.old.state.operation ≡ None }
        requires width { IsWidth width }
        requires range { found.place + width ≤ cells_in self.old.layout.areas.items }
        requires unit { (found.area.unit ≡ 2) ⊎ (found.area.unit ≡ 4) }
        ensures gives { IsTrue B.tells → StoreGives (programmed R.table (map_of self.old.layout) self.old.state (B.state bench.old).cells width value found)
            self.old.state result self.new.state }
        ensures elsewhere { R.table.looks self.old.state.registers found.area width value ≡ false
            → StoreGives (programmed R.table (map_of self.old.layout) self.old.state [] width value found) self.old.state result self.new.state }
        ensures quiet { R.table.looks self.old.state.registers found.area width value ≡ false
            → begins (R.table.program (map_of self.old.layout) self.old.state.registers found width value []).0 ≡ false → is_device result ≡ false }
        ensures device { is_device result ≡ true → self.new.state ≡ self.old.state }
        ensures layout { self.new.layout ≡ self.old.layout }
        ensures touches { DriverTouches B.tells self.new.layout self.new.state (B.state bench.old) (B.state bench.new) result }
    {
        let before = self.state.registers;
        let registers = &mut self.state.registers;
        if !before.looks(&found.area, width, value) {
            let effect = registers.program(&self.layout, found, width, value, &[]);
            return self.take(bench, before, effect);
        }
        let mut bytes = [0; WORD];
        let seen = &mut bytes[..width as usize];
        look(bench, found.place, seen)?;
        let effect = registers.program(&self.layout, found, width, value, seen);
        self.take(bench, before, effect)
    }

    /// Loads from outside the RAM like `load`. In a quiet range where nothing else answers, it gives 0.
    #[inline(always)]
    pub fn load_or_quiet<B: Bench>(
        &mut self,
        bench: &mut B,
        at: u32,
        width: u32,
    ) -> Result<u32, BusEnd>
        requires agrees { DriverAgrees B.tells self.old.layout self.old.state (B.state bench.old) }
        requires width { IsWidth width }
        requires aligned { at % width ≡ 0 }
        ensures row { IsTrue B.tells → LoadGives (bus_load R.table (map_of self.old.layout) self.old.state (B.state bench.old).cells at width) result }
        ensures asks { is_device result ≡ true → reads self.old.state (place_of (map_of self.old.layout) at width) ≡ true }
        ensures same { self.new ≡ self.old }
        ensures byte { width ≡ 1 → IfOk result (λ value. value < 2 ^ 8) }
        ensures half { width ≡ 2 → IfOk result (λ value. value < 2 ^ 16) }
        ensures touches { DriverTouches B.tells self.new.layout self.new.state (B.state bench.old) (B.state bench.new) result }
    {
        match self.load(bench, at, width) {
            Err(BusEnd::Fault) if self.is_quiet(at) => Ok(0),
            end => end,
        }
    }

    /// The answer to a load of a register that programs read while they wait; none for every other word of the block. No bench is called.
    #[inline(always)]
    pub fn peek(&self, offset: u32) -> Option<u32>
        requires { offset < self.now.layout.block }
        ensures even { IfSome result (λ value. offset % 4 ≡ 0) }
        ensures value { IfSome result (λ value. (cells : List ℕ) → bus_load R.table (map_of self.now.layout) self.now.state cells
            (self.now.layout.base + offset) 4 ≡ Ok value) }
    {
        self.state.registers.peek(self.state.operation, offset)
    }

    /// Stores outside the RAM like `store`. In a quiet range where nothing else answers, it does nothing.
    #[inline(always)]
    pub fn store_or_quiet<B: Bench>(
        &mut self,
        bench: &mut B,
        at: u32,
        width: u32,
        value: u32,
    ) -> Result<(), BusEnd>
        requires agrees { DriverAgrees B.tells self.old.layout self.old.state (B.state bench.old) }
        requires width { IsWidth width }
        requires aligned { at % width ≡ 0 }
        ensures row { IsTrue B.tells → StoreGives (bus_store R.table (map_of self.old.layout) self.old.state (B.state bench.old).cells at width value)
            self.old.state result self.new.state }
        ensures asks { is_device result ≡ true
            → asks R.table (map_of self.old.layout) self.old.state width value (place_of (map_of self.old.layout) at width) ≡ true }
        ensures layout { self.new.layout ≡ self.old.layout }
        ensures touches { DriverTouches B.tells self.new.layout self.new.state (B.state bench.old) (B.state bench.new) result }
    {
        match self.store(bench, at, width, value) {
            Err(BusEnd::Fault) if self.is_quiet(at) => Ok(()),
            end => end,
        }
    }

    /// Makes a tick of the operation that runs, if it has more than one left, and returns whether it has. Such a tick changes no cell.
    /// Otherwise nothing changes.
    #[inline(always)]
    pub fn runs_on(&mut self) -> bool
        requires { is_running self.old.state ≡ true }
        ensures ticks { IsTrue result → (cells : List ℕ) → (self.new.state, cells) ≡ tick_row R.table self.old.state cells }
        ensures operation { range_of self.new.state.operation ≡ range_of self.old.state.operation }
        ensures runs { is_running self.new.state ≡ is_running self.old.state }
        ensures layout { self.new.layout ≡ self.old.layout }
        ensures else_same { result ≡ false → self.new ≡ self.old }
    {
        lowers(&mut self.state.operation)
    }

    /// Makes a tick. It leaves the state and the cells that the row says, or answers a device fault and leaves both as they were.
    #[tactic(auto, unfolding(crate::specs::Table::tick_row))]
    pub fn tick<B: Bench>(&mut self, bench: &mut B) -> Result<(), DeviceFault>
        requires agrees { DriverAgrees B.tells self.old.layout self.old.state (B.state bench.old) }
        ensures ok { IsTrue B.tells → OnOk result ((self.new.state, (B.state bench.new).cells) ≡ tick_row R.table self.old.state (B.state bench.old).cells) }
        ensures state { OnOk result (self.new.state ≡ (tick_row R.table self.old.state []).0) }
        ensures quiet { settles self.old.state.operation ≡ false → result ≡ Ok tt }
        ensures err { OnErr result (self.new.state ≡ self.old.state) }
        ensures layout { self.new.layout ≡ self.old.layout }
        ensures ticks { Ticks B.tells (map_of self.new.layout) (range_of self.new.state.operation) (B.state bench.old) (B.state bench.new) result }
    {
        match self.state.operation {
            None => Ok(()),
            Some(operation) => self.tick_running(bench, operation),
        }
    }

    /// Makes a tick while this operation runs.
    #[tactic(auto, using(flash_layout::proofs::WorkLemmas::tick_more, flash_layout::proofs::WorkLemmas::tick_last))]
    fn tick_running<B: Bench>(
        &mut self,
        bench: &mut B,
        operation: Operation,
    ) -> Result<(), DeviceFault>
        requires agrees { DriverAgrees B.tells self.old.layout (record self.old.state { operation = Some operation }) (B.state bench.old) }
        requires runs { self.old.state.operation ≡ Some operation }
        ensures ok { IsTrue B.tells → OnOk result ((self.new.state, (B.state bench.new).cells) ≡ tick_at (done R.table self.old.state) (running self.old.state)
            (B.state bench.old).cells operation operation.ticks) }
        ensures state { OnOk result (self.new.state ≡ (tick_at (done R.table self.old.state) (running self.old.state) [] operation operation.ticks).0) }
        ensures quiet { 1 < operation.ticks → result ≡ Ok tt }
        ensures err { OnErr result (self.new.state ≡ self.old.state) }
        ensures layout { self.new.layout ≡ self.old.layout }
        ensures ticks { Ticks B.tells (map_of self.new.layout) (range_of self.new.state.operation) (B.state bench.old) (B.state bench.new) result }
    {
        if operation.ticks > 1 {
            self.state.operation = Some(Operation {
                ticks: operation.ticks - 1,
                ..operation
            });
            return Ok(());
        }
        match settle(bench, &operation) {
            Ok(()) => {
                self.state.registers.end();
                self.state.operation = None;
                Ok(())
            }
            Err(DeviceFault) => Err(DeviceFault),
        }
    }

    /// Restarts as after a reset, without calling a bench.
    pub fn restart(&mut self)
        ensures state { self.new.state ≡ fresh R.table self.old.layout.kind }
        ensures layout { self.new.layout ≡ self.old.layout }
    {
        self.state = State {
            registers: R::fresh(self.layout.kind),
            operation: None,
        };
    }

    /// Breaks off an operation that is open on the bench, and restarts as after a reset. A device fault leaves everything as it was.
    pub fn reset<B: Bench>(&mut self, bench: &mut B) -> Result<(), DeviceFault>
        requires { (B.state bench.old).cell_count ≡ cells_in self.old.layout.areas.items }
        ensures drops { B.acts bench.old (CellsDrop result) bench.new }
        ensures ok { OnOk result (self.new.state ≡ fresh R.table self.old.layout.kind) }
        ensures ok_cells { IsTrue B.tells → OnOk result (IsBrokenOff (B.state bench.old) (B.state bench.new)) }
        ensures err { OnErr result (self.new ≡ self.old) }
        ensures err_cells { IsTrue B.tells → OnErr result (StaysOpen (B.state bench.old) (B.state bench.new)) }
        ensures layout { self.new.layout ≡ self.old.layout }
        ensures bench { Settles B.tells (B.state bench.old) (B.state bench.new) }
        ensures agrees { OnOk result (DriverAgrees B.tells self.new.layout self.new.state (B.state bench.new)) }
        ensures cause { HasCause (B.state bench.old).device_faults (B.state bench.new).device_faults result }
    {
        match bench.cells_drop() {
            Ok(()) => {
                self.restart();
                Ok(())
            }
            Err(DeviceFault) => Err(DeviceFault),
        }
    }
}
