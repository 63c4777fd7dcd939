//! The marks of a target: of its RAM, of its controller, and of the cells of one place.
#![tactic(auto, using(std::proofs::lemmas::Bool::Decides::nat_tests))]

ghost use Rattle.std.specs.Prelude.{◌≡◌, ◌≤◌, ◌<◌, ◌+◌, ◌^◌, ◌⊎◌, length, map, Some, None, IfSome, if◌then◌else◌};
ghost use Rattle.armv6m_step.specs.Ram.{place_of as ram_place};
ghost use Rattle.flash_layout.specs.Maps.{map_of};
ghost use Rattle.flash_driver.specs.Places.{place_of};
ghost use Rattle.shadow_step.specs.Bytes.{byte_mark, half_mark, number_mark};
ghost use Rattle.shadow_step.specs.Marks.{is_known};
ghost use Rattle.duty_proofs.specs.Views.{marks_in};
ghost use Rattle.duty_proofs.specs.TargetMarks.{is_address, register_mark, is_blank, half_blank, unit_blank, registered, takes_address};
ghost use Rattle.duty_proofs.specs.TargetMarks.{starts_sector, spares_address, fc1_spares, spares, programs_unit, unaddressed, begins_unit, byte_of};
ghost use Rattle.duty_proofs.specs.TargetMarks.{TargetMarks, cells_mark, device_load, device_store, target_shadow};
ghost use Rattle.duty_proofs.specs.TargetMarks.{laid, work_marks, lies_there, settled, tick_left, tick_by};
ghost use Rattle.flash_layout.specs.Work.{work_len};

use crate::cells::CellMark;
use flash_controller::State as Fc1State;
use flash_driver::{Effect, Place, Registers, State};
use flash_layout::{Area, FlashMap, Found, Operation, Work, unit_work};
use shadow_step::{BusMarks, Mark, number_mark, put_number};
use target_core::AnyRegisters;

/// The RAM's base and the flash map, which no step changes; the marks of the RAM; the controller of the run at hand, and whether its
/// address register is known; the mark of the number being programmed; and the marks of the cells from a place on.
#[derive(Drop)]
pub struct Marked<'a> {
    pub base: u32,
    pub map: &'a FlashMap,
    pub ram: Vec<Mark>,
    pub state: State<AnyRegisters>,
    pub address: bool,
    pub value: Mark,
    pub from: u32,
    pub cells: Vec<CellMark>,
}

/// What an access of `width` bytes goes to.
#[tactic(auto, unfolding(flash_driver::specs::Places::place_of))]
fn place(layout: &FlashMap, at: u32, width: u32) -> Place
    ensures { result ≡ place_of (map_of layout.now) at width }
{
    if at >= layout.base && at - layout.base < layout.block {
        if width != 4 {
            return Place::Nowhere;
        }
        let offset = at - layout.base;
        return Place::Register { offset };
    }
    match layout.find(at) {
        Some(found) => Place::Flash { found },
        None => Place::Nowhere,
    }
}

/// The place of an access of `width` bytes in the RAM, which has `len` bytes.
fn ram_place(base: u32, len: usize, at: u32, width: u32) -> Option<usize>
    ensures place { result ≡ ram_place base len at width }
    ensures bound { IfSome result (λ i. i < 2 ^ 33) }
{
    if at < base || u128::from(base) + (len as u128) < u128::from(at) + u128::from(width) {
        None
    } else {
        Some((at - base) as usize)
    }
}

/// The mark of the byte of a cell.
#[tactic(auto, using(crate::proofs::CellLemmas::byte_there, crate::proofs::CellLemmas::byte_past))]
fn cell_byte(cells: &[CellMark], index: usize) -> Mark
    ensures { result ≡ byte_mark (map byte_of cells.now) index }
{
    if index < cells.len() {
        cells[index].byte()
    } else {
        Mark::Any
    }
}

/// The mark of a halfword in cells.
fn cell_half(cells: &[CellMark], index: usize) -> Mark
    requires { index < 2 ^ 34 }
    ensures { result ≡ half_mark (map byte_of cells.now) index }
{
    cell_byte(cells, index).joined(1, cell_byte(cells, index + 1))
}

/// The mark of a number of `width` bytes in cells.
fn cells_number(cells: &[CellMark], width: u32, index: usize) -> Mark
    requires { index < 2 ^ 33 }
    ensures { result ≡ number_mark (map byte_of cells.now) width index }
{
    if width == 1 {
        cell_byte(cells, index)
    } else if width == 2 {
        cell_half(cells, index)
    } else {
        cell_half(cells, index).joined(2, cell_half(cells, index + 2))
    }
}

/// Whether an offset is that of the address register.
fn is_address(registers: &AnyRegisters, offset: u32) -> bool
    ensures { result ≡ is_address registers.now offset }
{
    match registers {
        AnyRegisters::Fc1(_) => offset == 12,
        AnyRegisters::Fpec(_) => offset == 0x14,
    }
}

/// Whether a store sets the address register.
fn takes_address(registers: &AnyRegisters, operation: Option<Operation>, offset: u32) -> bool
    ensures { result ≡ takes_address registers.now operation offset }
{
    match registers {
        AnyRegisters::Fc1(state) => offset == 12 && state.is_ready(operation),
        AnyRegisters::Fpec(_) => offset == 0x14 && operation.is_none(),
    }
}

/// Whether a number in CR starts an erase of the sector in AR.
fn starts_sector(value: u32) -> bool
    ensures { result ≡ starts_sector value }
{
    value / 64 % 2 == 1 && (value / 2 % 2 == 1 && value / 4 % 2 != 1)
}

/// Whether a store to an FPEC doesn't look at its address register.
fn spares_address(offset: u32, value: u32) -> bool
    ensures { result ≡ spares_address offset value }
{
    (offset == 0x04 || offset == 0x0C) || (offset == 0x10 && !starts_sector(value))
}

/// Whether a store to an FC1 doesn't look at its address register.
fn fc1_spares(state: &Fc1State, offset: u32) -> bool
    ensures { result ≡ fc1_spares state.now offset }
{
    (offset == 0 || offset == 4) || (offset == 8 || (offset == 16 && state.command != 2))
}

/// Whether a store doesn't look at the address register.
fn spares(registers: &AnyRegisters, offset: u32, value: u32) -> bool
    ensures { result ≡ spares registers.now offset value }
{
    match registers {
        AnyRegisters::Fc1(state) => fc1_spares(state, offset),
        AnyRegisters::Fpec(_) => spares_address(offset, value),
    }
}

/// Whether a store of `width` bytes to an area programs erased cells there.
fn programs_unit(registers: &AnyRegisters, area: &Area, width: u32) -> bool
    ensures { result ≡ programs_unit registers.now area.now width }
{
    match registers {
        AnyRegisters::Fc1(state) => {
            (width == 2 || width == 4) && (area.empty == 0xFF && state.may_program(area, width))
        }
        AnyRegisters::Fpec(state) => width == 2 && state.may_program(),
    }
}

impl<'a> Marked<'a> {
    /// The mark of the number that a register gives.
    fn register_mark(&self, offset: u32) -> Mark
        ensures { result ≡ register_mark (marks_in self.now) offset }
    {
        if self.address {
            Mark::Known
        } else if is_address(&self.state.registers, offset) {
            Mark::Any
        } else {
            Mark::Known
        }
    }

    /// Whether a cell is erased in every run.
    fn is_blank(&self, index: usize) -> bool
        ensures { result ≡ is_blank self.now.cells.items index }
    {
        match self.cells.get(index) {
            Some(CellMark::Blank) => true,
            _ => false,
        }
    }

    /// Whether the halfword at a place is erased in every run.
    fn half_blank(&self, at: usize) -> bool
        requires { at < 2 ^ 33 }
        ensures { result ≡ half_blank (marks_in self.now) at }
    {
        let from = self.from as usize;
        at >= from && (self.is_blank(at - from) && self.is_blank(at - from + 1))
    }

    /// Whether the two or four bytes at a place are erased in every run.
    fn unit_blank(&self, width: u32, at: u32) -> bool
        ensures { result ≡ unit_blank (marks_in self.now) width at }
    {
        let at = at as usize;
        self.half_blank(at) && (width == 2 || self.half_blank(at + 2))
    }

    /// A store of a known number to a register.
    fn registered(&mut self, offset: u32, value: u32)
        ensures { marks_in self.new ≡ registered (marks_in self.old) offset value }
    {
        let effect = self
            .state
            .registers
            .store(self.map, self.state.operation, offset, value);
        if let Effect::Begins { operation } = effect {
            self.state.operation = Some(operation);
            self.value = Mark::Known;
        }
    }

    /// A store of a known number to a register, where the address register isn't known.
    fn unaddressed(&mut self, offset: u32, value: u32) -> bool
        ensures { unaddressed (marks_in self.old) offset value ≡ (if result then Some (marks_in self.new) else None) }
    {
        if takes_address(&self.state.registers, self.state.operation, offset) {
            self.registered(offset, value);
            self.address = true;
            return true;
        }
        if spares(&self.state.registers, offset, value) {
            self.registered(offset, value);
            return true;
        }
        false
    }

    /// Begins programming a unit.
    fn begins_unit(&mut self, width: u32, value: u32, found: Found, mark: Mark) -> bool
        ensures { begins_unit (marks_in self.old) width value found mark self.old.state.operation ≡ (if result then Some (marks_in self.new) else None) }
    {
        if self.state.operation.is_some() {
            return false;
        }
        let place = found.place;
        if !programs_unit(&self.state.registers, &found.area, width)
            || !self.unit_blank(width, place)
        {
            return false;
        }
        self.state.operation = Some(Operation {
            work: unit_work(width, value),
            place,
            ticks: self.map.program_ticks,
        });
        self.value = mark;
        true
    }

    /// The mark of a number in the cells.
    fn cells_mark(&self, width: u32, at: u32) -> Mark
        ensures { result ≡ cells_mark (marks_in self.now) width at }
    {
        if at >= self.from
            && (u64::from(at - self.from) + u64::from(width) <= self.cells.len() as u64
                && (width == 1 || (width == 2 || width == 4)))
        {
            cells_number(&self.cells, width, (at - self.from) as usize)
        } else {
            Mark::Any
        }
    }

    /// The mark of a number outside the RAM.
    fn device_load(&self, width: u32, place: Place) -> Mark
        ensures { result ≡ device_load (marks_in self.now) width place }
    {
        match place {
            Place::Register { offset } => self.register_mark(offset),
            Place::Flash { found } => {
                if self.state.operation.is_some() {
                    Mark::Known
                } else {
                    self.cells_mark(width, found.place)
                }
            }
            Place::Nowhere => Mark::Known,
        }
    }

    /// A store to a register.
    fn register_store(&mut self, offset: u32, value: u32, mark: Mark) -> bool
        ensures { (if is_known mark then (if self.old.address then Some (registered (marks_in self.old) offset value) else unaddressed (marks_in self.old)
            offset value) else None)
            ≡ (if result then Some (marks_in self.new) else None) }
    {
        if !mark.is_known() {
            return false;
        }
        if self.address {
            self.registered(offset, value);
            return true;
        }
        self.unaddressed(offset, value)
    }

    /// A store outside the RAM.
    fn device_store(&mut self, width: u32, value: u32, mark: Mark, place: Place) -> bool
        ensures { device_store (marks_in self.old) width value mark place ≡ (if result then Some (marks_in self.new) else None) }
    {
        match place {
            Place::Register { offset } => self.register_store(offset, value, mark),
            Place::Flash { found } => self.begins_unit(width, value, found, mark),
            Place::Nowhere => true,
        }
    }

    /// Whether an operation is within the cells that have marks.
    fn lies_there(&self, operation: &Operation) -> bool
        ensures { result ≡ lies_there (marks_in self.now) operation.now }
    {
        self.from <= operation.place
            && u64::from(operation.place) + u64::from(operation.work.len())
                <= u64::from(self.from) + self.cells.len() as u64
    }

    /// Marks the cells that an operation leaves.
    fn lay(&mut self, at: usize, work: Work)
        requires { at + work_len work ≤ length self.old.cells.items }
        ensures { marks_in self.new ≡ record (marks_in self.old) { cells = laid at (work_marks self.old.value work) self.old.cells.items } }
    {
        match work {
            Work::Half { value: _ } => {
                let marks = [
                    CellMark::Holds(self.value.part(2, 0)),
                    CellMark::Holds(self.value.part(2, 1)),
                ];
                self.cells[at..at + 2].copy_from_slice(&marks);
            }
            Work::Word { value: _ } => {
                let marks = [
                    CellMark::Holds(self.value.part(4, 0)),
                    CellMark::Holds(self.value.part(4, 1)),
                    CellMark::Holds(self.value.part(4, 2)),
                    CellMark::Holds(self.value.part(4, 3)),
                ];
                self.cells[at..at + 4].copy_from_slice(&marks);
            }
            Work::Fill { len, value } => {
                let mark = if value == 0xFF {
                    CellMark::Blank
                } else {
                    CellMark::Holds(Mark::Known)
                };
                self.cells[at..at + len as usize].fill(mark);
            }
        }
    }

    /// Marks what the end of an operation leaves.
    fn settle(&mut self, operation: &Operation)
        ensures { marks_in self.new ≡ settled (marks_in self.old) operation.now }
    {
        if self.lies_there(operation) {
            self.lay((operation.place - self.from) as usize, operation.work);
        } else {
            self.from = 0;
            self.cells.clear();
        }
        self.state.registers.end();
        self.state.operation = None;
        self.value = Mark::Known;
    }

    /// Marks a tick of a running operation.
    #[tactic(auto, using(crate::proofs::CellLemmas::left_more, crate::proofs::CellLemmas::left_last))]
    fn tick_running(&mut self, operation: &Operation)
        ensures { marks_in self.new ≡ tick_left (marks_in self.old) operation.now operation.now.ticks }
    {
        if operation.ticks > 1 {
            self.state.operation = Some(Operation {
                ticks: operation.ticks - 1,
                ..*operation
            });
            return;
        }
        self.settle(operation);
    }

    /// Marks a tick.
    pub fn tick(&mut self)
        ensures { marks_in self.new ≡ tick_by (marks_in self.old) self.old.state.operation }
    {
        match self.state.operation {
            None => (),
            Some(operation) => self.tick_running(&operation),
        }
    }
}

impl<'a> BusMarks for Marked<'a> {
    ghost Marks = { TargetMarks };

    ghost view = { marks_in };

    ghost table = { target_shadow };

    fn load(&self, width: u32, at: u32) -> Option<Mark> {
        match ram_place(self.base, self.ram.len(), at, width) {
            Some(offset) => Some(number_mark(&self.ram, width, offset)),
            None => Some(self.device_load(width, place(self.map, at, width))),
        }
    }

    fn store(&mut self, width: u32, at: u32, value: u32, mark: Mark) -> bool {
        match ram_place(self.base, self.ram.len(), at, width) {
            Some(offset) => {
                put_number(&mut self.ram, width, offset, mark);
                true
            }
            None => {
                let place = place(self.map, at, width);
                self.device_store(width, value, mark, place)
            }
        }
    }
}
