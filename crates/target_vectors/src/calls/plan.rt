//! Full plans, compared call by call with the ideal device.
ghost use Rattle.std.specs.Prelude.{◌≡◌, length};

use crate::calls::trial::Trial;
use crate::calls::watch::Area;
use algo_calls::{Call, CallEnd};
use anyhow::Result;
use bench_model::DeviceFault;
use board_file::Board;
use flm_descriptor::Algorithm;
use std::alloc::{AllocError, Global};
use std::result;

/// The address of the first cell.
const BASE: u32 = 0x0800_0000;

/// The number of cells of the device, of a sector and of a page.
const CELLS: u32 = 1024;

const SECTOR: u32 = 256;

const PAGE: u32 = 64;

/// An empty cell.
const EMPTY: u8 = 0xFF;

/// A trial, and what its cells are to be.
#[derive(Drop)]
struct Plan {
    trial: Trial,
    ideal: Vec<u8>,
}

impl Plan {
    /// A plan on used cells.
    fn new(alloc: Global, board: &Board, algorithm: Algorithm) -> Result<Plan> {
        let ideal = used_cells(alloc)?;
        let trial = Trial::new(alloc, board, algorithm, &ideal, 0)?;
        Ok(Plan { trial, ideal })
    }

    /// Resets the target, and puts the algorithm into its RAM.
    fn begin(&mut self) -> result::Result<(), DeviceFault> {
        self.trial.reset()?;
        self.trial.load();
        Ok(())
    }

    /// Notes what the next call is to do: to put these bytes into an area of the cells, or to empty it where there are none.
    fn expect(&mut self, bytes: &[u8], area: Area) {
        put_ideal(&mut self.ideal, self.trial.cells(), bytes, area);
        self.trial.watch(area);
    }

    /// Whether the cells are those of the ideal device.
    fn is_ideal(&self) -> bool {
        self.trial.cells() == self.ideal.as_slice()
    }
}

/// Cells that each hold the last byte of their address.
fn used_cells(alloc: Global) -> result::Result<Vec<u8>, AllocError> {
    let mut cells = vec![in alloc; 0u8; CELLS as usize]?;
    put_rising(&mut cells, 0, 1);
    Ok(cells)
}

/// Puts a byte, and then each time the sum of the last one and a step, modulo 256.
fn put_rising(bytes: &mut [u8], first: u8, step: u8)
    ensures { length bytes.new ≡ length bytes.old }
{
    let mut value = first;
    for byte in bytes.iter_mut() {
        *byte = value;
        value = value.wrapping_add(step);
    }
}

/// Puts what the ideal device makes of the cells: these bytes in an area, which is empty where there are none.
fn put_ideal(ideal: &mut [u8], cells: &[u8], bytes: &[u8], area: Area) {
    for (index, (ideal, cell)) in ideal.iter_mut().zip(cells.iter()).enumerate() {
        *ideal = match index.checked_sub(area.at as usize) {
            Some(offset) if offset < area.len as usize => *bytes.get(offset).unwrap_or(&EMPTY),
            _ => *cell,
        };
    }
}

/// Erases, programs and verifies all cells of a device of `CELLS` used ones, by the chip or by sectors.
pub fn carry_out(rt: &HostRuntime, board: &Board, algorithm: Algorithm, chip: bool) -> Result<()> {
    let mut plan = Plan::new(rt.alloc(), board, algorithm)?;
    phases(rt, &mut plan, chip)
}

/// The phases of a plan.
fn phases(rt: &HostRuntime, plan: &mut Plan, chip: bool) -> Result<()> {
    let (count, len) = if chip { (1, CELLS) } else { (4, SECTOR) };
    for (kind, count, len) in [(1, count, len), (2, 16, PAGE), (3, 16, PAGE)] {
        phase(rt, plan, kind, count, len)?;
    }
    Ok(())
}

/// Erases (1), programs (2) or verifies (3) `count` areas of this length.
fn phase(rt: &HostRuntime, plan: &mut Plan, kind: u32, count: u8, len: u32) -> Result<()> {
    plan.begin()?;
    act(rt, plan, Call::Init { kind }, &[], Area::NONE)?;
    for index in 0..count {
        let at = u32::from(index).wrapping_mul(len);
        let mut bytes = [0; PAGE as usize];
        put_rising(&mut bytes, index, 37);
        work(rt, plan, kind, &bytes, Area { at, len })?;
    }
    act(rt, plan, Call::UnInit { kind }, &[], Area::NONE)
}

/// Erases, programs or verifies an area. Each page is programmed with bytes of its own.
fn work(rt: &HostRuntime, plan: &mut Plan, kind: u32, bytes: &[u8], area: Area) -> Result<()> {
    let at = BASE.wrapping_add(area.at);
    match kind {
        1 if area.len == CELLS => act(rt, plan, Call::EraseChip, &[], area),
        1 => act(rt, plan, Call::EraseSector { at }, &[], area),
        2 => act(rt, plan, Call::ProgramPage { at }, bytes, area),
        _ => act(rt, plan, Call::Verify { at }, bytes, Area::NONE),
    }
}

/// Makes a call that is to put these bytes into an area of the cells, or to empty it where there are none, and prints how it went.
fn act(rt: &HostRuntime, plan: &mut Plan, call: Call, bytes: &[u8], area: Area) -> Result<()> {
    plan.expect(bytes, area);
    let end = plan.trial.call(call, bytes)?;
    put_act(rt, plan, call, end)
}

/// Prints how a call went.
fn put_act(rt: &HostRuntime, plan: &Plan, call: Call, end: CallEnd) -> Result<()> {
    let end = end_name(end);
    let cells = if plan.is_ideal() { "ideal" } else { "other" };
    let (name, number) = name(call);
    let bench = &plan.trial.bench;
    let (opened, outside) = (bench.opened, bench.outside);
    let left = if bench.open.is_some() {
        ", one left"
    } else {
        ""
    };
    println!(rt;
        "{name} {number:08X}: {end}, {cells} cells, opened {opened}, outside {outside}{left}"
    )?;
    Ok(())
}

/// The name of a call, and its number.
fn name(call: Call) -> (&'static str, u32) {
    match call {
        Call::Init { kind } => ("Init", kind),
        Call::UnInit { kind } => ("UnInit", kind),
        Call::EraseSector { at } => ("EraseSector", at),
        Call::EraseChip => ("EraseChip", BASE),
        Call::ProgramPage { at } => ("ProgramPage", at),
        Call::Verify { at } => ("Verify", at),
    }
}

/// The name of an end.
fn end_name(end: CallEnd) -> &'static str {
    match end {
        CallEnd::Done => "done",
        CallEnd::Refused { .. } => "refused",
        CallEnd::Ended(_) => "not returned",
        CallEnd::DeviceFault => "device fault",
    }
}
