//! A target over a bench in memory.
ghost use Rattle.std.specs.Prelude.{true};
ghost use Rattle.bench_model.specs.Shown.{bench_of};
ghost use Rattle.target_core.specs.Targets.{stands};
ghost use Rattle.target_core.specs.Units.{UnitAgrees};

use crate::runs::left::{CELLS, Left, SIZE};
use anyhow::{Result, bail, ensure};
use armv6m_decode::registers::{LR, PC};
use bench_model::{BusEnd, MemoryBench};
use board_file::{Board, read_board};
use std::alloc::Global;
use std::result;
use target_core::{Frame, RunEnd, SliceEnd, Target};

/// 256 bytes of RAM, and two sectors of 4 cells.
pub const BOARD: &str = "ram = { base = 0x20000000, size = 256 }
region = [{ base = 0x08000000, sectors = [[2, 4]] }]
controller.base = 0x40022000";

/// A board like `BOARD`, but with the controller FPEC and with a quiet range.
pub const FPEC_BOARD: &str = "ram = { base = 0x20000000, size = 256 }
region = [{ base = 0x08000000, sectors = [[2, 4]] }]
controller = { base = 0x40022000, kind = \"fpec\" }
quiet = [{ base = 0x40021000, size = 1024 }]";

/// The address to which runs return.
const BACK: u32 = 0x2000_0040;

/// A target and its bench. The operation that is open on the bench is the controller's.
#[derive(Drop)]
pub struct Trial {
    target: Target,
    bench: MemoryBench,
    last: [u32; 16],

    ghost agrees: { UnitAgrees true (stands target).unit (bench_of bench) },
}

impl Trial {
    /// A target of the board that a text says, with this code at the beginning of its RAM, over blank cells. The cell call of number `fail`
    /// fails.
    pub fn of(alloc: Global, board: &str, code: &[u8], fail: u64) -> Result<Trial> {
        let board = read_board(alloc, board.as_bytes())?;
        Trial::new(alloc, &board, code, fail)
    }

    /// A target of a board, with this code at the beginning of its RAM, over blank cells. The cell call of number `fail` fails.
    fn new(alloc: Global, board: &Board, code: &[u8], fail: u64) -> Result<Trial> {
        let mut target = Target::new(alloc, board)?;
        if target.machine.unit.cells() as usize != CELLS
            || code.len() > target.machine.ram_size as usize
        {
            bail!("no room");
        }
        let base = target.machine.ram_base;
        target.write_ram(base, code);
        let bench = MemoryBench::new(alloc, &[0xFF; CELLS], &[], 0, 0x100, &[], &[fail], &[])?;
        Ok(Trial {
            target,
            bench,
            last: [0; 16],
        })
    }

    /// Stores a word to a register of the controller. It is a bus fault where the address isn't a multiple of 4.
    pub fn word(&mut self, at: u32, value: u32) -> result::Result<(), BusEnd> {
        if at % 4 != 0 {
            return Err(BusEnd::Fault);
        }
        self.target
            .machine
            .unit
            .store(&mut self.bench, at, 4, value)
    }

    /// Runs the code.
    pub fn run(&mut self, frame: &Frame, fuel: u64) -> RunEnd {
        let end = self.target.run(&mut self.bench, frame, fuel);
        self.last = self.target.machine.core.regs;
        end
    }

    /// Runs the code in slices of `steps` steps. Answers how the run ended, and what is left of the fuel.
    pub fn slices(&mut self, frame: &Frame, fuel: u64, steps: u64) -> (RunEnd, u64) {
        self.target.start(frame);
        let mut left = fuel;
        for _slice in 0..fuel {
            match self.target.run_slice(&mut self.bench, &mut left, steps) {
                SliceEnd::Ended(end) => return (end, left),
                SliceEnd::More => {}
            }
        }
        (RunEnd::DeviceFault, left)
    }

    /// Whether the core's registers are those that the last run left.
    pub fn as_last(&self) -> bool {
        self.target.machine.core.regs == self.last
    }

    /// What a run with this end left.
    fn left(&self, end: RunEnd) -> Result<Left> {
        let machine = &self.target.machine;
        ensure!(machine.ram_size as usize == SIZE, "another size");
        let mut ram = [0; SIZE];
        self.target.read_ram(machine.ram_base, &mut ram);
        Ok(Left::by(end, machine, ram, self.bench.cells()))
    }

    /// The cells.
    pub fn cells(&self) -> &[u8] {
        self.bench.cells()
    }
}

/// What a target leaves that runs code alone.
pub fn alone(alloc: Global, code: &[u8], frame: &Frame, fuel: u64) -> Result<Left> {
    let mut trial = Trial::of(alloc, BOARD, code, 0)?;
    let end = trial.run(frame, fuel);
    trial.left(end)
}

/// The code from this place on, with these values in R0 and R1.
pub fn frame(pc: u32, r0: u32, r1: u32) -> Frame {
    let mut regs = [0; 16];
    regs[0] = r0;
    regs[1] = r1;
    regs[LR as usize] = BACK + 1;
    regs[PC as usize] = pc;
    Frame {
        regs,
        return_at: BACK,
    }
}
