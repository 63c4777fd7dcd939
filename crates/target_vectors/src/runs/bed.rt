//! A target of a small board over a bench, which runs code.
ghost use Rattle.std.specs.Prelude.{OnOk};
ghost use Rattle.target_core.specs.Targets.{stands};
ghost use Rattle.target_core.specs.Units.{UnitAgrees};

use anyhow::{Result, bail, ensure};
use armv6m_decode::registers::{LR, PC, SP};
use bench_model::{Bench, DeviceFault};
use board_file::read_board;
use std::alloc::Global;
use target_core::{Frame, SliceEnd, Target};

/// 4,096 bytes of RAM, and a flash of 1,024 bytes.
const BOARD: &str = "ram = { base = 0x20000000, size = 4096 }
region = [{ base = 0x08000000, sectors = [[4, 256]] }]
controller.base = 0x40022000";

/// The cells of the flash.
pub const CELLS: usize = 1024;

/// The place of the code in the RAM. The return point is the beginning of the RAM.
const CODE: u32 = 32;

/// The most steps.
const FUEL: u64 = 1 << 40;

/// A target and its bench. The operation that is open on the bench is the controller's.
#[derive(Drop)]
pub struct Bed<B: Bench + Drop> {
    target: Target,
    bench: B,

    ghost agrees: { UnitAgrees B.tells (stands target).unit (B.state bench) },
}

/// Resets a target over a bench with as many cells as the target's flash has, and puts the code into its RAM.
fn set_up<B: Bench>(target: &mut Target, bench: &mut B, code: &[u8]) -> Result<()>
    ensures { OnOk result (UnitAgrees B.tells (stands target.new).unit (B.state bench.new)) }
{
    ensure!(
        target.machine.ram_size == 4096 && code.len() <= 2048,
        "the code is too long"
    );
    let at = target.machine.ram_base.saturating_add(CODE);
    ensure!(
        at - target.machine.ram_base == CODE,
        "the RAM is at the end of all addresses"
    );
    ensure!(
        bench.cells_len() == target.machine.unit.cells(),
        "the bench has other cells than the board"
    );
    match target.reset(bench) {
        Ok(()) => {}
        Err(DeviceFault) => bail!("the device failed"),
    }
    target.write_ram(at, code);
    Ok(())
}

/// A target of the board.
fn target_of(alloc: Global) -> Result<Target> {
    let board = read_board(alloc, BOARD.as_bytes())?;
    Ok(Target::new(alloc, &board)?)
}

impl<B: Bench + Drop> Bed<B> {
    /// A target with this code over a bench of as many cells as the flash has.
    pub fn new(alloc: Global, code: &[u8], mut bench: B) -> Result<Bed<B>> {
        let mut target = target_of(alloc)?;
        set_up(&mut target, &mut bench, code)?;
        Ok(Bed { target, bench })
    }

    /// Runs the code with the number of rounds in R0. Answers how the run ended, and how many steps were made.
    pub fn run(&mut self, rounds: u32) -> (SliceEnd, u64) {
        let base = self.target.machine.ram_base;
        let mut regs = [0; 16];
        regs[0] = rounds;
        regs[SP as usize] = base.wrapping_add(4096);
        regs[LR as usize] = base | 1;
        regs[PC as usize] = base.wrapping_add(CODE);
        let return_at = base;
        self.target.start(&Frame { regs, return_at });
        let mut left = FUEL;
        let end = self.target.run_slice(&mut self.bench, &mut left, FUEL);
        (end, FUEL - left)
    }
}
