//! Two machines with their RAM in one arena, which run by turns.
ghost use Rattle.std.specs.Prelude.{◌≡◌, ◌≤◌, true, length};
ghost use Rattle.bench_model.specs.Shown.{bench_of};
ghost use Rattle.target_core.specs.Windows.{IsRam, OnlyIn};
ghost use Rattle.target_core.specs.Units.{UnitAgrees};
ghost use Rattle.target_vectors.specs.Rams.{AreRams};

use crate::runs::left::{CELLS, Left, SIZE};
use anyhow::{Result, bail};
use bench_model::MemoryBench;
use board_file::Board;
use ram_arena::Arena;
use std::alloc::Global;
use target_core::{Frame, Machine, RunEnd, SliceEnd};

/// A machine in the middle of a run, and its bench. The operation that is open on the bench is the controller's.
#[derive(Drop)]
struct Runner {
    machine: Machine,
    bench: MemoryBench,
    fuel: u64,

    ghost size: { machine.ram_size ≡ 256 },
    ghost agrees: { UnitAgrees true machine.unit (bench_of bench) },
}

impl Runner {
    /// A machine of a board, over blank cells.
    fn new(alloc: Global, board: &Board) -> Result<Runner> {
        let machine = Machine::new(alloc, board)?;
        if machine.unit.cells() as usize != CELLS || machine.ram_size as usize != SIZE {
            bail!("another board");
        }
        let bench = MemoryBench::new(alloc, &[0xFF; CELLS], &[], 0, 0x100, &[], &[], &[])?;
        Ok(Runner {
            machine,
            bench,
            fuel: 0,
        })
    }

    /// Puts code to the beginning of the RAM.
    fn put(&mut self, arena: &mut Arena, window: usize, code: &[u8])
        requires place { window ≤ 1 }
        requires window { IsRam arena.old window 256 }
        requires both { AreRams arena.old }
        requires code { length code.now ≤ 256 }
        ensures both { AreRams arena.new }
        ensures others { OnlyIn window arena.old arena.new }
    {
        let base = self.machine.ram_base;
        self.machine.write_ram(arena, window, base, code);
    }

    /// Starts with a frame and fuel.
    fn start(&mut self, arena: &mut Arena, window: usize, frame: &Frame, fuel: u64)
        requires { IsRam arena.old window 256 }
        ensures { arena.new ≡ arena.old }
    {
        self.machine.start(arena, window, frame);
        self.fuel = fuel;
    }

    /// Goes on by at most `steps` steps.
    fn go_on(&mut self, arena: &mut Arena, window: usize, steps: u64) -> SliceEnd
        requires place { window ≤ 1 }
        requires window { IsRam arena.old window 256 }
        requires both { AreRams arena.old }
        ensures both { AreRams arena.new }
        ensures others { OnlyIn window arena.old arena.new }
        ensures window { IsRam arena.new window 256 }
    {
        self.machine
            .run_slice(arena, window, &mut self.bench, &mut self.fuel, steps)
    }

    /// Takes a turn of at most `steps` steps. Answers what it leaves, if that was the last turn.
    fn turn(&mut self, arena: &mut Arena, window: usize, steps: u64) -> Option<Left>
        requires place { window ≤ 1 }
        requires window { IsRam arena.old window 256 }
        requires both { AreRams arena.old }
        ensures { AreRams arena.new }
    {
        match self.go_on(arena, window, steps) {
            SliceEnd::Ended(end) => Some(self.leaves(arena, window, end)),
            SliceEnd::More => None,
        }
    }

    /// What the machine leaves, after its run ended in this way.
    fn leaves(&self, arena: &Arena, window: usize, end: RunEnd) -> Left
        requires { IsRam arena.now window 256 }
    {
        let mut ram = [0; SIZE];
        self.machine
            .read_ram(arena, window, self.machine.ram_base, &mut ram);
        Left::by(end, &self.machine, ram, self.bench.cells())
    }
}

/// Two machines with their windows.
#[derive(Drop)]
pub struct Pair {
    arena: Arena,
    one: Runner,
    other: Runner,

    ghost rams: { AreRams arena },
}

impl Pair {
    /// Two machines of a board in one arena.
    pub fn new(alloc: Global, board: &Board) -> Result<Pair> {
        let arena = Arena::new(alloc, &[256, 256])?;
        let one = Runner::new(alloc, board)?;
        let other = Runner::new(alloc, board)?;
        Ok(Pair { arena, one, other })
    }

    /// Starts the first machine.
    pub fn start_one(&mut self, code: &[u8], frame: &Frame, fuel: u64)
        requires { length code.now ≤ 256 }
    {
        self.one.put(&mut self.arena, 0, code);
        self.one.start(&mut self.arena, 0, frame, fuel);
    }

    /// Starts the second.
    pub fn start_other(&mut self, code: &[u8], frame: &Frame, fuel: u64)
        requires { length code.now ≤ 256 }
    {
        self.other.put(&mut self.arena, 1, code);
        self.other.start(&mut self.arena, 1, frame, fuel);
    }

    /// Takes a turn of the first machine. Answers what it leaves, if that was the last turn.
    fn turn_one(&mut self, steps: u64) -> Option<Left> {
        self.one.turn(&mut self.arena, 0, steps)
    }

    /// Takes a turn of the second machine. Answers what it leaves, if that was the last turn.
    fn turn_other(&mut self, steps: u64) -> Option<Left> {
        self.other.turn(&mut self.arena, 1, steps)
    }

    /// Runs both machines by turns of `steps` steps, up to the end of each. Answers what they leave.
    pub fn by_turns(&mut self, turns: u64, steps: u64) -> Result<(Left, Left)> {
        let mut one = None;
        let mut other = None;
        for _turn in 0..turns {
            if one.is_none() {
                one = self.turn_one(steps);
            }
            if other.is_none() {
                other = self.turn_other(steps);
            }
        }
        match (one, other) {
            (Some(one), Some(other)) => Ok((one, other)),
            _ => bail!("a run has no end"),
        }
    }
}
