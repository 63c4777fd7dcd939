//! The calls of an algorithm on a machine in an arena, over a bench in memory that is watched.
ghost use Rattle.std.specs.Prelude.{◌≡◌, ◌≤◌, true, length, IfOk};
ghost use Rattle.bench_model.specs.Shown.{bench_of};
ghost use Rattle.board_file.specs.Shown.{shown as board_of};
ghost use Rattle.flash_layout.specs.Maps.{board_map};
ghost use Rattle.target_core.specs.Units.{fresh, unit_cells, unit_map, unit_state};
ghost use Rattle.algo_calls.specs.Shows.{setup_at, AgreesAt, Fits, MayAsk};

use crate::calls::watch::{Area, Watch};
use algo_calls::{Call, CallEnd, CallsIn};
use algo_loader::place;
use anyhow::{Result, bail};
use bench_model::{DeviceFault, MemoryBench};
use board_file::Board;
use flm_descriptor::Algorithm;
use ram_arena::Arena;
use std::alloc::Global;
use std::result;
use target_core::{Machine, SliceEnd};

/// A machine with an algorithm, an arena with the machine's RAM as its second window, and a bench. The operation that is open on the bench
/// is the controller's.
#[derive(Drop)]
pub struct Trial {
    calls: CallsIn,
    arena: Arena,
    steps: u64,
    pub bench: Watch<MemoryBench>,

    ghost fits: { Fits calls arena 1 },
    ghost agrees: { AgreesAt true calls (bench_of bench.inner) },
}

/// The machine of a board with this number of cells.
fn machine_of(alloc: Global, board: &Board, cells: usize) -> Result<Machine>
    ensures base { IfOk result (λ m. m.ram_base ≡ (board_of board.now).ram_base) }
    ensures size { IfOk result (λ m. m.ram_size ≡ (board_of board.now).ram_size) }
    ensures map { IfOk result (λ m. unit_map m.unit ≡ board_map (board_of board.now)) }
    ensures cells { IfOk result (λ m. unit_cells m.unit ≡ cells) }
    ensures fresh { IfOk result (λ m. unit_state m.unit ≡ fresh (board_of board.now).kind) }
{
    let machine = Machine::new(alloc, board)?;
    if machine.unit.cells() as usize != cells {
        bail!("another number of cells");
    }
    Ok(machine)
}

/// The calls of an algorithm on this machine, which was made for the board.
fn calls_on(machine: Machine, algorithm: Algorithm, board: &Board) -> Result<CallsIn>
    requires base { machine.ram_base ≡ (board_of board.now).ram_base }
    requires size { machine.ram_size ≡ (board_of board.now).ram_size }
    requires map { unit_map machine.unit ≡ board_map (board_of board.now) }
    ensures unit { IfOk result (λ calls. calls.machine.unit ≡ machine.unit) }
    ensures size { IfOk result (λ calls. calls.machine.ram_size ≡ machine.ram_size) }
{
    let layout = place(&algorithm, board)?;
    Ok(CallsIn::new(machine, layout, algorithm, board))
}

/// The calls of an algorithm on the machine of a board with this number of cells.
fn calls_of(alloc: Global, board: &Board, algorithm: Algorithm, cells: usize) -> Result<CallsIn>
    ensures size { IfOk result (λ calls. calls.machine.ram_size ≡ (board_of board.now).ram_size) }
    ensures cells { IfOk result (λ calls. unit_cells calls.machine.unit ≡ cells) }
    ensures fresh { IfOk result (λ calls. unit_state calls.machine.unit ≡ fresh (board_of board.now).kind) }
{
    let machine = machine_of(alloc, board, cells)?;
    let calls = calls_on(machine, algorithm, board)?;
    Ok(calls)
}

impl Trial {
    /// An algorithm on a board with these cells. The cell call of this number fails, and an operation that is broken off leaves 5A.
    pub fn new(
        alloc: Global,
        board: &Board,
        algorithm: Algorithm,
        cells: &[u8],
        fail: u64,
    ) -> Result<Trial> {
        let calls = calls_of(alloc, board, algorithm, cells.len())?;
        let arena = Arena::new(alloc, &[8, board.ram_size])?;
        let bench = MemoryBench::new(alloc, cells, &[], 0, 0x10000, &[], &[fail], &[0x5A])?;
        Ok(Trial {
            calls,
            arena,
            steps: 0,
            bench: Watch::new(bench),
        })
    }

    /// Puts the algorithm into the RAM.
    pub fn load(&mut self) {
        self.calls.load(&mut self.arena, 1);
    }

    /// Resets the target.
    pub fn reset(&mut self) -> result::Result<(), DeviceFault> {
        self.calls.reset(&mut self.arena, 1, &mut self.bench)
    }

    /// Makes each call from now on in slices of `steps` steps, or in one piece at 0.
    pub fn cut(&mut self, steps: u64) {
        self.steps = steps;
    }

    /// Calls a function of the algorithm.
    pub fn call(&mut self, call: Call, bytes: &[u8]) -> Result<CallEnd> {
        if bytes.len() > self.calls.algorithm().device.page as usize {
            bail!("more bytes than a page has");
        }
        if self.steps == 0 {
            self.in_one_piece(call, bytes)
        } else {
            self.in_pieces(call, bytes)
        }
    }

    /// Makes a call in one piece.
    fn in_one_piece(&mut self, call: Call, bytes: &[u8]) -> Result<CallEnd>
        requires { length bytes.now ≤ (setup_at self.old.calls).algorithm.device.page }
    {
        let entries = self.calls.algorithm().entries;
        let bench = &mut self.bench;
        Ok(match call {
            Call::Init { kind } => self.calls.init(&mut self.arena, 1, bench, kind),
            Call::UnInit { kind } => self.calls.uninit(&mut self.arena, 1, bench, kind),
            Call::EraseSector { at } => self.calls.erase_sector(&mut self.arena, 1, bench, at),
            Call::EraseChip if entries.erase_chip.is_some() => {
                self.calls.erase_chip(&mut self.arena, 1, bench)
            }
            Call::ProgramPage { at } => {
                self.calls
                    .program_page(&mut self.arena, 1, bench, at, bytes)
            }
            Call::Verify { at } if entries.verify.is_some() => {
                self.calls.verify(&mut self.arena, 1, bench, at, bytes)
            }
            _ => bail!("the algorithm has no such function"),
        })
    }

    /// Makes a call in slices.
    fn in_pieces(&mut self, call: Call, bytes: &[u8]) -> Result<CallEnd>
        requires { length bytes.now ≤ (setup_at self.old.calls).algorithm.device.page }
    {
        let entries = self.calls.algorithm().entries;
        match call {
            Call::Init { kind } => self.sliced(Call::Init { kind }, &[]),
            Call::UnInit { kind } => self.sliced(Call::UnInit { kind }, &[]),
            Call::EraseSector { at } => self.sliced(Call::EraseSector { at }, &[]),
            Call::EraseChip if entries.erase_chip.is_some() => self.sliced(Call::EraseChip, &[]),
            Call::ProgramPage { at } => self.sliced(Call::ProgramPage { at }, bytes),
            Call::Verify { at } if entries.verify.is_some() => {
                self.sliced(Call::Verify { at }, bytes)
            }
            _ => bail!("the algorithm has no such function"),
        }
    }

    /// Prepares a call, and makes slices up to its end.
    fn sliced(&mut self, call: Call, bytes: &[u8]) -> Result<CallEnd>
        requires { MayAsk (setup_at self.old.calls) call bytes.now }
    {
        let fuel = self.calls.prepare(&mut self.arena, 1, &call, bytes);
        let mut left = fuel;
        for _slice in 0..fuel {
            match self
                .calls
                .slice(&mut self.arena, 1, &mut self.bench, &mut left, self.steps)
            {
                SliceEnd::Ended(end) => {
                    return Ok(self.calls.end_of(&call, bytes.len() as u32, end));
                }
                SliceEnd::More => {}
            }
        }
        bail!("the slices have no end")
    }

    /// Counts the operations anew, in and out of an area.
    pub fn watch(&mut self, area: Area) {
        self.bench.watch(area);
    }

    /// What the device holds.
    pub fn cells(&self) -> &[u8] {
        self.bench.inner.cells()
    }
}
