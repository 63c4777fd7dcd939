//! The calls of an algorithm in a RAM that is lent to each call.
ghost use Rattle.std.specs.Prelude.{◌+◌};
ghost use Rattle.algo_loader.specs.Laws.{IsLaidOut};

use crate::call::{Arguments, Call, CallEnd, call_end, success};
use crate::fuel::{capped, time_out};
use algo_loader::Layout;
use bench_model::{Bench, DeviceFault};
use board_file::Board;
use flash_driver::State;
use flm_descriptor::Algorithm;
use ram_arena::Arena;
use target_core::{AnyRegisters, Frame, Machine, RunEnd, SliceEnd};

/// `BKPT #0` twice, for the return point.
const BREAKPOINTS: [u8; 4] = [0x00, 0xBE, 0x00, 0xBE];

/// A target without its RAM, and the algorithm in the RAM, which is a window of an arena.
#[derive(Drop)]
pub struct CallsIn {
    machine: Machine,
    layout: Layout,
    algorithm: Algorithm,
    hz: u32,
    steps_per_ms: u32,

    ghost laid_out: { IsLaidOut (algorithm.zero_at + algorithm.zero_len) algorithm.device.page machine.ram_base machine.ram_size layout },
}

impl CallsIn {
    ghost use Rattle.std.specs.Prelude.{◌≡◌, ◌≤◌, ◌+◌, ◌<◌, ◌^◌, ℕ, List, [], length, IsTrue, IsSome, OnOk, OnErr, Ok, None};
    ghost use Rattle.faults.specs.Counts.{HasCause};
    ghost use Rattle.bench_model.specs.Does.{StaysOpen};
    ghost use Rattle.flash_layout.specs.Bench.{Settles};
    ghost use Rattle.flash_layout.specs.Maps.{board_map};
    ghost use Rattle.flm_descriptor.specs.Shown.{shown as algorithm_of};
    ghost use Rattle.board_file.specs.Shown.{shown as board_of};
    ghost use Rattle.algo_loader.specs.Places.{placed};
    ghost use Rattle.target_core.specs.Windows.{window_of, OnlyIn};
    ghost use Rattle.target_core.specs.Targets.{over, after_start, point_in};
    ghost use Rattle.target_core.specs.Units.{unit_map, unit_cells};
    ghost use Rattle.algo_calls.specs.declared.call.Call.TheVariants as a_call;
    ghost use Rattle.algo_calls.specs.Ends.{success_of, call_end_of};
    ghost use Rattle.algo_calls.specs.Setups.{setup_of};
    ghost use Rattle.algo_calls.specs.Frames.{asked, arguments, registers, entry_of, fuel_of, first_point, with_algorithm, after_load};
    ghost use Rattle.algo_calls.specs.Calls.{after_reset, ResetGives};
    ghost use Rattle.algo_calls.specs.Shows.{setup_at, point_at, world_at, Fits, AgreesAt, MayAsk, CalledAt, Slices};

    /// The calls of an algorithm on a machine that was made for this board, with the layout of both.
    pub fn new(machine: Machine, layout: Layout, algorithm: Algorithm, board: &Board) -> CallsIn
        requires base { machine.ram_base ≡ (board_of board.now).ram_base }
        requires len { machine.ram_size ≡ (board_of board.now).ram_size }
        requires map { unit_map machine.unit ≡ board_map (board_of board.now) }
        requires layout { placed (algorithm_of algorithm) (board_of board.now) ≡ Ok layout }
        ensures setup { setup_at result ≡ setup_of (algorithm_of algorithm) (board_of board.now) }
        ensures machine { result.machine ≡ machine }
    {
        CallsIn {
            machine,
            layout,
            algorithm,
            hz: board.hz,
            steps_per_ms: board.steps_per_ms,
        }
    }

    /// The algorithm.
    pub fn algorithm(&self) -> &Algorithm
        ensures { algorithm_of result.now ≡ (setup_at self.now).algorithm }
    {
        &self.algorithm
    }

    /// The machine.
    pub fn machine(&self) -> &Machine
        ensures { result.now ≡ self.now.machine }
    {
        &self.machine
    }

    /// The layout of the algorithm in the RAM.
    pub fn layout(&self) -> &Layout
        ensures { result.now ≡ (setup_at self.now).layout }
    {
        &self.layout
    }

    /// Sets the RAM and the controller to what they held between two calls, without calling a bench. No other window changes.
    #[tactic(auto, using(crate::proofs::CallLemmas::written_whole))]
    pub fn stand_at(
        &mut self,
        arena: &mut Arena,
        window: usize,
        ram: &[u8],
        state: &State<AnyRegisters>,
    )
        requires window { Fits self.old arena.old window }
        requires ram { length ram.now ≡ (setup_at self.old).ram_size }
        ensures world { (cells : List ℕ) → world_at self.new arena.new window cells ≡ record (world_at self.old arena.old window cells) {
          ram = ram.now;
          state = state.now;
        } }
        ensures setup { setup_at self.new ≡ setup_at self.old }
        ensures base { self.new.machine.ram_base ≡ self.old.machine.ram_base }
        ensures map { unit_map self.new.machine.unit ≡ unit_map self.old.machine.unit }
        ensures others { OnlyIn window arena.old arena.new }
        ensures ram_stays { Fits self.new arena.new window }
    {
        let base = self.machine.ram_base;
        self.machine.write_ram(arena, window, base, ram);
        self.machine.unit.state = *state;
    }

    /// Writes two breakpoints to the return point, and code and data to their places.
    fn put_algorithm(&mut self, arena: &mut Arena, window: usize)
        requires { Fits self.old arena.old window }
        ensures ram { window_of arena.new window ≡ with_algorithm (setup_at self.old) (window_of arena.old window) }
        ensures others { OnlyIn window arena.old arena.new }
        ensures ram_stays { Fits self.new arena.new window }
        ensures same { self.new ≡ self.old }
    {
        let code_at = self.layout.code_at;
        let data_at = code_at + self.algorithm.data_at;
        self.machine
            .write_ram(arena, window, self.layout.return_at, &BREAKPOINTS);
        self.machine
            .write_ram(arena, window, code_at, self.algorithm.code.bytes());
        self.machine
            .write_ram(arena, window, data_at, self.algorithm.init_data.bytes());
    }

    /// Zeroes the RAM, and writes two breakpoints to the return point, and code and data to their places. No other window changes.
    #[tactic(auto, unfolding(crate::specs::Frames::loaded))]
    pub fn load(&mut self, arena: &mut Arena, window: usize)
        requires { Fits self.old arena.old window }
        ensures leaves { (cells : List ℕ) → world_at self.new arena.new window cells ≡ after_load (setup_at self.old)
            (world_at self.old arena.old window cells) }
        ensures others { OnlyIn window arena.old arena.new }
        ensures ram { Fits self.new arena.new window }
        ensures same { self.new ≡ self.old }
    {
        self.machine.clear_ram(arena, window);
        self.put_algorithm(arena, window);
    }

    /// Resets the target: core, RAM and controller. An operation that is open on the bench is broken off. A device fault leaves everything
    /// as it was. No other window changes.
    pub fn reset<B: Bench>(
        &mut self,
        arena: &mut Arena,
        window: usize,
        bench: &mut B,
    ) -> Result<(), DeviceFault>
        requires window { Fits self.old arena.old window }
        requires cells { (B.state bench.old).cell_count ≡ unit_cells self.old.machine.unit }
        ensures ok { IsTrue B.tells → OnOk result (ResetGives (setup_at self.old) (world_at self.old arena.old window (B.state bench.old).cells)
            (B.state bench.old).operation (world_at self.new arena.new window (B.state bench.new).cells)) }
        ensures err { OnErr result ((self.new ≡ self.old) × (arena.new ≡ arena.old)) }
        ensures err_cells { IsTrue B.tells → OnErr result (StaysOpen (B.state bench.old) (B.state bench.new)) }
        ensures setup { setup_at self.new ≡ setup_at self.old }
        ensures map { unit_map self.new.machine.unit ≡ unit_map self.old.machine.unit }
        ensures bench { Settles B.tells (B.state bench.old) (B.state bench.new) }
        ensures agrees { OnOk result (AgreesAt B.tells self.new (B.state bench.new)) }
        ensures cause { HasCause (B.state bench.old).device_faults (B.state bench.new).device_faults result }
        ensures others { OnlyIn window arena.old arena.new }
        ensures ram { Fits self.new arena.new window }
    {
        self.machine.reset(arena, window, bench)
    }

    /// Restarts the target as after a reset, without calling a bench. So earlier calls on another bench don't matter. No other window
    /// changes.
    #[tactic(auto, unfolding(crate::specs::Calls::after_reset))]
    pub fn restart(&mut self, arena: &mut Arena, window: usize)
        requires { Fits self.old arena.old window }
        ensures world { (cells : List ℕ) → world_at self.new arena.new window cells ≡ after_reset (setup_at self.old)
            (world_at self.old arena.old window cells) None [] }
        ensures setup { setup_at self.new ≡ setup_at self.old }
        ensures map { unit_map self.new.machine.unit ≡ unit_map self.old.machine.unit }
        ensures others { OnlyIn window arena.old arena.new }
        ensures ram { Fits self.new arena.new window }
    {
        self.machine.restart(arena, window);
    }

    /// The arguments of a call with `len` bytes.
    fn arguments(&self, call: Call, len: u32) -> Arguments
        ensures { result ≡ arguments (setup_at self.now) call len }
    {
        let (r0, r1, r2) = match call {
            Call::Init { kind } => (self.algorithm.device.base, self.hz, kind),
            Call::UnInit { kind } => (kind, 0, 0),
            Call::EraseSector { at } => (at, 0, 0),
            Call::EraseChip => (0, 0, 0),
            Call::ProgramPage { at } => (at, len, self.layout.buffer_at),
            Call::Verify { at } => (at, len, self.layout.buffer_at),
        };
        Arguments { r0, r1, r2 }
    }

    /// Where the function of a call begins, in bytes from the code's start.
    fn entry(&self, call: Call) -> u32
        ensures value { result ≡ entry_of (setup_at self.now).algorithm.entries call }
        ensures bound { self.now.layout.code_at + result < 2 ^ 32 }
    {
        let entries = self.algorithm.entries;
        match call {
            Call::Init { .. } => entries.init,
            Call::UnInit { .. } => entries.uninit,
            Call::EraseSector { .. } => entries.erase_sector,
            Call::EraseChip => entries.erase_chip.unwrap_or(0),
            Call::ProgramPage { .. } => entries.program_page,
            Call::Verify { .. } => entries.verify.unwrap_or(0),
        }
    }

    /// The frame of a call with `len` bytes.
    fn frame(&self, call: Call, len: u32) -> Frame
        ensures regs { result.regs ≡ registers (setup_at self.now) call len }
        ensures return_at { result.return_at ≡ (setup_at self.now).layout.return_at }
    {
        let Arguments { r0, r1, r2 } = self.arguments(call, len);
        let sb = self.layout.static_base;
        let sp = self.layout.stack_top;
        let lr = self.layout.return_at + 1;
        let pc = self.layout.code_at + self.entry(call);
        Frame {
            regs: [r0, r1, r2, 0, 0, 0, 0, 0, 0, sb, 0, 0, 0, sp, lr, pc],
            return_at: self.layout.return_at,
        }
    }

    /// The most steps that a call may make.
    #[tactic(auto, unfolding(crate::specs::Frames::fuel_of))]
    fn fuel(&self, call: Call) -> u64
        ensures { result ≡ fuel_of (setup_at self.now) call }
    {
        let device = &self.algorithm.device;
        let (milliseconds, sectors) = match call {
            Call::Init { .. } | Call::UnInit { .. } | Call::EraseSector { .. } => {
                (device.to_erase, 1)
            }
            Call::EraseChip => (device.to_erase, self.algorithm.sector_count()),
            Call::ProgramPage { .. } | Call::Verify { .. } => (device.to_prog, 1),
        };
        capped(time_out(milliseconds), self.steps_per_ms, sectors)
    }

    /// Writes the bytes of a call into the buffer, and returns the call's frame.
    #[tactic(auto, unfolding(crate::specs::Frames::first_point))]
    fn hand_over(&mut self, arena: &mut Arena, window: usize, call: Call, bytes: &[u8]) -> Frame
        requires window { Fits self.old arena.old window }
        requires bytes { length bytes.now ≤ (setup_at self.old).algorithm.device.page }
        ensures first { (cells : List ℕ) → point_in (after_start (over self.new.machine arena.new window) result) cells ≡ first_point (setup_at self.old)
            (world_at self.old arena.old window cells) (asked call bytes.now) }
        ensures return_at { result.return_at ≡ (setup_at self.old).layout.return_at }
        ensures others { OnlyIn window arena.old arena.new }
        ensures ram { Fits self.new arena.new window }
        ensures same { self.new ≡ self.old }
    {
        self.machine
            .write_ram(arena, window, self.layout.buffer_at, bytes);
        self.frame(call, bytes.len() as u32)
    }

    /// Writes the bytes of a call into the buffer, sets the registers, and returns the most steps that the call may make. A call without a
    /// buffer has no bytes. No other window changes.
    pub fn prepare(&mut self, arena: &mut Arena, window: usize, call: &Call, bytes: &[u8]) -> u64
        requires window { Fits self.old arena.old window }
        requires may { MayAsk (setup_at self.old) call.now bytes.now }
        ensures fuel { result ≡ fuel_of (setup_at self.old) call.now }
        ensures first { (cells : List ℕ) → point_at self.new arena.new window cells ≡ first_point (setup_at self.old)
            (world_at self.old arena.old window cells) (asked call.now bytes.now) }
        ensures return_at { self.new.machine.return_at ≡ (setup_at self.old).layout.return_at }
        ensures setup { setup_at self.new ≡ setup_at self.old }
        ensures unit { self.new.machine.unit ≡ self.old.machine.unit }
        ensures others { OnlyIn window arena.old arena.new }
        ensures ram { Fits self.new arena.new window }
    {
        let frame = self.hand_over(arena, window, *call, bytes);
        self.machine.start(arena, window, &frame);
        self.fuel(*call)
    }

    /// Continues a prepared call by at most `steps` steps. `left` is the fuel, and falls by the steps made. No other window changes.
    pub fn slice<B: Bench>(
        &mut self,
        arena: &mut Arena,
        window: usize,
        bench: &mut B,
        left: &mut u64,
        steps: u64,
    ) -> SliceEnd
        requires window { Fits self.old arena.old window }
        requires agrees { AgreesAt B.tells self.old (B.state bench.old) }
        ensures { Slices B.tells self.old arena.old window (B.state bench.old) left.old left.new steps result self.new arena.new (B.state bench.new) }
    {
        self.machine.run_slice(arena, window, bench, left, steps)
    }

    /// The end of a call with `len` bytes, by the end of its run.
    pub fn end_of(&self, call: &Call, len: u32, end: RunEnd) -> CallEnd
        ensures { result ≡ call_end_of (success_of call.now len) end }
    {
        call_end(success(*call, len), end)
    }

    /// Calls a function with bytes in the buffer.
    #[inline(always)]
    pub(crate) fn call<B: Bench>(
        &mut self,
        arena: &mut Arena,
        window: usize,
        bench: &mut B,
        call: Call,
        bytes: &[u8],
    ) -> CallEnd
        requires window { Fits self.old arena.old window }
        requires agrees { AgreesAt B.tells self.old (B.state bench.old) }
        requires bytes { length bytes.now ≤ (setup_at self.old).algorithm.device.page }
        ensures { CalledAt B.tells self.old arena.old window (B.state bench.old) (asked call bytes.now) result self.new arena.new (B.state bench.new) }
    {
        let fuel = self.fuel(call);
        let frame = self.hand_over(arena, window, call, bytes);
        let end = self.machine.run(arena, window, bench, &frame, fuel);
        call_end(success(call, bytes.len() as u32), end)
    }

    /// Readies the device for erasing (1), programming (2) or verifying (3). No other window changes.
    pub fn init<B: Bench>(
        &mut self,
        arena: &mut Arena,
        window: usize,
        bench: &mut B,
        kind: u32,
    ) -> CallEnd
        requires window { Fits self.old arena.old window }
        requires agrees { AgreesAt B.tells self.old (B.state bench.old) }
        ensures { CalledAt B.tells self.old arena.old window (B.state bench.old) (asked (a_call.Init kind) []) result self.new arena.new (B.state bench.new) }
    {
        self.call(arena, window, bench, Call::Init { kind }, &[])
    }

    /// Ends what `init` began. No other window changes.
    pub fn uninit<B: Bench>(
        &mut self,
        arena: &mut Arena,
        window: usize,
        bench: &mut B,
        kind: u32,
    ) -> CallEnd
        requires window { Fits self.old arena.old window }
        requires agrees { AgreesAt B.tells self.old (B.state bench.old) }
        ensures { CalledAt B.tells self.old arena.old window (B.state bench.old) (asked (a_call.UnInit kind) []) result self.new arena.new (B.state bench.new) }
    {
        self.call(arena, window, bench, Call::UnInit { kind }, &[])
    }

    /// Erases the sector at an address. No other window changes.
    pub fn erase_sector<B: Bench>(
        &mut self,
        arena: &mut Arena,
        window: usize,
        bench: &mut B,
        at: u32,
    ) -> CallEnd
        requires window { Fits self.old arena.old window }
        requires agrees { AgreesAt B.tells self.old (B.state bench.old) }
        ensures { CalledAt B.tells self.old arena.old window (B.state bench.old) (asked (a_call.EraseSector at) []) result self.new
            arena.new (B.state bench.new) }
    {
        self.call(arena, window, bench, Call::EraseSector { at }, &[])
    }

    /// Erases all sectors. The algorithm has a function for it. No other window changes.
    pub fn erase_chip<B: Bench>(
        &mut self,
        arena: &mut Arena,
        window: usize,
        bench: &mut B,
    ) -> CallEnd
        requires window { Fits self.old arena.old window }
        requires agrees { AgreesAt B.tells self.old (B.state bench.old) }
        requires entry { IsSome (setup_at self.old).algorithm.entries.erase_chip }
        ensures { CalledAt B.tells self.old arena.old window (B.state bench.old) (asked a_call.EraseChip []) result self.new arena.new (B.state bench.new) }
    {
        self.call(arena, window, bench, Call::EraseChip, &[])
    }

    /// Programs the page at an address with at most a page of bytes. No other window changes.
    pub fn program_page<B: Bench>(
        &mut self,
        arena: &mut Arena,
        window: usize,
        bench: &mut B,
        at: u32,
        bytes: &[u8],
    ) -> CallEnd
        requires window { Fits self.old arena.old window }
        requires agrees { AgreesAt B.tells self.old (B.state bench.old) }
        requires bytes { length bytes.now ≤ (setup_at self.old).algorithm.device.page }
        ensures { CalledAt B.tells self.old arena.old window (B.state bench.old) (asked (a_call.ProgramPage at) bytes.now) result self.new
            arena.new (B.state bench.new) }
    {
        self.call(arena, window, bench, Call::ProgramPage { at }, bytes)
    }

    /// Compares the page at an address with at most a page of bytes. The algorithm has a function for it. No other window changes.
    pub fn verify<B: Bench>(
        &mut self,
        arena: &mut Arena,
        window: usize,
        bench: &mut B,
        at: u32,
        bytes: &[u8],
    ) -> CallEnd
        requires window { Fits self.old arena.old window }
        requires agrees { AgreesAt B.tells self.old (B.state bench.old) }
        requires bytes { length bytes.now ≤ (setup_at self.old).algorithm.device.page }
        requires entry { IsSome (setup_at self.old).algorithm.entries.verify }
        ensures { CalledAt B.tells self.old arena.old window (B.state bench.old) (asked (a_call.Verify at) bytes.now) result self.new
            arena.new (B.state bench.new) }
    {
        self.call(arena, window, bench, Call::Verify { at }, bytes)
    }
}
