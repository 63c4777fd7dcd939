//! A target with an algorithm, and a bench in memory that has the controller's operation as its open one.
ghost use Rattle.std.specs.Prelude.{◌≡◌, ◌<◌, ◌^◌, ◌↔◌, true, length, All, None, IsTrue, IfOk};
ghost use Rattle.bench_model.specs.Shown.{bench_of};
ghost use Rattle.flash_layout.specs.Maps.{board_map};
ghost use Rattle.target_core.specs.Units.{fresh, unit_map, unit_state};
ghost use Rattle.algo_calls.specs.Shows.{setup_at, AgreesAt, Fits};
ghost use Rattle.duty_trials.specs.Subjects.{board_in, algorithm_in, setup_for};
ghost use Rattle.duty_trials.specs.Tallies.{AreWithin, calls_in};

use crate::subject::Subject;
use crate::tally::Tally;
use crate::watch::{Watch, lies_in};
use algo_calls::{Call, CallEnd, CallsIn};
use bench_model::MemoryBench;
use faults::OutOfMemory;
use ram_arena::Arena;
use std::alloc::Global;
use target_core::{Machine, SliceEnd};

/// A target with an algorithm, a bench in memory, and the counts of its calls.
#[derive(Drop)]
pub struct Stand {
    calls: CallsIn,
    arena: Arena,
    bench: Watch<MemoryBench>,
    pub tally: Tally,

    ghost fits: { Fits calls arena 0 },
    ghost agrees: { AgreesAt true calls (bench_of bench.inner) },
    pub ghost within: { AreWithin tally },
}

/// How a call broke its duty.
#[derive(Clone, Copy)]
pub enum Breach {
    /// The call didn't end with the value of success.
    NotDone {
        /// How the call ended.
        end: CallEnd,
    },
    /// After the call a cell differs from the one that the ideal device leaves.
    Cell,
    /// The call left an operation open.
    LeftOpen,
    /// An operation wasn't within the place of the call.
    Outside {
        /// The first cell of the operation.
        at: u32,
        /// How many cells the operation covers.
        len: u32,
    },
}

/// What the trial of a call shows.
#[derive(Clone, Copy)]
pub(crate) enum Tried {
    /// No breach was seen.
    Kept,
    /// A duty broke.
    Broken(Breach),
    /// The bench failed.
    Fault,
}

/// How a call ended, how many steps it took, and how many its time-out allows.
#[derive(Clone, Copy)]
struct Made {
    end: CallEnd,
    steps: u64,
    allowed: u64,
}

/// Whether two contents are the same.
fn is_same(cells: &[u8], wanted: &[u8]) -> bool
    ensures { IsTrue result ↔ (cells.now ≡ wanted.now) }
{
    cells == wanted
}

/// The units of the bench's record: enough for a call that erases each sector by its own operation, or programs each byte of a page so.
fn room(subject: &Subject<'_>) -> u64 {
    let sectors = u64::from(subject.geometry.sectors());
    4096 + 4 * sectors + 4 * u64::from(subject.algorithm.device.page)
}

/// A bench with these cells, and no open operation.
fn bench_with(
    alloc: Global,
    subject: &Subject<'_>,
    cells: &[u8],
) -> Result<Watch<MemoryBench>, OutOfMemory>
    requires { length cells.now < 2 ^ 32 }
    ensures cells { IfOk result (λ bench. (bench_of bench.inner).cells ≡ cells.now) }
    ensures idle { IfOk result (λ bench. (bench_of bench.inner).operation ≡ None) }
{
    let bench = MemoryBench::new(alloc, cells, &[], 0, room(subject), &[], &[], &[])?;
    Ok(Watch::new(bench))
}

/// The target of a board as after a reset, and the calls of the algorithm.
pub fn calls_of(alloc: Global, subject: &Subject<'_>) -> Result<CallsIn, OutOfMemory>
    ensures setup { IfOk result (λ calls. setup_at calls ≡ setup_for subject.now) }
    ensures base { IfOk result (λ calls. calls.machine.ram_base ≡ (board_in subject.now).ram_base) }
    ensures size { IfOk result (λ calls. calls.machine.ram_size ≡ (board_in subject.now).ram_size) }
    ensures map { IfOk result (λ calls. unit_map calls.machine.unit ≡ board_map (board_in subject.now)) }
    ensures fresh { IfOk result (λ calls. unit_state calls.machine.unit ≡ fresh (board_in subject.now).kind) }
{
    let machine = Machine::new(alloc, subject.board)?;
    let algorithm = subject.algorithm.copy(alloc)?;
    Ok(CallsIn::new(machine, subject.layout, algorithm, subject.board))
}

impl Stand {
    ghost use Rattle.std.specs.Prelude.{◌≤◌, ◌+◌};
    ghost use Rattle.page_geometry.specs.Geometry.{IsGeometry};
    ghost use Rattle.algo_calls.specs.Frames.{after, asked, fuel_of};
    ghost use Rattle.algo_calls.specs.Duties.{Site, Duty, place_of, request_of, ready, Does, Keeps};
    ghost use Rattle.algo_calls.specs.Calls.{CallGives};
    ghost use Rattle.algo_calls.specs.Shows.{MayAsk};
    ghost use Rattle.duty_trials.specs.Watched.{PlaceIn};
    ghost use Rattle.duty_trials.specs.Tried.{IsBroken, IsKept};
    ghost use Rattle.duty_trials.specs.Stands.{setup_in, state_in, world_in};

    /// The target of a board as after a reset, with the algorithm loaded, over these cells. No operation is open.
    pub fn new(alloc: Global, subject: &Subject<'_>, cells: &[u8]) -> Result<Stand, OutOfMemory>
        requires { length cells.now ≡ subject.now.cells }
        ensures world { IfOk result (λ t. world_in t ≡ ready (board_in subject.now) (algorithm_in subject.now) cells.now) }
        ensures setup { IfOk result (λ t. setup_in t ≡ setup_for subject.now) }
        ensures idle { IfOk result (λ t. (state_in t).operation ≡ None) }
    {
        let mut arena = Arena::new(alloc, &[subject.board.ram_size])?;
        let bench = bench_with(alloc, subject, cells)?;
        let mut calls = calls_of(alloc, subject)?;
        calls.load(&mut arena, 0);
        Ok(Stand {
            calls,
            arena,
            bench,
            tally: Tally::default(),
        })
    }

    /// The cells of the bench.
    pub fn cells(&self) -> &[u8]
        ensures { result.now ≡ (world_in self.now).cells }
    {
        self.bench.cells()
    }

    /// Makes one whole call.
    fn make(&mut self, call: &Call, bytes: &[u8]) -> Made
        requires { MayAsk (setup_in self.old) call.now bytes.now }
        ensures gives { CallGives (setup_in self.old) (world_in self.old) (asked call.now bytes.now) (state_in self.old) result.end
            (world_in self.new) (state_in self.new) }
        ensures setup { setup_in self.new ≡ setup_in self.old }
        ensures steps { result.steps ≤ result.allowed }
        ensures allowed { result.allowed ≡ fuel_of (setup_in self.old) call.now }
        ensures tally { self.new.tally ≡ self.old.tally }
    {
        let fuel = self.calls.prepare(&mut self.arena, 0, call, bytes);
        let mut left = fuel;
        match self
            .calls
            .slice(&mut self.arena, 0, &mut self.bench, &mut left, fuel)
        {
            SliceEnd::Ended(end) => Made {
                end: self.calls.end_of(call, bytes.len() as u32, end),
                steps: fuel - left,
                allowed: fuel,
            },
            SliceEnd::More => unreachable!(),
        }
    }

    /// Whether the cells are the wanted ones, which are bytes.
    fn holds(&self, wanted: &[u8]) -> bool
        ensures same { IsTrue result ↔ ((world_in self.now).cells ≡ wanted.now) }
        ensures bytes { All (λ v. v < 2 ^ 8) wanted.now }
    {
        is_same(self.bench.cells(), wanted)
    }

    /// Makes a call that may open operations only in a range, and compares what it leaves with what the ideal device leaves.
    pub(crate) fn step(
        &mut self,
        call: &Call,
        bytes: &[u8],
        from: u32,
        to: u32,
        wanted: &[u8],
    ) -> Tried
        requires may { MayAsk (setup_in self.old) call.now bytes.now }
        requires idle { (state_in self.old).operation ≡ None }
        ensures broken { IsBroken result → (site : Site) (d : Duty) → request_of (setup_in self.old) site.layout d ≡ asked call.now bytes.now
            → Does (setup_in self.old) site (world_in self.old).cells d wanted.now → IsGeometry site.layout
            → site.start + site.layout.size ≤ length (world_in self.old).cells → PlaceIn from to (place_of site d)
            → Keeps (setup_in self.old) site (world_in self.old) d → ⊥ }
        ensures world { IsKept result → world_in self.new ≡ after (setup_in self.old) (world_in self.old) (asked call.now bytes.now) }
        ensures cells { IsKept result → (world_in self.new).cells ≡ wanted.now }
        ensures idle { IsKept result → (state_in self.new).operation ≡ None }
        ensures bytes { All (λ v. v < 2 ^ 8) wanted.now }
        ensures setup { setup_in self.new ≡ setup_in self.old }
        ensures calls { calls_in self.new.tally ≤ calls_in self.old.tally + 1 }
    {
        self.bench.renew(from, to);
        let Made {
            end,
            steps,
            allowed,
        } = self.make(call, bytes);
        self.tally.note(call, steps, allowed);
        let same = self.holds(wanted);
        match (end, self.bench.outside, self.bench.running) {
            (CallEnd::DeviceFault, _, _) => Tried::Fault,
            (CallEnd::Refused { .. } | CallEnd::Ended(_), _, _) => {
                Tried::Broken(Breach::NotDone { end })
            }
            (CallEnd::Done, Some((at, len)), _) if !lies_in(from, to, at, len) => {
                Tried::Broken(Breach::Outside { at, len })
            }
            (CallEnd::Done, _, Some(_)) => Tried::Broken(Breach::LeftOpen),
            (CallEnd::Done, _, None) => {
                if same {
                    Tried::Kept
                } else {
                    Tried::Broken(Breach::Cell)
                }
            }
        }
    }
}
