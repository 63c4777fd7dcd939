//! The player of a script, and its turns.
ghost use Rattle.std.specs.Prelude.{◌≡◌, ◌<◌, ◌≤◌, ◌+◌, ◌^◌, ℕ, List, drop, length, IsTrue, IsSomeAnd, is_some, None};
ghost use Rattle.algo_calls.specs.Shows.{setup_at, Fits, MayAsk};
ghost use Rattle.bench_model.specs.Calls.{OnlyReads, FileIsRead};
ghost use Rattle.bench_model.specs.Counted.{is_store_fault, is_device_fault, IsCounted};
ghost use Rattle.bench_model.specs.History.{LeftOnly};
ghost use Rattle.bench_model.specs.State.{file_half};
ghost use Rattle.board_file.specs.Limits.{size_of};
ghost use Rattle.faults.specs.Counts.{HasCause};
ghost use Rattle.flash_session.specs.Goals.{goal_in};
ghost use Rattle.flash_session.specs.Moves.{stand_at};
ghost use Rattle.flash_session.specs.Outcome.{Follows, IsCompared, IsSound, end_fault};
ghost use Rattle.flash_session.specs.Script.{has_verify};
ghost use Rattle.job_text.specs.Files.{IsWhole};
ghost use Rattle.job_text.specs.Stands.{StandsFor};
ghost use Rattle.flash_session.specs.declared.cursor.Cursor.TheVariants as at;
ghost use Rattle.flash_session.specs.declared.phase.Phase.TheVariants as stage;
ghost use Rattle.flash_session.specs.declared.cursor.Place.TheVariants as place;
ghost use Rattle.flash_session.specs.declared.cursor.Step.TheVariants as step;
ghost use Rattle.flash_session.specs.Ended.{IsEndAt};
ghost use Rattle.flash_session.specs.Fit.{AreTwins, IsScripted, Fit};
ghost use Rattle.flash_session.specs.Items.{calls_on_phase};
ghost use Rattle.flash_session.specs.Prepared.{Prepares};
ghost use Rattle.flash_session.specs.Regions.{First, IsThere, is_last};
ghost use Rattle.flash_session.specs.Rest.{after, all_legs};
ghost use Rattle.flash_session.specs.Steps.{IsItem, IsCursor, IsStep, IsStepBehind, IsPhaseFrom, has_phase};
ghost use Rattle.flash_session.specs.Takes.{IsNoCall, IsCall, IsKind, FromCursor, FromCall, FromCells, IsOver, TakesOn, IsHost, IsStill, Slice, SliceOf};
ghost use Rattle.flash_session.specs.Targets.{calls_on, setup_on, region_in, has_second, size_for, goal_for, legs_for, point_for};
ghost use Rattle.flash_session.specs.Turned.{IsExchanged, TurnsTo, Restarts};
ghost use Rattle.flash_session.specs.Turns.{Turns, SameTarget, IsUnended, turn_of, Judges};
ghost use Rattle.flash_session.specs.Whole.{at_close, IsPlaying, IsPlayed, IsEndOf, IsStop};

use crate::cursor::{Cursor, Item, Place, RegionIndex, Step};
use crate::goal::{Goal, WINDOW};
use crate::phase::Phase;
use crate::region_plan::SessionWork;
use crate::session::{Reached, SessionEnd};
use crate::target_end::{TargetEnd, Turn};
use crate::windows::{Unread, compare_window, read_bytes};
use algo_calls::{Call, CallEnd, CallsIn};
use bench_model::{Bench, DeviceFault, StoreFault};
use job_file::CloseFault;
use job_text::Job;
use ram_arena::Arena;
use std::mem;
use target_core::{RunEnd, SliceEnd};

/// A player of a script. It is lent its job, its RAM and its bench. It keeps the calls of its algorithms, the window of its RAM, the
/// script's plans, a buffer for a page, the number of calls made, and its place. `calls` are those of the region that moved last.
#[derive(Drop)]
pub struct Player {
    pub calls: CallsIn,
    /// The region whose machine moved last.
    pub moved: RegionIndex,
    /// The calls of the other region, if the board has two.
    pub other: Option<CallsIn>,
    pub window: usize,
    pub work: SessionWork,
    pub page: Vec<u8>,
    pub made: u32,
    pub place: Place,
}

impl Player {
    /// The calls of a region.
    fn calls_on(&self, region: RegionIndex) -> &CallsIn
        ensures { result.now ≡ calls_on self.now region }
    {
        if region == self.moved {
            return &self.calls;
        }
        match &self.other {
            Some(other) => other,
            None => &self.calls,
        }
    }

    /// Whether the algorithm of a region can verify.
    fn can_verify(&self, region: RegionIndex) -> bool
        ensures { result ≡ has_verify (setup_on self.now region) }
    {
        self.calls_on(region).algorithm().entries.verify.is_some()
    }

    /// The next call of a phase of a region, from item `index` on.
    fn item(&self, region: RegionIndex, phase: Phase, index: u32) -> Option<Item>
        requires scripted { IsScripted self.now }
        requires there { IsThere (has_second self.now) region }
        ensures { IsItem (setup_on self.now region) (region_in self.now.work region)
            (calls_on_phase phase (setup_on self.now region) (region_in self.now.work region)) index result }
    {
        let can_verify = self.can_verify(region);
        self.work.region(region).item(can_verify, phase, index)
    }

    /// Whether a phase of a region has calls.
    fn has_calls(&self, region: RegionIndex, phase: Phase) -> bool
        requires scripted { IsScripted self.now }
        requires there { IsThere (has_second self.now) region }
        ensures { has_phase self.now region phase result }
    {
        self.item(region, phase, 0).is_some()
    }

    /// The verify phase of a region, if it has calls.
    fn from_verify(&self, region: RegionIndex) -> Option<Phase>
        requires scripted { IsScripted self.now }
        requires there { IsThere (has_second self.now) region }
        ensures { IsPhaseFrom self.now region stage.Verify result }
    {
        if self.has_calls(region, Phase::Verify) {
            return Some(Phase::Verify);
        }
        None
    }

    /// The program phase of a region if it has calls, else the verify phase if that has.
    fn from_program(&self, region: RegionIndex) -> Option<Phase>
        requires scripted { IsScripted self.now }
        requires there { IsThere (has_second self.now) region }
        ensures { IsPhaseFrom self.now region stage.Program result }
    {
        if self.has_calls(region, Phase::Program) {
            return Some(Phase::Program);
        }
        self.from_verify(region)
    }

    /// The first phase of a region that has calls.
    fn from_erase(&self, region: RegionIndex) -> Option<Phase>
        requires scripted { IsScripted self.now }
        requires there { IsThere (has_second self.now) region }
        ensures { IsPhaseFrom self.now region stage.Erase result }
    {
        if self.has_calls(region, Phase::Erase) {
            return Some(Phase::Erase);
        }
        self.from_program(region)
    }

    /// The first phase of a region from this one on that has calls.
    fn phase_from(&self, region: RegionIndex, phase: Phase) -> Option<Phase>
        requires scripted { IsScripted self.now }
        requires there { IsThere (has_second self.now) region }
        ensures { IsPhaseFrom self.now region phase result }
    {
        match phase {
            Phase::Erase => self.from_erase(region),
            Phase::Program => self.from_program(region),
            Phase::Verify => self.from_verify(region),
        }
    }

    /// The step after the first region: the first phase of a second region that has calls, else the last reset.
    fn second_region(&self) -> Step
        requires scripted { IsScripted self.now }
        requires there { IsTrue (has_second self.now) }
        ensures step { IsStepBehind self.now First result }
        ensures kind { IsNoCall result }
    {
        match self.phase_from(RegionIndex::Second, Phase::Erase) {
            Some(phase) => Step::Begin {
                region: RegionIndex::Second,
                phase,
            },
            None => Step::Last,
        }
    }

    /// Whether no region follows this one.
    fn is_last(&self, region: RegionIndex) -> bool
        ensures { result ≡ is_last (has_second self.now) region }
    {
        match region {
            RegionIndex::First => self.work.second.is_none(),
            RegionIndex::Second => true,
        }
    }

    /// The step after a region.
    fn behind(&self, region: RegionIndex) -> Step
        requires { IsScripted self.now }
        ensures step { IsStepBehind self.now region result }
        ensures kind { IsNoCall result }
    {
        if self.is_last(region) {
            return Step::Last;
        }
        self.second_region()
    }

    /// The first phase of a region from this one on that has calls, else what follows the region.
    fn begin(&self, region: RegionIndex, phase: Phase) -> Step
        requires scripted { IsScripted self.now }
        requires there { IsThere (has_second self.now) region }
        ensures step { IsStep self.now (at.Begin region phase) result }
        ensures kind { IsNoCall result }
    {
        match self.phase_from(region, phase) {
            Some(phase) => Step::Begin { region, phase },
            None => self.behind(region),
        }
    }

    /// The place after a phase.
    fn after(&self, region: RegionIndex, phase: Phase) -> Cursor
        ensures { result ≡ after (has_second self.now) region phase }
    {
        match phase {
            Phase::Erase => Cursor::Begin {
                region,
                phase: Phase::Program,
            },
            Phase::Program => Cursor::Begin {
                region,
                phase: Phase::Verify,
            },
            Phase::Verify => {
                if self.is_last(region) {
                    Cursor::Last
                } else {
                    Cursor::Begin {
                        region: RegionIndex::Second,
                        phase: Phase::Erase,
                    }
                }
            }
        }
    }

    /// The next call of a phase from item `index` on, or the phase's UnInit.
    fn call_step(&self, region: RegionIndex, phase: Phase, index: u32) -> Step
        requires scripted { IsScripted self.now }
        requires cursor { IsCursor (has_second self.now) self.now.moved (at.Calls region phase index) }
        ensures step { IsStep self.now (at.Calls region phase index) result }
        ensures kind { IsCall result }
    {
        match self.item(region, phase, index) {
            Some(item) => Step::Call {
                call: item.call,
                from: self.work.region(region).start + item.from,
                len: item.len,
                next: Cursor::Calls {
                    region,
                    phase,
                    index: item.index + 1,
                },
            },
            None => Step::Call {
                call: Call::UnInit { kind: phase.kind() },
                from: 0,
                len: 0,
                next: self.after(region, phase),
            },
        }
    }

    /// The next step of the script.
    fn step(&self, cursor: Cursor) -> Step
        requires scripted { IsScripted self.now }
        requires cursor { IsCursor (has_second self.now) self.now.moved cursor }
        ensures step { IsStep self.now cursor result }
        ensures kind { IsKind cursor result }
    {
        match cursor {
            Cursor::Begin { region, phase } => self.begin(region, phase),
            Cursor::Init { region, phase } => Step::Call {
                call: Call::Init { kind: phase.kind() },
                from: 0,
                len: 0,
                next: Cursor::Calls {
                    region,
                    phase,
                    index: 0,
                },
            },
            Cursor::Calls {
                region,
                phase,
                index,
            } => self.call_step(region, phase, index),
            Cursor::Last => Step::Last,
        }
    }
}

/// Reads the bytes of a call into the buffer, and prepares the call. Returns the most steps that the call may make.
fn prepare_with<B: Bench>(
    calls: &mut CallsIn,
    arena: &mut Arena,
    window: usize,
    bench: &mut B,
    job: &Job,
    goal: Goal,
    bytes: &mut [u8],
    call: Call,
    from: u32,
) -> Result<u64, StoreFault>
    requires fits { Fits calls.old arena.old window }
    requires may { (b : List ℕ) → length b ≡ length bytes.old → MayAsk (setup_at calls.old) call b }
    requires range { from + length bytes.old ≤ size_of job.now.board.regions }
    requires stands { IsTrue B.tells → StandsFor job.now (B.state bench.old).file }
    ensures prepares { Prepares B.tells calls.old arena.old window (goal_in job.now goal (B.state bench.old).file) call from
        (length bytes.old) result calls.new arena.new }
    ensures long { length bytes.new ≡ length bytes.old }
    ensures reads { OnlyReads B.tells (B.state bench.old) (B.state bench.new) }
    ensures cause { HasCause (B.state bench.old).store_faults (B.state bench.new).store_faults result }
{
    match read_bytes(bench, job, goal, from, bytes) {
        Ok(()) => Ok(calls.prepare(arena, window, &call, bytes)),
        Err(StoreFault) => Err(StoreFault),
    }
}

/// Prepares a call with the bytes that it needs, read into the front of the buffer.
fn prepare_from<B: Bench>(
    calls: &mut CallsIn,
    arena: &mut Arena,
    window: usize,
    bench: &mut B,
    job: &Job,
    goal: Goal,
    page: &mut [u8],
    call: Call,
    from: u32,
    len: u32,
) -> Result<u64, StoreFault>
    requires fits { Fits calls.old arena.old window }
    requires may { (b : List ℕ) → length b ≡ len → MayAsk (setup_at calls.old) call b }
    requires room { len ≤ length page.old }
    requires range { from + len ≤ size_of job.now.board.regions }
    requires stands { IsTrue B.tells → StandsFor job.now (B.state bench.old).file }
    ensures prepares { Prepares B.tells calls.old arena.old window (goal_in job.now goal (B.state bench.old).file) call from
        len result calls.new arena.new }
    ensures long { length page.new ≡ length page.old }
    ensures reads { OnlyReads B.tells (B.state bench.old) (B.state bench.new) }
    ensures cause { HasCause (B.state bench.old).store_faults (B.state bench.new).store_faults result }
{
    let bytes = &mut page[..len as usize];
    prepare_with(calls, arena, window, bench, job, goal, bytes, call, from)
}

/// The end of a session, by the end of its script.
fn session_end(end: &TargetEnd) -> SessionEnd
    requires { IsPlayed (place.Ended end.now) }
    ensures { IsEndOf end.now result }
{
    match end {
        TargetEnd::CallFailed { number, call, end } => SessionEnd::CallFailed {
            number: *number,
            call: *call,
            end: *end,
        },
        TargetEnd::Mismatch(difference) => SessionEnd::Mismatch(*difference),
        TargetEnd::StoreFault => SessionEnd::StoreFault,
        TargetEnd::DeviceFault => SessionEnd::DeviceFault,
        TargetEnd::Done | TargetEnd::Open(_) | TargetEnd::Survey(_) => unreachable!(),
    }
}

impl Player {
    /// Replaces the machine that moved last by the other region's machine, which starts as after a reset. No bench is called.
    fn exchange(&mut self, arena: &mut Arena)
        requires { IsSomeAnd self.old.other (λ c. Fits c arena.old self.old.window) }
        ensures { IsSomeAnd self.old.other (IsExchanged self.old arena.old self.new arena.new) }
    {
        match &mut self.other {
            Some(other) => {
                mem::swap(&mut self.calls, other);
                self.calls.restart(arena, self.window);
                self.moved = self.moved.other();
            }
            None => unreachable!(),
        }
    }

    /// Makes the machine of a region the one that moves. The one that moved last was just reset.
    fn turn_to(&mut self, arena: &mut Arena, region: RegionIndex)
        requires twins { AreTwins self.old }
        requires there { IsThere (has_second self.old) region }
        requires fits { Fits self.old.calls arena.old self.old.window }
        ensures { TurnsTo region self.old arena.old self.new arena.new }
    {
        if region != self.moved {
            self.exchange(arena);
        }
    }

    /// Restarts the player before its first move, as after a reset. No bench is called.
    pub(crate) fn restart(&mut self, arena: &mut Arena)
        requires twins { AreTwins self.old }
        requires fits { Fits self.old.calls arena.old self.old.window }
        ensures { Restarts self.old arena.old self.new arena.new }
    {
        self.calls.restart(arena, self.window);
        self.turn_to(arena, RegionIndex::First);
        self.made = 0;
        self.place = Place::At(Cursor::Begin {
            region: RegionIndex::First,
            phase: Phase::Erase,
        });
    }

    /// Makes the reset and the load of a phase.
    fn begin_phase<B: Bench>(
        &mut self,
        arena: &mut Arena,
        bench: &mut B,
        cursor: Cursor,
        region: RegionIndex,
        phase: Phase,
    )
        requires fit { Fit B.tells self.old arena.old (B.state bench.old) }
        requires place { self.old.place ≡ place.At cursor }
        requires step { IsStep self.old cursor (step.Begin region phase) }
        requires kind { IsKind cursor (step.Begin region phase) }
        ensures turns { (goal : List ℕ) → Turns B.tells goal self.old arena.old (B.state bench.old) self.new arena.new (B.state bench.new) }
        ensures host { (goal : List ℕ) → IsHost B.tells goal self.old arena.old (B.state bench.old) cursor self.new arena.new (B.state bench.new) }
        ensures one { FromCursor cursor self.new.place }
    {
        match self.calls.reset(arena, self.window, bench) {
            Ok(()) => {
                self.turn_to(arena, region);
                self.calls.load(arena, self.window);
                self.place = Place::At(Cursor::Init { region, phase });
            }
            Err(DeviceFault) => self.place = Place::Ended(TargetEnd::DeviceFault),
        }
    }

    /// Makes the last reset.
    fn last_reset<B: Bench>(&mut self, arena: &mut Arena, bench: &mut B, cursor: Cursor)
        requires fit { Fit B.tells self.old arena.old (B.state bench.old) }
        requires place { self.old.place ≡ place.At cursor }
        requires step { IsStep self.old cursor step.Last }
        requires kind { IsKind cursor step.Last }
        ensures turns { (goal : List ℕ) → Turns B.tells goal self.old arena.old (B.state bench.old) self.new arena.new (B.state bench.new) }
        ensures host { (goal : List ℕ) → IsHost B.tells goal self.old arena.old (B.state bench.old) cursor self.new arena.new (B.state bench.new) }
        ensures one { FromCursor cursor self.new.place }
    {
        match self.calls.reset(arena, self.window, bench) {
            Ok(()) => self.place = Place::Comparing { at: 0 },
            Err(DeviceFault) => self.place = Place::Ended(TargetEnd::DeviceFault),
        }
    }

    /// Prepares a call, with its bytes of the goal.
    fn prepare<B: Bench>(
        &mut self,
        job: &Job,
        arena: &mut Arena,
        bench: &mut B,
        cursor: Cursor,
        call: Call,
        from: u32,
        len: u32,
        next: Cursor,
    )
        requires fit { Fit B.tells self.old arena.old (B.state bench.old) }
        requires place { self.old.place ≡ place.At cursor }
        requires step { IsStep self.old cursor (step.Call call from len next) }
        requires kind { IsKind cursor (step.Call call from len next) }
        requires size { size_of job.now.board.regions ≡ size_for self.old }
        requires stands { IsTrue B.tells → StandsFor job.now (B.state bench.old).file }
        ensures turns { Turns B.tells (goal_for job.now self.old (B.state bench.old).file) self.old arena.old (B.state bench.old) self.new arena.new
            (B.state bench.new) }
        ensures host { IsHost B.tells (goal_for job.now self.old (B.state bench.old).file) self.old arena.old (B.state bench.old) cursor self.new
            arena.new (B.state bench.new) }
        ensures one { FromCursor cursor self.new.place }
    {
        match prepare_from(
            &mut self.calls,
            arena,
            self.window,
            bench,
            job,
            self.work.goal,
            &mut self.page,
            call,
            from,
            len,
        ) {
            Ok(left) => {
                self.place = Place::In {
                    call,
                    len,
                    left,
                    next,
                };
            }
            Err(StoreFault) => self.place = Place::Ended(TargetEnd::StoreFault),
        }
    }

    /// Makes one host action of the script.
    fn host<B: Bench>(&mut self, job: &Job, arena: &mut Arena, bench: &mut B, cursor: Cursor)
        requires fit { Fit B.tells self.old arena.old (B.state bench.old) }
        requires place { self.old.place ≡ place.At cursor }
        requires size { size_of job.now.board.regions ≡ size_for self.old }
        requires stands { IsTrue B.tells → StandsFor job.now (B.state bench.old).file }
        ensures turns { Turns B.tells (goal_for job.now self.old (B.state bench.old).file) self.old arena.old (B.state bench.old) self.new arena.new
            (B.state bench.new) }
        ensures host { IsHost B.tells (goal_for job.now self.old (B.state bench.old).file) self.old arena.old (B.state bench.old) cursor self.new
            arena.new (B.state bench.new) }
        ensures one { FromCursor cursor self.new.place }
    {
        match self.step(cursor) {
            Step::Begin { region, phase } => self.begin_phase(arena, bench, cursor, region, phase),
            Step::Call {
                call,
                from,
                len,
                next,
            } => self.prepare(job, arena, bench, cursor, call, from, len, next),
            Step::Last => self.last_reset(arena, bench, cursor),
        }
    }

    /// Decides what follows a call whose run has ended.
    fn judge(&mut self, call: Call, len: u32, next: Cursor, end: RunEnd)
        requires { self.old.made + 1 < 2 ^ 32 }
        ensures { Judges self.old call len next end self.new }
    {
        match self.calls.end_of(&call, len, end) {
            CallEnd::Done => {
                self.made += 1;
                self.place = Place::At(next);
            }
            CallEnd::Refused { r0 } => {
                self.place = Place::Ended(TargetEnd::CallFailed {
                    number: self.made + 1,
                    call,
                    end: CallEnd::Refused { r0 },
                });
            }
            CallEnd::Ended(end) => {
                self.place = Place::Ended(TargetEnd::CallFailed {
                    number: self.made + 1,
                    call,
                    end: CallEnd::Ended(end),
                });
            }
            CallEnd::DeviceFault => self.place = Place::Ended(TargetEnd::DeviceFault),
        }
    }

    /// Makes the next steps of a call.
    fn go_on<B: Bench>(
        &mut self,
        arena: &mut Arena,
        bench: &mut B,
        steps: u64,
        call: Call,
        len: u32,
        left: u64,
        next: Cursor,
    )
        requires fit { Fit B.tells self.old arena.old (B.state bench.old) }
        requires place { self.old.place ≡ place.In call len left next }
        requires steps { 1 ≤ steps }
        ensures turns { (goal : List ℕ) → Turns B.tells goal self.old arena.old (B.state bench.old) self.new arena.new (B.state bench.new) }
        ensures one { FromCall steps call len left next self.new.place }
        ensures slice { Slice B.tells steps call len left next self.old arena.old (B.state bench.old) self.new arena.new (B.state bench.new) }
    {
        let mut left = left;
        match self
            .calls
            .slice(arena, self.window, bench, &mut left, steps)
        {
            SliceEnd::More => {
                self.place = Place::In {
                    call,
                    len,
                    left,
                    next,
                };
            }
            SliceEnd::Ended(end) => self.judge(call, len, next, end),
        }
    }

    /// Compares the next cells with the goal, through these windows.
    fn compare_through<B: Bench>(
        &mut self,
        job: &Job,
        arena: &mut Arena,
        bench: &mut B,
        at: u32,
        wanted: &mut [u8],
        cells: &mut [u8],
    )
        requires fit { Fit B.tells self.old arena.old (B.state bench.old) }
        requires place { self.old.place ≡ place.Comparing at }
        requires size { size_of job.now.board.regions ≡ size_for self.old }
        requires stands { IsTrue B.tells → StandsFor job.now (B.state bench.old).file }
        requires wanted { length wanted.old ≡ WINDOW }
        requires cells { length cells.old ≡ WINDOW }
        ensures turns { Turns B.tells (goal_for job.now self.old (B.state bench.old).file) self.old arena.old (B.state bench.old) self.new arena.new
            (B.state bench.new) }
        ensures still { IsStill B.tells self.old arena.old (B.state bench.old) self.new arena.new (B.state bench.new) }
        ensures one { FromCells (B.state bench.old).cell_count at self.new.place }
    {
        let count = bench.cells_len();
        let len = WINDOW.min((count - at) as usize);
        match compare_window(
            bench,
            job,
            self.work.goal,
            at,
            &mut wanted[..len],
            &mut cells[..len],
        ) {
            Ok(None) => {
                if at + len as u32 == count {
                    self.place = Place::Closing;
                } else {
                    self.place = Place::Comparing {
                        at: at + len as u32,
                    };
                }
            }
            Ok(Some(difference)) => {
                self.place = Place::Ended(TargetEnd::Mismatch(difference));
            }
            Err(Unread::Device) => self.place = Place::Ended(TargetEnd::DeviceFault),
            Err(Unread::Store) => self.place = Place::Ended(TargetEnd::StoreFault),
        }
    }

    /// Compares the next cells with the goal.
    fn compare<B: Bench>(&mut self, job: &Job, arena: &mut Arena, bench: &mut B, at: u32)
        requires fit { Fit B.tells self.old arena.old (B.state bench.old) }
        requires place { self.old.place ≡ place.Comparing at }
        requires size { size_of job.now.board.regions ≡ size_for self.old }
        requires stands { IsTrue B.tells → StandsFor job.now (B.state bench.old).file }
        ensures turns { Turns B.tells (goal_for job.now self.old (B.state bench.old).file) self.old arena.old (B.state bench.old) self.new arena.new
            (B.state bench.new) }
        ensures still { IsStill B.tells self.old arena.old (B.state bench.old) self.new arena.new (B.state bench.new) }
        ensures one { FromCells (B.state bench.old).cell_count at self.new.place }
    {
        self.compare_through(job, arena, bench, at, &mut [0; WINDOW], &mut [0; WINDOW]);
    }

    /// Closes the job.
    fn close<B: Bench>(&mut self, arena: &mut Arena, bench: &mut B)
        requires fit { Fit B.tells self.old arena.old (B.state bench.old) }
        requires place { self.old.place ≡ place.Closing }
        requires whole { IsTrue B.tells → IsWhole (drop 1 (B.state bench.old).file) (B.state bench.old).file }
        requires only { IsTrue B.tells → LeftOnly (B.state bench.old).file (file_half (B.state bench.old)) }
        ensures turns { (goal : List ℕ) → Turns B.tells goal self.old arena.old (B.state bench.old) self.new arena.new (B.state bench.new) }
        ensures still { IsStill B.tells self.old arena.old (B.state bench.old) self.new arena.new (B.state bench.new) }
        ensures one { IsOver self.new.place }
    {
        match job_file::close(bench) {
            Ok(()) => self.place = Place::Ended(TargetEnd::Done),
            Err(CloseFault::StoreFault) => self.place = Place::Ended(TargetEnd::StoreFault),
        }
    }

    /// Whether the cells are the goal and the job is not yet closed.
    fn is_closing(&self) -> bool
        ensures { result ≡ at_close self.now.place }
    {
        match self.place {
            Place::Closing => true,
            Place::At(_) | Place::In { .. } | Place::Comparing { .. } | Place::Ended(_) => false,
        }
    }

    /// Makes at most `steps` steps of a call that runs, or one host action of the script or of the comparison. A call that ends is judged
    /// in the same turn. It takes no memory.
    fn play<B: Bench>(&mut self, job: &Job, arena: &mut Arena, bench: &mut B, steps: u64)
        requires playing { IsPlaying self.old.place }
        requires fit { Fit B.tells self.old arena.old (B.state bench.old) }
        requires steps { 1 ≤ steps }
        requires size { size_of job.now.board.regions ≡ size_for self.old }
        requires stands { IsTrue B.tells → StandsFor job.now (B.state bench.old).file }
        ensures turns { Turns B.tells (goal_for job.now self.old (B.state bench.old).file) self.old arena.old (B.state bench.old) self.new arena.new
            (B.state bench.new) }
        ensures one { TakesOn steps (B.state bench.old).cell_count self.old.place self.new.place }
        ensures slice { SliceOf B.tells (goal_for job.now self.old (B.state bench.old).file) steps self.old.place self.old arena.old (B.state bench.old)
            self.new arena.new (B.state bench.new) }
    {
        match self.place {
            Place::At(cursor) => self.host(job, arena, bench, cursor),
            Place::In {
                call,
                len,
                left,
                next,
            } => self.go_on(arena, bench, steps, call, len, left, next),
            Place::Comparing { at } => self.compare(job, arena, bench, at),
            Place::Closing | Place::Ended(_) => unreachable!(),
        }
    }

    /// One turn of a target that has not ended: it does what `play` does, or closes the job. It takes no memory.
    pub fn turn<B: Bench>(&mut self, job: &Job, arena: &mut Arena, bench: &mut B, steps: u64)
        requires unended { IsUnended self.old.place }
        requires fit { Fit B.tells self.old arena.old (B.state bench.old) }
        requires steps { 1 ≤ steps }
        requires size { size_of job.now.board.regions ≡ size_for self.old }
        requires stands { IsTrue B.tells → StandsFor job.now (B.state bench.old).file }
        requires only { IsTrue B.tells → LeftOnly (B.state bench.old).file (file_half (B.state bench.old)) }
        ensures turns { Turns B.tells (goal_for job.now self.old (B.state bench.old).file) self.old arena.old (B.state bench.old) self.new arena.new
            (B.state bench.new) }
        ensures one { TakesOn steps (B.state bench.old).cell_count self.old.place self.new.place }
        ensures slice { SliceOf B.tells (goal_for job.now self.old (B.state bench.old).file) steps self.old.place self.old arena.old (B.state bench.old)
            self.new arena.new (B.state bench.new) }
    {
        if self.is_closing() {
            self.close(arena, bench);
        } else {
            self.play(job, arena, bench, steps);
        }
    }

    /// The end of a session that stops here; none while more is to be played. The close is still to come.
    fn stop(&self) -> Option<SessionEnd>
        requires { IsPlayed self.now.place }
        ensures { IsStop self.now.place result }
    {
        match &self.place {
            Place::At(_) | Place::In { .. } | Place::Comparing { .. } => None,
            Place::Closing => Some(SessionEnd::Reached(Reached)),
            Place::Ended(end) => Some(session_end(end)),
        }
    }

    /// Plays the whole script, all steps of a call in one turn, and compares all cells with the goal. It takes no memory.
    pub fn go<B: Bench>(&mut self, job: &Job, arena: &mut Arena, bench: &mut B) -> SessionEnd
        requires fit { Fit B.tells self.old arena.old (B.state bench.old) }
        requires first { self.old.place ≡ place.At (at.Begin First stage.Erase) }
        requires made { self.old.made ≡ 0 }
        requires size { size_of job.now.board.regions ≡ size_for self.old }
        requires stands { IsTrue B.tells → StandsFor job.now (B.state bench.old).file }
        ensures follows { IsTrue B.tells → let goal = goal_for job.now self.old (B.state bench.old).file in Follows (all_legs (legs_for self.old goal)) goal
            (stand_at 0 (point_for self.old arena.old (B.state bench.old).cells).world) result (B.state bench.old) (B.state bench.new) }
        ensures idle { IsTrue B.tells → IsCompared result → (B.state bench.new).operation ≡ None }
        ensures sound { IsSound (size_for self.old) result }
        ensures same { SameTarget self.old self.new }
        ensures page { length self.new.page.items ≡ length self.old.page.items }
        ensures fit { Fit B.tells self.new arena.new (B.state bench.new) }
        ensures count { (B.state bench.new).cell_count ≡ (B.state bench.old).cell_count }
        ensures file { FileIsRead B.tells (B.state bench.old) (B.state bench.new) }
        ensures store { IsCounted (B.state bench.old).store_faults (B.state bench.new).store_faults (is_store_fault (end_fault result)) }
        ensures cause { IsCounted (B.state bench.old).device_faults (B.state bench.new).device_faults (is_device_fault (end_fault result)) }
    {
        'turns: loop {
            match self.stop() {
                Some(end) => return end,
                None => self.play(job, arena, bench, u64::MAX),
            }
        }
    }

    /// Whether the target has ended.
    pub fn state(&self) -> Turn
        ensures { result ≡ turn_of self.now.place }
    {
        match self.place {
            Place::Ended(_) => Turn::Ended,
            Place::At(_) | Place::In { .. } | Place::Comparing { .. } | Place::Closing =>
                Turn::More,
        }
    }

    /// How the target has ended; none if it has not.
    pub fn end(&self) -> Option<&TargetEnd>
        ensures { IsEndAt self.now.place result }
    {
        match &self.place {
            Place::Ended(end) => Some(end),
            Place::At(_) | Place::In { .. } | Place::Comparing { .. } | Place::Closing => None,
        }
    }
}
