//! The opening of a gang.
ghost use Rattle.std.specs.Prelude.{◌≡◌, ◌++◌, ◌∷◌, [], ℕ, List, IsTrue, IsSome, IfOk, OnOk, Option, None, Ok, Err, option_to_list};
ghost use Rattle.bench_model.specs.Calls.{IsRead};
ghost use Rattle.bench_model.specs.History.{LeftOnly};
ghost use Rattle.bench_model.specs.Pairs.{PairsLeave};
ghost use Rattle.bench_model.specs.State.{Left, file_half};
ghost use Rattle.board_file.specs.Limits.{size_of};
ghost use Rattle.job_file.specs.First.{SyncsFirst};
ghost use Rattle.job_text.specs.Stands.{StandsFor};
ghost use Rattle.job_text.specs.declared.job.Job.{Job};
ghost use Rattle.flash_session.specs.Parts.{IsPlayerOf};
ghost use Rattle.flash_session.specs.Sessions.{job_in, surveyed};
ghost use Rattle.flash_session.specs.Surveys.{Surveyed};
ghost use Rattle.gang_run.specs.Opening.{IsLookedAt, unread};
ghost use Rattle.gang_run.specs.Opens.{IsTargetOf, GivesSlot, Surveys, Opens, PutsSlot, AddsSlot, sizes_with};

use crate::slot::Slot;
use crate::target::GangTarget;
use bench_model::Bench;
use faults::OutOfMemory;
use flash_session::{Goal, Parts, Session, SessionFault, SurveyFault, TargetEnd};
use job_file::OpenFault;
use std::alloc::Global;

/// Makes a target of the parts of a session, with this window.
fn make_slot(parts: Parts, window: usize) -> Slot
    ensures { (j : Job) (w : Surveyed) → parts.job ≡ j → IsPlayerOf j w parts.player → IsTargetOf j w window result }
{
    let Parts { job, player } = parts;
    let mut player = player;
    player.window = window;
    Slot::Open(GangTarget { job, player })
}

/// The slot of a session's job after its survey: a target with this window, or how it has ended.
fn slot_of(
    session: Session,
    window: usize,
    found: Result<(), SurveyFault>,
) -> Result<Slot, OutOfMemory>
    requires { OnOk found (IsSome (surveyed session)) }
    ensures { GivesSlot (job_in session) (surveyed session) window found result }
{
    match found {
        Ok(()) => {
            let parts = session.into_parts();
            Ok(make_slot(parts, window))
        }
        Err(fault) => {
            session.free();
            refused(fault)
        }
    }
}

/// The slot of a job whose survey was refused: how its target has ended.
fn refused(fault: SurveyFault) -> Result<Slot, OutOfMemory>
    ensures { (j : Job) (found : Option Surveyed) (window : ℕ) → GivesSlot j found window (Err fault) result }
{
    match fault {
        SurveyFault::OutOfMemory => Err(OutOfMemory),
        SurveyFault::DeviceFault => Ok(Slot::Refused(TargetEnd::Survey(SurveyFault::DeviceFault))),
        SurveyFault::StoreFault => Ok(Slot::Refused(TargetEnd::Survey(SurveyFault::StoreFault))),
    }
}

/// Surveys the job of a session to its new goal, and makes a target of it, with this window.
fn survey_slot<B: Bench>(
    alloc: Global,
    bench: &mut B,
    session: Session,
    window: usize,
) -> Result<Slot, OutOfMemory>
    requires count { (B.state bench.old).cell_count ≡ size_of (job_in session).board.regions }
    requires idle { IsTrue B.tells → (B.state bench.old).operation ≡ None }
    requires stands { IsTrue B.tells → StandsFor (job_in session) (B.state bench.old).file }
    requires only { IsTrue B.tells → LeftOnly (B.state bench.old).file (file_half (B.state bench.old)) }
    ensures slot { IfOk result (λ slot. Surveys B.tells (job_in session) window slot (B.state bench.old) (B.state bench.new)) }
    ensures reads { IsRead B.tells (B.state bench.old) (B.state bench.new) }
    ensures pairs { PairsLeave (B.state bench.old) (B.state bench.new) (Left (B.state bench.old)) }
{
    let mut session = session;
    let found = session.survey(alloc, bench, Goal::New);
    slot_of(session, window, found)
}

/// Opens and surveys the job of a bench, and makes a target of it, with this window. A refusal is the target's end, except out of memory,
/// which is the error.
fn open_slot<B: Bench>(alloc: Global, bench: &mut B, window: usize) -> Result<Slot, OutOfMemory>
    ensures slot { IfOk result (λ slot. Opens B.tells window slot (B.state bench.old) (B.state bench.new)) }
    ensures looked { IsLookedAt B.tells (B.state bench.old) (B.state bench.new) }
    ensures first { SyncsFirst B.tells B.state B.acts bench.old bench.new (result ≡ Ok unread) }
{
    match Session::open(alloc, bench) {
        Ok(session) => survey_slot(alloc, bench, session, window),
        Err(SessionFault::OutOfMemory | SessionFault::Open(OpenFault::OutOfMemory)) => {
            Err(OutOfMemory)
        }
        Err(SessionFault::Open(fault)) => Ok(Slot::Refused(TargetEnd::Open(SessionFault::Open(
            fault,
        )))),
        Err(SessionFault::DeviceFault) => Ok(Slot::Refused(TargetEnd::Open(
            SessionFault::DeviceFault,
        ))),
    }
}

/// The bytes of a window for the RAM of a target: none where it has ended.
fn window_size(slot: &Slot) -> Option<u32>
    ensures { (sizes : List ℕ) → sizes_with slot.now sizes ≡ sizes ++ option_to_list result }
{
    match slot {
        Slot::Refused(_) => None,
        Slot::Open(target) => Some(target.job.board.ram_size),
    }
}

/// Adds a window, where there is one.
fn add_window(size: Option<u32>, sizes: &mut Vec<u32>) -> Result<(), OutOfMemory>
    ensures { OnOk result (sizes.new.items ≡ sizes.old.items ++ option_to_list size) }
{
    match size {
        None => Ok(()),
        Some(size) => {
            sizes.push(size)?;
            Ok(())
        }
    }
}

/// Opens a bench, and adds its slot and its window to those before it.
pub(crate) fn add_slot<B: Bench>(
    alloc: Global,
    bench: &mut B,
    slots: &mut Vec<Slot>,
    sizes: &mut Vec<u32>,
) -> Result<(), OutOfMemory>
    ensures added { AddsSlot B.tells slots.old.items sizes.old.items (B.state bench.old) slots.new.items sizes.new.items (B.state bench.new) result }
    ensures looked { IsLookedAt B.tells (B.state bench.old) (B.state bench.new) }
    ensures first { SyncsFirst B.tells B.state B.acts bench.old bench.new (OnOk result (slots.new.items ≡ slots.old.items ++ (unread ∷ []))) }
{
    match open_slot(alloc, bench, sizes.len()) {
        Ok(slot) => put_slot(slot, slots, sizes),
        Err(OutOfMemory) => Err(OutOfMemory),
    }
}

/// Adds a slot and its window.
fn put_slot(slot: Slot, slots: &mut Vec<Slot>, sizes: &mut Vec<u32>) -> Result<(), OutOfMemory>
    ensures { PutsSlot slot slots.old.items sizes.old.items slots.new.items sizes.new.items result }
{
    let size = window_size(&slot);
    slots.push(slot)?;
    match add_window(size, sizes) {
        Ok(()) => Ok(()),
        Err(OutOfMemory) => Err(OutOfMemory),
    }
}
