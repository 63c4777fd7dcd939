//! The laws on lists of turns.
ghost use Rattle.std.specs.Prelude.{◌≡◌, ◌<◌, ℕ, List, [], length, get_or, IsTrue, Option};
ghost use Rattle.std.specs.Borrow.{Bor};
ghost use Rattle.job_text.specs.declared.job.Job.{Job};
ghost use Rattle.job_text.specs.Files.{IsWhole};
ghost use Rattle.flash_session.specs.Moves.{Stand};
ghost use Rattle.flash_session.specs.declared.target_end.Turn.TheVariants as turn;
ghost use Rattle.gang_run.specs.declared.target.GangTarget.{GangTarget};
ghost use Rattle.flash_session.specs.Stands.{StandsOn};
ghost use Rattle.flash_session.specs.Targets.{goal_for};
ghost use Rattle.flash_session.specs.Turns.{IsUnended};
ghost use Rattle.gang_run.specs.declared.gang.Gang.{Gang};
ghost use Rattle.gang_run.specs.declared.slot.Slot.TheVariants as slot;
ghost use Rattle.gang_run.specs.Slots.{slot_turn, slot_end, IsSlotJob, HasJob};
ghost use Rattle.gang_run.specs.Gangs.{slot_at, IsGang, AreReady, OneTurn, AllSince, Playing};
ghost use Rattle.gang_run.specs.Alone.{EndsAlone};

use bench_model::Bench;

/// A gang lends no job exactly where a target's end is `Open` or `Survey`.
pub fn jobs_are_lent()
    ensures { (g : Gang) (i : ℕ) (found : Option (Bor Job)) → IsGang g → IsSlotJob (slot_at g i) found → HasJob (slot_end (slot_at g i)) found }
{}

/// An empty list of turns leaves each target where it is.
pub fn turns_begin<B: Bench>()
    ensures { (g : Gang) (benches : List B) → IsGang g → length benches ≡ length g.slots.items → AreReady B.Bench g benches
        → Playing B.Bench g benches g benches }
{}

/// If each target continued from where it stood, it still did so after one turn more. So this holds after any list of turns.
pub fn turns_go_on<B: Bench>()
    ensures { (old mid new : Gang) (benches between after : List B) (target : ℕ) → Playing B.Bench old benches mid between
        → OneTurn B.Bench target mid between new after → IsGang new → AreReady B.Bench new after
        → Playing B.Bench old benches new after }
{}

/// After any list of turns, each target that has ended, and had made no move before them, ended as it could alone.
pub fn targets_end_as_alone<B: Bench>()
    ensures { (old new : Gang) (benches after : List B) (i : ℕ) (d : B) (a : Stand) (x : GangTarget) (body : List ℕ) → IsTrue B.tells
        → AllSince B.Bench old benches new after → i < length benches
        → slot_at old i ≡ slot.Open x → IsUnended x.player.place → StandsOn a [] (goal_for x.job x.player (B.state (get_or benches i d)).file) x.player old.arena
        (B.state (get_or benches i d)) → IsWhole body (B.state (get_or benches i d)).file
        → slot_turn (slot_at new i) ≡ turn.Ended
        → EndsAlone a x (B.state (get_or benches i d)) (slot_at new i) (B.state (get_or after i d)) body }
{}
