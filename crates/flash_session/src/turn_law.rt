//! The laws on the turns of a target.
ghost use Rattle.std.specs.Prelude.{◌≡◌, ℕ, List, []};
ghost use Rattle.bench_model.specs.History.{Leaves};
ghost use Rattle.bench_model.specs.State.{cells_half};
ghost use Rattle.flash_session.specs.Moves.{Move, Stand, stand_at, IsOnPath, IsLeftOnWay};
ghost use Rattle.flash_session.specs.Script.{Leg, Broken, script};
ghost use Rattle.flash_session.specs.declared.cursor.Cursor.TheVariants as at;
ghost use Rattle.flash_session.specs.declared.phase.Phase.TheVariants as stage;
ghost use Rattle.flash_session.specs.declared.cursor.Place.TheVariants as place;
ghost use Rattle.flash_session.specs.declared.target_end.TargetEnd.{TargetEnd};
ghost use Rattle.flash_session.specs.declared.player.Player.{Player};
ghost use Rattle.flash_session.specs.Alone.{FollowsAs};
ghost use Rattle.flash_session.specs.Regions.{First};
ghost use Rattle.flash_session.specs.Rest.{all_legs};
ghost use Rattle.flash_session.specs.Stands.{HasEnded, StandsOn};
ghost use Rattle.flash_session.specs.Targets.{legs_for, point_for};
ghost use Rattle.flash_session.specs.Turns.{IsUnended};

use bench_model::Bench;

/// A target that has ended, with the moments of all its turns, has an outcome of its own script.
pub fn targets_end_as_alone<B: Bench>()
    ensures { (legs : List Leg) (goal : List ℕ) (a : Stand) (way : List Move) (e : TargetEnd) (start now : B) → HasEnded legs goal a way e (B.state now)
        → Leaves (cells_half (B.state start)) (cells_half (B.state now)) (IsLeftOnWay a way) → FollowsAs legs goal a e (B.state start) (B.state now) }
{}

/// Before its first turn a target has made no move of its script.
pub fn targets_begin<B: Bench>()
    ensures { (x : Player) (goal : List ℕ) (arena : List (List ℕ)) (now : B) → x.place ≡ place.At (at.Begin First stage.Erase) → x.made ≡ 0
        → StandsOn (stand_at 0 (point_for x arena (B.state now).cells).world) [] goal x arena (B.state now) }
{}

/// A target that has not ended is at a point of its own script's path, whatever cells the resets still to come leave.
pub fn targets_stand_on_their_path<B: Bench>()
    ensures { (x : Player) (goal : List ℕ) (arena : List (List ℕ)) (a : Stand) (way : List Move) (now : B) → IsUnended x.place
        → StandsOn a way goal x arena (B.state now)
        → (b : Broken) → (whole : Broken) × IsOnPath a (script (all_legs (legs_for x goal)) whole) (point_for x arena (B.state now).cells).world }
{}
