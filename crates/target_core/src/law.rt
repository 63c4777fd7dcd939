//! The laws on runs: each run has one end, and slices of it, however it is cut, end as it does. Also the law on the block of registers.
ghost use Rattle.std.specs.Prelude.{◌≡◌, ◌≤◌, ◌+◌, ◌*◌, ℕ, false, length, List, Some};
ghost use Rattle.bench_model.specs.State.{SameOutside};
ghost use Rattle.board_file.specs.Kinds.{block_of};
ghost use Rattle.board_file.specs.declared.kind.ControllerKind.{ControllerKind};
ghost use Rattle.target_core.specs.AnyTable.{any_table};
ghost use Rattle.target_core.specs.declared.run.RunEnd.{RunEnd};
ghost use Rattle.target_core.specs.declared.run.SliceEnd.TheVariants.{More, Ended};
ghost use Rattle.target_core.specs.Local.{LieIn};
ghost use Rattle.target_core.specs.Path.{Point, GoesTo, IsLeftOnPath, is_device_end};
ghost use Rattle.target_core.specs.Runs.{HasOneEnd, GoesOnAs, RunGives, run_last};
ghost use Rattle.target_core.specs.Targets.{SliceFrom, Sliced};

use bench_model::Bench;

/// A run has one end, after at most as many steps as it has fuel. Its end and its last point are computed from its first point, its return
/// point and its fuel. So two runs with the same of these end alike, unless a device failed.
pub fn runs_have_one_end<B: Bench>()
    ensures one { (return_at fuel : ℕ) (first : Point) → HasOneEnd return_at fuel first }
    ensures within { (return_at fuel : ℕ) (first : Point) → run_last return_at fuel first ≤ 2 * fuel + 1 }
    ensures alike { (return_at fuel : ℕ) (first : Point) (start s end t : B) (e f : RunEnd) (last other : Point)
        → RunGives return_at fuel first (B.state start) e last (B.state end) → RunGives return_at fuel first (B.state s) f other (B.state t)
        → is_device_end e ≡ false → is_device_end f ≡ false → (e ≡ f) × (last ≡ other) }
{}

/// From each of its whole steps a run continues as before, and so do its slices. The slice that ends is the run with the fuel left to it,
/// and a slice before a run is one run. So slices, however they are cut, end as the run does, at its last point. A stop of the power within
/// them leaves what a stop at a point of the run's path leaves.
pub fn slices_are_one_run<B: Bench>()
    ensures on { (return_at fuel : ℕ) (first : Point) (made : ℕ) → made ≤ fuel → GoesTo return_at fuel first made → GoesOnAs return_at fuel first made }
    ensures last { (return_at : ℕ) (first last : Point) (start end : B) (fuel left steps : ℕ) (e : RunEnd)
        → SliceFrom return_at first (B.state start) fuel left steps (Ended e) last (B.state end)
        → RunGives return_at fuel first (B.state start) e last (B.state end) }
    ensures first { (return_at : ℕ) (first between last : Point) (start turn end : B) (fuel left steps : ℕ) (e : RunEnd) → left ≤ fuel
        → SliceFrom return_at first (B.state start) fuel left steps More between (B.state turn)
        → RunGives return_at left between (B.state turn) e last (B.state end)
        → RunGives return_at fuel first (B.state start) e last (B.state end) }
    ensures cuts { (return_at : ℕ) (cuts : List ℕ) (first last : Point) (start end : B) (fuel : ℕ) (e : RunEnd)
        → Sliced B.state return_at cuts first start fuel e last end → RunGives return_at fuel first (B.state start) e last (B.state end) }
{}

/// While the operations of a path lie in a range of the cells, all other cells stay: a stop of the power at any point of the path leaves
/// them as they were at its first point.
pub fn paths_stay_in_a_range()
    ensures { (first : Point) (last : ℕ) (range : ℕ × ℕ) → range.0 + range.1 ≤ length first.world.cells → LieIn range first last
        → (c : List ℕ) → IsLeftOnPath first last c → SameOutside (Some range) first.world.cells c }
{}

/// The block that a board keeps free for its controller's registers has the size that the controller's table says.
pub fn blocks_are_of_one_size()
    ensures { (kind : ControllerKind) → any_table.block kind ≡ block_of kind }
{}
