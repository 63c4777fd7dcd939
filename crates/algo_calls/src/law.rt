//! The laws on calls and resets.
ghost use Rattle.std.specs.Prelude.{◌≡◌, ◌≤◌, ◌+◌, ◌-◌, ◌*◌, ℕ, false, length, List, Option, Some, None};
ghost use Rattle.bench_model.specs.Calls.{written};
ghost use Rattle.bench_model.specs.State.{SameOutside, cells_half};
ghost use Rattle.bench_model.specs.History.{Leaves};
ghost use Rattle.page_geometry.specs.Geometry.{IsGeometry};
ghost use Rattle.target_core.specs.declared.run.RunEnd.{RunEnd};
ghost use Rattle.target_core.specs.Path.{Point};
ghost use Rattle.target_core.specs.Runs.{BreaksOffOn, IsLeftOn, Piece, StandsOn};
ghost use Rattle.target_core.specs.Targets.{Sliced};
ghost use Rattle.target_core.specs.Units.{state_op};
ghost use Rattle.target_core.specs.World.{World};
ghost use Rattle.algo_calls.specs.declared.call.CallEnd.{CallEnd};
ghost use Rattle.algo_calls.specs.Calls.{after_reset, broken_off, CallGives};
ghost use Rattle.algo_calls.specs.Duties.{place_of, request_of, Does, Duty, Keeps, Site};
ghost use Rattle.algo_calls.specs.Ends.{is_device_call, call_end_of, success_of, IsFromCode};
ghost use Rattle.algo_calls.specs.Frames.{after, end_of, first_point, fuel_of, most_fuel, path_of, run_end_in, Request};
ghost use Rattle.algo_calls.specs.Laws.{EndsExactly, InTurn};
ghost use Rattle.algo_calls.specs.Setups.{Setup};

use bench_model::Bench;

/// A call has one end, and its path is no longer than its fuel allows. The path begins with the controller and the cells as they are. The
/// end of the run decides the end of the call. `Ended` never holds a return or a device fault. Two calls of one request from one target end
/// alike, unless a device failed.
pub fn calls_have_one_end<B: Bench>()
    ensures begins { (s : Setup) (w : World) (r : Request) → (path_of s w r).first.world
        ≡ record w { ram = written (s.layout.buffer_at - s.layout.return_at) r.bytes w.ram } }
    ensures ends { (s : Setup) (w : World) (r : Request) → EndsExactly (success_of r.call (length r.bytes)) (run_end_in s w r) (end_of s w r) }
    ensures from_code { (s : Setup) (w : World) (r : Request) → IsFromCode (end_of s w r) }
    ensures within { (s : Setup) (w : World) (r : Request) → (path_of s w r).last ≤ 2 * fuel_of s r.call + 1 }
    ensures limit { (s : Setup) (r : Request) → fuel_of s r.call ≤ most_fuel }
    ensures alike { (s : Setup) (w w' other : World) (r : Request) (start t end u : B) (e f : CallEnd)
        → CallGives s w r (B.state start) e w' (B.state end) → CallGives s w r (B.state t) f other (B.state u)
        → is_device_call e ≡ false → is_device_call f ≡ false → (e ≡ f) × (w' ≡ other) }
{}

/// The slices of a prepared call, however it is cut, end as the call's run does, on the same path.
pub fn slices_end_as_the_call<B: Bench>()
    ensures { (s : Setup) (w : World) (r : Request) (cuts : List ℕ) (start end : B) (e : RunEnd) (last : Point)
        → Sliced B.state s.layout.return_at cuts (first_point s w r) start (fuel_of s r.call) e last end
        → CallGives s w r (B.state start) (call_end_of (success_of r.call (length r.bytes)) e) last.world (B.state end) }
{}

/// Two calls in turn are one piece of work. The second starts from the target that the first leaves. A stop of the power at any moment of
/// both leaves what a stop at a point of either path leaves.
pub fn calls_in_turn_compose<B: Bench>()
    ensures { (s : Setup) (w between w' : World) (p q : Request) (start turn end : B) (e f : CallEnd) → is_device_call e ≡ false
        → CallGives s w p (B.state start) e between (B.state turn) → CallGives s between q (B.state turn) f w' (B.state end)
        → InTurn s w p q (B.state start) (B.state turn) f w' (B.state end) }
{}

/// What a reset leaves in the range of an operation that it breaks off is any bytes, and the cells outside stay: `broken_off` makes exactly
/// those contents. No operation runs after a reset. A stop of the power at any moment of a reset leaves what a stop at the point before the
/// reset would leave. This also holds after a call that a device fault broke off.
pub fn resets_break_off<B: Bench>()
    ensures stays { (operation : Option (ℕ × ℕ)) (torn cells : List ℕ) → SameOutside operation cells (broken_off operation torn cells) }
    ensures all { (operation : Option (ℕ × ℕ)) (cells left : List ℕ) → SameOutside operation cells left → left ≡ broken_off operation left cells }
    ensures idle { (s : Setup) (w : World) (operation : Option (ℕ × ℕ)) (torn : List ℕ) → state_op (after_reset s w operation torn).state ≡ None }
    ensures moments { (path : Piece) (start end : B) → StandsOn path (B.state start)
        → Leaves (cells_half (B.state start)) (cells_half (B.state end)) (SameOutside (B.state start).operation (B.state start).cells)
        → Leaves (cells_half (B.state start)) (cells_half (B.state end)) (IsLeftOn path) }
    ensures behind { (path : Piece) (start now : B) → BreaksOffOn path (B.state start) (B.state now) → StandsOn path (B.state now) }
{}

/// A call that keeps its duty leaves each cell outside its sector or page as it was, whenever the power stops. A call that must change
/// nothing leaves all cells so. A duty turns given cells into just one list of cells, with the cells of every other region as they were. No
/// call changes the board.
pub fn kept_calls_stay_in_their_place()
    ensures local { (s : Setup) (site : Site) (w : World) (d : Duty) → IsGeometry site.layout → site.start + site.layout.size
        ≤ length w.cells → Keeps s site w d
        → (c : List ℕ) → IsLeftOn (path_of s w (request_of s site.layout d)) c → SameOutside (place_of site d) w.cells c }
    ensures exact { (s : Setup) (site : Site) (d : Duty) (before x y : List ℕ) → Does s site before d x → Does s site before d y → x ≡ y }
    ensures others { (s : Setup) (site : Site) (d : Duty) (before x : List ℕ) → Does s site before d x
        → SameOutside (Some (site.start, site.layout.size)) before x }
    ensures board { (s : Setup) (w : World) (r : Request) → ((after s w r).ram_base ≡ w.ram_base) × ((after s w r).map ≡ w.map) }
{}
