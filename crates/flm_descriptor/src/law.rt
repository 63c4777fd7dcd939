//! The laws on the geometry of a device.
ghost use Rattle.std.specs.Prelude.{ℕ, ◌<◌, ◌≤◌, length};
ghost use Rattle.flm_descriptor.specs.declared.geometry.Run.{Run};
ghost use Rattle.flm_descriptor.specs.Shape.{cut, pages_of};
ghost use Rattle.flm_descriptor.specs.Laws.{AreCut, IsByDivision};

/// A range is cut into exactly the pieces that begin before its end, each at its place.
pub fn pieces_stand_in_order()
    ensures { (step start stop : ℕ) → 1 ≤ step → AreCut step start stop (cut step start stop) }
{}

/// A page of a run, by division by the pages of a full sector: the quotient is its sector, the remainder its number there.
pub fn pages_stand_by_division()
    ensures { (page : ℕ) (run : Run) (q : ℕ) → 1 ≤ page → 1 ≤ run.step → q < length (pages_of page (cut run.step run.start run.stop))
        → IsByDivision page run q }
{}
