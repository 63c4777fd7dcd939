//! The law over campaigns.
ghost use Rattle.std.specs.Prelude.{ℕ, List};
ghost use Rattle.command_words.specs.Files.{FilesAsked};
ghost use Rattle.promise.specs.Job.{EachCellIsLaid, SizeStays};
ghost use Rattle.promise.specs.Promise.{Call};
ghost use Rattle.promise.specs.Campaign.{Later, AreSafe};
ghost use Rattle.promise.specs.Recovery.{AreRecovered};

/// A first call and later ones. It is a trait because a clause can't speak of each bench's history, while a ghost member can.
pub trait Campaign {
    ghost first: { Call };

    ghost later: { List Later };
}

/// A call of `program` or `begin` that keeps the promise is followed by any list of calls of `resume` and `revert` that keep it. Each of
/// them may be stopped at any moment. What a stop leaves is untouched, whole, or finished, with the one job of the first call and the
/// goal of the last call that reached its close.
pub fn promises_make_campaigns_safe<C: Campaign>()
    ensures { (asked : FilesAsked) (end : ℕ) → AreSafe asked C.first end C.later }
{}

/// A call of `program` or `begin` is followed by any list of calls of `resume` and `revert`. Each of them may be stopped at any moment.
/// Wherever a stop left the job's file whole, the next call brings the job to its goal with status 0, or answers 1 if it runs out of
/// memory. This holds if the algorithms keep their duties and no fault is counted. That goal is the image laid over the cells that the
/// first call found, and for `revert` those cells.
pub fn campaigns_recover<C: Campaign>()
    ensures { (asked : FilesAsked) (end : ℕ) → AreRecovered asked C.first end C.later }
{}

/// What it means, cell by cell, to lay an image over cells.
pub fn each_cell_is_laid()
    ensures cells { EachCellIsLaid }
    ensures size { SizeStays }
{}
