//! A job in memory.
ghost use Rattle.std.specs.Prelude.{◌≡◌, ◌≤◌, ◌<◌, ◌^◌, IsTrue, length};
ghost use Rattle.board_file.specs.Shown.{shown as board_shown};
ghost use Rattle.board_file.specs.Limits.{size_of};
ghost use Rattle.job_text.specs.Fits.{all_fit, LiesIn, LiesIn-prop};
ghost use Rattle.job_text.specs.Said.{algorithms_shown};

use crate::algorithms::Algorithms;
use crate::damage::Damage;
use board_file::Board;
use byte_map::ByteMap;

/// How many cells the regions of a board have.
pub fn cells_in(board: &Board) -> u32
    ensures { result ≡ size_of board.now.regions }
{
    let mut cells = 0;
    'regions: for region in board.regions.as_slice() {
        cells += region.size;
    }
    cells
}

/// A job: algorithms program an image on a board, over the contents that the device had when the job began. Addresses are those of the
/// board, in bytes; a cell is a byte.
#[derive(Drop)]
pub struct Job {
    /// The board.
    pub board: Board,
    /// The algorithm of each of the board's regions.
    pub algorithms: Algorithms,
    /// The image to be programmed, by address.
    pub image: ByteMap,
    /// The offset of the snapshot in the job file. It goes on to the file's end: the cells as they were, region after region.
    pub snapshot_at: u64,

    // Each region is the device of its algorithm, which has room in the board's RAM.
    pub ghost fit: { IsTrue (all_fit (board_shown board) board.regions (algorithms_shown algorithms)) },

    // The image isn't empty and lies in the regions.
    pub ghost some: { 1 ≤ length image },
    pub ghost inside: { LiesIn board.regions image } by { LiesIn-prop board.regions image },

    // The head, the texts and the runs before the snapshot take less than 2 ^ 34 bytes.
    pub ghost early: { snapshot_at < 2 ^ 34 },
}

impl Job {
    /// The total number of cells of the board's regions.
    pub fn cells(&self) -> u32
        ensures { result ≡ size_of self.now.board.regions }
    {
        cells_in(&self.board)
    }
}

/// What a job file is.
#[derive(Drop)]
pub enum Class {
    /// The file has at most one byte, or its gate is closed.
    Free,
    /// The gate of the file is open, and the body of a job follows.
    Stands(Job),
    /// The gate of the file is open, and a body of the second format follows with a hash that doesn't fit it.
    Damaged(Damage),
    /// None of these; the offset shows the first check that fails.
    NotAJob { at: u64 },
}
