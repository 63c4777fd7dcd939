//! The parts of a job that can be read out.

use command_words::TextForm;

/// A region of a board that has at most two.
#[derive(Clone, Copy)]
pub enum Place {
    First,
    Second,
}

/// A part of a job.
#[derive(Clone, Copy)]
pub enum Part {
    /// The listing of the job, line by line.
    Listing,

    /// The text of the job's board.
    Board,

    /// The FLM file of a region.
    Flm(Place),

    /// The job's image as a text.
    Image(TextForm),

    /// The cells as they were when the job began.
    Snapshot,
}
