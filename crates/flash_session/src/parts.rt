//! The parts of a session that its caller may take.
use crate::player::Player;
use job_text::Job;

/// A job, and the player of its script with the goal of the last survey, before its first move. The player may be given any window of an
/// arena.
#[derive(Drop)]
pub struct Parts {
    /// The job.
    pub job: Job,
    /// The player, with its calls, the goal, and the plan of each region of the job's board.
    pub player: Player,
}
