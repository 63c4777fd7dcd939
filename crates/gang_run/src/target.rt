//! A target of a gang.
use flash_session::Player;
use job_text::Job;

/// A job, and the player of its script.
#[derive(Drop)]
pub(crate) struct GangTarget {
    pub job: Job,
    pub player: Player,
}
