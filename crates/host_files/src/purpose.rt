//! What a command is about to do with its files.
ghost use Rattle.std.specs.Prelude.{◌≡◌, true, false, is_some};

use crate::file_id::FileId;

/// What a command is about to do with its files.
#[derive(Clone, Copy)]
pub enum Purpose {
    /// Only reads the files.
    Looks,
    /// Resumes the job in the job file, if there is one.
    GoesOn,
    /// May begin a job, in a job file that may not exist yet.
    Begins,
}

impl Purpose {
    /// Whether it changes the files. Resuming finds no job in a job file that doesn't exist, and then changes nothing.
    pub fn claims(self, job: Option<FileId>) -> bool
        ensures looks { self ≡ Purpose.Looks → result ≡ false }
        ensures goes_on { self ≡ Purpose.GoesOn → result ≡ is_some job }
        ensures begins { self ≡ Purpose.Begins → result ≡ true }
    {
        match self {
            Purpose::Looks => false,
            Purpose::GoesOn => job.is_some(),
            Purpose::Begins => true,
        }
    }
}
