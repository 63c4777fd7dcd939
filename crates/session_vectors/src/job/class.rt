//! What a file is, in words.

use anyhow::Result;
use job_text::{Class, class_of_file};
use std::alloc::Global;
use std::fmt;

/// What a file is. A file of the known job is distinguished from one of another job.
#[derive(Clone, Copy)]
pub enum Found {
    Free { len: usize },
    Damaged,
    NotAJob { at: u64 },
    Job,
    AnotherJob,
}

impl fmt::Display for Found {
    fn fmt<W: fmt::Write>(&self, f: &mut fmt::Formatter<W>) -> fmt::Result {
        match self {
            Found::Free { len } => write!(f, "free {len}"),
            Found::Damaged => write!(f, "damaged"),
            Found::NotAJob { at } => write!(f, "not a job at {at}"),
            Found::Job => write!(f, "job"),
            Found::AnotherJob => write!(f, "another job"),
        }
    }
}

/// What a file is. A file that stands for a job is either `job` itself, or that of another job.
pub fn class(alloc: Global, file: &[u8], job: &[u8]) -> Result<Found> {
    let stands = if file == job {
        Found::Job
    } else {
        Found::AnotherJob
    };
    Ok(match class_of_file(alloc, file)? {
        Class::Free => Found::Free { len: file.len() },
        Class::Damaged(_) => Found::Damaged,
        Class::NotAJob { at } => Found::NotAJob { at },
        Class::Stands(_) => stands,
    })
}
