//! Counts of what came, by kind.

use crate::print::Piece::{Number, Text};
use crate::print::put;

/// The statuses, in their order, and after them whatever else is answered.
pub const STATUSES: [&str; 16] = [
    "of status 0",
    "of status 1",
    "of status 2",
    "of status 3",
    "of status 4",
    "of status 5",
    "of status 6",
    "of status 7",
    "of status 8",
    "of status 9",
    "of status 10",
    "of status 11",
    "of status 12",
    "of status 13",
    "of status 14",
    "of no status",
];

/// How often each of at most sixteen kinds came. The kinds have places from 0 on.
#[derive(Clone, Copy)]
pub struct Counts {
    counts: [u32; 16],
}

impl Counts {
    pub fn new() -> Counts {
        Counts { counts: [0; 16] }
    }

    /// Counts the kind with this place, or the last kind where there is no such place.
    pub fn count(&mut self, place: u8) {
        let count = &mut self.counts[place.min(15) as usize];
        *count = count.saturating_add(1);
    }

    /// Prints the name of each kind that came, and how often it came.
    pub fn put(&self, rt: &HostRuntime, names: &[&str]) {
        for (count, name) in self.counts.iter().zip(names.iter()) {
            if *count > 0 {
                put(rt, &[Number(", ", *count), Text(" "), Text(name)]);
            }
        }
    }
}
