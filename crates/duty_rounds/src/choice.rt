//! Which sectors and pages a list works on.
ghost use Rattle.std.specs.Prelude.{◌≡◌, length, IfOk};
ghost use Rattle.duty_trials.specs.Lists.{count_of};
ghost use Rattle.duty_trials.specs.Subjects.{site_in};

use duty_trials::{Subject, Work, mix};
use faults::OutOfMemory;
use std::alloc::Global;

/// Up to this number of sectors or pages, all are chosen.
const ALL_UP_TO: u32 = 64;

/// How many more are chosen at random.
const RANDOM: u64 = 16;

/// Adds a number to a set, if the set has a place for it.
fn take(set: &mut [bool], number: u32) {
    let place = number as usize;
    if place < set.len() {
        set[place] = true;
    }
}

/// Adds the sector or page with a place of the device, if there is one.
fn take_at(subject: &Subject<'_>, work: Work, place: u32, set: &mut [bool]) {
    let number = match work {
        Work::Sectors => subject.geometry.sector_at(place),
        Work::Chip => Some(0),
        Work::Pages | Work::Checks => subject.geometry.page_at(place),
    };
    if let Some(number) = number {
        take(set, number);
    }
}

/// Adds the sectors or pages on both sides of a place.
fn take_around(subject: &Subject<'_>, work: Work, place: u32, set: &mut [bool]) {
    take_at(subject, work, place.wrapping_sub(1), set);
    take_at(subject, work, place, set);
}

/// Adds those beside each place where the algorithm's sectors change their size.
fn take_items(subject: &Subject<'_>, work: Work, set: &mut [bool]) {
    for item in subject.algorithm.items.as_slice() {
        take_around(subject, work, item.offset, set);
    }
}

/// Adds those beside each place where the board's sectors change their size.
fn take_runs(subject: &Subject<'_>, work: Work, set: &mut [bool]) {
    let Some(region) = subject.board.regions.as_slice().get(subject.region) else {
        return;
    };
    let mut place: u32 = 0;
    for run in region.sectors.as_slice() {
        place = place.wrapping_add(run.count.wrapping_mul(run.size));
        take_around(subject, work, place, set);
    }
}

/// Adds numbers at random.
fn take_random(set: &mut [bool], seed: u64) {
    let count = set.len() as u64;
    if count == 0 {
        return;
    }
    for turn in 0..RANDOM {
        set[(mix(seed ^ turn) % count) as usize] = true;
    }
}

/// The sectors or pages that a list works on. Up to 64, it is all of them. Otherwise they are the first and the last, those on both sides
/// of each place where the algorithm's or the board's sectors change their size, and 16 at random.
pub fn choose(
    alloc: Global,
    subject: &Subject<'_>,
    work: Work,
    seed: u64,
) -> Result<Vec<bool>, OutOfMemory>
    ensures { IfOk result (λ set. length set.items ≡ count_of (site_in subject.now).layout work) }
{
    let count = subject.count(work);
    let mut set = vec![in alloc; count <= ALL_UP_TO; count as usize]?;
    if count > ALL_UP_TO {
        take_items(subject, work, &mut set);
        take_runs(subject, work, &mut set);
        take_random(&mut set, seed);
    }
    Ok(set)
}
