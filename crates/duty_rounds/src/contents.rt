//! What the cells hold before a list.
ghost use Rattle.std.specs.Prelude.{◌≡◌, ◌<◌, ℕ, true, false, length, get_or};
ghost use Rattle.duty_trials.specs.declared.list.Work.TheVariants as a_work;
ghost use Rattle.duty_trials.specs.Lists.{count_of, MayWork};
ghost use Rattle.duty_trials.specs.Subjects.{setup_for, site_in};

use crate::plan::{Contents, Plan};
use duty_trials::{Subject, Work, fill, random_byte};

/// Writes random bytes of a seed.
fn put_random(cells: &mut [u8], seed: u64) {
    for index in 0..cells.len() {
        cells[index] = random_byte(seed, index as u64);
    }
}

/// Empties a sector if a set has it.
fn empty_sector(subject: &Subject<'_>, set: &[bool], number: u32, cells: &mut [u8])
    requires number { number < length (site_in subject.now).layout.sectors }
    requires set { length set.now ≡ length (site_in subject.now).layout.sectors }
    requires cells { length cells.old ≡ subject.now.cells }
{
    if !set[number as usize] {
        return;
    }
    let span = subject.sector(number);
    fill(cells, span.from, span.to, subject.algorithm.device.empty);
}

/// Empties the sectors of a set.
fn empty_sectors(subject: &Subject<'_>, set: &[bool], cells: &mut [u8])
    requires set { length set.now ≡ length (site_in subject.now).layout.sectors }
    requires cells { length cells.old ≡ subject.now.cells }
{
    for number in 0..subject.count(Work::Sectors) {
        empty_sector(subject, set, number, cells);
    }
}

/// Empties a page if a set has it.
fn empty_page(subject: &Subject<'_>, set: &[bool], number: u32, cells: &mut [u8])
    requires number { number < length (site_in subject.now).layout.pages }
    requires set { length set.now ≡ length (site_in subject.now).layout.pages }
    requires cells { length cells.old ≡ subject.now.cells }
    ensures here { get_or set.now number false ≡ true → MayWork (setup_for subject.now) (site_in subject.now) cells.new a_work.Pages number }
    ensures others { (k : ℕ) → k < length (site_in subject.now).layout.pages → MayWork (setup_for subject.now) (site_in subject.now) cells.old a_work.Pages k
        → MayWork (setup_for subject.now) (site_in subject.now) cells.new a_work.Pages k }
{
    if !set[number as usize] {
        return;
    }
    let span = subject.page(number);
    fill(cells, span.from, span.to, subject.algorithm.device.empty);
}

/// Empties the pages of a set, so that they may be programmed.
fn empty_pages(subject: &Subject<'_>, set: &[bool], cells: &mut [u8])
    requires set { length set.now ≡ length (site_in subject.now).layout.pages }
    requires cells { length cells.old ≡ subject.now.cells }
    ensures { (k : ℕ) → get_or set.now k false ≡ true → MayWork (setup_for subject.now) (site_in subject.now) cells.new a_work.Pages k }
{
    for number in 0..subject.count(Work::Pages) {
        empty_page(subject, set, number, cells);
    }
}

/// Writes the bytes of some contents to all cells.
fn put_all(subject: &Subject<'_>, contents: Contents, seed: u64, cells: &mut [u8]) {
    match contents {
        Contents::Blank => cells.fill(subject.algorithm.device.empty),
        Contents::Zero => cells.fill(0),
        Contents::Random | Contents::Outside => put_random(cells, seed),
    }
}

/// Writes the contents before a list to the cells. Pages that the list programs are empty.
pub(crate) fn put_contents(
    subject: &Subject<'_>,
    plan: &Plan,
    seed: u64,
    set: &[bool],
    cells: &mut [u8],
)
    requires set { length set.now ≡ count_of (site_in subject.now).layout plan.now.work }
    requires cells { length cells.old ≡ subject.now.cells }
    ensures { (k : ℕ) → get_or set.now k false ≡ true → MayWork (setup_for subject.now) (site_in subject.now) cells.new plan.now.work k }
{
    put_all(subject, plan.contents, seed, cells);
    match (plan.work, plan.contents) {
        (Work::Sectors, Contents::Outside) => empty_sectors(subject, set, cells),
        (Work::Checks, Contents::Outside) => empty_pages(subject, set, cells),
        (Work::Pages, _) => empty_pages(subject, set, cells),
        (Work::Sectors | Work::Chip | Work::Checks, _) => {}
    }
}
