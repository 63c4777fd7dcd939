//! Choosing the plan with the least cost, from the marks of the pages.
ghost use Rattle.std.specs.Prelude.{◌≡◌, false, ℕ, ◌+◌, ◌*◌, ◌^◌, ◌<◌, ◌≤◌, ◌&&◌, nat_lt, IsTrue, List, [], ◌∷◌, ◌++◌, length, vec_capacity};
ghost use Rattle.page_geometry.specs.Cells.{count_below};
ghost use Rattle.erase_planner.specs.Plans.{tests, chosen, made_of};
ghost use Rattle.erase_planner.specs.Marks.{AreMarks, erases_by, programs_by, wanted_by};

use crate::marks::Mark;
use board_file::Weights;
use page_geometry::Geometry;

/// Fills the sets of the plan with the least cost, and returns whether it erases the chip, and its cost.
pub fn choose(
    geometry: &Geometry,
    weights: &Weights,
    has_chip: bool,
    marks: &[Mark],
    sectors: &mut Vec<bool>,
    pages: &mut Vec<bool>,
) -> (bool, u64)
    requires long { length marks.now ≡ length geometry.now.pages }
    requires sectors_room { length geometry.now.sectors ≤ vec_capacity sectors.old }
    requires pages_room { length geometry.now.pages ≤ vec_capacity pages.old }
    ensures least { (empty : ℕ) (o w : List ℕ) → length o ≡ geometry.now.size → length w ≡ geometry.now.size → AreMarks geometry.now empty o w marks.now
        → made_of result.0 sectors.new.items pages.new.items result.1 ≡ chosen geometry.now weights.now has_chip empty o w }
    ensures entry { IsTrue result.0 → IsTrue has_chip }
    ensures sectors_spare { vec_capacity sectors.old ≤ vec_capacity sectors.new }
    ensures pages_spare { vec_capacity pages.old ≤ vec_capacity pages.new }
{
    let sector_count = geometry.sectors();
    // the clause `lawful` of this call is used: sectors and pages are partitions of the device
    let _pages = geometry.pages();
    let erased = fill_sectors(geometry, marks, sectors);
    let programmed = fill_pages(geometry, marks, sectors, pages);
    let wanted = count_wanted(marks);
    let sectors_cost = cost_of(weights.sector, erased) + cost_of(weights.page, programmed);
    let chip_cost = u64::from(weights.chip) + cost_of(weights.page, wanted);
    let chip = takes_chip(has_chip, chip_cost, sectors_cost);
    if chip {
        fill_none(sector_count, sectors);
        fill_wanted(marks, pages);
        (true, chip_cost)
    } else {
        (false, sectors_cost)
    }
}

/// Whether the chip is erased: that is possible and costs strictly less.
fn takes_chip(has_chip: bool, chip_cost: u64, sectors_cost: u64) -> bool
    ensures test { result ≡ (has_chip && nat_lt chip_cost sectors_cost) }
    ensures entry { IsTrue result → IsTrue has_chip }
{
    has_chip && chip_cost < sectors_cost
}

/// The cost of erasing or programming `count` sectors or pages, each with this weight.
fn cost_of(weight: u32, count: u32) -> u64
    requires { count ≤ 1048576 }
    ensures cost { result ≡ weight * count }
    ensures small { result ≤ 2 ^ 52 }
{
    u64::from(weight) * u64::from(count)
}

/// Whether a page of the sector must change and isn't empty.
fn must_erase(geometry: &Geometry, marks: &[Mark], sector: u32) -> bool
    requires long { length marks.now ≡ length geometry.now.pages }
    requires sector { sector < length geometry.now.sectors }
    ensures { result ≡ erases_by geometry.now marks.now sector }
{
    // the clause `limit` of this call is used: page numbers are far below 2^32
    let _pages = geometry.pages();
    let (first, count) = geometry.pages_of(sector);
    for page in first..first + count {
        let needs = marks[page as usize].needs_erasure();
        if needs {
            return true;
        }
    }
    false
}

/// Whether the page differs after the sectors of the set are erased.
fn must_program(geometry: &Geometry, marks: &[Mark], sectors: &[bool], page: u32) -> bool
    requires long { length marks.now ≡ length geometry.now.pages }
    requires set { length sectors.now ≡ length geometry.now.sectors }
    requires page { page < length geometry.now.pages }
    ensures { result ≡ programs_by geometry.now marks.now sectors.now page }
{
    // the clause `lawful` of this call is used: the page lies in the sector of its first byte
    let _pages = geometry.pages();
    let (place, _) = geometry.page(page);
    let mark = marks[page as usize];
    match geometry.sector_at(place) {
        Some(sector) => {
            if sectors[sector as usize] {
                mark.want_used
            } else {
                mark.differs
            }
        }
        None => false,
    }
}

/// Fills the set of sectors to erase, and counts them.
fn fill_sectors(geometry: &Geometry, marks: &[Mark], sectors: &mut Vec<bool>) -> u32
    requires long { length marks.now ≡ length geometry.now.pages }
    requires room { length geometry.now.sectors ≤ vec_capacity sectors.old }
    ensures set { sectors.new.items ≡ tests (length geometry.now.sectors) (erases_by geometry.now marks.now) }
    ensures count { result ≡ count_below (length geometry.now.sectors) (erases_by geometry.now marks.now) }
    ensures few { result ≤ 65536 }
    ensures spare { vec_capacity sectors.old ≤ vec_capacity sectors.new }
{
    sectors.clear();
    let mut count = 0;
    for sector in 0..geometry.sectors() {
        let must = must_erase(geometry, marks, sector);
        push_within(sectors, must);
        if must {
            count += 1;
        }
    }
    count
}

/// Fills the set of pages to program, and counts them.
fn fill_pages(geometry: &Geometry, marks: &[Mark], sectors: &[bool], pages: &mut Vec<bool>) -> u32
    requires long { length marks.now ≡ length geometry.now.pages }
    requires set { length sectors.now ≡ length geometry.now.sectors }
    requires room { length geometry.now.pages ≤ vec_capacity pages.old }
    ensures set { pages.new.items ≡ tests (length geometry.now.pages) (programs_by geometry.now marks.now sectors.now) }
    ensures count { result ≡ count_below (length geometry.now.pages) (programs_by geometry.now marks.now sectors.now) }
    ensures few { result ≤ 1048576 }
    ensures spare { vec_capacity pages.old ≤ vec_capacity pages.new }
{
    pages.clear();
    let mut count = 0;
    for page in 0..geometry.pages() {
        let must = must_program(geometry, marks, sectors, page);
        push_within(pages, must);
        if must {
            count += 1;
        }
    }
    count
}

/// How many pages aren't wanted empty.
fn count_wanted(marks: &[Mark]) -> u32
    requires { length marks.now ≤ 1048576 }
    ensures count { result ≡ count_below (length marks.now) (wanted_by marks.now) }
    ensures few { result ≤ 1048576 }
{
    let mut count = 0;
    for page in 0..marks.len() {
        let wanted = marks[page].want_used;
        if wanted {
            count += 1;
        }
    }
    count
}

/// Fills the set of pages that aren't wanted empty.
fn fill_wanted(marks: &[Mark], pages: &mut Vec<bool>)
    requires { length marks.now ≤ vec_capacity pages.old }
    ensures set { pages.new.items ≡ tests (length marks.now) (wanted_by marks.now) }
    ensures spare { vec_capacity pages.old ≤ vec_capacity pages.new }
{
    pages.clear();
    for page in 0..marks.len() {
        push_within(pages, marks[page].want_used);
    }
}

/// Fills a set that contains no sector.
fn fill_none(count: u32, sectors: &mut Vec<bool>)
    requires { count ≤ vec_capacity sectors.old }
    ensures set { sectors.new.items ≡ tests count (λ s. false) }
    ensures spare { vec_capacity sectors.old ≤ vec_capacity sectors.new }
{
    sectors.clear();
    for _sector in 0..count {
        push_within(sectors, false);
    }
}

/// Appends within the capacity, so it takes no memory.
fn push_within(items: &mut Vec<bool>, value: bool)
    requires { length items.old.items < vec_capacity items.old }
    ensures items { items.new.items ≡ items.old.items ++ value ∷ [] }
    ensures spare { vec_capacity items.old ≤ vec_capacity items.new }
{
    let _pushed = items.push(value);
}
