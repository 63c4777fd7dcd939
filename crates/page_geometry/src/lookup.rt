//! Look-ups in the tables of a geometry: one search over the runs, and divisions. Nothing loops over sectors or pages.
ghost use Rattle.std.specs.Prelude.{◌≡◌, ℕ, ◌+◌, ◌*◌, ◌<◌, ◌≤◌, length, slice_index};
ghost use Rattle.flm_descriptor.specs.Shape.{pieces, piece, sectors_of, pages_of, range_at, run_at, sectors_before, pages_before};
ghost use Rattle.page_geometry.specs.Geometry.{In, IsGeometry, IsAt, ArePagesOf};
ghost use Rattle.page_geometry.specs.Table.{AreRuns, AreFirstSectors, AreFirstPages, runs_geometry};

use crate::pieces::{count_pieces, piece_at};
use flm_descriptor::Run;

/// The last index of a rising list with a number that is at most `number`.
pub fn last_at_most(numbers: &[u32], number: u32) -> usize
    requires rising { (i j : ℕ) → i ≤ j → j < length numbers.now → slice_index numbers.now i ≤ slice_index numbers.now j }
    requires some { 1 ≤ length numbers.now }
    requires first { slice_index numbers.now 0 ≤ number }
    ensures within { result < length numbers.now }
    ensures at_most { slice_index numbers.now result ≤ number }
    ensures next { result + 1 < length numbers.now → number < slice_index numbers.now (result + 1) }
{
    let mut low = 0;
    let mut high = numbers.len();
    while high - low > 1 {
        let middle = low + (high - low) / 2;
        if numbers[middle] <= number {
            low = middle;
        } else {
            high = middle;
        }
    }
    low
}

/// The run of a sector, and the sector's number in the run.
pub fn find_sector(runs: &[Run], firsts: &[u32], index: u32) -> (usize, u32)
    requires table { AreFirstSectors runs.now firsts.now }
    requires index { index < length (sectors_of runs.now) }
    ensures run { result.0 < length runs.now }
    ensures sector { let run = run_at runs.now result.0 in result.1 < pieces run.step run.start run.stop }
    ensures number { sectors_before runs.now result.0 + result.1 ≡ index }
{
    let at = last_at_most(firsts, index);
    (at, index - firsts[at])
}

/// The run of a page, the number of its sector in the run, and the page's number in that sector.
pub fn find_page(page: u32, runs: &[Run], firsts: &[u32], index: u32) -> (usize, u32, u32)
    requires table { AreFirstPages page runs.now firsts.now }
    requires index { index < length (pages_of page (sectors_of runs.now)) }
    ensures run { result.0 < length runs.now }
    ensures sector { let run = run_at runs.now result.0 in result.1 < pieces run.step run.start run.stop }
    ensures page { let run = run_at runs.now result.0 in let sector = piece run.step run.start run.stop result.1 in result.2
        < pieces page sector.start sector.stop }
    ensures number { pages_before page runs.now result.0 + (result.1 * pieces page 0 (run_at runs.now result.0).step + result.2) ≡ index }
{
    let at = last_at_most(firsts, index);
    let each = count_pieces(page, 0, runs[at].step);
    let left = index - firsts[at];
    (at, left / each, left % each)
}

/// The run of a place, and the number of its sector in the run.
pub fn find_place(size: u32, runs: &[Run], starts: &[u32], place: u32) -> (usize, u32)
    requires table { AreRuns size runs.now starts.now }
    requires place { place < size }
    ensures run { result.0 < length runs.now }
    ensures sector { let run = run_at runs.now result.0 in result.1 < pieces run.step run.start run.stop }
    ensures inside { let run = run_at runs.now result.0 in In place (piece run.step run.start run.stop result.1) }
{
    let at = last_at_most(starts, place);
    (at, (place - starts[at]) / runs[at].step)
}

/// The place and the length of a sector.
pub fn sector_range(runs: &[Run], firsts: &[u32], index: u32) -> (u32, u32)
    requires table { AreFirstSectors runs.now firsts.now }
    requires index { index < length (sectors_of runs.now) }
    ensures { IsAt (range_at (sectors_of runs.now) index) result.0 result.1 }
{
    let (at, sector) = find_sector(runs, firsts, index);
    let (place, stop) = piece_at(runs[at].step, runs[at].start, runs[at].stop, sector);
    (place, stop - place)
}

/// The place and the length of a page.
pub fn page_range(page: u32, runs: &[Run], firsts: &[u32], index: u32) -> (u32, u32)
    requires table { AreFirstPages page runs.now firsts.now }
    requires index { index < length (pages_of page (sectors_of runs.now)) }
    ensures { IsAt (range_at (pages_of page (sectors_of runs.now)) index) result.0 result.1 }
{
    let (at, sector, left) = find_page(page, runs, firsts, index);
    let (from, to) = piece_at(runs[at].step, runs[at].start, runs[at].stop, sector);
    let (place, stop) = piece_at(page, from, to, left);
    (place, stop - place)
}

/// The sector of a place.
pub fn sector_number(size: u32, runs: &[Run], starts: &[u32], firsts: &[u32], place: u32) -> u32
    requires runs { AreRuns size runs.now starts.now }
    requires table { AreFirstSectors runs.now firsts.now }
    requires few { length (sectors_of runs.now) ≤ 65536 }
    requires place { place < size }
    ensures number { result < length (sectors_of runs.now) }
    ensures inside { In place (range_at (sectors_of runs.now) result) }
{
    let (at, sector) = find_place(size, runs, starts, place);
    firsts[at] + sector
}

/// The page of a place.
pub fn page_number(
    size: u32,
    page: u32,
    runs: &[Run],
    starts: &[u32],
    firsts: &[u32],
    place: u32,
) -> u32
    requires runs { AreRuns size runs.now starts.now }
    requires table { AreFirstPages page runs.now firsts.now }
    requires few { length (pages_of page (sectors_of runs.now)) ≤ 1048576 }
    requires place { place < size }
    ensures number { result < length (pages_of page (sectors_of runs.now)) }
    ensures inside { In place (range_at (pages_of page (sectors_of runs.now)) result) }
{
    let (at, sector) = find_place(size, runs, starts, place);
    let run = runs[at];
    let each = count_pieces(page, 0, run.step);
    let (from, _) = piece_at(run.step, run.start, run.stop, sector);
    let left = (place - from) / page;
    firsts[at] + (sector * each + left)
}

/// The first page of a sector, and how many pages it has.
pub fn sector_pages(
    size: u32,
    page: u32,
    runs: &[Run],
    first_sectors: &[u32],
    first_pages: &[u32],
    sector: u32,
) -> (u32, u32)
    requires sectors { AreFirstSectors runs.now first_sectors.now }
    requires pages { AreFirstPages page runs.now first_pages.now }
    requires few { length (pages_of page (sectors_of runs.now)) ≤ 1048576 }
    requires good { IsGeometry (runs_geometry size page runs.now) }
    requires sector { sector < length (sectors_of runs.now) }
    ensures { ArePagesOf (runs_geometry size page runs.now) sector result.0 result.1 }
{
    let (at, index) = find_sector(runs, first_sectors, sector);
    let run = runs[at];
    let each = count_pieces(page, 0, run.step);
    let (from, to) = piece_at(run.step, run.start, run.stop, index);
    (first_pages[at] + index * each, count_pieces(page, from, to))
}
