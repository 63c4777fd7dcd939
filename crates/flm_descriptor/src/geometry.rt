//! How many sectors and pages a device has, computed before its limits are checked. No loop goes over sectors or pages.
ghost use Rattle.std.specs.Prelude.{◌≡◌, ℕ, ◌+◌, ◌*◌, ◌<◌, ◌≤◌, ◌^◌, drop, length};
ghost use Rattle.flm_descriptor.specs.Shape.{cut, item_end, pages_of, pieces, runs_of, sectors_of, size_at};

use crate::items::SectorItem;

/// Where the sectors of an item are, and their size, all in bytes.
#[derive(Clone, Copy)]
pub struct Run {
    pub start: u32,
    pub stop: u32,
    pub step: u32,
}

/// How many sectors a device has.
pub fn count_sectors(size: u32, items: &[SectorItem]) -> u64
    requires steps { (k : ℕ) → k < length items.now → 1 ≤ size_at items.now k }
    requires few { length items.now ≤ 512 }
    ensures { result ≡ length (sectors_of (runs_of size items.now)) }
{
    let mut total: u64 = 0;
    for index in 0..items.len() {
        let stop = stop_of(size, items, index);
        total += u64::from(count_pieces(items[index].size, items[index].offset, stop));
    }
    total
}

/// How many pages the sectors of a device have.
pub fn count_pages(page: u32, size: u32, items: &[SectorItem]) -> u64
    requires page { 1 ≤ page }
    requires steps { (k : ℕ) → k < length items.now → 1 ≤ size_at items.now k }
    requires few { length items.now ≤ 512 }
    requires sectors { length (sectors_of (runs_of size items.now)) ≤ 65536 }
    ensures { result ≡ length (pages_of page (sectors_of (runs_of size items.now))) }
{
    let mut total: u64 = 0;
    for index in 0..items.len() {
        let run = Run {
            start: items[index].offset,
            stop: stop_of(size, items, index),
            step: items[index].size,
        };
        total += run_pages(page, run);
    }
    total
}

/// How many pages the sectors of a run have.
fn run_pages(page: u32, run: Run) -> u64
    requires page { 1 ≤ page }
    requires step { 1 ≤ run.step }
    requires few { pieces run.step run.start run.stop ≤ 65536 }
    ensures pages { result ≡ length (pages_of page (cut run.step run.start run.stop)) }
    ensures small { result ≤ 2 ^ 49 }
{
    let count = count_pieces(run.step, run.start, run.stop);
    if count == 0 {
        return 0;
    }
    let last = run.start + (count - 1) * run.step;
    let each = count_pieces(page, 0, run.step);
    u64::from(count - 1) * u64::from(each) + u64::from(count_pieces(page, last, run.stop))
}

/// How many pieces of `step` bytes begin from `start` on and before `stop`.
fn count_pieces(step: u32, start: u32, stop: u32) -> u32
    requires { 1 ≤ step }
    ensures { result ≡ pieces step start stop }
{
    if stop <= start {
        0
    } else {
        (stop - start - 1) / step + 1
    }
}

/// Where the sectors of item `index` end.
fn stop_of(size: u32, items: &[SectorItem], index: usize) -> u32
    requires { index < length items.now }
    ensures { result ≡ item_end size (drop (index + 1) items.now) }
{
    if index + 1 < items.len() && items[index + 1].offset < size {
        items[index + 1].offset
    } else {
        size
    }
}
