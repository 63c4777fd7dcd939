//! Ranges cut into pieces of one size; the last piece may be shorter. All numbers are places and lengths in bytes.
ghost use Rattle.std.specs.Prelude.{◌≡◌, ◌+◌, ◌<◌, ◌≤◌, drop, length};
ghost use Rattle.flm_descriptor.specs.Shape.{pieces, piece, item_end, cut, pages_of};

use flm_descriptor::{Run, SectorItem};

/// How many pieces of `step` bytes begin at `start` or later, and before `stop`.
pub fn count_pieces(step: u32, start: u32, stop: u32) -> u32
    requires { 1 ≤ step }
    ensures { result ≡ pieces step start stop }
{
    if stop <= start {
        0
    } else {
        (stop - start - 1) / step + 1
    }
}

/// Where piece `index` begins and ends.
pub fn piece_at(step: u32, start: u32, stop: u32, index: u32) -> (u32, u32)
    requires step_some { 1 ≤ step }
    requires index_below { index < pieces step start stop }
    ensures place { result.0 ≡ (piece step start stop index).start }
    ensures end { result.1 ≡ (piece step start stop index).stop }
    ensures order { result.0 < result.1 }
{
    let place = start + index * step;
    (
        place,
        if stop - place < step {
            stop
        } else {
            place + step
        },
    )
}

/// How many pages the sectors of a run have.
pub fn count_pages(page: u32, run: Run) -> u32
    requires page_some { 1 ≤ page }
    requires step_some { 1 ≤ run.step }
    requires few { length (pages_of page (cut run.step run.start run.stop)) ≤ 1048576 }
    ensures { result ≡ length (pages_of page (cut run.step run.start run.stop)) }
{
    let count = count_pieces(run.step, run.start, run.stop);
    if count == 0 {
        return 0;
    }
    let last = run.start + (count - 1) * run.step;
    let each = count_pieces(page, 0, run.step);
    (count - 1) * each + count_pieces(page, last, run.stop)
}

/// Where the sectors of item `index` end.
pub fn stop_of(size: u32, items: &[SectorItem], index: usize) -> u32
    requires { index < length items.now }
    ensures { result ≡ item_end size (drop (index + 1) items.now) }
{
    if index + 1 < items.len() && items[index + 1].offset < size {
        items[index + 1].offset
    } else {
        size
    }
}
