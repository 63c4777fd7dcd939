//! Whether the board, the algorithms and the image of a job suit one another.
ghost use Rattle.std.specs.Prelude.{◌≡◌, ◌≤◌, ◌+◌, ◌↔◌, IsTrue, length, slice_get};
ghost use Rattle.board_file.specs.Shown.{shown as board_shown};
ghost use Rattle.flm_descriptor.specs.Shown.{shown as flm_shown};
ghost use Rattle.job_text.specs.Fits.{is_device_of, fits, all_fit, holds, LiesIn, Suits};
ghost use Rattle.job_text.specs.Reading.{fits_in, reach, covers, all_covered};
ghost use Rattle.job_text.specs.Said.{algorithms_shown};

use algo_loader::place;
use board_file::{Board, Region};
use byte_map::ByteMap;
use flm_descriptor::{Algorithm, Device};

/// Whether a device is this region.
fn is_device_of(region: &Region, device: &Device) -> bool
    ensures { result ≡ is_device_of region.now device.now }
{
    region.base == device.base && region.size == device.size
}

/// Whether an algorithm serves a region of a board: its device is the region, and it has room on the board.
pub fn fits(board: &Board, region: &Region, algorithm: &Algorithm) -> bool
    ensures { result ≡ fits (board_shown board.now) region.now (flm_shown algorithm.now) }
{
    is_device_of(region, &algorithm.device) && place(algorithm, board).is_ok()
}

/// Whether an algorithm serves the region with this number.
pub fn fits_in(board: &Board, index: usize, algorithm: &Algorithm) -> bool
    ensures { result ≡ fits_in (board_shown board.now) (slice_get board.now.regions index) (flm_shown algorithm.now) }
{
    let regions = board.regions.as_slice();
    index < regions.len() && fits(board, &regions[index], algorithm)
}

/// Whether an address lies in a region.
fn holds(region: &Region, at: u64) -> bool
    ensures { result ≡ holds region.now at }
{
    u64::from(region.base) <= at && at < u64::from(region.base) + u64::from(region.size)
}

/// The end of the first of these regions that holds the address; the address itself where none does.
fn reach(regions: &[Region], at: u64) -> u64
    ensures { result ≡ reach regions.now at }
{
    'regions: for region in regions {
        if holds(region, at) {
            return u64::from(region.base) + u64::from(region.size);
        }
    }
    at
}

/// Whether each address from `from` to before `to` lies in one of at most two regions.
pub fn covers(regions: &[Region], from: u64, to: u64) -> bool
    ensures { result ≡ covers regions.now from to }
{
    to <= reach(regions, reach(regions, from))
}

/// Whether each of the `count` runs of an image lies in one of at most two regions, or goes from one into the other.
fn all_covered(regions: &[Region], image: &ByteMap, count: usize) -> bool
    requires { count ≡ length image.now }
    ensures { result ≡ all_covered regions.now image.now }
{
    'each: for index in 0..count {
        let (at, bytes) = image.run(index);
        let from = u64::from(at);
        if !covers(regions, from, from + bytes.len() as u64) {
            return false;
        }
    }
    true
}

/// Whether each byte of an image lies in one of at most two regions.
fn lies_in(regions: &[Region], image: &ByteMap) -> bool
    requires { length regions.now ≤ 2 }
    ensures { IsTrue result ↔ LiesIn regions.now image.now }
{
    let count = image.runs();
    all_covered(regions, image, count)
}

/// Whether each region of a board has its algorithm.
fn all_fit(board: &Board, algorithms: &[Algorithm]) -> bool
    ensures { result ≡ all_fit (board_shown board.now) board.now.regions (algorithms_shown algorithms.now) }
{
    let regions = board.regions.as_slice();
    if regions.len() != algorithms.len() {
        return false;
    }
    'regions: for index in 0..regions.len() {
        if !fits(board, &regions[index], &algorithms[index]) {
            return false;
        }
    }
    true
}

/// Whether board, algorithms and image suit one another. Each region of the board has its algorithm: its device is the region, and it has
/// room in the board's RAM. The image isn't empty and lies in the regions.
pub fn suits(board: &Board, algorithms: &[Algorithm], image: &ByteMap) -> bool
    ensures { IsTrue result ↔ Suits (board_shown board.now) (algorithms_shown algorithms.now) image.now }
{
    all_fit(board, algorithms) && image.runs() > 0 && lies_in(board.regions.as_slice(), image)
}
