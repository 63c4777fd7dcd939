//! The addresses of the cells of a board.
ghost use Rattle.std.specs.Prelude.{◌≡◌, ◌<◌, ◌≤◌, ◌+◌, All, Some};
ghost use Rattle.board_file.specs.Limits.{size_of};
ghost use Rattle.board_file.specs.Table.{addresses};
ghost use Rattle.job_text.specs.Laid.{address_at};

use board_file::Region;

/// The address of a place among the cells of a board's regions, or none after the last cell.
pub fn find_address(regions: &[Region], place: u32) -> Option<u32>
    requires { All (λ r. r.base + r.size ≤ addresses) regions.now }
    ensures { result ≡ address_at regions.now place }
{
    let mut rest = place;
    for region in regions {
        if rest < region.size {
            return Some(region.base + rest);
        }
        rest -= region.size;
    }
    None
}

/// The address of a place among the cells of a board's regions.
pub(crate) fn address_of(regions: &[Region], place: u32) -> u32
    requires inside { place < size_of regions.now }
    requires fit { All (λ r. r.base + r.size ≤ addresses) regions.now }
    ensures { address_at regions.now place ≡ Some result }
{
    match find_address(regions, place) {
        Some(address) => address,
        None => unreachable!(),
    }
}
