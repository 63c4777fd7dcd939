//! Whether an image is within ranges of addresses.
ghost use Rattle.byte_map.specs.Image.{addresses};
ghost use Rattle.std.specs.Prelude.{◌≡◌, ◌+◌, ◌≤◌, ◌<◌, ◌∷◌, [], ℕ, IsTrue, false, OnOk, IfErr, MatchOption};
ghost use Rattle.image_set.specs.Ranges.{is_inside, LiesInside, IsPlaceFault, IsOutside};

use crate::fault::ImageFault;
use byte_map::ByteMap;

/// Checks that an image isn't empty, and has no byte outside the device, which has `size` addresses from `base` on.
pub fn check(map: &ByteMap, base: u32, size: u32) -> Result<(), ImageFault>
    ensures ok { OnOk result (LiesInside map.now ((base, size) ∷ [])) }
    ensures refused { IfErr result (IsPlaceFault map.now ((base, size) ∷ [])) }
{
    check_ranges(map, &[(base, size)])
}

/// Checks that an image isn't empty, and has no byte outside all ranges. A range is its first address and its number of addresses.
pub fn check_ranges(map: &ByteMap, ranges: &[(u32, u32)]) -> Result<(), ImageFault>
    ensures ok { OnOk result (LiesInside map.now ranges.now) }
    ensures refused { IfErr result (IsPlaceFault map.now ranges.now) }
{
    if map.runs() == 0 {
        return Err(ImageFault::EmptyImage);
    }
    for index in 0..map.runs() {
        let (at, bytes) = map.run(index);
        if let Some(at) = find_outside(at, bytes.len(), ranges) {
            return Err(ImageFault::OutsideDevice { at });
        }
    }
    Ok(())
}

/// The least of `len` addresses from `at` on that is in no range.
fn find_outside(at: u32, len: usize, ranges: &[(u32, u32)]) -> Option<u32>
    requires { at + len ≤ addresses }
    ensures { MatchOption result ((a : ℕ) → at ≤ a → a < at + len → IsTrue (is_inside ranges.now a)) (IsOutside at (at + len) ranges.now) }
{
    let end = u64::from(at) + len as u64;
    let mut address = u64::from(at);
    while address < end {
        let next = skip_range(address, ranges);
        if next == address {
            return Some(address as u32);
        }
        address = next;
    }
    None
}

/// The end of a range that holds an address, or the address itself if there is none.
fn skip_range(address: u64, ranges: &[(u32, u32)]) -> u64
    ensures later { address ≤ result }
    ensures inside { (a : ℕ) → address ≤ a → a < result → IsTrue (is_inside ranges.now a) }
    ensures outside { result ≡ address → is_inside ranges.now address ≡ false }
{
    for (base, size) in ranges {
        let base = u64::from(*base);
        let end = base + u64::from(*size);
        if base <= address && address < end {
            return end;
        }
    }
    address
}
