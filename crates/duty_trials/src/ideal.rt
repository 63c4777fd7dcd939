//! The cells that the ideal device leaves.
ghost use Rattle.std.specs.Prelude.{◌≡◌, ◌≤◌, ◌<◌, ℕ, length, slice_index};
ghost use Rattle.duty_trials.specs.Ended.{OnlyBetween};

/// The bytes that pages are programmed with.
#[derive(Clone, Copy)]
pub enum PageBytes {
    /// Random bytes.
    Random,
    /// 0 in each byte.
    Zero,
    /// The empty value in each byte.
    Empty,
    /// The empty value in each byte but the first.
    First,
    /// The empty value in each byte but the last.
    Last,
}

/// What pages are filled with: the bytes of pages, the seed of random bytes, and the value of an empty cell.
#[derive(Clone, Copy)]
pub struct Filling {
    pub bytes: PageBytes,
    pub seed: u64,
    pub empty: u8,
}

/// A number that looks random, made from a seed (Steele, Lea and Flood, "Fast splittable pseudorandom number generators").
pub fn mix(seed: u64) -> u64 {
    let z = seed.wrapping_add(0x9E37_79B9_7F4A_7C15);
    let z = (z ^ (z >> 30)).wrapping_mul(0xBF58_476D_1CE4_E5B9);
    let z = (z ^ (z >> 27)).wrapping_mul(0x94D0_49BB_1331_11EB);
    z ^ (z >> 31)
}

/// The random byte of a seed at a place.
pub fn random_byte(seed: u64, place: u64) -> u8 {
    (mix(seed ^ mix(place)) % 256) as u8
}

/// Writes one value to a range of cells.
pub fn fill(cells: &mut [u8], from: u32, to: u32, value: u8)
    requires order { from ≤ to }
    requires within { to ≤ length cells.old }
    ensures inside { (i : ℕ) → from ≤ i → i < to → slice_index cells.new i ≡ value }
    ensures only { OnlyBetween from to cells.old cells.new }
{
    for index in from as usize..to as usize {
        cells[index] = value;
    }
}

impl Filling {
    /// A byte of a page of `len` bytes, by its place in the page and the page's place among all cells.
    fn byte_at(&self, page: u32, place: u32, len: u32) -> u8 {
        match self.bytes {
            PageBytes::Random => random_byte(self.seed, u64::from(page) + u64::from(place)),
            PageBytes::Zero => 0,
            PageBytes::First if place == 0 => !self.empty,
            PageBytes::Last if u64::from(place) + 1 == u64::from(len) => !self.empty,
            PageBytes::Empty | PageBytes::First | PageBytes::Last => self.empty,
        }
    }

    /// Writes the bytes of the page that has these places.
    pub fn put(&self, cells: &mut [u8], from: u32, to: u32)
        requires order { from ≤ to }
        requires within { to ≤ length cells.old }
        ensures { OnlyBetween from to cells.old cells.new }
    {
        let len = to - from;
        for place in 0..len {
            cells[(from + place) as usize] = self.byte_at(from, place, len);
        }
    }
}
