//! The marks of a plan in the making: what the bytes so far say of each page.
ghost use Rattle.std.specs.Prelude.{◌≡◌, ℕ, ◌+◌, ◌<◌, ◌≤◌, List, [], ◌∷◌, ◌++◌, length, vec_capacity};
ghost use Rattle.erase_planner.specs.Marks.{AreMarks, IsPageAt, mark_at, needs_erasure, with_byte};

use page_geometry::Geometry;

/// What the bytes so far say of a page.
#[derive(Clone, Copy)]
pub struct Mark {
    /// Old and wanted bytes differ.
    pub differs: bool,
    /// An old byte isn't empty.
    pub old_used: bool,
    /// A wanted byte isn't empty.
    pub want_used: bool,
}

impl Mark {
    /// The mark of a page before any of its bytes.
    pub fn blank() -> Mark
        ensures { result ≡ mark_at [] 0 }
    {
        Mark {
            differs: false,
            old_used: false,
            want_used: false,
        }
    }

    /// The mark of a page after one more byte.
    fn with_byte(self, empty: u8, old: u8, want: u8) -> Mark
        ensures { result ≡ with_byte empty old want self }
    {
        Mark {
            differs: self.differs || old != want,
            old_used: self.old_used || old != empty,
            want_used: self.want_used || want != empty,
        }
    }

    /// Whether the page must be erased: it must change and isn't empty.
    pub fn needs_erasure(self) -> bool
        ensures { result ≡ needs_erasure self }
    {
        self.differs && self.old_used
    }
}

/// Clears the marks, and makes a blank mark for each of `count` pages.
pub fn start_marks(count: u32, marks: &mut Vec<Mark>)
    requires { count ≤ vec_capacity marks.old }
    ensures long { length marks.new.items ≡ count }
    ensures blank { (p : ℕ) → p < count → mark_at marks.new.items p ≡ mark_at [] p }
    ensures spare { vec_capacity marks.old ≤ vec_capacity marks.new }
{
    marks.clear();
    for _page in 0..count {
        push_blank(marks);
    }
}

/// Appends a blank mark within the capacity, so it takes no memory.
fn push_blank(marks: &mut Vec<Mark>)
    requires { length marks.old.items < vec_capacity marks.old }
    ensures items { marks.new.items ≡ marks.old.items ++ mark_at [] 0 ∷ [] }
    ensures spare { vec_capacity marks.old ≤ vec_capacity marks.new }
{
    let _pushed = marks.push(Mark::blank());
}

/// The page of a place, and the end of that page; `page` and `stop` are those of the place before.
fn page_from(geometry: &Geometry, place: u32, page: u32, stop: u32) -> (u32, u32)
    requires inside { place < geometry.now.size }
    requires order { place ≤ stop }
    requires page { place < stop → IsPageAt geometry.now place page stop }
    ensures { IsPageAt geometry.now place result.0 result.1 }
{
    if place < stop {
        return (page, stop);
    }
    match geometry.page_at(place) {
        Some(next) => {
            let (start, len) = geometry.page(next);
            (next, start + len)
        }
        None => (page, stop),
    }
}

/// Updates the marks of the pages with more bytes, from place `at` on.
pub fn feed_marks(
    geometry: &Geometry,
    empty: u8,
    at: u32,
    old: &[u8],
    want: &[u8],
    marks: &mut [Mark],
)
    requires long { length marks.old ≡ length geometry.now.pages }
    requires same { length old.now ≡ length want.now }
    requires room { at + length old.now ≤ geometry.now.size }
    ensures marked { (o w : List ℕ) → length o ≡ at → length w ≡ at → AreMarks geometry.now empty o w marks.old
        → AreMarks geometry.now empty (o ++ old.now) (w ++ want.now) marks.new }
    ensures long { length marks.new ≡ length geometry.now.pages }
{
    // the clause `lawful` of this call is used: each place is in exactly one page; `limit` of the next one: places are far below 2^32
    let _pages = geometry.pages();
    let _size = geometry.size();
    let mut place = at;
    let mut page = 0;
    let mut stop = at;
    for index in 0..old.len() {
        let (here, end) = page_from(geometry, place, page, stop);
        page = here;
        stop = end;
        let marked = marks[page as usize].with_byte(empty, old[index], want[index]);
        marks[page as usize] = marked;
        place += 1;
    }
}
