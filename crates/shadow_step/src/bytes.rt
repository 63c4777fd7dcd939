//! Marks of bytes in memory, one for each byte.
#![tactic(auto, using(std::proofs::lemmas::Bool::Decides::nat_tests))]

ghost use Rattle.std.specs.Prelude.{◌≡◌, ◌≤◌, ◌<◌, ◌^◌, slice_set};
ghost use Rattle.shadow_step.specs.Bytes.{joined, byte_mark, half_mark, word_mark, number_mark, part_of, marks_with};

use crate::marks::Mark;

impl Mark {
    /// The mark of a number that consists of two numbers of `width` bytes, this one first.
    pub fn joined(self, width: u8, next: Mark) -> Mark
        requires { width ≤ 2 }
        ensures { result ≡ joined width self next }
    {
        if self.is_known() && next.is_known() {
            return Mark::Known;
        }
        match (self, next) {
            (Mark::Page { width: w, at: x }, Mark::Page { width: u, at: y }) => {
                if w == width && u == width && u64::from(y) == u64::from(x) + u64::from(width) {
                    Mark::Page {
                        width: width + width,
                        at: x,
                    }
                } else {
                    Mark::Any
                }
            }
            _ => Mark::Any,
        }
    }

    /// The mark of one byte of a number of `width` bytes that is stored.
    pub fn part(self, width: u8, place: u32) -> Mark
        ensures { result ≡ part_of width place self }
    {
        match self {
            Mark::Page { width: w, at } => {
                if w == width && u64::from(at) + u64::from(place) < 0x1_0000_0000 {
                    Mark::Page {
                        width: 1,
                        at: at + place,
                    }
                } else {
                    Mark::Any
                }
            }
            other => other,
        }
    }
}

/// The mark of a byte.
#[inline(always)]
pub fn byte_mark(marks: &[Mark], at: usize) -> Mark
    ensures { result ≡ byte_mark marks.now at }
{
    match marks.get(at) {
        Some(mark) => *mark,
        None => Mark::Any,
    }
}

/// The mark of a halfword.
pub fn half_mark(marks: &[Mark], at: usize) -> Mark
    requires { at < 2 ^ 34 }
    ensures { result ≡ half_mark marks.now at }
{
    byte_mark(marks, at).joined(1, byte_mark(marks, at + 1))
}

/// The mark of a word.
pub fn word_mark(marks: &[Mark], at: usize) -> Mark
    requires { at < 2 ^ 33 }
    ensures { result ≡ word_mark marks.now at }
{
    half_mark(marks, at).joined(2, half_mark(marks, at + 2))
}

/// The mark of the number that a load of `width` bytes reads.
pub fn number_mark(marks: &[Mark], width: u32, at: usize) -> Mark
    requires { at < 2 ^ 33 }
    ensures { result ≡ number_mark marks.now width at }
{
    if width == 1 {
        byte_mark(marks, at)
    } else if width == 2 {
        half_mark(marks, at)
    } else {
        word_mark(marks, at)
    }
}

/// Marks a byte, if there is one.
#[inline(always)]
#[tactic(auto, using(std::proofs::lemmas::List::set_past))]
fn put_byte(marks: &mut [Mark], at: usize, mark: Mark)
    ensures { marks.new ≡ slice_set marks.old at mark }
{
    if at < marks.len() {
        marks[at] = mark;
    }
}

/// Marks the bytes that a store of `width` bytes leaves.
pub fn put_number(marks: &mut [Mark], width: u32, at: usize, mark: Mark)
    requires { at < 2 ^ 33 }
    ensures { marks.new ≡ marks_with marks.old width at mark }
{
    if width == 1 {
        put_byte(marks, at, mark);
    } else if width == 2 {
        put_byte(marks, at, mark.part(2, 0));
        put_byte(marks, at + 1, mark.part(2, 1));
    } else {
        put_byte(marks, at, mark.part(4, 0));
        put_byte(marks, at + 1, mark.part(4, 1));
        put_byte(marks, at + 2, mark.part(4, 2));
        put_byte(marks, at + 3, mark.part(4, 3));
    }
}
