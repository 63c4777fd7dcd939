//! The lists of a round.

use duty_trials::{PageBytes, Work};

/// What the cells hold before a list.
#[derive(Clone, Copy)]
pub enum Contents {
    /// The empty value in each cell.
    Blank,
    /// 0 in each cell.
    Zero,
    /// Random bytes.
    Random,
    /// Random bytes outside the sectors or pages that the list works on, and the empty value there.
    Outside,
}

/// A list of a round: what it works on, the contents before it, and the bytes of pages that it programs.
#[derive(Clone, Copy)]
pub struct Plan {
    pub work: Work,
    pub contents: Contents,
    pub bytes: PageBytes,
}

/// How many lists a round has.
pub(crate) const LISTS: u64 = 26;

/// Contents by their number.
fn contents_of(number: u64) -> Contents {
    match number {
        0 => Contents::Blank,
        1 => Contents::Zero,
        2 => Contents::Random,
        _ => Contents::Outside,
    }
}

/// The bytes of pages by their number.
fn bytes_of(number: u64) -> PageBytes {
    match number {
        0 => PageBytes::Random,
        1 => PageBytes::Zero,
        2 => PageBytes::Empty,
        3 => PageBytes::First,
        _ => PageBytes::Last,
    }
}

impl Plan {
    /// The list of a round with this number, from 0 on: four of sectors, three of the chip, fifteen of pages, and four of checks.
    pub(crate) fn at(number: u64) -> Plan {
        let (work, contents, bytes) = if number < 4 {
            (Work::Sectors, number, 2)
        } else if number < 7 {
            (Work::Chip, number - 4, 2)
        } else if number < 22 {
            (Work::Pages, (number - 7) / 5, (number - 7) % 5)
        } else {
            (Work::Checks, number - 22, 2)
        };
        Plan {
            work,
            contents: contents_of(contents),
            bytes: bytes_of(bytes),
        }
    }
}
