//! Why a text of S-records is refused.
use thiserror::Error;

/// Why a text was refused, and at which line. Lines count from 1; the count stops at 4,294,967,295.
#[derive(Clone, Copy, Debug, PartialEq, Eq, Error)]
#[error("line {line}: {kind}")]
pub struct SrecFault {
    /// The line, or 0 if no memory was left or the text is empty.
    pub line: u32,
    /// What is wrong with that line.
    pub kind: SrecKind,
}

/// What is wrong, printed by its name and its fields.
#[derive(Clone, Copy, Debug, PartialEq, Eq, Error)]
pub enum SrecKind {
    /// The line doesn't begin with a capital S and a decimal digit.
    #[error("NotRecord")]
    NotRecord,
    /// A byte after the type is no hexadecimal digit.
    #[error("BadDigit")]
    BadDigit,
    /// The number of bytes isn't the one that the first byte counts, or doesn't fit the type.
    #[error("BadLength")]
    BadLength,
    /// The checksum isn't the one that the other bytes ask for.
    #[error("BadSum {said:02X} {due:02X}")]
    BadSum { said: u8, due: u8 },
    /// The type is 4, which is reserved.
    #[error("BadType {value}")]
    BadType { value: u8 },
    /// A count record gives another number of data records than there are before it.
    #[error("CountDiffers {said} {seen}")]
    CountDiffers { said: u32, seen: u64 },
    /// A data record from this address on goes past the last address, 0xFFFF_FFFF.
    #[error("PastEnd {at:08X}")]
    PastEnd { at: u32 },
    /// An earlier record has another byte at this address.
    #[error("Conflict {at:08X} {old:02X} {new:02X}")]
    Conflict { at: u32, old: u8, new: u8 },
    /// The text has no end record.
    #[error("NoEnd")]
    NoEnd,
    /// No memory was left.
    #[error("OutOfMemory")]
    OutOfMemory,
}
