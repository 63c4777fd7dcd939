//! Why a text of Intel HEX is refused.
use thiserror::Error;

/// Why a text was refused, and at which line. Lines count from 1; the count stops at 4,294,967,295.
#[derive(Clone, Copy, Debug, PartialEq, Eq, Error)]
#[error("line {line}: {kind}")]
pub struct HexFault {
    /// The line, or 0 if no memory was left or the text is empty.
    pub line: u32,
    /// What is wrong with that line.
    pub kind: HexKind,
}

/// What is wrong, printed by its name and its fields.
#[derive(Clone, Copy, Debug, PartialEq, Eq, Error)]
pub enum HexKind {
    /// The line doesn't begin with a colon.
    #[error("NotRecord")]
    NotRecord,
    /// A byte after the colon is no hexadecimal digit.
    #[error("BadDigit")]
    BadDigit,
    /// There are fewer than 10 digits, or not 10 and two for each byte that the record counts.
    #[error("BadLength")]
    BadLength,
    /// The checksum isn't the one that the other bytes ask for.
    #[error("BadSum {said:02X} {due:02X}")]
    BadSum { said: u8, due: u8 },
    /// The type is above 5, or asks for another number of data bytes.
    #[error("BadType {value}")]
    BadType { value: u8 },
    /// An earlier record has another byte at this address.
    #[error("Conflict {at:08X} {old:02X} {new:02X}")]
    Conflict { at: u32, old: u8, new: u8 },
    /// The text has no end record.
    #[error("NoEnd")]
    NoEnd,
    /// No memory was left.
    #[error("OutOfMemory")]
    OutOfMemory,
}
