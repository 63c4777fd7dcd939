//! Why a record, a line or a text is refused.

/// Why the bytes of a record were not added to an image.
#[derive(Clone, Copy, Debug, PartialEq, Eq)]
pub enum ClashFault {
    /// The image has another byte at this address.
    Conflict { at: u32, old: u8, new: u8 },
    /// No memory was left.
    OutOfMemory,
}

/// Why a line was not taken.
#[derive(Clone, Copy)]
pub enum LineFault<F> {
    /// The line is refused for this.
    Refused(F),
    /// No memory was left.
    OutOfMemory,
}

/// Why a text was not read. Lines count from 1; the count stops at 4,294,967,295.
#[derive(Clone, Copy)]
pub enum TextFault<F> {
    /// A line is refused.
    Line { line: u32, fault: F },
    /// The text has no end record. This is its last line.
    NoEnd { line: u32 },
    /// No memory was left.
    OutOfMemory,
}
