//! A call that changed something, as a bench in memory records it.

/// A recorded call. The record keeps the bytes that it got apart.
#[derive(Clone, Copy)]
pub(crate) enum Change {
    // place and length
    Wrote(u64, u64),
    Cut(u64),
    Synced,
    Opened(u32, u32),
    Settled(u64),
    Filled(u8),
    // the byte that is left in the range
    BrokenOff(Option<u8>),
}
