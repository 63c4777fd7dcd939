//! What a loss of power leaves of a bench in memory.

/// Picks one of the files and cells that a stop may leave.
#[derive(Clone, Copy)]
pub enum Pick {
    /// The file as read; the cells of an open operation keep their old bytes.
    AsWritten,

    /// The file as the last sync left it; the cells of an open operation keep their old bytes.
    AsOld,

    /// The longest file, with this value at each pending byte and at each cell of an open operation.
    Filled { value: u8 },
}
