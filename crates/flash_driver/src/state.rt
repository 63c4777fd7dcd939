//! The state of a controller, and the effect of a store.

use flash_layout::Operation;

/// The state of a controller: its registers, and the operation that runs.
#[derive(Clone, Copy)]
pub struct State<R> {
    /// The registers.
    pub registers: R,
    /// The operation that runs.
    pub operation: Option<Operation>,
}

/// The effect of a store, apart from the registers.
#[derive(Clone, Copy)]
pub enum Effect {
    /// A bus fault: nothing answers the store.
    Fault,
    /// Nothing more happens.
    Taken,
    /// The store begins an operation.
    Begins {
        /// The operation.
        operation: Operation,
    },
}
