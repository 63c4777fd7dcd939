//! The numbers of the registers with a special use.

/// The stack pointer (A5.1.2).
pub const SP: u8 = 13;

/// The link register: the return address of a call.
pub const LR: u8 = 14;

/// The program counter.
pub const PC: u8 = 15;

/// The special register with the flags, by the manual's SYSm (B5.1.1).
pub const APSR: u8 = 0;

/// The main stack pointer as a special register.
pub const MSP: u8 = 8;

/// The interrupt mask as a special register.
pub const PRIMASK: u8 = 16;
