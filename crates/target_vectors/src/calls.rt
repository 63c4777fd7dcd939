//! Calls of the functions of flash algorithms, case by case. It prints the name of each case, and ends with an error at the first step that
//! answers otherwise.
//!
//! A line is `case NAME`, or one of these, with numbers and bytes in hexadecimal digits. `BYTES*COUNT` repeats these bytes COUNT times,
//! where COUNT is decimal.
//!
//! - `place BOARD FLM LAYOUT`: a layout is the address of return point, code, static base, buffer and stack's end, and then the need; or it
//!   is `no room NEED HAVE`. NEED and HAVE are decimal.
//! - `new BOARD FLM FAIL BYTES..`: a target with these cells. The cell call of the decimal number FAIL fails, or none at 0.
//! - `load`, and `reset ok` or `reset device fault`.
//! - `slices STEPS`: the calls to come are made in slices of STEPS steps, or in one piece at 0. STEPS is decimal.
//! - `Init KIND END`, `UnInit KIND END`, `EraseSector AT END`, `EraseChip END`, `ProgramPage AT BYTES END` and `Verify AT BYTES END`, where
//!   an end is `done`, `answered R0`, `no fuel at PC`, `stray break at PC`, `undefined at PC`, `bus fault at PC address AT`, `unaligned
//!   at PC address AT`, `bad state at PC` or `device fault`, and no bytes are `-`.
//! - `cells BYTES..`: what the device holds.
//! - `plan BOARD FLM chip` or `plan BOARD FLM sectors`: a full plan, call by call. The device has 4 sectors of 256 bytes from 0x08000000 on
//!   and pages of 64. Its cells are used, and then all of them are erased, by the chip or by sectors, programmed and verified.
//!
//! For each call of a plan it prints the number that the function is given: an address, or the argument of Init and UnInit. Then it prints
//! how the call ended, and whether the cells after it are those of the ideal device. Then comes the number of operations that were open at
//! some point of the call, and how many of these reached out of its area. The area is its sector, its page or, for EraseChip, the chip; a
//! call of another function may open none. Last it prints whether an operation is open at the end of the call.

mod end;
mod plan;
mod steps;
mod trial;
mod watch;

pub use steps::check;
