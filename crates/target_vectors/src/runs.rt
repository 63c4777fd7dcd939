//! Code that runs on the emulated target, case by case. It prints the name of each case, and what each step finds.
//!
//! A line is `case NAME`, or one of these. Numbers and bytes are in hexadecimal digits, except for FAIL, FUEL, STEPS and ROUNDS, which are
//! decimal.
//!
//! - `new CODE FAIL`: a target of 256 bytes of RAM from 0x20000000 on with this code at its beginning, and 8 blank cells from 0x08000000
//!   on. The cell call of number FAIL fails, or none at 0.
//! - `new CODE FAIL fpec`: the same with the controller FPEC, and with a quiet range of 1,024 bytes from 0x40021000 on.
//! - `word AT VALUE`: a word is stored to a register of the controller.
//! - `run PC R0 R1 FUEL`: the code is run from the place PC on, and returns to 0x20000040. It prints how the run ended.
//! - `slices PC R0 R1 FUEL STEPS`: the code is run in slices of STEPS steps. It prints also what is left of the fuel, and whether the
//!   registers are then those that the last run left.
//! - `turns FUEL STEPS CODE PC R0 R1 CODE PC R0 R1`: two machines with their RAM in one arena run their code by turns of STEPS steps. It
//!   prints how each ended, and whether it left what a target that is alone leaves: registers, RAM and cells.
//! - `cells`: it prints the cells.
//! - `measure ROUNDS FILE..`: each file is code for address 0x20000020. It is run on a new target with the number of rounds in R0. It
//!   prints how the run ended, and how many steps were made.
//! - `measure ROUNDS`: the core runs a loop of mixed instructions over the bus in memory. It prints the same things, and two registers.

mod bed;
mod core_loop;
mod left;
mod measured;
mod pair;
mod put;
mod steps;
mod trial;

pub use measured::{measure, measure_files};
pub use steps::go_through;
