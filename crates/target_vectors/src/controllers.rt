//! Drives both flash controllers row by row of their tables. It prints the name of each row that holds, and ends with an error at the first
//! step that answers otherwise. All rows of a file are of one controller.
//!
//! A line is `row NAME`, or one of these, with numbers in hexadecimal digits. `new BOARD CELLS FAIL` makes a controller FC1 for a file with
//! a board, or for `areas`; the cell call of number FAIL fails, or none at 0. `fpec BOARD CELLS FAIL` does the same with FPEC. The others
//! are `store AT WIDTH VALUE END`, `load AT WIDTH END`, `tick COUNT END`, `reset END` and `cells CELLS`. An end is `ok`, a number, `fault`
//! or `device`.

mod made;
mod steps;
mod trial;

pub use steps::check;
