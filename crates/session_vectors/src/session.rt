//! Carries jobs to their goals case by case, from a file of steps. It prints the name of each case and how each session of it ended. It
//! ends with an error at the first step that finds other cells or another file than it says.
//!
//! A line is `case NAME`, or one of these. Numbers and bytes are in hexadecimal digits, except for FAIL, which is decimal. `BYTES*COUNT`
//! repeats these bytes COUNT times, where COUNT is decimal.
//!
//! - `job FAIL BOARD FLM AT IMAGE CELLS..`: a bench with these cells. Its file stands for the job that puts the bytes IMAGE to the address
//!   AT, with these cells as its snapshot. The cell call of number FAIL fails, or none at 0. An operation that is broken off leaves 5A.
//! - `new` or `old`: a session to that goal. It prints `closed`; `mismatch at PLACE wanted BYTE found BYTE`; `call NUMBER CALL ENDS`; or why
//!   it came to nothing.
//! - `stop written`, `stop old` or `stop BYTE`: a stop of the power, which leaves the file as written or as it was synced, or the byte wherever
//!   it may leave any.
//! - `cells CELLS..`: the bench holds these cells. `file open` or `file closed`: its file stands for the job, or is free.
//! - `stops BOARD FLM AT IMAGE CELLS..`: sessions to the new goal that are stopped at each of their calls in turn, with each pick. After
//!   each stop another session reaches the goal. It prints how many stops there were.
//! - `apart SURVEY GO BOARD FLM AT IMAGE CELLS..`: a session that opens the job over one bench, surveys a second and goes over a third with
//!   the same file and cells. Then comes a session on the third. The file call SURVEY of the second fails, and GO of the third, in decimal.
//!
//! `a1_windows.flm` and `a2_windows.flm` have a device of 13 sectors of 768 cells and pages of 12. These numbers are written over those of
//! `a1.flm` and `a2.flm`. A page of this device crosses the place 4,096, and the cells are read in three windows.
//!
//! The algorithms A1 to A7 are made as `target_vectors` makes them. A3 has an erase time-out of one millisecond. A2 and A4 have no Verify,
//! since `arm-none-eabi-objcopy --strip-symbol=Verify` removed it. `picky.s` says how its own file is made.

mod apart;
pub mod carry;
pub mod job;
pub mod report;
mod steps;
mod stops;

use anyhow::Result;
use std::fs;

/// Goes through the cases of a file.
pub fn check(rt: &HostRuntime, name: &str) -> Result<()> {
    let text = fs::read_to_string(rt, name)?;
    steps::check(rt, text.as_str())
}
