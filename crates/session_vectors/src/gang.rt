//! Drives gangs by turns, and calls `flmgang`, from a file of lines (`lines`). It prints how each target of a gang ends when its job is
//! carried alone, and what a call puts. It ends with an error where a target that is driven by turns ends otherwise, or leaves other cells
//! or another file.

mod alone;
mod call;
mod gangs;
mod job;
mod lines;
mod orders;
mod report;
mod share;
mod stops;
mod team;

use anyhow::Result;
use std::fs;

/// Goes through the gangs of a file.
pub fn check(rt: &HostRuntime, name: &str) -> Result<()> {
    let text = fs::read_to_string(rt, name)?;
    lines::go_through(rt, text.as_str())
}
