//! Plans for devices of any shape, tried from outside.

mod commands;
mod device;
mod lists;
mod speed;
mod trial;

use anyhow::Result;
use std::fs;

/// Does what the lines of a file say.
fn run_file(rt: &HostRuntime, flm: &[u8], name: &str) -> Result<()> {
    let plans = fs::read_to_string(rt, name)?;
    commands::run_lines(rt, flm, plans.as_str())
}

/// Does what the lines of a file say, with the FLM file of that name.
pub fn check_file(rt: &HostRuntime, flm: &str, name: &str) -> Result<()> {
    let flm = fs::read(rt, flm)?;
    run_file(rt, &flm, name)
}

/// Makes one plan for a device of `bytes` bytes, with the FLM file of that name.
pub fn measure(rt: &HostRuntime, flm: &str, bytes: &str) -> Result<()> {
    let flm = fs::read(rt, flm)?;
    speed::plan_all(rt, &flm, bytes.parse::<u32>()?)
}
