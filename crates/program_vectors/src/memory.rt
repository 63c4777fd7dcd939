//! Runs commands in memory through the top call, row by row, from files of lines (`lines`). No files exist at the beginning of a file of
//! lines. It prints each row's name. Of each call it prints what the call put on standard output and on standard error, its status, and
//! what it left of the cells and of the job file. Where calls are stopped at each of their moments, every stop must leave a job that can be
//! carried on or back. The first that leaves anything else ends the run with an error.
//!
//! GCC 12.2 for Arm made the binary files that the rows name, except those of UF2, the job files and the cells. The blocks of UF2 are
//! written out by the fields of Microsoft's specification, as `uf2conv` does it, with 256 bytes and a family. The algorithms `*.flm` are in
//! the manner of `FlashOS.h`, in Thumb assembler, for a device with sectors of 256 bytes and pages of 64. `small` is for 1,024 bytes from
//! 0x08000000 on, and each other one differs in one thing, as its name says. `firmware.elf` is C code with `-Os -nostdlib -Wl,-n`, linked
//! at 0x08000000. `objcopy --strip-all` left this of it, and made the other forms of it.

pub mod call;
mod counts;
pub mod files;
mod job;
mod left;
pub mod lines;
mod pairs;
mod run;
mod sweep;
pub mod trial;
mod words;

use anyhow::Result;
use std::fs;

/// Goes through files of rows.
pub fn go_through(rt: &HostRuntime, names: &[&str]) -> Result<()> {
    for name in names {
        lines::go_through(rt, name)?;
    }
    Ok(())
}

/// Goes through the files of rows of a list.
pub fn go_through_all(rt: &HostRuntime) -> Result<()> {
    let order = fs::read_to_string(rt, "order.txt")?;
    let names = order.lines().collect::<Vec<&str>>(rt.alloc())?;
    go_through(rt, &names)
}
