//! Carries whole jobs through the flash programmer on real files, as `flm_tool` would in one run after the other. It goes through the lines
//! of the file `calls.txt` (`lines`), and then runs the program's own arguments. What the calls put on standard output appears between the
//! lines that it prints of them. It ends with the status of the last call. Other lines carry jobs through files in memory that lose the
//! power. All its files are in a separate folder.

mod cached_disk;
mod cached_file;
mod files;
mod lines;
mod losses;

use anyhow::Result;
use flm_main::{hold_streams, run};
use std::env;
use std::process::ExitCode;

/// The folder of the files of the jobs.
const FOLDER: &str = "host";

/// The file of the lines.
const LINES: &str = "calls.txt";

/// The status where a line can't be followed. No call has this status.
const NOT_FOLLOWED: u8 = 99;

/// Goes through the lines, and runs the program's own arguments. Answers the exit code.
pub fn carry(rt: &HostRuntime) -> ExitCode {
    match follow(rt) {
        Ok(end) => end,
        Err(fault) => {
            let _ = eprintln!(rt; "{fault}");
            ExitCode::from(NOT_FOLLOWED)
        }
    }
}

/// Goes through the lines in the folder, if there is one, and runs the program's own arguments.
fn follow(rt: &HostRuntime) -> Result<ExitCode> {
    env::set_current_dir(rt, FOLDER)?;
    lines::go_through(hold_streams(*rt)?, LINES)?;
    Ok(run(*rt))
}
