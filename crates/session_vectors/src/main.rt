//! Job files, and sessions and gangs over benches in memory that hold them.
//!
//! `session_vectors CASES GANGS` begins, stops, opens and closes jobs, and reads files that are nearly one (`job`). Then it carries jobs to
//! their goals as the steps of CASES say (`session`), and drives gangs of them as the lines of GANGS say (`gang`).
#![tactic(auto)]

mod gang;
mod job;
mod output;
mod session;

use anyhow::{Result, bail};
use bench_model::Pick;
use std::env;

/// What a stop of the power may leave: what was written, what was there before, or 5A wherever it may be any byte.
const PICKS: [Pick; 3] = [Pick::AsWritten, Pick::AsOld, Pick::Filled { value: 0x5A }];

/// Goes through the job files, and through the files that the words name.
fn follow(rt: &HostRuntime, words: &[String]) -> Result<()> {
    let [cases, gangs] = words else {
        bail!("CASES GANGS is wanted");
    };
    job::check(rt)?;
    session::check(rt, cases.as_str())?;
    gang::check(rt, gangs.as_str())
}

fn main(rt: HostRuntime) -> Result<()> {
    let words = env::args(&rt)?.skip(1).collect::<Vec<String>>(rt.alloc())?;
    follow(&rt, &words)
}
