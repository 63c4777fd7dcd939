//! Conditional branches under each setting of the flags.

use crate::instructions::row::half;
use crate::instructions::steps::{HERE, core_at, stepped};
use anyhow::{Result, bail};
use armv6m_decode::registers::PC;
use armv6m_step::StepEnd;
use std::alloc::Global;

/// The branch under one setting, a number of the bits N, Z, C and V: whether it is taken.
fn is_taken(code: u16, flags: usize, alloc: Global) -> Result<bool> {
    let mut core = core_at(HERE);
    core.n = flags / 8 % 2 == 1;
    core.z = flags / 4 % 2 == 1;
    core.c = flags / 2 % 2 == 1;
    core.v = flags % 2 == 1;
    let (end, core) = stepped(alloc, core, code, 0)?;
    match (end, core.regs[PC as usize]) {
        (StepEnd::Went, 0x2000_0042) => Ok(false),
        (StepEnd::Went, 0x2000_0142) => Ok(true),
        (_, pc) => bail!("under {flags:04b}: at {pc:08X}"),
    }
}

/// Whether a row holds: a branch, and under which settings it is taken.
pub fn holds(words: &[&str], alloc: Global) -> Result<bool> {
    let [code, due] = words else {
        bail!("a row is CODE TAKEN");
    };
    let code = half(code)?;
    for (flags, wanted) in due.as_bytes().iter().enumerate() {
        if is_taken(code, flags, alloc)? != (*wanted == b'1') {
            return Ok(false);
        }
    }
    Ok(true)
}
