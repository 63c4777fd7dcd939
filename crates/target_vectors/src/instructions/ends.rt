//! Instructions after which the core doesn't go on.

use crate::instructions::row::half;
use crate::instructions::steps::{HERE, core_at, stepped};
use anyhow::{Result, bail};
use armv6m_decode::registers::SP;
use armv6m_step::StepEnd;
use row_text::number;
use std::alloc::Global;

/// The name of an end, and its address.
fn shown(end: StepEnd) -> (&'static str, u32) {
    match end {
        StepEnd::Went => ("Went", 0),
        StepEnd::Break { pc } => ("Break", pc),
        StepEnd::Undefined { pc } => ("Undefined", pc),
        StepEnd::BusFault { at } => ("BusFault", at),
        StepEnd::Unaligned { at } => ("Unaligned", at),
        StepEnd::BadState { pc } => ("BadState", pc),
        StepEnd::Device => ("Device", 0),
    }
}

/// Whether a row holds: two halfwords, R1 and SP before, the end, and its address.
pub fn holds(words: &[&str], alloc: Global) -> Result<bool> {
    let [first, second, r1, sp, name, at] = words else {
        bail!("a row is FIRST SECOND R1 SP END AT");
    };
    let mut core = core_at(HERE);
    core.regs[1] = number(r1)?;
    core.regs[SP as usize] = number(sp)?;
    core.c = true;
    let (end, after) = stepped(alloc, core, half(first)?, half(second)?)?;
    let (end, place) = shown(end);
    Ok(end == *name && place == number(at)? && after == core)
}
