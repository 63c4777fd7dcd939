//! Loads of a quick step to a register. A value that the bus has at hand takes a separate path from one that is loaded out of line.

ghost use Rattle.armv6m_step.specs.MemoryRows.{load_word, load_half, load_byte};
ghost use Rattle.armv6m_step.specs.Numbers.{sum};
ghost use Rattle.armv6m_step.specs.Quick.{Steps};

use crate::access::{far_load8, far_load16, far_load32, peek8, peek16, peek32};
use crate::quick::{Quick, stopped};
use crate::{Bus, Core};

/// Loads the word at an address to a register.
#[inline(always)]
#[tactic(auto, using(crate::proofs::RunLemmas::asks), unfolding(crate::specs::MemoryRows::load_word))]
pub(crate) fn word_into<B: Bus>(core: &mut Core, bus: &mut B, pc: u32, t: usize, at: u32) -> Quick
    ensures { Steps B.acts (load_word core.old (sum pc 2) t at) core.old bus.old result core.new bus.new }
{
    if let Some(value) = peek32(bus, at) {
        core.write_wide(t, value);
        let next = pc.wrapping_add(2);
        return Quick::Went { pc: next };
    }
    match far_load32(bus, at) {
        Ok(value) => {
            core.write_wide(t, value);
            let next = pc.wrapping_add(2);
            Quick::Went { pc: next }
        }
        Err(stop) => stopped(stop),
    }
}

/// Loads the halfword at an address to a register, with zeros as its upper bits.
#[inline(always)]
#[tactic(auto, using(crate::proofs::RunLemmas::asks), unfolding(crate::specs::MemoryRows::load_half))]
pub(crate) fn half_into<B: Bus>(core: &mut Core, bus: &mut B, pc: u32, t: usize, at: u32) -> Quick
    ensures { Steps B.acts (load_half core.old (sum pc 2) t at) core.old bus.old result core.new bus.new }
{
    if let Some(value) = peek16(bus, at) {
        core.write_wide(t, value);
        let next = pc.wrapping_add(2);
        return Quick::Went { pc: next };
    }
    match far_load16(bus, at) {
        Ok(value) => {
            core.write_wide(t, value);
            let next = pc.wrapping_add(2);
            Quick::Went { pc: next }
        }
        Err(stop) => stopped(stop),
    }
}

/// Loads the byte at an address to a register, with zeros as its upper bits.
#[inline(always)]
#[tactic(auto, using(crate::proofs::RunLemmas::asks), unfolding(crate::specs::MemoryRows::load_byte))]
pub(crate) fn byte_into<B: Bus>(core: &mut Core, bus: &mut B, pc: u32, t: usize, at: u32) -> Quick
    ensures { Steps B.acts (load_byte core.old (sum pc 2) t at) core.old bus.old result core.new bus.new }
{
    if let Some(value) = peek8(bus, at) {
        core.write_wide(t, value);
        let next = pc.wrapping_add(2);
        return Quick::Went { pc: next };
    }
    match far_load8(bus, at) {
        Ok(value) => {
            core.write_wide(t, value);
            let next = pc.wrapping_add(2);
            Quick::Went { pc: next }
        }
        Err(stop) => stopped(stop),
    }
}
