//! Instructions after which the core doesn't go on. Each of them leaves every register and flag unchanged.

use super::{BASE, HERE, assert_step, assert_stores, bus_with, core_at};
use crate::expect::expect;
use armv6m_decode::registers::{PC, SP};
use armv6m_step::StepEnd::{self, BusFault, Unaligned, Undefined};
use armv6m_step::{Core, MemoryBus, step};
use std::alloc::AllocError;
use std::process::Abort;

/// LDR R0, [R1, #0] at 0x20000102, and at 0x10000000; ADD PC, PC.
#[test]
fn nothing_is_written(rt: HostRuntime) -> Result<(), AllocError> {
    for (code, r1, end) in [
        (0x6808, 0x2000_0102, Unaligned { at: 0x2000_0102 }),
        (0x6808, 0x1000_0000, BusFault { at: 0x1000_0000 }),
        (0x44FF, 0, Undefined { pc: HERE }),
    ] {
        let mut core = core_at(HERE);
        core.regs[1] = r1;
        core.c = true;
        assert_step(&rt, rt.alloc(), [code, 0], &[], core, (end, core))?;
    }
    Ok(())
}

/// Stores before a fault remain: PUSH {R2, R3, LR} with its second word past the memory.
#[test]
fn stores_before_a_fault_stand(rt: HostRuntime) -> Result<(), AllocError> {
    let mut core = core_at(HERE);
    core.regs[2] = 0x0403_0201;
    core.regs[SP as usize] = 0x2000_0408;
    let due = (BusFault { at: 0x2000_0400 }, core);
    assert_stores(&rt, rt.alloc(), 0xB50C, core, due, 0x3FC, &[1, 2, 3, 4])
}

/// Asserts how a step at an address ends.
fn assert_end(rt: &impl Abort, core: &mut Core, bus: &mut MemoryBus, pc: u32, due: StepEnd) {
    core.regs[PC as usize] = pc;
    expect(rt, &step(core, bus), &due);
}

/// A fetch at an odd address, and one with its second halfword past the memory.
#[test]
fn fetches(rt: HostRuntime) -> Result<(), AllocError> {
    let mut core = core_at(HERE);
    // STRH R2, [R1], which puts the first halfword of BL at the end of the memory
    core.regs[1] = BASE + 0x3FE;
    core.regs[2] = 0xF000;
    let mut bus = bus_with(rt.alloc(), 0x800A, 0, &[])?;
    for (pc, end) in [
        (HERE, StepEnd::Went),
        (BASE + 0x3FE, BusFault { at: BASE + 0x400 }),
        (BASE + 0x41, Unaligned { at: BASE + 0x41 }),
    ] {
        assert_end(&rt, &mut core, &mut bus, pc, end);
    }
    Ok(())
}
