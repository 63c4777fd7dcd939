//! Examples that were worked out by hand.

use super::{BASE, HERE, assert_step, assert_stores, core_at};
use armv6m_decode::registers::{LR, PC, SP};
use armv6m_step::StepEnd;
use std::alloc::AllocError;

/// LSRS R0, R1, #32 of 0x80000000.
#[test]
fn right_by_32(rt: HostRuntime) -> Result<(), AllocError> {
    let mut core = core_at(HERE);
    core.regs[1] = 0x8000_0000;
    let mut due = core;
    core.n = true;
    due.regs[PC as usize] = HERE + 2;
    due.z = true;
    due.c = true;
    let due = (StepEnd::Went, due);
    assert_step(&rt, rt.alloc(), [0x0808, 0], &[], core, due)
}

/// ADCS R0, R1 of 0xFFFFFFFF, 0 and a carry.
#[test]
fn sum_with_a_carry(rt: HostRuntime) -> Result<(), AllocError> {
    let mut core = core_at(HERE);
    core.c = true;
    let mut due = core;
    core.regs[0] = 0xFFFF_FFFF;
    due.regs[PC as usize] = HERE + 2;
    due.z = true;
    let due = (StepEnd::Went, due);
    assert_step(&rt, rt.alloc(), [0x4148, 0], &[], core, due)
}

/// BL to the next instruction.
#[test]
fn long_branch(rt: HostRuntime) -> Result<(), AllocError> {
    let core = core_at(HERE);
    let mut due = core;
    due.regs[PC as usize] = HERE + 4;
    due.regs[LR as usize] = HERE + 5;
    let due = (StepEnd::Went, due);
    assert_step(&rt, rt.alloc(), [0xF000, 0xF800], &[], core, due)
}

/// STM R0!, {R0, R1} stores the old R0.
#[test]
fn base_in_the_list(rt: HostRuntime) -> Result<(), AllocError> {
    let mut core = core_at(HERE);
    core.regs[0] = 0x2000_0100;
    core.regs[1] = 7;
    let mut due = core;
    due.regs[PC as usize] = HERE + 2;
    due.regs[0] = 0x2000_0108;
    let stored = [0x00, 0x01, 0x00, 0x20, 7, 0, 0, 0];
    let due = (StepEnd::Went, due);
    assert_stores(&rt, rt.alloc(), 0xC003, core, due, 0x100, &stored)
}

/// POP {PC} of the word 0x20000040, which has bit 0 clear.
#[test]
fn return_to_an_even_address(rt: HostRuntime) -> Result<(), AllocError> {
    let mut core = core_at(HERE);
    core.regs[SP as usize] = BASE + 0x100;
    let due = (StepEnd::BadState { pc: HERE }, core);
    assert_step(&rt, rt.alloc(), [0xBD00, 0], &[0x40, 0, 0, 0x20], core, due)
}

/// POP {R1, PC} of 0xC342F180 and 0x44332211.
#[test]
fn return_from_the_stack(rt: HostRuntime) -> Result<(), AllocError> {
    let words = [0x80, 0xF1, 0x42, 0xC3, 0x11, 0x22, 0x33, 0x44];
    let mut core = core_at(HERE);
    core.regs[SP as usize] = BASE + 0x100;
    let mut due = core;
    due.regs[1] = 0xC342_F180;
    due.regs[SP as usize] = BASE + 0x108;
    due.regs[PC as usize] = 0x4433_2210;
    let due = (StepEnd::Went, due);
    assert_step(&rt, rt.alloc(), [0xBD02, 0], &words, core, due)
}

/// MSR APSR, R0 of 0x5FFFFFFF leaves PRIMASK.
#[test]
fn flags_of_a_number(rt: HostRuntime) -> Result<(), AllocError> {
    let mut core = core_at(HERE);
    core.regs[0] = 0x5FFF_FFFF;
    core.primask = true;
    let mut due = core;
    core.n = true;
    due.regs[PC as usize] = HERE + 4;
    due.z = true;
    due.v = true;
    let due = (StepEnd::Went, due);
    assert_step(&rt, rt.alloc(), [0xF380, 0x8800], &[], core, due)
}
