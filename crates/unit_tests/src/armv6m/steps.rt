//! Tests of single instructions. `target_vectors` compares what QEMU leaves after one of each row, and conditions, ends and compiled code.

mod ends;
mod worked;

use crate::expect::expect;
use armv6m_decode::registers::PC;
use armv6m_step::{Core, MemoryBus, StepEnd, step};
use std::alloc::{AllocError, Global};
use std::process::Abort;

const BASE: u32 = 0x2000_0000;

const HERE: u32 = BASE + 0x40;

/// A core in which only the PC is set.
fn core_at(pc: u32) -> Core {
    let mut core = Core {
        regs: [0; 16],
        n: false,
        z: false,
        c: false,
        v: false,
        primask: false,
    };
    core.regs[PC as usize] = pc;
    core
}

/// Puts bytes at a place after all bytes that were put before, with zeros between.
fn put(bytes: &mut Vec<u8>, at: usize, part: &[u8]) -> Result<(), AllocError> {
    bytes.resize(at, 0)?;
    bytes.extend_from_slice(part)
}

/// Puts two halfwords of code to 0x40, and the data to 0x100, in 1,024 bytes.
fn fill(bytes: &mut Vec<u8>, first: u16, second: u16, data: &[u8]) -> Result<(), AllocError> {
    put(bytes, 0x40, &first.to_le_bytes())?;
    put(bytes, 0x42, &second.to_le_bytes())?;
    put(bytes, 0x100, data)?;
    put(bytes, 0x400, &[])
}

/// 1,024 bytes of memory: two halfwords of code at 0x20000040, and the data from 0x20000100 on.
fn bus_with(alloc: Global, first: u16, second: u16, data: &[u8]) -> Result<MemoryBus, AllocError> {
    let mut bytes = Vec::new(alloc);
    fill(&mut bytes, first, second, data)?;
    Ok(MemoryBus::new(BASE, bytes))
}

/// How a step of this code over this data ends, and the core after it.
fn stepped(
    alloc: Global,
    before: Core,
    code: [u16; 2],
    data: &[u8],
) -> Result<(StepEnd, Core), AllocError> {
    let [first, second] = code;
    let mut bus = bus_with(alloc, first, second, data)?;
    let mut core = before;
    let end = step(&mut core, &mut bus);
    Ok((end, core))
}

/// Asserts how a step of this code over this data ends, and that it leaves this core.
fn assert_step(
    rt: &impl Abort,
    alloc: Global,
    code: [u16; 2],
    data: &[u8],
    before: Core,
    due: (StepEnd, Core),
) -> Result<(), AllocError> {
    let found = stepped(alloc, before, code, data)?;
    expect(rt, &found, &due);
    Ok(())
}

/// Asserts that the memory has these bytes from a place on.
fn assert_memory(rt: &impl Abort, bus: &MemoryBus, at: usize, due: &[u8]) {
    let end = at.wrapping_add(due.len());
    expect(rt, bus.bytes().get(at..end).unwrap_or(&[]), due);
}

/// Asserts how a step of a halfword ends, that it leaves this core, and that it stores these bytes from a place on.
fn assert_stores(
    rt: &impl Abort,
    alloc: Global,
    code: u16,
    before: Core,
    due: (StepEnd, Core),
    at: usize,
    stored: &[u8],
) -> Result<(), AllocError> {
    let mut bus = bus_with(alloc, code, 0, &[])?;
    let mut core = before;
    let end = step(&mut core, &mut bus);
    expect(rt, &(end, core), &due);
    assert_memory(rt, &bus, at, stored);
    Ok(())
}
