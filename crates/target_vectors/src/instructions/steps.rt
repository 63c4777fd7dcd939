//! Compares one step with what QEMU leaves, and with what was worked out by hand.

use crate::instructions::row::half;
use crate::lines::numbers;
use anyhow::{Result, bail};
use armv6m_decode::registers::{LR, PC, SP};
use armv6m_step::{Core, MemoryBus, StepEnd, step};
use row_text::{bytes_of, number};
use std::alloc::{AllocError, Global};

/// The first address of the memory, and the address of the instruction in it.
pub const BASE: u32 = 0x2000_0000;

pub const HERE: u32 = BASE + 0x40;

const DATA: [u8; 16] = [
    0x80, 0xF1, 0x42, 0xC3, 0x11, 0x22, 0x33, 0x44, 0x99, 0xAA, 0xBB, 0xCC, 0x0D, 0x0E, 0x0F, 0x10,
];

/// A core in which only the PC is set.
pub fn core_at(pc: u32) -> Core {
    let mut core = Core {
        regs: [0; 16],
        n: false,
        z: false,
        c: false,
        v: false,
        primask: false,
    };
    core.regs[PC as usize] = pc;
    core
}

/// Puts bytes at a place after all bytes that were put before, with zeros between.
pub fn put(bytes: &mut Vec<u8>, at: usize, part: &[u8]) -> Result<(), AllocError> {
    bytes.resize(at, 0)?;
    bytes.extend_from_slice(part)
}

/// Puts two halfwords of code to 0x40, a literal after them, and the data to 0x100, in 1,024 bytes.
fn fill(bytes: &mut Vec<u8>, first: u16, second: u16) -> Result<(), AllocError> {
    put(bytes, 0x40, &first.to_le_bytes())?;
    put(bytes, 0x42, &second.to_le_bytes())?;
    put(bytes, 0x44, &0xDEAD_BEE1_u32.to_le_bytes())?;
    put(bytes, 0x100, &DATA)?;
    put(bytes, 0x400, &[])
}

/// 1,024 bytes of memory: two halfwords of code at 0x20000040, a literal after them, and the data from 0x20000100 on.
fn bus_with(alloc: Global, first: u16, second: u16) -> Result<MemoryBus, AllocError> {
    let mut bytes = Vec::new(alloc);
    fill(&mut bytes, first, second)?;
    Ok(MemoryBus::new(BASE, bytes))
}

/// How a step of this code ends, and the core after it.
pub fn stepped(
    alloc: Global,
    core: Core,
    first: u16,
    second: u16,
) -> Result<(StepEnd, Core), AllocError> {
    let mut bus = bus_with(alloc, first, second)?;
    let mut core = core;
    let end = step(&mut core, &mut bus);
    Ok((end, core))
}

/// Sets the flags that a word names, and clears the others.
fn set_flags(core: &mut Core, flags: &str) {
    core.n = flags.contains('N');
    core.z = flags.contains('Z');
    core.c = flags.contains('C');
    core.v = flags.contains('V');
    core.primask = flags.contains('P');
}

/// R0 to R3, R8, SP and LR, and N, Z, C, V and PRIMASK.
fn core_of(words: &[&str], pc: u32) -> Result<Core> {
    let [_, _, _, _, _, _, _, flags] = words else {
        bail!("not eight words");
    };
    let [r0, r1, r2, r3, r8, sp, lr] = numbers::<7>(words)?;
    let mut core = core_at(pc);
    core.regs[0] = r0;
    core.regs[1] = r1;
    core.regs[2] = r2;
    core.regs[3] = r3;
    core.regs[8] = r8;
    core.regs[SP as usize] = sp;
    core.regs[LR as usize] = lr;
    set_flags(&mut core, flags);
    Ok(core)
}

/// The second halfword of a row.
fn second_of(word: &str) -> Result<u16> {
    if word == "----" { Ok(0) } else { half(word) }
}

/// Whether the core goes on after a step, which leaves this core and these bytes of data.
fn leaves(bus: &mut MemoryBus, core: &mut Core, wanted: &Core, data: &[u8]) -> bool {
    step(core, bus) == StepEnd::Went
        && *core == *wanted
        && bus.bytes().get(0x100..0x110) == Some(data)
}

/// Whether the core goes on after a step of the code of two words, which leaves this core and this data.
fn goes_to(code: &[&str], core: Core, wanted: &Core, data: &[u8], alloc: Global) -> Result<bool> {
    let [first, second] = code else {
        bail!("code is FIRST SECOND");
    };
    let mut bus = bus_with(alloc, half(first)?, second_of(second)?)?;
    let mut core = core;
    Ok(leaves(&mut bus, &mut core, wanted, data))
}

/// Whether a row holds: the code, the core before and after a step, and the data after it.
pub fn holds(words: &[&str], alloc: Global) -> Result<bool> {
    if words.len() != 20 {
        bail!("not 20 words");
    }
    let core = core_of(&words[2..10], HERE)?;
    let wanted = core_of(&words[10..18], number(words[18])?)?;
    let data = bytes_of(alloc, words[19])?;
    goes_to(&words[..2], core, &wanted, &data, alloc)
}
