//! Code that a compiler made, run to results that are known from elsewhere.
//!
//! arm-none-eabi-gcc 12.2.1: -mcpu=cortex-m0 -mthumb -O2 -ffreestanding -nostdlib -Ttext=0x20000000 work.c -lgcc, of
//!   uint32_t crc32(const uint8_t *bytes, uint32_t count)      at 0, bit by bit, with the polynomial 0xEDB88320
//!   void sort(int16_t *numbers, int count)                    at 0x44, by insertion
//!   int32_t divide(int32_t x, int32_t y)                      at 0x80, which calls __aeabi_idiv
//!   uint64_t multiply(uint32_t x, uint32_t y)                 at 0x88, which calls __aeabi_lmul

use crate::instructions::steps::{BASE, core_at, put};
use anyhow::{Result, bail, ensure};
use armv6m_decode::registers::{LR, PC, SP};
use armv6m_step::{MemoryBus, StepEnd, step};
use std::alloc::{AllocError, Global};

const DATA: u32 = BASE + 0x800;

const RETURN: u32 = BASE + 0xE00;

/// Puts the code to the beginning, and the data to 0x800, in 4096 bytes.
fn fill(bytes: &mut Vec<u8>, code: &[u8], data: &[u8]) -> Result<(), AllocError> {
    put(bytes, 0, code)?;
    put(bytes, 0x800, data)?;
    put(bytes, 0x1000, &[])
}

/// The code, and the bytes from DATA on, in 4096 bytes of memory.
fn memory(alloc: Global, code: &[u8], data: &[u8]) -> Result<MemoryBus, AllocError> {
    let mut bytes = Vec::new(alloc);
    fill(&mut bytes, code, data)?;
    Ok(MemoryBus::new(BASE, bytes))
}

/// Calls the function at an offset, as the AAPCS has it: R0 and R1 where it returned within 100,000 steps.
fn call(bus: &mut MemoryBus, offset: u32, r0: u32, r1: u32) -> Result<(u32, u32)> {
    let mut core = core_at(BASE.wrapping_add(offset));
    core.regs[0] = r0;
    core.regs[1] = r1;
    core.regs[SP as usize] = BASE + 0x1000;
    core.regs[LR as usize] = RETURN + 1;
    for _ in 0..100_000 {
        if core.regs[PC as usize] == RETURN {
            return Ok((core.regs[0], core.regs[1]));
        }
        let end = step(&mut core, bus);
        if end != StepEnd::Went {
            bail!("{end:?}");
        }
    }
    bail!("no return");
}

/// Calls the function at an offset over memory of its own.
fn call_over(
    code: &[u8],
    data: &[u8],
    offset: u32,
    r0: u32,
    r1: u32,
    alloc: Global,
) -> Result<(u32, u32)> {
    let mut bus = memory(alloc, code, data)?;
    call(&mut bus, offset, r0, r1)
}

/// The check value of CRC-32 that catalogues of CRCs give.
fn check_crc(code: &[u8], alloc: Global) -> Result<()> {
    let (crc, _) = call_over(code, b"123456789", 0, DATA, 9, alloc)?;
    ensure!(crc == 0xCBF4_3926, "another CRC");
    Ok(())
}

/// Sorts seven numbers in memory.
fn sort(bus: &mut MemoryBus) -> Result<()> {
    let sorted = [
        0, 0x80, 0xFF, 0xFF, 0, 0, 0, 0, 1, 0, 0x34, 0x12, 0xFF, 0x7F,
    ];
    call(bus, 0x44, DATA, 7)?;
    ensure!(
        bus.bytes().get(0x800..0x80E) == Some(sorted.as_slice()),
        "not sorted"
    );
    Ok(())
}

fn check_sort(code: &[u8], alloc: Global) -> Result<()> {
    let numbers = [
        0x34, 0x12, 0xFF, 0xFF, 0, 0, 0, 0x80, 0xFF, 0x7F, 1, 0, 0, 0,
    ];
    let mut bus = memory(alloc, code, &numbers)?;
    sort(&mut bus)
}

fn check_quotient(code: &[u8], x: i32, y: i32, alloc: Global) -> Result<()> {
    let (quotient, _) = call_over(code, &[], 0x80, x.cast_unsigned(), y.cast_unsigned(), alloc)?;
    if y != 0 && quotient.cast_signed() != x.wrapping_div(y) {
        bail!("{x} / {y}");
    }
    Ok(())
}

fn check_product(code: &[u8], x: u32, y: u32, alloc: Global) -> Result<()> {
    let (low, high) = call_over(code, &[], 0x88, x, y, alloc)?;
    let product = u64::from(x) * u64::from(y);
    if u64::from(low) != product % 0x1_0000_0000 || u64::from(high) != product / 0x1_0000_0000 {
        bail!("{x} * {y}");
    }
    Ok(())
}

/// Calls each function of the code.
pub fn check(code: &[u8], alloc: Global) -> Result<()> {
    check_crc(code, alloc)?;
    check_sort(code, alloc)?;
    for (x, y) in [
        (1_000_000_007, 12_345),
        (-7, 2),
        (i32::MIN, -1),
        (i32::MIN, 3),
        (6, -6),
        (5, 7),
    ] {
        check_quotient(code, x, y, alloc)?;
    }
    for (x, y) in [
        (0xFFFF_FFFF, 0xFFFF_FFFF),
        (0x1234_5678, 0x9ABC_DEF0),
        (3, 5),
        (0x8000_0000, 2),
    ] {
        check_product(code, x, y, alloc)?;
    }
    Ok(())
}
