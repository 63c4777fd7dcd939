//! A loop of mixed instructions, which the core runs over the bus in memory.

use anyhow::Result;
use armv6m_decode::registers::{PC, SP};
use armv6m_step::{Core, MemoryBus, StepEnd, step};
use std::alloc::Global;

/// arm-none-eabi-as -mcpu=cortex-m0, at 0x20000000; R0 counts the rounds down and R1 is the address of eight bytes:
///
/// start:  ldr r2, [r1, #0];  adds r2, r2, r0;  lsrs r3, r2, #3;  eors r2, r3;  str r2, [r1, #0]
///         ldrb r3, [r1, #1];  strb r3, [r1, #4];  ldrh r4, [r1, #2];  muls r4, r2
///         cmp r4, r3;  bcc skip;  adds r5, #1
/// skip:   bl rotate;  subs r0, #1;  bne start;  bkpt #0
/// rotate: push {r6, lr};  movs r6, #5;  rors r2, r6;  adcs r5, r2;  pop {r6, pc}
const CODE: [u8; 44] = [
    0x0A, 0x68, 0x12, 0x18, 0xD3, 0x08, 0x5A, 0x40, 0x0A, 0x60, 0x4B, 0x78, 0x0B, 0x71, 0x4C, 0x88,
    0x54, 0x43, 0x9C, 0x42, 0x00, 0xD3, 0x01, 0x35, 0x00, 0xF0, 0x03, 0xF8, 0x01, 0x38, 0xEF, 0xD1,
    0x00, 0xBE, 0x40, 0xB5, 0x05, 0x26, 0xF2, 0x41, 0x55, 0x41, 0x40, 0xBD,
];

const BASE: u32 = 0x2000_0000;

/// How the last step ended, and how many steps were made.
fn run(core: &mut Core, bus: &mut MemoryBus) -> (StepEnd, u64) {
    for made in 0..u64::MAX {
        let end = step(core, bus);
        if end != StepEnd::Went {
            return (end, made);
        }
    }
    (StepEnd::Went, u64::MAX)
}

/// How the last step of a core that runs the loop ended, and how many steps were made.
fn run_code(alloc: Global, core: &mut Core) -> Result<(StepEnd, u64)> {
    let mut bytes = Vec::from_slice(alloc, &CODE)?;
    bytes.resize(1024, 0)?;
    let mut bus = MemoryBus::new(BASE, bytes);
    Ok(run(core, &mut bus))
}

/// Runs the loop for `rounds` rounds. It prints how the last step ended, how many steps were made, and two registers.
pub fn run_loop(rt: &HostRuntime, rounds: u32) -> Result<()> {
    let mut core = Core {
        regs: [0; 16],
        n: false,
        z: false,
        c: false,
        v: false,
        primask: false,
    };
    core.regs[0] = rounds;
    core.regs[1] = BASE + 512;
    core.regs[SP as usize] = BASE + 1024;
    core.regs[PC as usize] = BASE;
    let (end, steps) = run_code(rt.alloc(), &mut core)?;
    println!(rt; "{end:?}\nsteps {steps}")?;
    println!(rt; "R2 {:08X} R5 {:08X}", core.regs[2], core.regs[5])?;
    Ok(())
}
