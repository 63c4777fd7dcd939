//! The disassembler's text of an instruction assembles to the instruction's code again.

use crate::armv6m::encoding::{assert_read_back, code_of};
use crate::expect::expect;
use armv6m_asm::{Line, assemble, disassemble};
use armv6m_decode::registers::{APSR, MSP, PC, PRIMASK, SP};
use armv6m_decode::{Alu, Branch, Decoded, Instr, Many, Other, decode16};
use armv6m_encode::Encoding;
use std::alloc::Global;
use std::process::Abort;
use std::test::Fail;

/// Whether the text of an instruction makes another one, or none. These are `CMP` of two low registers in its second encoding, an empty
/// list, and an operand of `UDF` and `SVC`, which isn't written. The manual leaves open what they do.
fn is_open(instr: &Instr) -> bool {
    match *instr {
        Instr::Alu(Alu::CmpHigh { n, m }) => n < 8 && m < 8,
        Instr::Many(Many::Push { lr, list }) => !lr && list == 0,
        Instr::Many(Many::Pop { pc, list }) => !pc && list == 0,
        Instr::Many(Many::Stm { n: _, list } | Many::Ldm { n: _, list }) => list == 0,
        Instr::Other(Other::Udf { immediate } | Other::Svc { immediate }) => immediate != 0,
        _ => false,
    }
}

/// Asserts that the text of an instruction at address 0 assembles to these bytes.
fn assert_back(rt: &impl Abort, alloc: Global, instr: &Instr, due: &[u8]) -> Result<(), Fail> {
    let mut line = Line::new();
    disassemble(instr, 0, &mut line);
    let code = assemble(alloc, line.bytes())?;
    expect(rt, code.bytes.bytes(), due);
    Ok(())
}

#[test]
fn each_halfword_comes_back(rt: HostRuntime) -> Result<(), Fail> {
    let mut open = 0u32;
    for half in 0..=u16::MAX {
        if let Decoded::Op(instr) = decode16(half) {
            if is_open(&instr) {
                open = open.wrapping_add(1);
            } else {
                assert_back(&rt, rt.alloc(), &instr, &half.to_le_bytes())?;
            }
        }
    }
    expect(&rt, &open, &592);
    Ok(())
}

/// Asserts that the text of an instruction of two halfwords assembles to them.
fn assert_pair_back(rt: &impl Abort, alloc: Global, instr: &Instr) -> Result<(), Fail> {
    assert_read_back(rt, instr);
    if let Some(Encoding::Pair { first, second }) = code_of(instr) {
        let [a, b] = first.to_le_bytes();
        let [c, d] = second.to_le_bytes();
        assert_back(rt, alloc, instr, &[a, b, c, d])?;
    }
    Ok(())
}

/// The ends of BL's range, and every 2,053rd distance between them.
#[test]
fn long_branches_come_back(rt: HostRuntime) -> Result<(), Fail> {
    for immediate in [0, 1, 0x7F_FFFF, 0x80_0000, 0xFF_FFFE, 0xFF_FFFF] {
        assert_pair_back(&rt, rt.alloc(), &Instr::Branch(Branch::Bl { immediate }))?;
    }
    for k in 0..8172u32 {
        let immediate = k * 2053;
        assert_pair_back(&rt, rt.alloc(), &Instr::Branch(Branch::Bl { immediate }))?;
    }
    Ok(())
}

/// Asserts the texts of both instructions on a special register.
fn assert_special(rt: &impl Abort, alloc: Global, register: u8, special: u8) -> Result<(), Fail> {
    let read = Other::Mrs {
        d: register,
        special,
    };
    assert_pair_back(rt, alloc, &Instr::Other(read))?;
    let write = Other::Msr {
        n: register,
        special,
    };
    assert_pair_back(rt, alloc, &Instr::Other(write))
}

/// Asserts the texts of all instructions on the special registers, with a register.
fn assert_all_special(rt: &impl Abort, alloc: Global, register: u8) -> Result<(), Fail> {
    for special in [APSR, MSP, PRIMASK] {
        assert_special(rt, alloc, register, special)?;
    }
    Ok(())
}

/// Asserts the texts of the barriers.
fn assert_barriers(rt: &impl Abort, alloc: Global) -> Result<(), Fail> {
    for barrier in [Other::Dsb, Other::Dmb, Other::Isb] {
        assert_pair_back(rt, alloc, &Instr::Other(barrier))?;
    }
    Ok(())
}

#[test]
fn special_registers_come_back(rt: HostRuntime) -> Result<(), Fail> {
    for register in 0..16u8 {
        if register != SP && register != PC {
            assert_all_special(&rt, rt.alloc(), register)?;
        }
    }
    assert_barriers(&rt, rt.alloc())
}
