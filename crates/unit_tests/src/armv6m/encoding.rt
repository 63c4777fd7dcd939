//! The encoder is the inverse of the decoder.

use crate::expect::expect;
use armv6m_decode::registers::{APSR, MSP, PRIMASK};
use armv6m_decode::{Branch, Decoded, Instr, Other, decode16, decode32};
use armv6m_encode::{Encoding, encode, has_encoding};
use std::process::Abort;

/// The code of an instruction, if it has one. No two instructions have the same code, so tests compare instructions by their codes.
pub fn code_of(instr: &Instr) -> Option<Encoding> {
    if has_encoding(instr) {
        Some(encode(instr))
    } else {
        None
    }
}

/// The code of an instruction, if there is an instruction.
pub fn code_if(instr: Option<Instr>) -> Option<Option<Encoding>> {
    match instr {
        Some(instr) => Some(code_of(&instr)),
        None => None,
    }
}

#[test]
fn each_halfword_comes_back(rt: HostRuntime) {
    for half in 0..=u16::MAX {
        match decode16(half) {
            Decoded::Op(instr) => {
                expect(&rt, &code_of(&instr), &Some(Encoding::Half { half }));
            }
            Decoded::NeedsSecond | Decoded::Undefined => {}
        }
    }
}

/// What the decoder reads of two halfwords, where the first one needs a second.
pub fn read_pair(code: Option<Encoding>) -> Option<Instr> {
    match code {
        Some(Encoding::Pair { first, second }) => match decode16(first) {
            Decoded::NeedsSecond => decode32(first, second),
            Decoded::Op(_) | Decoded::Undefined => None,
        },
        Some(Encoding::Half { .. }) | None => None,
    }
}

/// Asserts that the two halfwords of an instruction are read as the instruction.
pub fn assert_read_back(rt: &impl Abort, instr: &Instr) {
    let code = code_of(instr);
    expect(rt, &code_if(read_pair(code)), &Some(code));
}

#[test]
fn each_long_branch_comes_back(rt: HostRuntime) {
    for immediate in 0..0x100_0000 {
        assert_read_back(&rt, &Instr::Branch(Branch::Bl { immediate }));
    }
}

/// The code by GNU as 2.40, arm-none-eabi-as -mcpu=cortex-m0: mrs r11, primask; msr msp, r12; dsb; dmb; isb.
#[test]
fn pairs_of_binutils(rt: HostRuntime) {
    for (instr, first, second) in [
        (
            Other::Mrs {
                d: 11,
                special: PRIMASK,
            },
            0xF3EF,
            0x8B10,
        ),
        (
            Other::Msr {
                n: 12,
                special: MSP,
            },
            0xF38C,
            0x8808,
        ),
        (Other::Dsb, 0xF3BF, 0x8F4F),
        (Other::Dmb, 0xF3BF, 0x8F5F),
        (Other::Isb, 0xF3BF, 0x8F6F),
    ] {
        let code = code_of(&Instr::Other(instr));
        expect(&rt, &code, &Some(Encoding::Pair { first, second }));
    }
}

#[test]
fn fields_that_do_not_fit(rt: HostRuntime) {
    for instr in [
        Instr::Other(Other::Mrs {
            d: 16,
            special: APSR,
        }),
        Instr::Branch(Branch::B { immediate: 0x800 }),
        Instr::Branch(Branch::Bl {
            immediate: 0x100_0000,
        }),
    ] {
        expect(&rt, &code_of(&instr), &None);
    }
}
