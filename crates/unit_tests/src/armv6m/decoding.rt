//! A few rows, written out. `target_vectors` compares all rows of the table, and what binutils says of an instruction of each.

use crate::armv6m::encoding::code_if;
use crate::expect::{expect, expect_all};
use armv6m_decode::registers::{LR, PRIMASK};
use armv6m_decode::{
    Alu, Branch, Condition, Decoded, Instr, Many, Other, decode16, decode32, registers, targets,
};
use std::process::Abort;

#[test]
fn halfwords(rt: HostRuntime) {
    // lsrs r0, r1, #32; add sp, r9; bx lr; pop {r1, r6, pc}; bne, 4 bytes back
    let by_32 = Alu::LsrsImmediate {
        d: 0,
        m: 1,
        immediate: 0,
    };
    let to_sp = Alu::AddHigh {
        d: registers::SP,
        m: 9,
    };
    let pop = Many::Pop {
        pc: true,
        list: 0x42,
    };
    let back = Branch::Bcc {
        condition: Condition::NotEqual,
        immediate: 0xFC,
    };
    for (half, due) in [
        (0x0808, Instr::Alu(by_32)),
        (0x44CD, Instr::Alu(to_sp)),
        (0x4770, Instr::Branch(Branch::Bx { m: LR })),
        (0xBD42, Instr::Many(pop)),
        (0xD1FC, Instr::Branch(back)),
    ] {
        expect(&rt, &code_if(read_half(half)), &code_if(Some(due)));
    }
}

/// The instruction of a halfword.
fn read_half(half: u16) -> Option<Instr> {
    match decode16(half) {
        Decoded::Op(instr) => Some(instr),
        Decoded::NeedsSecond | Decoded::Undefined => None,
    }
}

#[test]
fn halfwords_without_a_row(rt: HostRuntime) {
    let undefined = matches!(decode16(0xB100), Decoded::Undefined);
    let needs_second = matches!(decode16(0xE800), Decoded::NeedsSecond);
    expect_all(&rt, &[undefined, needs_second]);
}

/// Asserts that a pair of halfwords is this instruction, or none.
fn assert_pair(rt: &impl Abort, first: u16, second: u16, due: Option<Instr>) {
    expect(rt, &code_if(decode32(first, second)), &code_if(due));
}

#[test]
fn pairs(rt: HostRuntime) {
    // bl to itself; mrs r11, primask
    let back = Instr::Branch(Branch::Bl {
        immediate: 0xFF_FFFE,
    });
    assert_pair(&rt, 0xF7FF, 0xFFFE, Some(back));
    let read = Instr::Other(Other::Mrs {
        d: 11,
        special: PRIMASK,
    });
    assert_pair(&rt, 0xF3EF, 0x8B10, Some(read));
}

#[test]
fn pairs_without_a_row(rt: HostRuntime) {
    for (first, second) in [
        (0xE800, 0xF800),
        (0xF000, 0xE800),
        (0xF000, 0x8000),
        (0xF7F0, 0xA000),
        (0xF800, 0xF800),
        (0xF380, 0x8900),
        (0xF390, 0x8800),
        (0xF3EE, 0x8000),
        (0xF3BF, 0x8F30),
        (0xF3BF, 0x8F70),
        (0xFFFF, 0xFFFF),
    ] {
        assert_pair(&rt, first, second, None);
    }
}

/// A branch to 254 bytes after the PC and one to 256 bytes before it, and the aligned base of a literal.
#[test]
fn targets_of_branches(rt: HostRuntime) {
    let found = [
        targets::short(0x1000, 0x7F),
        targets::short(0x1000, 0x80),
        targets::near(0x1000, 0x400),
        targets::far(0x0110_0000, 0x80_0000),
        targets::literal(0x1002, 1),
    ];
    let due = [0x1102, 0x0F04, 0x0804, 0x0010_0004, 0x1008];
    expect(&rt, &found, &due);
}

/// Asserts that a condition has this code, and that the code has this condition.
fn assert_code(rt: &impl Abort, condition: Condition, code: u8) {
    let found = condition.code();
    let back = Condition::with_code(found);
    expect(rt, &(found, back), &(code, condition));
}

#[test]
fn conditions_have_their_codes(rt: HostRuntime) {
    for (code, condition) in (0..14u8).zip(Condition::ALL) {
        assert_code(&rt, condition, code);
    }
}
