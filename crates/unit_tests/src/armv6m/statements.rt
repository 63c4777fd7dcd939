//! Instructions to forms and back, and a case of each rule. `target_vectors` compares statements that other tools write.

use crate::armv6m::encoding::{code_if, code_of};
use crate::expect::expect;
use armv6m_decode::registers::{LR, SP};
use armv6m_decode::{Alu, Branch, Condition, Decoded, Instr, Many, Memory, Other, decode16};
use armv6m_forms::{
    Aim, Form, Line, Mnemonic, Operands, disassemble, form_at, instruction, reach, read_branch,
    read_mnemonic, read_register, read_special,
};
use std::process::Abort;

/// The instruction that a form makes, where several instructions have that form.
fn made(instr: Instr) -> Instr {
    match instr {
        Instr::Alu(Alu::CmpHigh { n, m }) if n < 8 && m < 8 => {
            Instr::Alu(Alu::CmpRegister { d: n, m })
        }
        Instr::Other(Other::Udf { immediate: _ }) => Instr::Other(Other::Udf { immediate: 0 }),
        Instr::Other(Other::Svc { immediate: _ }) => Instr::Other(Other::Svc { immediate: 0 }),
        instr => instr,
    }
}

fn read(form: Form, at: u32) -> Option<Instr> {
    match form {
        Form::Plain { mnemonic, operands } => instruction(mnemonic, operands),
        Form::Aimed { aim, target } => reach(aim, at, target),
    }
}

/// Asserts that the form of an instruction at an address makes it again.
fn assert_back(rt: &impl Abort, instr: Instr, at: u32) {
    let read = read(form_at(&instr, at), at);
    expect(rt, &code_if(read), &Some(code_of(&made(instr))));
}

#[test]
fn each_halfword_comes_back(rt: HostRuntime) {
    for half in 0..=u16::MAX {
        if let Decoded::Op(instr) = decode16(half) {
            for at in [0, 0x1000, 0x1002, 0xFFFF_FFFE] {
                assert_back(&rt, instr, at);
            }
        }
    }
}

#[test]
fn each_long_branch_comes_back(rt: HostRuntime) {
    for immediate in (0..0x100_0000).step_by(61) {
        assert_back(&rt, Instr::Branch(Branch::Bl { immediate }), 0x1002);
    }
}

/// Asserts which instructions reach each target from an address.
fn assert_reached(rt: &impl Abort, aim: Aim, reached: &[(u32, u32, Option<Instr>)]) {
    for &(at, target, due) in reached {
        expect(rt, &code_if(reach(aim, at, target)), &code_if(due));
    }
}

/// BEQ with this field.
fn branch(immediate: u8) -> Option<Instr> {
    Some(Instr::Branch(Branch::Bcc {
        condition: Condition::Equal,
        immediate,
    }))
}

/// The ends of B with a condition: 254 bytes after the address plus 4, and 256 bytes before it.
#[test]
fn ends_of_a_branch(rt: HostRuntime) {
    let aim = Aim::BranchIf {
        condition: Condition::Equal,
    };
    let reached = [
        (0x1000, 0x1102, branch(0x7F)),
        (0x1000, 0x0F04, branch(0x80)),
        (0x1000, 0x1104, None),
        (0x1000, 0x0F02, None),
        (0x1000, 0x1101, None),
    ];
    assert_reached(&rt, aim, &reached);
}

/// LDR R1 of a literal, with this field.
fn load(immediate: u8) -> Option<Instr> {
    Some(Instr::Memory(Memory::LdrLiteral { t: 1, immediate }))
}

/// The address of a literal is counted from the PC with its two low bits cleared.
#[test]
fn literals(rt: HostRuntime) {
    let reached = [
        (0x1002, 0x1008, load(1)),
        (0x1000, 0x1400, load(255)),
        (0x1000, 0x1404, None),
        (0x1000, 0x1006, None),
        (0x1000, 0x1000, None),
    ];
    assert_reached(&rt, Aim::Load { t: 1 }, &reached);
}

/// LSRS R0, R1 by `immediate` bits.
fn right(immediate: u32) -> Option<Instr> {
    let operands = Operands::TwoImmediate {
        d: 0,
        n: 1,
        immediate,
    };
    instruction(Mnemonic::Lsrs, operands)
}

/// STR or STRH of R0 at an offset from SP.
fn store(mnemonic: Mnemonic, offset: u32) -> Option<Instr> {
    let operands = Operands::ByOffset {
        t: 0,
        n: SP,
        offset,
    };
    instruction(mnemonic, operands)
}

/// PUSH or POP of R0, R4 and LR.
fn with_lr(mnemonic: Mnemonic) -> Option<Instr> {
    instruction(mnemonic, Operands::List { list: 0x4011 })
}

/// LSRS by 32 has the field 0, and by 0 there is none. An offset counts words. LR goes with PUSH alone.
#[test]
fn fields(rt: HostRuntime) {
    let by_32 = Instr::Alu(Alu::LsrsImmediate {
        d: 0,
        m: 1,
        immediate: 0,
    });
    let on_stack = Instr::Memory(Memory::StrSp {
        t: 0,
        immediate: 255,
    });
    let push = Instr::Many(Many::Push {
        lr: true,
        list: 0x11,
    });
    let found = [
        right(32),
        right(0),
        store(Mnemonic::Str, 1020),
        store(Mnemonic::Strh, 1020),
        with_lr(Mnemonic::Push),
        with_lr(Mnemonic::Pop),
    ];
    let due = [Some(by_32), None, Some(on_stack), None, Some(push), None];
    for (found, due) in found.into_iter().zip(due) {
        expect(&rt, &code_if(found), &code_if(due));
    }
}

/// Asserts the line of an instruction at an address.
fn assert_line(rt: &impl Abort, instr: Instr, at: u32, due: &[u8]) {
    let mut line = Line::new();
    disassemble(&instr, at, &mut line);
    expect(rt, line.bytes(), due);
}

/// A field that no encoding has is written as a number.
#[test]
fn lines(rt: HostRuntime) {
    let link = Instr::Branch(Branch::Bx { m: LR });
    assert_line(&rt, link, 0, b"BX LR");
    let back = Instr::Branch(Branch::Bl {
        immediate: 0xFF_FFFE,
    });
    assert_line(&rt, back, 0xABCD_EF00, b"BL 0xABCDEF00");
    let both = Instr::Alu(Alu::Ands { d: 16, m: 255 });
    assert_line(&rt, both, 0, b"ANDS R16, R255");
    let many = Instr::Many(Many::Stm { n: 255, list: 255 });
    assert_line(&rt, many, 0, b"STM R255!, {R0, R1, R2, R3, R4, R5, R6, R7}");
}

#[test]
fn a_line_holds_what_was_written_last(rt: HostRuntime) {
    let mut line = Line::new();
    expect(&rt, line.bytes(), b"".as_slice());
    disassemble(&Instr::Other(Other::Cpsie), 0, &mut line);
    disassemble(&Instr::Other(Other::Wfi), 0, &mut line);
    expect(&rt, line.bytes(), b"WFI".as_slice());
}

#[test]
fn words(rt: HostRuntime) {
    let lower = Aim::BranchIf {
        condition: Condition::LowerOrSame,
    };
    let found = (
        [read_mnemonic(b"REV16"), read_mnemonic(b"lsls")],
        [read_branch(b"BLS"), read_branch(b"BAL")],
        [read_register(b"SP"), read_register(b"R13")],
        [read_special(b"PRIMASK"), read_special(b"PSP")],
    );
    let due = (
        [Some(Mnemonic::Rev16), None],
        [Some(lower), None],
        [Some(SP), None],
        [Some(16), None],
    );
    expect(&rt, &found, &due);
}
