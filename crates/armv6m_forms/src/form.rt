//! The form of an instruction: what its statement says.
//!
//! A register is its number, 0 to 15. Immediates are as in the text: offsets in bytes, and a shift to the right by 1 to 32. Bit r of a
//! `list` stands for register r.

use crate::mnemonic::Mnemonic;
use armv6m_decode::Condition;

/// The operands of an instruction without a target, in the order of the text.
#[derive(Clone, Copy)]
pub enum Operands {
    /// No operand: `NOP`
    None,
    /// `m`
    One { m: u8 },
    /// `d, m`
    Two { d: u8, m: u8 },
    /// `d, n, m`
    Three { d: u8, n: u8, m: u8 },
    /// `#immediate`
    Immediate { immediate: u32 },
    /// `d, #immediate`
    OneImmediate { d: u8, immediate: u32 },
    /// `d, n, #immediate`
    TwoImmediate { d: u8, n: u8, immediate: u32 },
    /// `t, [n, m]`
    ByRegister { t: u8, n: u8, m: u8 },
    /// `t, [n, #offset]`
    ByOffset { t: u8, n: u8, offset: u32 },
    /// `{list}`
    List { list: u16 },
    /// `n, {list}`
    BaseList { n: u8, list: u16 },
    /// `n!, {list}`
    UpdatedList { n: u8, list: u16 },
    /// `i`, the flag PRIMASK of CPS
    Interrupts,
    /// `d, special`, with the special register's number, the manual's SYSm
    FromSpecial { d: u8, special: u8 },
    /// `special, n`
    ToSpecial { special: u8, n: u8 },
}

/// The mnemonic of an instruction with a target.
#[derive(Clone, Copy, PartialEq, Eq, Debug)]
pub enum Aim {
    /// `B target`
    Branch,
    /// `B` with a condition (A6.3)
    BranchIf { condition: Condition },
    /// `BL target`
    BranchLink,
    /// `LDR t, target`
    Load { t: u8 },
    /// `ADR d, target`
    Address { d: u8 },
}

/// The form of an instruction.
#[derive(Clone, Copy)]
pub enum Form {
    /// An instruction without a target.
    Plain {
        mnemonic: Mnemonic,
        operands: Operands,
    },
    /// An instruction with a target, which is an address.
    Aimed {
        aim: Aim,
        target: u32,
    },
}
