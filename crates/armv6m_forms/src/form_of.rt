//! From an instruction to its form.

ghost use Rattle.std.specs.Prelude.{◌≡◌};
ghost use Rattle.armv6m_forms.specs.Form.{form_of};

use crate::form::{Aim, Form, Operands};
use crate::mnemonic::Mnemonic;
use crate::plain::{aimed, interrupts, none, one, one_immediate, two, two_immediate, with_bit};
use crate::{form_data, form_memory, plain};
use armv6m_decode::registers::SP;
use armv6m_decode::targets::{far, literal, near, short};
use armv6m_decode::{Branch, Instr, Many, Other};

/// The form of the instruction at an address: its mnemonic and its operands (A6.7). A target is counted from the address plus 4, modulo
/// 2^32. A branch's immediate is taken modulo 2 to the number of its bits. Any other field is taken as it is, even if it doesn't fit its
/// row.
pub fn form_at(instr: &Instr, at: u32) -> Form
    ensures { result ≡ form_of instr.now at }
{
    match *instr {
        Instr::Alu(op) => form_data::form(op, at),
        Instr::Memory(op) => form_memory::form(op, at),
        Instr::Many(op) => many(op, at),
        Instr::Branch(op) => branch(op, at),
        Instr::Other(op) => other(op, at),
    }
}

#[tactic(auto, unfolding(crate::specs::Form::form_of))]
fn many(op: Many, at: u32) -> Form
    ensures { result ≡ form_of (Instr.Many op) at }
{
    match op {
        Many::Push { lr, list } => plain::list(Mnemonic::Push, with_bit(lr, 0x4000, list)),
        Many::Pop { pc, list } => plain::list(Mnemonic::Pop, with_bit(pc, 0x8000, list)),
        Many::Stm { n, list } => Form::Plain {
            mnemonic: Mnemonic::Stm,
            operands: Operands::UpdatedList {
                n,
                list: u16::from(list),
            },
        },
        Many::Ldm { n, list } => Form::Plain {
            mnemonic: Mnemonic::Ldm,
            operands: Operands::BaseList {
                n,
                list: u16::from(list),
            },
        },
    }
}

#[tactic(auto, unfolding(crate::specs::Form::form_of))]
fn branch(op: Branch, at: u32) -> Form
    ensures { result ≡ form_of (Instr.Branch op) at }
{
    match op {
        Branch::Bx { m } => one(Mnemonic::Bx, m),
        Branch::Blx { m } => one(Mnemonic::Blx, m),
        Branch::Bcc {
            condition,
            immediate,
        } => aimed(Aim::BranchIf { condition }, short(at, immediate)),
        Branch::B { immediate } => aimed(Aim::Branch, near(at, immediate)),
        Branch::Bl { immediate } => aimed(Aim::BranchLink, far(at, immediate)),
    }
}

#[tactic(auto, unfolding(crate::specs::Form::form_of))]
fn other(op: Other, at: u32) -> Form
    ensures { result ≡ form_of (Instr.Other op) at }
{
    match op {
        Other::Adr { d, immediate } => aimed(Aim::Address { d }, literal(at, immediate)),
        Other::AddFromSp { d, immediate } => two_immediate(Mnemonic::Add, d, SP, 4, immediate),
        Other::AddToSp { immediate } => one_immediate(Mnemonic::Add, SP, 4, immediate),
        Other::SubFromSp { immediate } => one_immediate(Mnemonic::Sub, SP, 4, immediate),
        Other::Sxth { d, m } => two(Mnemonic::Sxth, d, m),
        Other::Sxtb { d, m } => two(Mnemonic::Sxtb, d, m),
        Other::Uxth { d, m } => two(Mnemonic::Uxth, d, m),
        Other::Uxtb { d, m } => two(Mnemonic::Uxtb, d, m),
        Other::Cpsie => interrupts(Mnemonic::Cpsie),
        Other::Cpsid => interrupts(Mnemonic::Cpsid),
        Other::Rev { d, m } => two(Mnemonic::Rev, d, m),
        Other::Rev16 { d, m } => two(Mnemonic::Rev16, d, m),
        Other::Revsh { d, m } => two(Mnemonic::Revsh, d, m),
        Other::Bkpt { immediate } => plain::immediate(Mnemonic::Bkpt, immediate),
        Other::Nop => none(Mnemonic::Nop),
        Other::Yield => none(Mnemonic::Yield),
        Other::Wfe => none(Mnemonic::Wfe),
        Other::Wfi => none(Mnemonic::Wfi),
        Other::Sev => none(Mnemonic::Sev),
        Other::Udf { immediate: _ } => none(Mnemonic::Udf),
        Other::Svc { immediate: _ } => none(Mnemonic::Svc),
        Other::Mrs { d, special } => Form::Plain {
            mnemonic: Mnemonic::Mrs,
            operands: Operands::FromSpecial { d, special },
        },
        Other::Msr { n, special } => Form::Plain {
            mnemonic: Mnemonic::Msr,
            operands: Operands::ToSpecial { special, n },
        },
        Other::Dsb => none(Mnemonic::Dsb),
        Other::Dmb => none(Mnemonic::Dmb),
        Other::Isb => none(Mnemonic::Isb),
    }
}
