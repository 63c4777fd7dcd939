//! From a form to its instruction.

ghost use Rattle.std.specs.Prelude.{◌≡◌, ℕ, ◌+◌, ◌-◌, ◌*◌, ◌/◌, ◌%◌, ◌^◌, ◌<◌, ◌≤◌, MatchOption};
ghost use Rattle.armv6m_decode.specs.Targets.{pc_read};
ghost use Rattle.armv6m_forms.specs.declared.form.Form.{Form};
ghost use Rattle.armv6m_forms.specs.Form.{StandsFor, HasNoInstruction, OneInstructionForEach};
ghost use Rattle.armv6m_forms.specs.Row.{IsReadAt, halved, counted};

use crate::form::{Aim, Operands};
use crate::mnemonic::Mnemonic;
use crate::rows;
use crate::rows::{fitting, in_units};
use armv6m_decode::targets::pc_at;
use armv6m_decode::{Branch, Condition, Instr, Memory, Other};

/// A form at an address has at most one instruction.
pub fn one_instruction()
    ensures { OneInstructionForEach }
{}

/// The instruction that a mnemonic and operands without a target mean (A6.7), or `None` if there is none: the mnemonic takes no such
/// operands, or one of them doesn't fit the row's field.
pub fn instruction(mnemonic: Mnemonic, operands: Operands) -> Option<Instr>
    ensures { MatchOption result ((at : ℕ) → HasNoInstruction at (Form.Plain mnemonic operands))
        (λ instr. (at : ℕ) → StandsFor instr at (Form.Plain mnemonic operands)) }
{
    match operands {
        Operands::None => rows::none(mnemonic),
        Operands::One { m } => rows::one(mnemonic, m),
        Operands::Two { d, m } => rows::two(mnemonic, d, m),
        Operands::Three { d, n, m } => rows::three(mnemonic, d, n, m),
        Operands::Immediate { immediate } => rows::immediate(mnemonic, immediate),
        Operands::OneImmediate { d, immediate } => rows::one_immediate(mnemonic, d, immediate),
        Operands::TwoImmediate { d, n, immediate } => rows::two_immediate(
            mnemonic, d, n, immediate,
        ),
        Operands::ByRegister { t, n, m } => rows::by_register(mnemonic, t, n, m),
        Operands::ByOffset { t, n, offset } => rows::by_offset(mnemonic, t, n, offset),
        Operands::List { list } => rows::list(mnemonic, list),
        Operands::BaseList { n, list } => rows::base_list(mnemonic, n, list),
        Operands::UpdatedList { n, list } => rows::updated_list(mnemonic, n, list),
        Operands::Interrupts => rows::interrupts(mnemonic),
        Operands::FromSpecial { d, special } => rows::from_special(mnemonic, d, special),
        Operands::ToSpecial { special, n } => rows::to_special(mnemonic, special, n),
    }
}

/// The instruction at an address for a mnemonic with a target, or `None` if there is none: the target is out of reach, or not a whole
/// number of units from the PC. The distance is counted modulo 2^32, so a target may be across address 0.
pub fn reach(aim: Aim, at: u32, target: u32) -> Option<Instr>
    ensures { MatchOption result (HasNoInstruction at (Form.Aimed aim target)) (λ instr. StandsFor instr at (Form.Aimed aim target)) }
{
    match aim {
        Aim::Branch => near(at, target),
        Aim::BranchIf { condition } => short(condition, at, target),
        Aim::BranchLink => far(at, target),
        Aim::Load { t } => load(t, at, target),
        Aim::Address { d } => address(d, at, target),
    }
}

/// A distance modulo 2^32 as a signed field that counts halfwords, if it is less than `span` bytes in either direction.
fn halves(span: u32, distance: u32) -> Option<u32>
    requires positive { 0 < span }
    requires even { span % 2 ≡ 0 }
    requires within { span ≤ 0x1000000 }
    ensures { result ≡ halved span distance }
{
    let back = 0u32.wrapping_sub(distance);
    if distance % 2 != 0 {
        None
    } else if distance < span {
        Some(distance / 2)
    } else if back <= span {
        Some(span - back / 2)
    } else {
        None
    }
}

fn near(at: u32, target: u32) -> Option<Instr>
    ensures { IsReadAt at (Form.Aimed Aim.Branch target) result }
{
    let immediate = halves(0x800, target.wrapping_sub(pc_at(at)))?;
    fitting(Instr::Branch(Branch::B {
        immediate: immediate as u16,
    }))
}

fn short(condition: Condition, at: u32, target: u32) -> Option<Instr>
    ensures { IsReadAt at (Form.Aimed (Aim.BranchIf condition) target) result }
{
    let immediate = halves(0x100, target.wrapping_sub(pc_at(at)))?;
    fitting(Instr::Branch(Branch::Bcc {
        condition,
        immediate: immediate as u8,
    }))
}

fn far(at: u32, target: u32) -> Option<Instr>
    ensures { IsReadAt at (Form.Aimed Aim.BranchLink target) result }
{
    let immediate = halves(0x100_0000, target.wrapping_sub(pc_at(at)))?;
    fitting(Instr::Branch(Branch::Bl { immediate }))
}

/// The field of a literal's or of ADR's target, counted from the aligned PC.
fn words_ahead(at: u32, target: u32) -> Option<u8>
    ensures { result ≡ counted 4 ((target + (2 ^ 32 - pc_read at / 4 * 4)) % 2 ^ 32) }
{
    in_units(4, target.wrapping_sub(pc_at(at) / 4 * 4))
}

fn load(t: u8, at: u32, target: u32) -> Option<Instr>
    ensures { IsReadAt at (Form.Aimed (Aim.Load t) target) result }
{
    let immediate = words_ahead(at, target)?;
    fitting(Instr::Memory(Memory::LdrLiteral { t, immediate }))
}

fn address(d: u8, at: u32, target: u32) -> Option<Instr>
    ensures { IsReadAt at (Form.Aimed (Aim.Address d) target) result }
{
    let immediate = words_ahead(at, target)?;
    fitting(Instr::Other(Other::Adr { d, immediate }))
}
