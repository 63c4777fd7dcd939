//! The text of a form.
ghost use Rattle.std.specs.Prelude.{◌≡◌, ◌+◌, ◌≤◌, ◌<◌, ◌++◌, [], length, codes, if◌then◌else◌};
ghost use Rattle.armv6m_forms.specs.Room.{IsShort, HasShortList, HasRoom, low_list};
ghost use Rattle.armv6m_forms.specs.Text.{register_text, immediate_text, special_text, target_text, comma_text, list_text, operands_text, aim_text};
ghost use Rattle.armv6m_forms.specs.Text.{aim_register, form_text};
ghost use Rattle.armv6m_forms.specs.declared.form.Operands.TheVariants.{Two, Three, OneImmediate, TwoImmediate, ByRegister, ByOffset, BaseList, UpdatedList};
ghost use Rattle.armv6m_forms.specs.declared.form.Operands.TheVariants.{FromSpecial, ToSpecial};
ghost use Rattle.armv6m_forms.specs.declared.form.Form.TheVariants.{Plain};
ghost use Rattle.armv6m_forms.specs.Form.{form_of};

use crate::form::{Aim, Form, Operands};
use crate::form_of::form_at;
use crate::line::Line;
use crate::mnemonic::Mnemonic;
use crate::word::{condition_text, register_name};
use armv6m_decode::registers::{APSR, MSP, PRIMASK};
use armv6m_decode::{Instr, Many};
use itoa::Buffer;
use octets::hex_digits;

/// Adds the name of a register.
fn write_register(line: &mut Line, register: u8)
    requires { length line.old ≤ 60 }
    ensures text { line.new ≡ line.old ++ register_text register }
    ensures short { length line.new ≤ length line.old + 4 }
{
    if register < 16 {
        line.put(register_name(register));
    } else {
        line.put(b"R");
        line.put(Buffer::new().format(register).as_bytes());
    }
}

/// Adds a comma and the name of a register.
fn write_next(line: &mut Line, register: u8)
    requires { length line.old ≤ 58 }
    ensures text { line.new ≡ line.old ++ comma_text ++ register_text register }
    ensures short { length line.new ≤ length line.old + 6 }
{
    line.put(b", ");
    write_register(line, register);
}

/// Adds an immediate.
#[tactic(auto, unfolding(crate::specs::Text::immediate_text))]
fn write_immediate(line: &mut Line, immediate: u32)
    requires { length line.old ≤ 53 }
    ensures text { line.new ≡ line.old ++ immediate_text immediate }
    ensures short { length line.new ≤ length line.old + 11 }
{
    line.put(b"#");
    line.put(Buffer::new().format(immediate).as_bytes());
}

/// Adds a comma and an immediate.
fn write_next_immediate(line: &mut Line, immediate: u32)
    requires { length line.old ≤ 51 }
    ensures text { line.new ≡ line.old ++ comma_text ++ immediate_text immediate }
    ensures short { length line.new ≤ length line.old + 13 }
{
    line.put(b", ");
    write_immediate(line, immediate);
}

/// Adds a special register.
#[tactic(auto, unfolding(crate::specs::Text::special_text))]
fn write_special(line: &mut Line, special: u8)
    requires { length line.old ≤ 53 }
    ensures text { line.new ≡ line.old ++ special_text special }
    ensures short { length line.new ≤ length line.old + 11 }
{
    match special {
        APSR => line.put(b"APSR"),
        MSP => line.put(b"MSP"),
        PRIMASK => line.put(b"PRIMASK"),
        _ => write_immediate(line, u32::from(special)),
    }
}

/// Adds the address of a target.
#[tactic(auto, unfolding(crate::specs::Text::target_text))]
fn write_target(line: &mut Line, target: u32)
    requires { length line.old ≤ 14 }
    ensures { line.new ≡ line.old ++ target_text target }
{
    line.put(b"0x");
    line.put(&hex_digits::<8>(target));
}

/// Adds `d, m`.
#[tactic(auto, unfolding(crate::specs::Text::operands_text))]
fn write_two(line: &mut Line, d: u8, m: u8)
    requires { length line.old ≤ 6 }
    ensures { line.new ≡ line.old ++ operands_text (Two d m) }
{
    write_register(line, d);
    write_next(line, m);
}

/// Adds `d, n, m`.
#[tactic(auto, unfolding(crate::specs::Text::operands_text))]
fn write_three(line: &mut Line, d: u8, n: u8, m: u8)
    requires { length line.old ≤ 6 }
    ensures { line.new ≡ line.old ++ operands_text (Three d n m) }
{
    write_register(line, d);
    write_next(line, n);
    write_next(line, m);
}

/// Adds `d, #immediate`.
#[tactic(auto, unfolding(crate::specs::Text::operands_text))]
fn write_one_immediate(line: &mut Line, d: u8, immediate: u32)
    requires { length line.old ≤ 6 }
    ensures { line.new ≡ line.old ++ operands_text (OneImmediate d immediate) }
{
    write_register(line, d);
    write_next_immediate(line, immediate);
}

/// Adds `d, n, #immediate`.
#[tactic(auto, unfolding(crate::specs::Text::operands_text))]
fn write_two_immediate(line: &mut Line, d: u8, n: u8, immediate: u32)
    requires { length line.old ≤ 6 }
    ensures { line.new ≡ line.old ++ operands_text (TwoImmediate d n immediate) }
{
    write_register(line, d);
    write_next(line, n);
    write_next_immediate(line, immediate);
}

/// Adds `t, [n, m]`.
#[tactic(auto, unfolding(crate::specs::Text::operands_text))]
fn write_by_register(line: &mut Line, t: u8, n: u8, m: u8)
    requires { length line.old ≤ 6 }
    ensures { line.new ≡ line.old ++ operands_text (ByRegister t n m) }
{
    write_register(line, t);
    line.put(b", [");
    write_register(line, n);
    write_next(line, m);
    line.put(b"]");
}

/// Adds `t, [n, #offset]`.
#[tactic(auto, unfolding(crate::specs::Text::operands_text))]
fn write_by_offset(line: &mut Line, t: u8, n: u8, offset: u32)
    requires { length line.old ≤ 6 }
    ensures { line.new ≡ line.old ++ operands_text (ByOffset t n offset) }
{
    write_register(line, t);
    line.put(b", [");
    write_register(line, n);
    write_next_immediate(line, offset);
    line.put(b"]");
}

/// Adds `d, special`.
#[tactic(auto, unfolding(crate::specs::Text::operands_text))]
fn write_from_special(line: &mut Line, d: u8, special: u8)
    requires { length line.old ≤ 6 }
    ensures { line.new ≡ line.old ++ operands_text (FromSpecial d special) }
{
    write_register(line, d);
    line.put(b", ");
    write_special(line, special);
}

/// Adds `special, n`.
#[tactic(auto, unfolding(crate::specs::Text::operands_text))]
fn write_to_special(line: &mut Line, special: u8, n: u8)
    requires { length line.old ≤ 6 }
    ensures { line.new ≡ line.old ++ operands_text (ToSpecial special n) }
{
    write_special(line, special);
    write_next(line, n);
}

/// Adds the registers of a list in braces, in rising order.
#[tactic(auto, unfolding(crate::specs::Text::list_text))]
fn write_list(line: &mut Line, list: u16)
    requires room { length line.old ≤ 13 }
    requires short { IsShort list }
    ensures { line.new ≡ line.old ++ list_text list }
{
    line.put(b"{");
    let mut first = true;
    for register in 0..16u8 {
        if (list >> register) % 2 == 1 {
            write_item(line, register, first);
            first = false;
        }
    }
    line.put(b"}");
}

/// Adds a register of a list, with a comma before each but the first.
fn write_item(line: &mut Line, register: u8, first: bool)
    requires { length line.old ≤ 58 }
    ensures text { line.new ≡ line.old ++ (if first then [] else comma_text) ++ register_text register }
{
    if first {
        write_register(line, register);
    } else {
        write_next(line, register);
    }
}

/// Adds `n, {list}`.
#[tactic(auto, unfolding(crate::specs::Text::operands_text))]
fn write_base_list(line: &mut Line, n: u8, list: u16)
    requires room { length line.old ≤ 6 }
    requires short { IsShort list }
    ensures { line.new ≡ line.old ++ operands_text (BaseList n list) }
{
    write_register(line, n);
    line.put(b", ");
    write_list(line, list);
}

/// Adds `n!, {list}`.
#[tactic(auto, unfolding(crate::specs::Text::operands_text))]
fn write_updated_list(line: &mut Line, n: u8, list: u16)
    requires room { length line.old ≤ 6 }
    requires short { IsShort list }
    ensures { line.new ≡ line.old ++ operands_text (UpdatedList n list) }
{
    write_register(line, n);
    line.put(b"!, ");
    write_list(line, list);
}

/// Adds operands.
#[tactic(auto, unfolding(crate::specs::Text::operands_text))]
fn write_operands(line: &mut Line, operands: &Operands)
    requires room { length line.old ≤ 6 }
    requires short { HasShortList operands.now }
    ensures { line.new ≡ line.old ++ operands_text operands.now }
{
    match *operands {
        Operands::None => {}
        Operands::One { m } => write_register(line, m),
        Operands::Two { d, m } => write_two(line, d, m),
        Operands::Three { d, n, m } => write_three(line, d, n, m),
        Operands::Immediate { immediate } => write_immediate(line, immediate),
        Operands::OneImmediate { d, immediate } => write_one_immediate(line, d, immediate),
        Operands::TwoImmediate { d, n, immediate } => write_two_immediate(line, d, n, immediate),
        Operands::ByRegister { t, n, m } => write_by_register(line, t, n, m),
        Operands::ByOffset { t, n, offset } => write_by_offset(line, t, n, offset),
        Operands::List { list } => write_list(line, list),
        Operands::BaseList { n, list } => write_base_list(line, n, list),
        Operands::UpdatedList { n, list } => write_updated_list(line, n, list),
        Operands::Interrupts => line.put(b"i"),
        Operands::FromSpecial { d, special } => write_from_special(line, d, special),
        Operands::ToSpecial { special, n } => write_to_special(line, special, n),
    }
}

/// Adds an instruction without a target.
fn write_plain(line: &mut Line, mnemonic: Mnemonic, operands: &Operands)
    requires empty { line.old ≡ [] }
    requires short { HasShortList operands.now }
    ensures { line.new ≡ form_text (Plain mnemonic operands.now) }
{
    line.put(mnemonic.text());
    match operands {
        Operands::None => {}
        _ => {
            line.put(b" ");
            write_operands(line, operands);
        }
    }
}

/// Adds the mnemonic of an instruction with a target, and the register before the target.
#[tactic(auto, unfolding(crate::specs::Text::aim_text, crate::specs::Text::aim_register))]
fn write_aim(line: &mut Line, aim: Aim)
    requires { line.old ≡ [] }
    ensures text { line.new ≡ aim_text aim ++ codes " " ++ aim_register aim }
    ensures short { length line.new ≤ 14 }
{
    match aim {
        Aim::Branch => line.put(b"B "),
        Aim::BranchIf { condition } => {
            line.put(b"B");
            line.put(condition_text(condition));
            line.put(b" ");
        }
        Aim::BranchLink => line.put(b"BL "),
        Aim::Load { t } => {
            line.put(b"LDR ");
            write_register(line, t);
            line.put(b", ");
        }
        Aim::Address { d } => {
            line.put(b"ADR ");
            write_register(line, d);
            line.put(b", ");
        }
    }
}

/// Writes the text of a form over what the line held.
#[tactic(auto, unfolding(crate::specs::Text::form_text))]
fn write_form(line: &mut Line, form: &Form)
    requires { HasRoom form.now }
    ensures { line.new ≡ form_text form.now }
{
    line.clear();
    match *form {
        Form::Plain { mnemonic, operands } => write_plain(line, mnemonic, &operands),
        Form::Aimed { aim, target } => {
            write_aim(line, aim);
            write_target(line, target);
        }
    }
}

/// Writes the statement of an instruction at an address over what the line held: the mnemonic and the operands (A6.7), with targets as
/// addresses. It also writes fields that no encoding has.
pub fn disassemble(instr: &Instr, at: u32, line: &mut Line)
    ensures { line.new ≡ form_text (form_of instr.now at) }
{
    // A list has at most eight low registers, and LR or PC, so the line has room.
    let _list = low_list(instr);
    write_form(line, &form_at(instr, at));
}

/// The low registers in the list of an instruction, or none if it has no list.
fn low_list(instr: &Instr) -> u8
    ensures { result ≡ low_list instr.now }
{
    match *instr {
        Instr::Many(op) => list_of(op),
        Instr::Alu(_) | Instr::Memory(_) | Instr::Branch(_) | Instr::Other(_) => 0,
    }
}

/// The low registers of a list.
fn list_of(op: Many) -> u8
    ensures { result ≡ low_list (Instr.Many op) }
{
    match op {
        Many::Push { lr: _, list } => list,
        Many::Pop { pc: _, list } => list,
        Many::Stm { n: _, list } => list,
        Many::Ldm { n: _, list } => list,
    }
}
