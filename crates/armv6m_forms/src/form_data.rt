//! From an instruction of data processing to its form.

ghost use Rattle.std.specs.Prelude.{◌≡◌};
ghost use Rattle.armv6m_forms.specs.declared.form.Operands.{Operands};
ghost use Rattle.armv6m_forms.specs.Form.{form_of, right_shift};

use crate::form::Form;
use crate::mnemonic::Mnemonic;
use crate::plain::{one_immediate, three, two, two_immediate};
use armv6m_decode::{Alu, Instr};

#[tactic(auto, unfolding(crate::specs::Form::form_of))]
pub(crate) fn form(op: Alu, at: u32) -> Form
    ensures { result ≡ form_of (Instr.Alu op) at }
{
    match op {
        Alu::LslsImmediate { d, m, immediate } => lsls_immediate(d, m, immediate, at),
        Alu::LsrsImmediate { d, m, immediate } => shift_right(Mnemonic::Lsrs, d, m, immediate),
        Alu::AsrsImmediate { d, m, immediate } => shift_right(Mnemonic::Asrs, d, m, immediate),
        Alu::AddsRegister { d, n, m } => three(Mnemonic::Adds, d, n, m),
        Alu::SubsRegister { d, n, m } => three(Mnemonic::Subs, d, n, m),
        Alu::AddsImmediate3 { d, n, immediate } => immediate_3(Mnemonic::Adds, d, n, immediate),
        Alu::SubsImmediate3 { d, n, immediate } => immediate_3(Mnemonic::Subs, d, n, immediate),
        Alu::MovsImmediate { d, immediate } => one_immediate(Mnemonic::Movs, d, 1, immediate),
        Alu::CmpImmediate { n, immediate } => one_immediate(Mnemonic::Cmp, n, 1, immediate),
        Alu::AddsImmediate8 { d, immediate } => one_immediate(Mnemonic::Adds, d, 1, immediate),
        Alu::SubsImmediate8 { d, immediate } => one_immediate(Mnemonic::Subs, d, 1, immediate),
        Alu::Ands { d, m } => two(Mnemonic::Ands, d, m),
        Alu::Eors { d, m } => two(Mnemonic::Eors, d, m),
        Alu::LslsRegister { d, m } => two(Mnemonic::Lsls, d, m),
        Alu::LsrsRegister { d, m } => two(Mnemonic::Lsrs, d, m),
        Alu::AsrsRegister { d, m } => two(Mnemonic::Asrs, d, m),
        Alu::Adcs { d, m } => two(Mnemonic::Adcs, d, m),
        Alu::Sbcs { d, m } => two(Mnemonic::Sbcs, d, m),
        Alu::Rors { d, m } => two(Mnemonic::Rors, d, m),
        Alu::Tst { d, m } => two(Mnemonic::Tst, d, m),
        Alu::Rsbs { d, n } => two_immediate(Mnemonic::Rsbs, d, n, 1, 0),
        Alu::CmpRegister { d, m } => two(Mnemonic::Cmp, d, m),
        Alu::Cmn { d, m } => two(Mnemonic::Cmn, d, m),
        Alu::Orrs { d, m } => two(Mnemonic::Orrs, d, m),
        Alu::Muls { d, m } => two(Mnemonic::Muls, d, m),
        Alu::Bics { d, m } => two(Mnemonic::Bics, d, m),
        Alu::Mvns { d, m } => two(Mnemonic::Mvns, d, m),
        Alu::AddHigh { d, m } => two(Mnemonic::Add, d, m),
        Alu::CmpHigh { n, m } => two(Mnemonic::Cmp, n, m),
        Alu::MovHigh { d, m } => two(Mnemonic::Mov, d, m),
    }
}

/// LSLS by 0 is MOV (register) T2.
#[tactic(auto, unfolding(crate::specs::Form::form_of))]
fn lsls_immediate(d: u8, m: u8, immediate: u8, at: u32) -> Form
    ensures { result ≡ form_of (Instr.Alu (Alu.LslsImmediate d m immediate)) at }
{
    if immediate == 0 {
        two(Mnemonic::Movs, d, m)
    } else {
        two_immediate(Mnemonic::Lsls, d, m, 1, immediate)
    }
}

/// The immediate 0 means a shift to the right by 32.
fn shift_right(mnemonic: Mnemonic, d: u8, m: u8, immediate: u8) -> Form
    ensures { result ≡ Form.Plain mnemonic (Operands.TwoImmediate d m (right_shift immediate)) }
{
    two_immediate(
        mnemonic,
        d,
        m,
        1,
        if immediate == 0 { 32 } else { immediate },
    )
}

/// The immediate of three bits is taken as it is.
fn immediate_3(mnemonic: Mnemonic, d: u8, n: u8, immediate: u8) -> Form
    ensures { result ≡ Form.Plain mnemonic (Operands.TwoImmediate d n immediate) }
{
    two_immediate(mnemonic, d, n, 1, immediate)
}
