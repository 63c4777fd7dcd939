//! From a load or store of one register to its form.

ghost use Rattle.std.specs.Prelude.{◌≡◌};
ghost use Rattle.armv6m_forms.specs.Form.{form_of};

use crate::form::{Aim, Form};
use crate::mnemonic::Mnemonic;
use crate::plain::{aimed, by_offset, by_register};
use armv6m_decode::registers::SP;
use armv6m_decode::targets::literal;
use armv6m_decode::{Instr, Memory};

#[tactic(auto, unfolding(crate::specs::Form::form_of))]
pub(crate) fn form(op: Memory, at: u32) -> Form
    ensures { result ≡ form_of (Instr.Memory op) at }
{
    match op {
        Memory::LdrLiteral { t, immediate } => aimed(Aim::Load { t }, literal(at, immediate)),
        Memory::StrRegister { t, n, m } => by_register(Mnemonic::Str, t, n, m),
        Memory::StrhRegister { t, n, m } => by_register(Mnemonic::Strh, t, n, m),
        Memory::StrbRegister { t, n, m } => by_register(Mnemonic::Strb, t, n, m),
        Memory::LdrsbRegister { t, n, m } => by_register(Mnemonic::Ldrsb, t, n, m),
        Memory::LdrRegister { t, n, m } => by_register(Mnemonic::Ldr, t, n, m),
        Memory::LdrhRegister { t, n, m } => by_register(Mnemonic::Ldrh, t, n, m),
        Memory::LdrbRegister { t, n, m } => by_register(Mnemonic::Ldrb, t, n, m),
        Memory::LdrshRegister { t, n, m } => by_register(Mnemonic::Ldrsh, t, n, m),
        Memory::StrImmediate { t, n, immediate } => by_offset(Mnemonic::Str, t, n, 4, immediate),
        Memory::LdrImmediate { t, n, immediate } => by_offset(Mnemonic::Ldr, t, n, 4, immediate),
        Memory::StrbImmediate { t, n, immediate } => by_offset(Mnemonic::Strb, t, n, 1, immediate),
        Memory::LdrbImmediate { t, n, immediate } => by_offset(Mnemonic::Ldrb, t, n, 1, immediate),
        Memory::StrhImmediate { t, n, immediate } => by_offset(Mnemonic::Strh, t, n, 2, immediate),
        Memory::LdrhImmediate { t, n, immediate } => by_offset(Mnemonic::Ldrh, t, n, 2, immediate),
        Memory::StrSp { t, immediate } => by_offset(Mnemonic::Str, t, SP, 4, immediate),
        Memory::LdrSp { t, immediate } => by_offset(Mnemonic::Ldr, t, SP, 4, immediate),
    }
}
