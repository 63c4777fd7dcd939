//! From instructions to their code.

ghost use Rattle.std.specs.Prelude.{◌≡◌, IsTrue};
ghost use Rattle.armv6m_encode.specs.Encoding.{fields_fit, IsEncodedAs};

use crate::{alu, branch, many, memory, other};
use armv6m_decode::Instr;

/// The code of one instruction.
#[derive(Clone, Copy, PartialEq, Eq, Debug)]
pub enum Encoding {
    /// One halfword.
    Half { half: u16 },
    /// Two halfwords, the first at the lower address.
    Pair { first: u16, second: u16 },
}

/// Whether each field of the instruction fits the bits that its row has for it. The fields of a decoded instruction do.
pub fn has_encoding(instr: &Instr) -> bool
    ensures { result ≡ fields_fit instr.now }
{
    match *instr {
        Instr::Alu(op) => alu::fits(op),
        Instr::Memory(op) => memory::fits(op),
        Instr::Many(op) => many::fits(op),
        Instr::Branch(op) => branch::fits(op),
        Instr::Other(op) => other::fits(op),
    }
}

/// The code of the instruction: what the decoder reads as exactly this instruction.
pub fn encode(instr: &Instr) -> Encoding
    requires { IsTrue (fields_fit instr.now) }
    ensures { IsEncodedAs instr.now result }
{
    match *instr {
        Instr::Alu(op) => half(alu::encode(op)),
        Instr::Memory(op) => half(memory::encode(op)),
        Instr::Many(op) => half(many::encode(op)),
        Instr::Branch(op) => branch::encode(op),
        Instr::Other(op) => other::encode(op),
    }
}

pub(crate) fn half(half: u16) -> Encoding
    ensures { result ≡ Encoding.Half half }
{
    Encoding::Half { half }
}
