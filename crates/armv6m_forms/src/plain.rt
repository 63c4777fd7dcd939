//! Forms by the shape of their operands. An `immediate` is the instruction's field, and `scale` how many bytes one unit of it is.

ghost use Rattle.std.specs.Prelude.{◌≡◌, ◌*◌, ◌+◌, ◌≤◌, if◌then◌else◌};

use crate::form::{Aim, Form, Operands};
use crate::mnemonic::Mnemonic;

fn plain(mnemonic: Mnemonic, operands: Operands) -> Form
    ensures { result ≡ Form.Plain mnemonic operands }
{
    Form::Plain { mnemonic, operands }
}

pub(crate) fn none(mnemonic: Mnemonic) -> Form
    ensures { result ≡ Form.Plain mnemonic Operands.None }
{
    plain(mnemonic, Operands::None)
}

pub(crate) fn one(mnemonic: Mnemonic, m: u8) -> Form
    ensures { result ≡ Form.Plain mnemonic (Operands.One m) }
{
    plain(mnemonic, Operands::One { m })
}

pub(crate) fn two(mnemonic: Mnemonic, d: u8, m: u8) -> Form
    ensures { result ≡ Form.Plain mnemonic (Operands.Two d m) }
{
    plain(mnemonic, Operands::Two { d, m })
}

pub(crate) fn three(mnemonic: Mnemonic, d: u8, n: u8, m: u8) -> Form
    ensures { result ≡ Form.Plain mnemonic (Operands.Three d n m) }
{
    plain(mnemonic, Operands::Three { d, n, m })
}

pub(crate) fn immediate(mnemonic: Mnemonic, immediate: u8) -> Form
    ensures { result ≡ Form.Plain mnemonic (Operands.Immediate immediate) }
{
    let immediate = u32::from(immediate);
    plain(mnemonic, Operands::Immediate { immediate })
}

pub(crate) fn one_immediate(mnemonic: Mnemonic, d: u8, scale: u32, immediate: u8) -> Form
    requires { scale ≤ 4 }
    ensures { result ≡ Form.Plain mnemonic (Operands.OneImmediate d (scale * immediate)) }
{
    let immediate = scale * u32::from(immediate);
    plain(mnemonic, Operands::OneImmediate { d, immediate })
}

pub(crate) fn two_immediate(mnemonic: Mnemonic, d: u8, n: u8, scale: u32, immediate: u8) -> Form
    requires { scale ≤ 4 }
    ensures { result ≡ Form.Plain mnemonic (Operands.TwoImmediate d n (scale * immediate)) }
{
    let immediate = scale * u32::from(immediate);
    plain(mnemonic, Operands::TwoImmediate { d, n, immediate })
}

pub(crate) fn by_register(mnemonic: Mnemonic, t: u8, n: u8, m: u8) -> Form
    ensures { result ≡ Form.Plain mnemonic (Operands.ByRegister t n m) }
{
    plain(mnemonic, Operands::ByRegister { t, n, m })
}

pub(crate) fn by_offset(mnemonic: Mnemonic, t: u8, n: u8, scale: u32, immediate: u8) -> Form
    requires { scale ≤ 4 }
    ensures { result ≡ Form.Plain mnemonic (Operands.ByOffset t n (scale * immediate)) }
{
    let offset = scale * u32::from(immediate);
    plain(mnemonic, Operands::ByOffset { t, n, offset })
}

pub(crate) fn interrupts(mnemonic: Mnemonic) -> Form
    ensures { result ≡ Form.Plain mnemonic Operands.Interrupts }
{
    plain(mnemonic, Operands::Interrupts)
}

pub(crate) fn aimed(aim: Aim, target: u32) -> Form
    ensures { result ≡ Form.Aimed aim target }
{
    Form::Aimed { aim, target }
}

/// A list with one more register's bit, if `there` is true.
pub(crate) fn with_bit(there: bool, bit: u16, list: u8) -> u16
    requires { bit ≤ 0x8000 }
    ensures { result ≡ (if there then list + bit else list) }
{
    if there {
        u16::from(list) + bit
    } else {
        u16::from(list)
    }
}

pub(crate) fn list(mnemonic: Mnemonic, list: u16) -> Form
    ensures { result ≡ Form.Plain mnemonic (Operands.List list) }
{
    plain(mnemonic, Operands::List { list })
}
