//! From a form without a target to its instruction, with one function for each shape of operands.

ghost use Rattle.std.specs.Prelude.{◌≡◌, ◌<◌, ◌&&◌, nat_lt, Some, None, if◌then◌else◌};
ghost use Rattle.armv6m_encode.specs.Encoding.{fields_fit};
ghost use Rattle.armv6m_forms.specs.Row.{IsReadAs, scale_of, counted};

use crate::form::{Form, Operands};
use crate::mnemonic::Mnemonic;
use armv6m_decode::registers::SP;
use armv6m_decode::{Alu, Branch, Instr, Many, Memory, Other};
use armv6m_encode::has_encoding;

/// The instruction, if each field fits its row.
pub(crate) fn fitting(instr: Instr) -> Option<Instr>
    ensures { result ≡ (if fields_fit instr then Some instr else None) }
{
    if has_encoding(&instr) {
        Some(instr)
    } else {
        None
    }
}

/// A number as a field of eight bits that counts units, if it fits.
pub(crate) fn in_units(unit: u32, number: u32) -> Option<u8>
    requires { 0 < unit }
    ensures { result ≡ counted unit number }
{
    if number % unit == 0 && number / unit < 256 {
        Some((number / unit) as u8)
    } else {
        None
    }
}

fn scale(mnemonic: Mnemonic) -> u32
    ensures { result ≡ scale_of mnemonic }
{
    match mnemonic {
        Mnemonic::Add | Mnemonic::Sub | Mnemonic::Str | Mnemonic::Ldr => 4,
        Mnemonic::Strh | Mnemonic::Ldrh => 2,
        _ => 1,
    }
}

/// CMP of two low registers is encoding T1 (A6.7.28).
fn comparison(d: u8, m: u8) -> Instr
    ensures { result ≡ (if nat_lt d 8 && nat_lt m 8 then Instr.Alu (Alu.CmpRegister d m) else Instr.Alu (Alu.CmpHigh d m)) }
{
    if d < 8 && m < 8 {
        Instr::Alu(Alu::CmpRegister { d, m })
    } else {
        Instr::Alu(Alu::CmpHigh { n: d, m })
    }
}

pub(crate) fn none(mnemonic: Mnemonic) -> Option<Instr>
    ensures { IsReadAs (Form.Plain mnemonic Operands.None) result }
{
    let instr = match mnemonic {
        Mnemonic::Nop => Instr::Other(Other::Nop),
        Mnemonic::Yield => Instr::Other(Other::Yield),
        Mnemonic::Wfe => Instr::Other(Other::Wfe),
        Mnemonic::Wfi => Instr::Other(Other::Wfi),
        Mnemonic::Sev => Instr::Other(Other::Sev),
        Mnemonic::Dsb => Instr::Other(Other::Dsb),
        Mnemonic::Dmb => Instr::Other(Other::Dmb),
        Mnemonic::Isb => Instr::Other(Other::Isb),
        Mnemonic::Udf => Instr::Other(Other::Udf { immediate: 0 }),
        Mnemonic::Svc => Instr::Other(Other::Svc { immediate: 0 }),
        _ => return None,
    };
    fitting(instr)
}

pub(crate) fn one(mnemonic: Mnemonic, m: u8) -> Option<Instr>
    ensures { IsReadAs (Form.Plain mnemonic (Operands.One m)) result }
{
    let instr = match mnemonic {
        Mnemonic::Bx => Instr::Branch(Branch::Bx { m }),
        Mnemonic::Blx => Instr::Branch(Branch::Blx { m }),
        _ => return None,
    };
    fitting(instr)
}

pub(crate) fn two(mnemonic: Mnemonic, d: u8, m: u8) -> Option<Instr>
    ensures { IsReadAs (Form.Plain mnemonic (Operands.Two d m)) result }
{
    let instr = match mnemonic {
        Mnemonic::Movs => Instr::Alu(Alu::LslsImmediate { d, m, immediate: 0 }),
        Mnemonic::Lsls => Instr::Alu(Alu::LslsRegister { d, m }),
        Mnemonic::Lsrs => Instr::Alu(Alu::LsrsRegister { d, m }),
        Mnemonic::Asrs => Instr::Alu(Alu::AsrsRegister { d, m }),
        Mnemonic::Ands => Instr::Alu(Alu::Ands { d, m }),
        Mnemonic::Eors => Instr::Alu(Alu::Eors { d, m }),
        Mnemonic::Adcs => Instr::Alu(Alu::Adcs { d, m }),
        Mnemonic::Sbcs => Instr::Alu(Alu::Sbcs { d, m }),
        Mnemonic::Rors => Instr::Alu(Alu::Rors { d, m }),
        Mnemonic::Tst => Instr::Alu(Alu::Tst { d, m }),
        Mnemonic::Cmn => Instr::Alu(Alu::Cmn { d, m }),
        Mnemonic::Orrs => Instr::Alu(Alu::Orrs { d, m }),
        Mnemonic::Muls => Instr::Alu(Alu::Muls { d, m }),
        Mnemonic::Bics => Instr::Alu(Alu::Bics { d, m }),
        Mnemonic::Mvns => Instr::Alu(Alu::Mvns { d, m }),
        Mnemonic::Add => Instr::Alu(Alu::AddHigh { d, m }),
        Mnemonic::Mov => Instr::Alu(Alu::MovHigh { d, m }),
        Mnemonic::Sxth => Instr::Other(Other::Sxth { d, m }),
        Mnemonic::Sxtb => Instr::Other(Other::Sxtb { d, m }),
        Mnemonic::Uxth => Instr::Other(Other::Uxth { d, m }),
        Mnemonic::Uxtb => Instr::Other(Other::Uxtb { d, m }),
        Mnemonic::Rev => Instr::Other(Other::Rev { d, m }),
        Mnemonic::Rev16 => Instr::Other(Other::Rev16 { d, m }),
        Mnemonic::Revsh => Instr::Other(Other::Revsh { d, m }),
        Mnemonic::Cmp => comparison(d, m),
        _ => return None,
    };
    fitting(instr)
}

pub(crate) fn three(mnemonic: Mnemonic, d: u8, n: u8, m: u8) -> Option<Instr>
    ensures { IsReadAs (Form.Plain mnemonic (Operands.Three d n m)) result }
{
    let instr = match mnemonic {
        Mnemonic::Adds => Instr::Alu(Alu::AddsRegister { d, n, m }),
        Mnemonic::Subs => Instr::Alu(Alu::SubsRegister { d, n, m }),
        _ => return None,
    };
    fitting(instr)
}

pub(crate) fn immediate(mnemonic: Mnemonic, immediate: u32) -> Option<Instr>
    ensures { IsReadAs (Form.Plain mnemonic (Operands.Immediate immediate)) result }
{
    let immediate = in_units(scale(mnemonic), immediate)?;
    let instr = match mnemonic {
        Mnemonic::Bkpt => Instr::Other(Other::Bkpt { immediate }),
        _ => return None,
    };
    fitting(instr)
}

pub(crate) fn one_immediate(mnemonic: Mnemonic, d: u8, immediate: u32) -> Option<Instr>
    ensures { IsReadAs (Form.Plain mnemonic (Operands.OneImmediate d immediate)) result }
{
    let immediate = in_units(scale(mnemonic), immediate)?;
    let instr = match mnemonic {
        Mnemonic::Movs => Instr::Alu(Alu::MovsImmediate { d, immediate }),
        Mnemonic::Cmp => Instr::Alu(Alu::CmpImmediate { n: d, immediate }),
        Mnemonic::Adds => Instr::Alu(Alu::AddsImmediate8 { d, immediate }),
        Mnemonic::Subs => Instr::Alu(Alu::SubsImmediate8 { d, immediate }),
        Mnemonic::Add if d == SP => Instr::Other(Other::AddToSp { immediate }),
        Mnemonic::Sub if d == SP => Instr::Other(Other::SubFromSp { immediate }),
        _ => return None,
    };
    fitting(instr)
}

pub(crate) fn two_immediate(mnemonic: Mnemonic, d: u8, n: u8, immediate: u32) -> Option<Instr>
    ensures { IsReadAs (Form.Plain mnemonic (Operands.TwoImmediate d n immediate)) result }
{
    let immediate = in_units(scale(mnemonic), immediate)?;
    let shift = if immediate == 32 { 0 } else { immediate };
    let instr = match mnemonic {
        Mnemonic::Lsls => Instr::Alu(Alu::LslsImmediate { d, m: n, immediate }),
        Mnemonic::Lsrs if immediate > 0 => Instr::Alu(Alu::LsrsImmediate {
            d,
            m: n,
            immediate: shift,
        }),
        Mnemonic::Asrs if immediate > 0 => Instr::Alu(Alu::AsrsImmediate {
            d,
            m: n,
            immediate: shift,
        }),
        Mnemonic::Adds => Instr::Alu(Alu::AddsImmediate3 { d, n, immediate }),
        Mnemonic::Subs => Instr::Alu(Alu::SubsImmediate3 { d, n, immediate }),
        Mnemonic::Rsbs if immediate == 0 => Instr::Alu(Alu::Rsbs { d, n }),
        Mnemonic::Add if n == SP => Instr::Other(Other::AddFromSp { d, immediate }),
        _ => return None,
    };
    fitting(instr)
}

pub(crate) fn by_register(mnemonic: Mnemonic, t: u8, n: u8, m: u8) -> Option<Instr>
    ensures { IsReadAs (Form.Plain mnemonic (Operands.ByRegister t n m)) result }
{
    let instr = match mnemonic {
        Mnemonic::Str => Instr::Memory(Memory::StrRegister { t, n, m }),
        Mnemonic::Strh => Instr::Memory(Memory::StrhRegister { t, n, m }),
        Mnemonic::Strb => Instr::Memory(Memory::StrbRegister { t, n, m }),
        Mnemonic::Ldrsb => Instr::Memory(Memory::LdrsbRegister { t, n, m }),
        Mnemonic::Ldr => Instr::Memory(Memory::LdrRegister { t, n, m }),
        Mnemonic::Ldrh => Instr::Memory(Memory::LdrhRegister { t, n, m }),
        Mnemonic::Ldrb => Instr::Memory(Memory::LdrbRegister { t, n, m }),
        Mnemonic::Ldrsh => Instr::Memory(Memory::LdrshRegister { t, n, m }),
        _ => return None,
    };
    fitting(instr)
}

pub(crate) fn by_offset(mnemonic: Mnemonic, t: u8, n: u8, offset: u32) -> Option<Instr>
    ensures { IsReadAs (Form.Plain mnemonic (Operands.ByOffset t n offset)) result }
{
    let immediate = in_units(scale(mnemonic), offset)?;
    let instr = match mnemonic {
        Mnemonic::Str if n == SP => Instr::Memory(Memory::StrSp { t, immediate }),
        Mnemonic::Ldr if n == SP => Instr::Memory(Memory::LdrSp { t, immediate }),
        Mnemonic::Str => Instr::Memory(Memory::StrImmediate { t, n, immediate }),
        Mnemonic::Ldr => Instr::Memory(Memory::LdrImmediate { t, n, immediate }),
        Mnemonic::Strh => Instr::Memory(Memory::StrhImmediate { t, n, immediate }),
        Mnemonic::Ldrh => Instr::Memory(Memory::LdrhImmediate { t, n, immediate }),
        Mnemonic::Strb => Instr::Memory(Memory::StrbImmediate { t, n, immediate }),
        Mnemonic::Ldrb => Instr::Memory(Memory::LdrbImmediate { t, n, immediate }),
        _ => return None,
    };
    fitting(instr)
}

pub(crate) fn list(mnemonic: Mnemonic, list: u16) -> Option<Instr>
    ensures { IsReadAs (Form.Plain mnemonic (Operands.List list)) result }
{
    let low = (list % 256) as u8;
    let others = list >> 8;
    let instr = match mnemonic {
        Mnemonic::Push if others == 0 => Instr::Many(Many::Push {
            lr: false,
            list: low,
        }),
        Mnemonic::Push if others == 0x40 => Instr::Many(Many::Push {
            lr: true,
            list: low,
        }),
        Mnemonic::Pop if others == 0 => Instr::Many(Many::Pop {
            pc: false,
            list: low,
        }),
        Mnemonic::Pop if others == 0x80 => Instr::Many(Many::Pop {
            pc: true,
            list: low,
        }),
        _ => return None,
    };
    fitting(instr)
}

pub(crate) fn base_list(mnemonic: Mnemonic, n: u8, list: u16) -> Option<Instr>
    ensures { IsReadAs (Form.Plain mnemonic (Operands.BaseList n list)) result }
{
    let low = in_units(1, u32::from(list))?;
    let instr = match mnemonic {
        Mnemonic::Ldm => Instr::Many(Many::Ldm { n, list: low }),
        _ => return None,
    };
    fitting(instr)
}

pub(crate) fn updated_list(mnemonic: Mnemonic, n: u8, list: u16) -> Option<Instr>
    ensures { IsReadAs (Form.Plain mnemonic (Operands.UpdatedList n list)) result }
{
    let low = in_units(1, u32::from(list))?;
    let instr = match mnemonic {
        Mnemonic::Stm => Instr::Many(Many::Stm { n, list: low }),
        _ => return None,
    };
    fitting(instr)
}

pub(crate) fn interrupts(mnemonic: Mnemonic) -> Option<Instr>
    ensures { IsReadAs (Form.Plain mnemonic Operands.Interrupts) result }
{
    let instr = match mnemonic {
        Mnemonic::Cpsie => Instr::Other(Other::Cpsie),
        Mnemonic::Cpsid => Instr::Other(Other::Cpsid),
        _ => return None,
    };
    fitting(instr)
}

pub(crate) fn from_special(mnemonic: Mnemonic, d: u8, special: u8) -> Option<Instr>
    ensures { IsReadAs (Form.Plain mnemonic (Operands.FromSpecial d special)) result }
{
    let instr = match mnemonic {
        Mnemonic::Mrs => Instr::Other(Other::Mrs { d, special }),
        _ => return None,
    };
    fitting(instr)
}

pub(crate) fn to_special(mnemonic: Mnemonic, special: u8, n: u8) -> Option<Instr>
    ensures { IsReadAs (Form.Plain mnemonic (Operands.ToSpecial special n)) result }
{
    let instr = match mnemonic {
        Mnemonic::Msr => Instr::Other(Other::Msr { n, special }),
        _ => return None,
    };
    fitting(instr)
}
