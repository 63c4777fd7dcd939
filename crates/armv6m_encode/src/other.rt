//! The encodings of all other instructions: a function for each row, named in a comment as the manual names it (A6.7).

ghost use Rattle.std.specs.Prelude.{◌≡◌, ◌<◌, true, IsTrue};
ghost use Rattle.armv6m_decode.specs.Table.{decoded};
ghost use Rattle.armv6m_encode.specs.Encoding.{fields_fit, IsEncodedAs};

use crate::code::{Encoding, half};
use crate::pairs::{dmb, dsb, isb, mrs, msr};
use armv6m_decode::{Decoded, Instr, Other};

/// Whether each field fits the bits that its row has for it.
pub(crate) fn fits(op: Other) -> bool
    ensures { result ≡ fields_fit (Instr.Other op) }
{
    match op {
        Other::Adr { d, immediate: _ } | Other::AddFromSp { d, immediate: _ } => d < 8,
        Other::AddToSp { immediate } | Other::SubFromSp { immediate } => immediate < 0x80,
        Other::Sxth { d, m }
        | Other::Sxtb { d, m }
        | Other::Uxth { d, m }
        | Other::Uxtb { d, m }
        | Other::Rev { d, m }
        | Other::Rev16 { d, m }
        | Other::Revsh { d, m } => d < 8 && m < 8,
        Other::Cpsie
        | Other::Cpsid
        | Other::Bkpt { immediate: _ }
        | Other::Nop
        | Other::Yield
        | Other::Wfe
        | Other::Wfi
        | Other::Sev
        | Other::Udf { immediate: _ }
        | Other::Svc { immediate: _ }
        | Other::Dsb
        | Other::Dmb
        | Other::Isb => true,
        Other::Mrs { d, special: _ } => d < 16,
        Other::Msr { n, special: _ } => n < 16,
    }
}

/// The encoding of the instruction.
#[tactic(auto, using(std::proofs::lemmas::Bool::Decides::nat_tests))]
pub(crate) fn encode(op: Other) -> Encoding
    requires { IsTrue (fields_fit (Instr.Other op)) }
    ensures { IsEncodedAs (Instr.Other op) result }
{
    match op {
        Other::Adr { d, immediate } => half(adr(d, immediate)),
        Other::AddFromSp { d, immediate } => half(add_from_sp(d, immediate)),
        Other::AddToSp { immediate } => half(add_to_sp(immediate)),
        Other::SubFromSp { immediate } => half(sub_from_sp(immediate)),
        Other::Sxth { d, m } => half(sxth(d, m)),
        Other::Sxtb { d, m } => half(sxtb(d, m)),
        Other::Uxth { d, m } => half(uxth(d, m)),
        Other::Uxtb { d, m } => half(uxtb(d, m)),
        Other::Cpsie => half(cpsie()),
        Other::Cpsid => half(cpsid()),
        Other::Rev { d, m } => half(rev(d, m)),
        Other::Rev16 { d, m } => half(rev_16(d, m)),
        Other::Revsh { d, m } => half(revsh(d, m)),
        Other::Bkpt { immediate } => half(bkpt(immediate)),
        Other::Nop => half(nop()),
        Other::Yield => half(yield_hint()),
        Other::Wfe => half(wfe()),
        Other::Wfi => half(wfi()),
        Other::Sev => half(sev()),
        Other::Udf { immediate } => half(udf(immediate)),
        Other::Svc { immediate } => half(svc(immediate)),
        Other::Mrs { d, special } => mrs(d, special),
        Other::Msr { n, special } => msr(n, special),
        Other::Dsb => dsb(),
        Other::Dmb => dmb(),
        Other::Isb => isb(),
    }
}

/// ADR T1.
#[tactic(auto, using(armv6m_decode::proofs::Near::addresses, armv6m_decode::proofs::Masks::masks), unfolding(armv6m_decode::specs::Table::rows))]
fn adr(d: u8, immediate: u8) -> u16
    requires { d < 8 }
    ensures { decoded result ≡ Decoded.Op (Instr.Other (Other.Adr d immediate)) }
{
    0xA000 + u16::from(d) * 0x100 + u16::from(immediate)
}

/// ADD (SP plus immediate) T1.
#[tactic(auto, using(armv6m_decode::proofs::Near::addresses, armv6m_decode::proofs::Masks::masks), unfolding(armv6m_decode::specs::Table::rows))]
fn add_from_sp(d: u8, immediate: u8) -> u16
    requires { d < 8 }
    ensures { decoded result ≡ Decoded.Op (Instr.Other (Other.AddFromSp d immediate)) }
{
    0xA800 + u16::from(d) * 0x100 + u16::from(immediate)
}

/// ADD (SP plus immediate) T2.
#[tactic(auto, using(armv6m_decode::proofs::Near::stack_pointer, armv6m_decode::proofs::Masks::masks), unfolding(armv6m_decode::specs::Table::rows))]
fn add_to_sp(immediate: u8) -> u16
    requires { immediate < 128 }
    ensures { decoded result ≡ Decoded.Op (Instr.Other (Other.AddToSp immediate)) }
{
    0xB000 + u16::from(immediate)
}

/// SUB (SP minus immediate) T1.
#[tactic(auto, using(armv6m_decode::proofs::Near::stack_pointer, armv6m_decode::proofs::Masks::masks), unfolding(armv6m_decode::specs::Table::rows))]
fn sub_from_sp(immediate: u8) -> u16
    requires { immediate < 128 }
    ensures { decoded result ≡ Decoded.Op (Instr.Other (Other.SubFromSp immediate)) }
{
    0xB080 + u16::from(immediate)
}

/// SXTH T1.
#[tactic(auto, using(armv6m_decode::proofs::Near::extends, armv6m_decode::proofs::Masks::masks), unfolding(armv6m_decode::specs::Table::rows))]
fn sxth(d: u8, m: u8) -> u16
    requires d_fits { d < 8 }
    requires m_fits { m < 8 }
    ensures { decoded result ≡ Decoded.Op (Instr.Other (Other.Sxth d m)) }
{
    0xB200 + u16::from(m) * 0x8 + u16::from(d)
}

/// SXTB T1.
#[tactic(auto, using(armv6m_decode::proofs::Near::extends, armv6m_decode::proofs::Masks::masks), unfolding(armv6m_decode::specs::Table::rows))]
fn sxtb(d: u8, m: u8) -> u16
    requires d_fits { d < 8 }
    requires m_fits { m < 8 }
    ensures { decoded result ≡ Decoded.Op (Instr.Other (Other.Sxtb d m)) }
{
    0xB240 + u16::from(m) * 0x8 + u16::from(d)
}

/// UXTH T1.
#[tactic(auto, using(armv6m_decode::proofs::Near::extends, armv6m_decode::proofs::Masks::masks), unfolding(armv6m_decode::specs::Table::rows))]
fn uxth(d: u8, m: u8) -> u16
    requires d_fits { d < 8 }
    requires m_fits { m < 8 }
    ensures { decoded result ≡ Decoded.Op (Instr.Other (Other.Uxth d m)) }
{
    0xB280 + u16::from(m) * 0x8 + u16::from(d)
}

/// UXTB T1.
#[tactic(auto, using(armv6m_decode::proofs::Near::extends, armv6m_decode::proofs::Masks::masks), unfolding(armv6m_decode::specs::Table::rows))]
fn uxtb(d: u8, m: u8) -> u16
    requires d_fits { d < 8 }
    requires m_fits { m < 8 }
    ensures { decoded result ≡ Decoded.Op (Instr.Other (Other.Uxtb d m)) }
{
    0xB2C0 + u16::from(m) * 0x8 + u16::from(d)
}

/// CPS T1, with im 0.
#[tactic(auto, using(armv6m_decode::proofs::Near::masking, armv6m_decode::proofs::Masks::masks), unfolding(armv6m_decode::specs::Table::rows))]
fn cpsie() -> u16
    ensures { decoded result ≡ Decoded.Op (Instr.Other Other.Cpsie) }
{
    0xB662
}

/// CPS T1, with im 1.
#[tactic(auto, using(armv6m_decode::proofs::Near::masking, armv6m_decode::proofs::Masks::masks), unfolding(armv6m_decode::specs::Table::rows))]
fn cpsid() -> u16
    ensures { decoded result ≡ Decoded.Op (Instr.Other Other.Cpsid) }
{
    0xB672
}

/// REV T1.
#[tactic(auto, using(armv6m_decode::proofs::Near::reverses, armv6m_decode::proofs::Masks::masks), unfolding(armv6m_decode::specs::Table::rows))]
fn rev(d: u8, m: u8) -> u16
    requires d_fits { d < 8 }
    requires m_fits { m < 8 }
    ensures { decoded result ≡ Decoded.Op (Instr.Other (Other.Rev d m)) }
{
    0xBA00 + u16::from(m) * 0x8 + u16::from(d)
}

/// REV16 T1.
#[tactic(auto, using(armv6m_decode::proofs::Near::reverses, armv6m_decode::proofs::Masks::masks), unfolding(armv6m_decode::specs::Table::rows))]
fn rev_16(d: u8, m: u8) -> u16
    requires d_fits { d < 8 }
    requires m_fits { m < 8 }
    ensures { decoded result ≡ Decoded.Op (Instr.Other (Other.Rev16 d m)) }
{
    0xBA40 + u16::from(m) * 0x8 + u16::from(d)
}

/// REVSH T1.
#[tactic(auto, using(armv6m_decode::proofs::Near::reverses, armv6m_decode::proofs::Masks::masks), unfolding(armv6m_decode::specs::Table::rows))]
fn revsh(d: u8, m: u8) -> u16
    requires d_fits { d < 8 }
    requires m_fits { m < 8 }
    ensures { decoded result ≡ Decoded.Op (Instr.Other (Other.Revsh d m)) }
{
    0xBAC0 + u16::from(m) * 0x8 + u16::from(d)
}

/// BKPT T1.
#[tactic(auto, using(armv6m_decode::proofs::Near::hints, armv6m_decode::proofs::Masks::masks), unfolding(armv6m_decode::specs::Table::rows))]
fn bkpt(immediate: u8) -> u16
    ensures { decoded result ≡ Decoded.Op (Instr.Other (Other.Bkpt immediate)) }
{
    0xBE00 + u16::from(immediate)
}

/// NOP T1.
#[tactic(auto, using(armv6m_decode::proofs::Near::hints, armv6m_decode::proofs::Masks::masks), unfolding(armv6m_decode::specs::Table::rows))]
fn nop() -> u16
    ensures { decoded result ≡ Decoded.Op (Instr.Other Other.Nop) }
{
    0xBF00
}

/// YIELD T1.
#[tactic(auto, using(armv6m_decode::proofs::Near::hints, armv6m_decode::proofs::Masks::masks), unfolding(armv6m_decode::specs::Table::rows))]
fn yield_hint() -> u16
    ensures { decoded result ≡ Decoded.Op (Instr.Other Other.Yield) }
{
    0xBF10
}

/// WFE T1.
#[tactic(auto, using(armv6m_decode::proofs::Near::hints, armv6m_decode::proofs::Masks::masks), unfolding(armv6m_decode::specs::Table::rows))]
fn wfe() -> u16
    ensures { decoded result ≡ Decoded.Op (Instr.Other Other.Wfe) }
{
    0xBF20
}

/// WFI T1.
#[tactic(auto, using(armv6m_decode::proofs::Near::hints, armv6m_decode::proofs::Masks::masks), unfolding(armv6m_decode::specs::Table::rows))]
fn wfi() -> u16
    ensures { decoded result ≡ Decoded.Op (Instr.Other Other.Wfi) }
{
    0xBF30
}

/// SEV T1.
#[tactic(auto, using(armv6m_decode::proofs::Near::hints, armv6m_decode::proofs::Masks::masks), unfolding(armv6m_decode::specs::Table::rows))]
fn sev() -> u16
    ensures { decoded result ≡ Decoded.Op (Instr.Other Other.Sev) }
{
    0xBF40
}

/// UDF T1.
#[tactic(auto, using(armv6m_decode::proofs::Near::conditional, armv6m_decode::proofs::Masks::masks), unfolding(armv6m_decode::specs::Table::rows))]
fn udf(immediate: u8) -> u16
    ensures { decoded result ≡ Decoded.Op (Instr.Other (Other.Udf immediate)) }
{
    0xDE00 + u16::from(immediate)
}

/// SVC T1.
#[tactic(auto, using(armv6m_decode::proofs::Near::conditional, armv6m_decode::proofs::Masks::masks), unfolding(armv6m_decode::specs::Table::rows))]
fn svc(immediate: u8) -> u16
    ensures { decoded result ≡ Decoded.Op (Instr.Other (Other.Svc immediate)) }
{
    0xDF00 + u16::from(immediate)
}
