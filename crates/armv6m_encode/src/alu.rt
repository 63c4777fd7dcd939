//! The encodings of data processing: a function for each row, named in a comment as the manual names it (A6.7).

ghost use Rattle.std.specs.Prelude.{◌≡◌, ◌<◌, IsTrue};
ghost use Rattle.armv6m_decode.specs.Table.{decoded};
ghost use Rattle.armv6m_encode.specs.Encoding.{fields_fit};

use armv6m_decode::{Alu, Decoded, Instr};

/// Whether each field fits the bits that its row has for it.
pub(crate) fn fits(op: Alu) -> bool
    ensures { result ≡ fields_fit (Instr.Alu op) }
{
    match op {
        Alu::LslsImmediate { d, m, immediate }
        | Alu::LsrsImmediate { d, m, immediate }
        | Alu::AsrsImmediate { d, m, immediate } => d < 8 && m < 8 && immediate < 32,
        Alu::AddsRegister { d, n, m } | Alu::SubsRegister { d, n, m } => d < 8 && n < 8 && m < 8,
        Alu::AddsImmediate3 { d, n, immediate } | Alu::SubsImmediate3 { d, n, immediate } => d < 8
            && n < 8
            && immediate < 8,
        Alu::MovsImmediate { d, immediate: _ }
        | Alu::AddsImmediate8 { d, immediate: _ }
        | Alu::SubsImmediate8 { d, immediate: _ } => d < 8,
        Alu::CmpImmediate { n, immediate: _ } => n < 8,
        Alu::Ands { d, m }
        | Alu::Eors { d, m }
        | Alu::LslsRegister { d, m }
        | Alu::LsrsRegister { d, m }
        | Alu::AsrsRegister { d, m }
        | Alu::Adcs { d, m }
        | Alu::Sbcs { d, m }
        | Alu::Rors { d, m }
        | Alu::Tst { d, m }
        | Alu::CmpRegister { d, m }
        | Alu::Cmn { d, m }
        | Alu::Orrs { d, m }
        | Alu::Muls { d, m }
        | Alu::Bics { d, m }
        | Alu::Mvns { d, m } => d < 8 && m < 8,
        Alu::Rsbs { d, n } => d < 8 && n < 8,
        Alu::AddHigh { d, m } | Alu::MovHigh { d, m } => d < 16 && m < 16,
        Alu::CmpHigh { n, m } => n < 16 && m < 16,
    }
}

/// The encoding of the instruction.
#[tactic(auto, using(std::proofs::lemmas::Bool::Decides::nat_tests))]
pub(crate) fn encode(op: Alu) -> u16
    requires { IsTrue (fields_fit (Instr.Alu op)) }
    ensures { decoded result ≡ Decoded.Op (Instr.Alu op) }
{
    match op {
        Alu::LslsImmediate { d, m, immediate } => lsls_immediate(d, m, immediate),
        Alu::LsrsImmediate { d, m, immediate } => lsrs_immediate(d, m, immediate),
        Alu::AsrsImmediate { d, m, immediate } => asrs_immediate(d, m, immediate),
        Alu::AddsRegister { d, n, m } => adds_register(d, n, m),
        Alu::SubsRegister { d, n, m } => subs_register(d, n, m),
        Alu::AddsImmediate3 { d, n, immediate } => adds_immediate_3(d, n, immediate),
        Alu::SubsImmediate3 { d, n, immediate } => subs_immediate_3(d, n, immediate),
        Alu::MovsImmediate { d, immediate } => movs_immediate(d, immediate),
        Alu::CmpImmediate { n, immediate } => cmp_immediate(n, immediate),
        Alu::AddsImmediate8 { d, immediate } => adds_immediate_8(d, immediate),
        Alu::SubsImmediate8 { d, immediate } => subs_immediate_8(d, immediate),
        Alu::Ands { d, m } => ands(d, m),
        Alu::Eors { d, m } => eors(d, m),
        Alu::LslsRegister { d, m } => lsls_register(d, m),
        Alu::LsrsRegister { d, m } => lsrs_register(d, m),
        Alu::AsrsRegister { d, m } => asrs_register(d, m),
        Alu::Adcs { d, m } => adcs(d, m),
        Alu::Sbcs { d, m } => sbcs(d, m),
        Alu::Rors { d, m } => rors(d, m),
        Alu::Tst { d, m } => tst(d, m),
        Alu::Rsbs { d, n } => rsbs(d, n),
        Alu::CmpRegister { d, m } => cmp_register(d, m),
        Alu::Cmn { d, m } => cmn(d, m),
        Alu::Orrs { d, m } => orrs(d, m),
        Alu::Muls { d, m } => muls(d, m),
        Alu::Bics { d, m } => bics(d, m),
        Alu::Mvns { d, m } => mvns(d, m),
        Alu::AddHigh { d, m } => add_high(d, m),
        Alu::CmpHigh { n, m } => cmp_high(n, m),
        Alu::MovHigh { d, m } => mov_high(d, m),
    }
}

/// LSL (immediate) T1; with immediate 0 it is MOV (register) T2.
#[tactic(auto, using(armv6m_decode::proofs::Near::shifts, armv6m_decode::proofs::Masks::masks), unfolding(armv6m_decode::specs::Table::rows))]
fn lsls_immediate(d: u8, m: u8, immediate: u8) -> u16
    requires d_fits { d < 8 }
    requires m_fits { m < 8 }
    requires immediate_fits { immediate < 32 }
    ensures { decoded result ≡ Decoded.Op (Instr.Alu (Alu.LslsImmediate d m immediate)) }
{
    0x0000 + u16::from(immediate) * 0x40 + u16::from(m) * 0x8 + u16::from(d)
}

/// LSR (immediate) T1.
#[tactic(auto, using(armv6m_decode::proofs::Near::shifts, armv6m_decode::proofs::Masks::masks), unfolding(armv6m_decode::specs::Table::rows))]
fn lsrs_immediate(d: u8, m: u8, immediate: u8) -> u16
    requires d_fits { d < 8 }
    requires m_fits { m < 8 }
    requires immediate_fits { immediate < 32 }
    ensures { decoded result ≡ Decoded.Op (Instr.Alu (Alu.LsrsImmediate d m immediate)) }
{
    0x0800 + u16::from(immediate) * 0x40 + u16::from(m) * 0x8 + u16::from(d)
}

/// ASR (immediate) T1.
#[tactic(auto, using(armv6m_decode::proofs::Near::shift_or_add, armv6m_decode::proofs::Masks::masks), unfolding(armv6m_decode::specs::Table::rows))]
fn asrs_immediate(d: u8, m: u8, immediate: u8) -> u16
    requires d_fits { d < 8 }
    requires m_fits { m < 8 }
    requires immediate_fits { immediate < 32 }
    ensures { decoded result ≡ Decoded.Op (Instr.Alu (Alu.AsrsImmediate d m immediate)) }
{
    0x1000 + u16::from(immediate) * 0x40 + u16::from(m) * 0x8 + u16::from(d)
}

/// ADD (register) T1.
#[tactic(auto, using(armv6m_decode::proofs::Near::shift_or_add, armv6m_decode::proofs::Masks::masks), unfolding(armv6m_decode::specs::Table::rows))]
fn adds_register(d: u8, n: u8, m: u8) -> u16
    requires d_fits { d < 8 }
    requires n_fits { n < 8 }
    requires m_fits { m < 8 }
    ensures { decoded result ≡ Decoded.Op (Instr.Alu (Alu.AddsRegister d n m)) }
{
    0x1800 + u16::from(m) * 0x40 + u16::from(n) * 0x8 + u16::from(d)
}

/// SUB (register) T1.
#[tactic(auto, using(armv6m_decode::proofs::Near::shift_or_add, armv6m_decode::proofs::Masks::masks), unfolding(armv6m_decode::specs::Table::rows))]
fn subs_register(d: u8, n: u8, m: u8) -> u16
    requires d_fits { d < 8 }
    requires n_fits { n < 8 }
    requires m_fits { m < 8 }
    ensures { decoded result ≡ Decoded.Op (Instr.Alu (Alu.SubsRegister d n m)) }
{
    0x1A00 + u16::from(m) * 0x40 + u16::from(n) * 0x8 + u16::from(d)
}

/// ADD (immediate) T1.
#[tactic(auto, using(armv6m_decode::proofs::Near::shift_or_add, armv6m_decode::proofs::Masks::masks), unfolding(armv6m_decode::specs::Table::rows))]
fn adds_immediate_3(d: u8, n: u8, immediate: u8) -> u16
    requires d_fits { d < 8 }
    requires n_fits { n < 8 }
    requires immediate_fits { immediate < 8 }
    ensures { decoded result ≡ Decoded.Op (Instr.Alu (Alu.AddsImmediate3 d n immediate)) }
{
    0x1C00 + u16::from(immediate) * 0x40 + u16::from(n) * 0x8 + u16::from(d)
}

/// SUB (immediate) T1.
#[tactic(auto, using(armv6m_decode::proofs::Near::shift_or_add, armv6m_decode::proofs::Masks::masks), unfolding(armv6m_decode::specs::Table::rows))]
fn subs_immediate_3(d: u8, n: u8, immediate: u8) -> u16
    requires d_fits { d < 8 }
    requires n_fits { n < 8 }
    requires immediate_fits { immediate < 8 }
    ensures { decoded result ≡ Decoded.Op (Instr.Alu (Alu.SubsImmediate3 d n immediate)) }
{
    0x1E00 + u16::from(immediate) * 0x40 + u16::from(n) * 0x8 + u16::from(d)
}

/// MOV (immediate) T1.
#[tactic(auto, using(armv6m_decode::proofs::Near::move_or_compare, armv6m_decode::proofs::Masks::masks), unfolding(armv6m_decode::specs::Table::rows))]
fn movs_immediate(d: u8, immediate: u8) -> u16
    requires { d < 8 }
    ensures { decoded result ≡ Decoded.Op (Instr.Alu (Alu.MovsImmediate d immediate)) }
{
    0x2000 + u16::from(d) * 0x100 + u16::from(immediate)
}

/// CMP (immediate) T1.
#[tactic(auto, using(armv6m_decode::proofs::Near::move_or_compare, armv6m_decode::proofs::Masks::masks), unfolding(armv6m_decode::specs::Table::rows))]
fn cmp_immediate(n: u8, immediate: u8) -> u16
    requires { n < 8 }
    ensures { decoded result ≡ Decoded.Op (Instr.Alu (Alu.CmpImmediate n immediate)) }
{
    0x2800 + u16::from(n) * 0x100 + u16::from(immediate)
}

/// ADD (immediate) T2.
#[tactic(auto, using(armv6m_decode::proofs::Near::add_or_subtract, armv6m_decode::proofs::Masks::masks), unfolding(armv6m_decode::specs::Table::rows))]
fn adds_immediate_8(d: u8, immediate: u8) -> u16
    requires { d < 8 }
    ensures { decoded result ≡ Decoded.Op (Instr.Alu (Alu.AddsImmediate8 d immediate)) }
{
    0x3000 + u16::from(d) * 0x100 + u16::from(immediate)
}

/// SUB (immediate) T2.
#[tactic(auto, using(armv6m_decode::proofs::Near::add_or_subtract, armv6m_decode::proofs::Masks::masks), unfolding(armv6m_decode::specs::Table::rows))]
fn subs_immediate_8(d: u8, immediate: u8) -> u16
    requires { d < 8 }
    ensures { decoded result ≡ Decoded.Op (Instr.Alu (Alu.SubsImmediate8 d immediate)) }
{
    0x3800 + u16::from(d) * 0x100 + u16::from(immediate)
}

/// Bitwise AND (register) T1.
#[tactic(auto, using(armv6m_decode::proofs::Near::data_processing, armv6m_decode::proofs::Masks::masks), unfolding(armv6m_decode::specs::Table::rows))]
fn ands(d: u8, m: u8) -> u16
    requires d_fits { d < 8 }
    requires m_fits { m < 8 }
    ensures { decoded result ≡ Decoded.Op (Instr.Alu (Alu.Ands d m)) }
{
    0x4000 + u16::from(m) * 0x8 + u16::from(d)
}

/// EOR (register) T1.
#[tactic(auto, using(armv6m_decode::proofs::Near::data_processing, armv6m_decode::proofs::Masks::masks), unfolding(armv6m_decode::specs::Table::rows))]
fn eors(d: u8, m: u8) -> u16
    requires d_fits { d < 8 }
    requires m_fits { m < 8 }
    ensures { decoded result ≡ Decoded.Op (Instr.Alu (Alu.Eors d m)) }
{
    0x4040 + u16::from(m) * 0x8 + u16::from(d)
}

/// LSL (register) T1.
#[tactic(auto, using(armv6m_decode::proofs::Near::data_processing, armv6m_decode::proofs::Masks::masks), unfolding(armv6m_decode::specs::Table::rows))]
fn lsls_register(d: u8, m: u8) -> u16
    requires d_fits { d < 8 }
    requires m_fits { m < 8 }
    ensures { decoded result ≡ Decoded.Op (Instr.Alu (Alu.LslsRegister d m)) }
{
    0x4080 + u16::from(m) * 0x8 + u16::from(d)
}

/// LSR (register) T1.
#[tactic(auto, using(armv6m_decode::proofs::Near::data_processing, armv6m_decode::proofs::Masks::masks), unfolding(armv6m_decode::specs::Table::rows))]
fn lsrs_register(d: u8, m: u8) -> u16
    requires d_fits { d < 8 }
    requires m_fits { m < 8 }
    ensures { decoded result ≡ Decoded.Op (Instr.Alu (Alu.LsrsRegister d m)) }
{
    0x40C0 + u16::from(m) * 0x8 + u16::from(d)
}

/// ASR (register) T1.
#[tactic(auto, using(armv6m_decode::proofs::Near::data_processing, armv6m_decode::proofs::Masks::masks), unfolding(armv6m_decode::specs::Table::rows))]
fn asrs_register(d: u8, m: u8) -> u16
    requires d_fits { d < 8 }
    requires m_fits { m < 8 }
    ensures { decoded result ≡ Decoded.Op (Instr.Alu (Alu.AsrsRegister d m)) }
{
    0x4100 + u16::from(m) * 0x8 + u16::from(d)
}

/// ADC (register) T1.
#[tactic(auto, using(armv6m_decode::proofs::Near::data_processing, armv6m_decode::proofs::Masks::masks), unfolding(armv6m_decode::specs::Table::rows))]
fn adcs(d: u8, m: u8) -> u16
    requires d_fits { d < 8 }
    requires m_fits { m < 8 }
    ensures { decoded result ≡ Decoded.Op (Instr.Alu (Alu.Adcs d m)) }
{
    0x4140 + u16::from(m) * 0x8 + u16::from(d)
}

/// SBC (register) T1.
#[tactic(auto, using(armv6m_decode::proofs::Near::data_processing, armv6m_decode::proofs::Masks::masks), unfolding(armv6m_decode::specs::Table::rows))]
fn sbcs(d: u8, m: u8) -> u16
    requires d_fits { d < 8 }
    requires m_fits { m < 8 }
    ensures { decoded result ≡ Decoded.Op (Instr.Alu (Alu.Sbcs d m)) }
{
    0x4180 + u16::from(m) * 0x8 + u16::from(d)
}

/// ROR (register) T1.
#[tactic(auto, using(armv6m_decode::proofs::Near::data_processing, armv6m_decode::proofs::Masks::masks), unfolding(armv6m_decode::specs::Table::rows))]
fn rors(d: u8, m: u8) -> u16
    requires d_fits { d < 8 }
    requires m_fits { m < 8 }
    ensures { decoded result ≡ Decoded.Op (Instr.Alu (Alu.Rors d m)) }
{
    0x41C0 + u16::from(m) * 0x8 + u16::from(d)
}

/// TST (register) T1.
#[tactic(auto, using(armv6m_decode::proofs::Near::data_processing, armv6m_decode::proofs::Masks::masks), unfolding(armv6m_decode::specs::Table::rows))]
fn tst(d: u8, m: u8) -> u16
    requires d_fits { d < 8 }
    requires m_fits { m < 8 }
    ensures { decoded result ≡ Decoded.Op (Instr.Alu (Alu.Tst d m)) }
{
    0x4200 + u16::from(m) * 0x8 + u16::from(d)
}

/// RSB (immediate) T1.
#[tactic(auto, using(armv6m_decode::proofs::Near::data_processing, armv6m_decode::proofs::Masks::masks), unfolding(armv6m_decode::specs::Table::rows))]
fn rsbs(d: u8, n: u8) -> u16
    requires d_fits { d < 8 }
    requires n_fits { n < 8 }
    ensures { decoded result ≡ Decoded.Op (Instr.Alu (Alu.Rsbs d n)) }
{
    0x4240 + u16::from(n) * 0x8 + u16::from(d)
}

/// CMP (register) T1.
#[tactic(auto, using(armv6m_decode::proofs::Near::data_processing, armv6m_decode::proofs::Masks::masks), unfolding(armv6m_decode::specs::Table::rows))]
fn cmp_register(d: u8, m: u8) -> u16
    requires d_fits { d < 8 }
    requires m_fits { m < 8 }
    ensures { decoded result ≡ Decoded.Op (Instr.Alu (Alu.CmpRegister d m)) }
{
    0x4280 + u16::from(m) * 0x8 + u16::from(d)
}

/// CMN (register) T1.
#[tactic(auto, using(armv6m_decode::proofs::Near::data_processing, armv6m_decode::proofs::Masks::masks), unfolding(armv6m_decode::specs::Table::rows))]
fn cmn(d: u8, m: u8) -> u16
    requires d_fits { d < 8 }
    requires m_fits { m < 8 }
    ensures { decoded result ≡ Decoded.Op (Instr.Alu (Alu.Cmn d m)) }
{
    0x42C0 + u16::from(m) * 0x8 + u16::from(d)
}

/// ORR (register) T1.
#[tactic(auto, using(armv6m_decode::proofs::Near::data_processing, armv6m_decode::proofs::Masks::masks), unfolding(armv6m_decode::specs::Table::rows))]
fn orrs(d: u8, m: u8) -> u16
    requires d_fits { d < 8 }
    requires m_fits { m < 8 }
    ensures { decoded result ≡ Decoded.Op (Instr.Alu (Alu.Orrs d m)) }
{
    0x4300 + u16::from(m) * 0x8 + u16::from(d)
}

/// MUL T1.
#[tactic(auto, using(armv6m_decode::proofs::Near::data_processing, armv6m_decode::proofs::Masks::masks), unfolding(armv6m_decode::specs::Table::rows))]
fn muls(d: u8, m: u8) -> u16
    requires d_fits { d < 8 }
    requires m_fits { m < 8 }
    ensures { decoded result ≡ Decoded.Op (Instr.Alu (Alu.Muls d m)) }
{
    0x4340 + u16::from(m) * 0x8 + u16::from(d)
}

/// BIC (register) T1.
#[tactic(auto, using(armv6m_decode::proofs::Near::data_processing, armv6m_decode::proofs::Masks::masks), unfolding(armv6m_decode::specs::Table::rows))]
fn bics(d: u8, m: u8) -> u16
    requires d_fits { d < 8 }
    requires m_fits { m < 8 }
    ensures { decoded result ≡ Decoded.Op (Instr.Alu (Alu.Bics d m)) }
{
    0x4380 + u16::from(m) * 0x8 + u16::from(d)
}

/// MVN (register) T1.
#[tactic(auto, using(armv6m_decode::proofs::Near::data_processing, armv6m_decode::proofs::Masks::masks), unfolding(armv6m_decode::specs::Table::rows))]
fn mvns(d: u8, m: u8) -> u16
    requires d_fits { d < 8 }
    requires m_fits { m < 8 }
    ensures { decoded result ≡ Decoded.Op (Instr.Alu (Alu.Mvns d m)) }
{
    0x43C0 + u16::from(m) * 0x8 + u16::from(d)
}

/// ADD (register) T2, and ADD (SP plus register) T1 and T2.
#[tactic(auto, using(armv6m_decode::proofs::Near::high_registers, armv6m_decode::proofs::Masks::masks), unfolding(armv6m_decode::specs::Table::rows))]
fn add_high(d: u8, m: u8) -> u16
    requires d_fits { d < 16 }
    requires m_fits { m < 16 }
    ensures { decoded result ≡ Decoded.Op (Instr.Alu (Alu.AddHigh d m)) }
{
    0x4400 + u16::from(m) * 0x8 + u16::from(d / 8) * 0x80 + u16::from(d % 8)
}

/// CMP (register) T2.
#[tactic(auto, using(armv6m_decode::proofs::Near::high_registers, armv6m_decode::proofs::Masks::masks), unfolding(armv6m_decode::specs::Table::rows))]
fn cmp_high(n: u8, m: u8) -> u16
    requires n_fits { n < 16 }
    requires m_fits { m < 16 }
    ensures { decoded result ≡ Decoded.Op (Instr.Alu (Alu.CmpHigh n m)) }
{
    0x4500 + u16::from(m) * 0x8 + u16::from(n / 8) * 0x80 + u16::from(n % 8)
}

/// MOV (register) T1.
#[tactic(auto, using(armv6m_decode::proofs::Near::high_registers, armv6m_decode::proofs::Masks::masks), unfolding(armv6m_decode::specs::Table::rows))]
fn mov_high(d: u8, m: u8) -> u16
    requires d_fits { d < 16 }
    requires m_fits { m < 16 }
    ensures { decoded result ≡ Decoded.Op (Instr.Alu (Alu.MovHigh d m)) }
{
    0x4600 + u16::from(m) * 0x8 + u16::from(d / 8) * 0x80 + u16::from(d % 8)
}
