//! Data processing.
#![tactic(auto, using(std::proofs::lemmas::Bool::Decides::nat_tests))]

ghost use Rattle.std.specs.Prelude.{◌≡◌, ◌<◌, Bool, false, not, Result, Ok};
ghost use Rattle.armv6m_alu.specs.Sums.{sum_with_carry, is_sign_lost};
ghost use Rattle.armv6m_alu.specs.Shifts.{shifted_left, shifted_right, shifted_right_signed, rotated_right};
ghost use Rattle.armv6m_step.specs.Ends.{end_of};
ghost use Rattle.armv6m_step.specs.Registers.{reg};
ghost use Rattle.armv6m_step.specs.Meaning.{Leaves};
ghost use Rattle.armv6m_step.specs.DataRows.{alu, value_into, shift_into, sum_into, compared, tested, plain_into, undefined_at, subtraction, shift_amount};

use crate::{Core, Stop};
use armv6m_alu::{
    Shifted, Sum, add_with_carry, rotate_right, shift_left, shift_right, shift_right_signed,
};
use armv6m_decode::Alu;
use armv6m_decode::registers::PC;

#[inline(always)]
fn put_value(core: &mut Core, next: u32, d: u8, value: u32)
    ensures { value_into core.old next d value ≡ Ok core.new }
{
    core.write(d, value);
    core.set_nz(value);
    core.go_to(next);
}

#[inline(always)]
fn put_shift(core: &mut Core, next: u32, d: u8, shifted: Shifted)
    ensures { shift_into core.old next d shifted ≡ Ok core.new }
{
    core.write(d, shifted.value);
    core.set_nz(shifted.value);
    core.set_carry(shifted.carry);
    core.go_to(next);
}

#[inline(always)]
fn put_sum(core: &mut Core, next: u32, d: u8, sum: Sum)
    ensures { sum_into core.old next d sum ≡ Ok core.new }
{
    core.write(d, sum.value);
    core.set_nzcv(sum);
    core.go_to(next);
}

#[inline(always)]
fn put_flags(core: &mut Core, next: u32, sum: Sum)
    ensures { compared core.old next sum ≡ Ok core.new }
{
    core.set_nzcv(sum);
    core.go_to(next);
}

#[inline(always)]
fn test(core: &mut Core, next: u32, value: u32)
    ensures { tested core.old next value ≡ Ok core.new }
{
    core.set_nz(value);
    core.go_to(next);
}

fn put_plain(core: &mut Core, next: u32, d: u8, value: u32)
    ensures { plain_into core.old next d value ≡ Ok core.new }
{
    if d == PC {
        core.go_to(value / 2 * 2);
    } else {
        core.write(d, value);
        core.go_to(next);
    }
}

/// x - y, as the sum of x, NOT y and 1.
#[inline(always)]
#[tactic(auto, using(std::proofs::lemmas::Bool::Decides::nat_tests, std::proofs::lemmas::Int::ints), unfolding(armv6m_alu::specs::Sums::sum_with_carry))]
pub(crate) fn subtract(x: u32, y: u32) -> Sum
    ensures { result ≡ subtraction x y }
{
    let value = x.wrapping_sub(y);
    Sum {
        value,
        carry: x >= y,
        overflow: is_lost(x >= 0x8000_0000, y >= 0x8000_0000, value >= 0x8000_0000),
    }
}

/// Whether x - y overflows: x and y have different signs, and the difference doesn't have the sign of x.
#[inline(always)]
fn is_lost(x_sign: bool, y_sign: bool, value_sign: bool) -> bool
    ensures { result ≡ is_sign_lost x_sign (not y_sign) value_sign }
{
    if x_sign {
        !y_sign && !value_sign
    } else {
        y_sign && value_sign
    }
}

/// x - y, like `subtract`. For two registers one signed comparison costs less than the three signs.
#[inline(always)]
#[tactic(auto, using(std::proofs::lemmas::Bool::Decides::nat_tests, std::proofs::lemmas::Int::ints), unfolding(armv6m_alu::specs::Sums::sum_with_carry))]
pub(crate) fn difference(x: u32, y: u32) -> Sum
    ensures { result ≡ subtraction x y }
{
    let value = x.wrapping_sub(y);
    let is_less = x.cast_signed() < y.cast_signed();
    Sum {
        value,
        carry: x >= y,
        overflow: is_less != (value >= 0x8000_0000),
    }
}

/// x + y.
#[inline(always)]
#[tactic(auto, using(std::proofs::lemmas::Bool::Decides::nat_tests, std::proofs::lemmas::Int::ints), unfolding(armv6m_alu::specs::Sums::sum_with_carry))]
pub(crate) fn add(x: u32, y: u32) -> Sum
    ensures { result ≡ sum_with_carry x y false }
{
    let (value, carry) = x.overflowing_add(y);
    let is_less = value.cast_signed() < x.cast_signed();
    Sum {
        value,
        carry,
        overflow: is_less != (y >= 0x8000_0000),
    }
}

/// x + y + C.
#[inline(always)]
#[tactic(auto, using(std::proofs::lemmas::Bool::Decides::nat_tests, std::proofs::lemmas::Int::ints), unfolding(armv6m_alu::specs::Sums::sum_with_carry))]
pub(crate) fn add_carry(x: u32, y: u32, carry: bool) -> Sum
    ensures { result ≡ sum_with_carry x y carry }
{
    let carry_in = if carry { 1 } else { 0 };
    let exact = u64::from(x) + u64::from(y) + carry_in;
    let value = (exact % 0x1_0000_0000) as u32;
    let is_negative = value >= 0x8000_0000;
    Sum {
        value,
        carry: (exact >> 32) % 2 == 1,
        overflow: is_negative != (x >= 0x8000_0000) && is_negative != (y >= 0x8000_0000),
    }
}

/// A value shifted right by an immediate, where 0 means 32. It is first shifted by all but one bit, then by one: the carry is the last bit.
#[inline(always)]
pub(crate) fn right_by(value: u32, immediate: u8) -> Shifted
    requires { immediate < 32 }
    ensures { (carry : Bool) → result ≡ shifted_right value (shift_amount immediate) carry }
{
    let rest = value >> ((immediate + 31) % 32);
    Shifted {
        value: rest / 2,
        carry: rest % 2 == 1,
    }
}

pub(crate) fn amount(immediate: u8) -> u32
    ensures { result ≡ shift_amount immediate }
{
    if immediate == 0 {
        32
    } else {
        u32::from(immediate)
    }
}

/// LSLS: R[d] = R[m] shifted left.
#[inline(always)]
fn lsls(core: &mut Core, next: u32, d: u8, m: u8, by: u32)
    ensures { shift_into core.old next d (shifted_left (reg core.old m) by core.old.c) ≡ Ok core.new }
{
    put_shift(core, next, d, shift_left(core.read(m), by, core.c));
}

/// LSRS: R[d] = R[m] shifted right.
#[inline(always)]
fn lsrs(core: &mut Core, next: u32, d: u8, m: u8, by: u32)
    ensures { shift_into core.old next d (shifted_right (reg core.old m) by core.old.c) ≡ Ok core.new }
{
    put_shift(core, next, d, shift_right(core.read(m), by, core.c));
}

/// ASRS: R[d] = R[m] shifted right with its sign.
#[inline(always)]
fn asrs(core: &mut Core, next: u32, d: u8, m: u8, by: u32)
    ensures { shift_into core.old next d (shifted_right_signed (reg core.old m) by core.old.c) ≡ Ok core.new }
{
    put_shift(core, next, d, shift_right_signed(core.read(m), by, core.c));
}

/// ADDS: R[d] = R[n] + y.
#[inline(always)]
fn adds(core: &mut Core, next: u32, d: u8, n: u8, y: u32)
    ensures { sum_into core.old next d (sum_with_carry (reg core.old n) y false) ≡ Ok core.new }
{
    put_sum(core, next, d, add_with_carry(core.read(n), y, false));
}

/// SUBS: R[d] = R[n] - y.
#[inline(always)]
fn subs(core: &mut Core, next: u32, d: u8, n: u8, y: u32)
    ensures { sum_into core.old next d (subtraction (reg core.old n) y) ≡ Ok core.new }
{
    put_sum(core, next, d, subtract(core.read(n), y));
}

/// CMP: the flags of R[n] - y.
#[inline(always)]
fn cmp(core: &mut Core, next: u32, n: u8, y: u32)
    ensures { compared core.old next (subtraction (reg core.old n) y) ≡ Ok core.new }
{
    put_flags(core, next, subtract(core.read(n), y));
}

/// ADCS: R[d] = R[d] + y + C. SBCS adds NOT R[m].
#[inline(always)]
fn adcs(core: &mut Core, next: u32, d: u8, y: u32)
    ensures { sum_into core.old next d (sum_with_carry (reg core.old d) y core.old.c) ≡ Ok core.new }
{
    put_sum(core, next, d, add_with_carry(core.read(d), y, core.c));
}

/// RORS: R[d] = R[d] rotated right.
fn rors(core: &mut Core, next: u32, d: u8, by: u32)
    ensures { shift_into core.old next d (rotated_right (reg core.old d) by core.old.c) ≡ Ok core.new }
{
    put_shift(core, next, d, rotate_right(core.read(d), by, core.c));
}

/// CMN: the flags of R[n] + y.
#[inline(always)]
fn cmn(core: &mut Core, next: u32, n: u8, y: u32)
    ensures { compared core.old next (sum_with_carry (reg core.old n) y false) ≡ Ok core.new }
{
    put_flags(core, next, add_with_carry(core.read(n), y, false));
}

pub(crate) fn undefined(core: &Core) -> Result<(), Stop>
    ensures { Leaves (undefined_at core.now) core.now (end_of result) core.now }
{
    Err(Stop::Undefined { pc: core.pc() })
}

fn add_high(core: &mut Core, next: u32, d: u8, m: u8) -> Result<(), Stop>
    ensures { Leaves (alu core.old next (Alu.AddHigh d m)) core.old (end_of result) core.new }
{
    if d == PC && m == PC {
        return undefined(core);
    }
    put_plain(core, next, d, core.read(d).wrapping_add(core.read(m)));
    Ok(())
}

fn compare_high(core: &mut Core, next: u32, n: u8, m: u8) -> Result<(), Stop>
    ensures { Leaves (alu core.old next (Alu.CmpHigh n m)) core.old (end_of result) core.new }
{
    if (n < 8 && m < 8) || n == PC || m == PC {
        return undefined(core);
    }
    cmp(core, next, n, core.read(m));
    Ok(())
}

/// Executes the instruction, if the one after it is at `next`.
#[inline(always)]
pub(crate) fn run(core: &mut Core, next: u32, op: Alu) -> Result<(), Stop>
    ensures { Leaves (alu core.old next op) core.old (end_of result) core.new }
{
    match op {
        Alu::LslsImmediate { d, m, immediate: i } => lsls(core, next, d, m, u32::from(i)),
        Alu::LsrsImmediate { d, m, immediate: i } => lsrs(core, next, d, m, amount(i)),
        Alu::AsrsImmediate { d, m, immediate: i } => asrs(core, next, d, m, amount(i)),
        Alu::AddsRegister { d, n, m } => adds(core, next, d, n, core.read(m)),
        Alu::SubsRegister { d, n, m } => subs(core, next, d, n, core.read(m)),
        Alu::AddsImmediate3 { d, n, immediate: i } => adds(core, next, d, n, u32::from(i)),
        Alu::SubsImmediate3 { d, n, immediate: i } => subs(core, next, d, n, u32::from(i)),
        Alu::MovsImmediate { d, immediate: i } => put_value(core, next, d, u32::from(i)),
        Alu::CmpImmediate { n, immediate: i } => cmp(core, next, n, u32::from(i)),
        Alu::AddsImmediate8 { d, immediate: i } => adds(core, next, d, d, u32::from(i)),
        Alu::SubsImmediate8 { d, immediate: i } => subs(core, next, d, d, u32::from(i)),
        Alu::Ands { d, m } => put_value(core, next, d, core.read(d) & core.read(m)),
        Alu::Eors { d, m } => put_value(core, next, d, core.read(d) ^ core.read(m)),
        Alu::LslsRegister { d, m } => lsls(core, next, d, d, core.low_byte(m)),
        Alu::LsrsRegister { d, m } => lsrs(core, next, d, d, core.low_byte(m)),
        Alu::AsrsRegister { d, m } => asrs(core, next, d, d, core.low_byte(m)),
        Alu::Adcs { d, m } => adcs(core, next, d, core.read(m)),
        Alu::Sbcs { d, m } => adcs(core, next, d, !core.read(m)),
        Alu::Rors { d, m } => rors(core, next, d, core.low_byte(m)),
        Alu::Tst { d, m } => test(core, next, core.read(d) & core.read(m)),
        Alu::Rsbs { d, n } => put_sum(core, next, d, subtract(0, core.read(n))),
        Alu::CmpRegister { d, m } => cmp(core, next, d, core.read(m)),
        Alu::Cmn { d, m } => cmn(core, next, d, core.read(m)),
        Alu::Orrs { d, m } => put_value(core, next, d, core.read(d) | core.read(m)),
        Alu::Muls { d, m } => put_value(core, next, d, core.read(d).wrapping_mul(core.read(m))),
        Alu::Bics { d, m } => put_value(core, next, d, core.read(d) & !core.read(m)),
        Alu::Mvns { d, m } => put_value(core, next, d, !core.read(m)),
        Alu::MovHigh { d, m } => put_plain(core, next, d, core.read(m)),
        Alu::AddHigh { d, m } => return add_high(core, next, d, m),
        Alu::CmpHigh { n, m } => return compare_high(core, next, n, m),
    }
    Ok(())
}
