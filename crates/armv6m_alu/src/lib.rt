//! The sum with carry, the shifts, the rotation and the sign extension of 32-bit numbers, as Armv6-M instructions use them:
//! Armv6-M Architecture Reference Manual, A2.2.1 "Integer arithmetic". Every function is total and takes no memory.
#![tactic(auto)]

ghost use Rattle.std.specs.Prelude.{◌≡◌, ◌<◌, ◌^◌};
ghost use Rattle.armv6m_alu.specs.Bits.{sign_extended};
ghost use Rattle.armv6m_alu.specs.Sums.{sum_with_carry, is_sign_lost};
ghost use Rattle.armv6m_alu.specs.Shifts.{shifted_left, shifted_right, shifted_right_signed, rotated_right};

/// A sum, with its carry and its overflow.
#[derive(Clone, Copy)]
pub struct Sum {
    /// The low 32 bits of the exact sum.
    pub value: u32,
    /// Whether the exact unsigned sum is at least 2^32.
    pub carry: bool,
    /// Whether the value read as signed isn't the exact signed sum.
    pub overflow: bool,
}

/// A shifted number, with its carry.
#[derive(Clone, Copy)]
pub struct Shifted {
    /// The shifted number.
    pub value: u32,
    /// The last bit that was shifted out. A shift by 0 keeps the carry that was passed in.
    pub carry: bool,
}

/// The sum of x, y and the carry: the manual's `AddWithCarry()`. A subtraction x - y is the sum of x, NOT y and 1.
#[tactic(auto, unfolding(crate::specs::Sums::sum_with_carry))]
pub fn add_with_carry(x: u32, y: u32, carry: bool) -> Sum
    ensures { result ≡ sum_with_carry x y carry }
{
    let carry_in = if carry { 1 } else { 0 };
    let exact = u64::from(x) + u64::from(y) + carry_in;
    let value = (exact % 0x1_0000_0000) as u32;
    Sum {
        value,
        carry: exact >= 0x1_0000_0000,
        overflow: overflows(x >= 0x8000_0000, y >= 0x8000_0000, value >= 0x8000_0000),
    }
}

/// Whether two terms of one sign have a sum of the other sign.
fn overflows(x_sign: bool, y_sign: bool, sum_sign: bool) -> bool
    ensures { result ≡ is_sign_lost x_sign y_sign sum_sign }
{
    if x_sign {
        y_sign && !sum_sign
    } else {
        !y_sign && sum_sign
    }
}

/// The value shifted left by any amount: the manual's `LSL_C()`.
#[tactic(auto, unfolding(crate::specs::Shifts::shifted_left))]
pub fn shift_left(value: u32, amount: u32, carry: bool) -> Shifted
    ensures { result ≡ shifted_left value amount carry }
{
    if amount == 0 {
        Shifted { value, carry }
    } else if amount < 32 {
        Shifted {
            value: value << amount,
            carry: (value >> (32 - amount)) % 2 == 1,
        }
    } else if amount == 32 {
        Shifted {
            value: 0,
            carry: value % 2 == 1,
        }
    } else {
        Shifted {
            value: 0,
            carry: false,
        }
    }
}

/// The value shifted right by any amount: the manual's `LSR_C()`.
#[tactic(auto, unfolding(crate::specs::Shifts::shifted_right))]
pub fn shift_right(value: u32, amount: u32, carry: bool) -> Shifted
    ensures { result ≡ shifted_right value amount carry }
{
    if amount == 0 {
        Shifted { value, carry }
    } else if amount < 32 {
        Shifted {
            value: value >> amount,
            carry: (value >> (amount - 1)) % 2 == 1,
        }
    } else if amount == 32 {
        Shifted {
            value: 0,
            carry: (value >> 31) % 2 == 1,
        }
    } else {
        Shifted {
            value: 0,
            carry: false,
        }
    }
}

/// The value shifted right by any amount, with its sign filling the upper bits: the manual's `ASR_C()`.
#[tactic(auto, unfolding(crate::specs::Shifts::shifted_right_signed))]
pub fn shift_right_signed(value: u32, amount: u32, carry: bool) -> Shifted
    ensures { result ≡ shifted_right_signed value amount carry }
{
    if amount == 0 {
        Shifted { value, carry }
    } else if amount < 32 {
        Shifted {
            value: (value.cast_signed() >> amount).cast_unsigned(),
            carry: (value >> (amount - 1)) % 2 == 1,
        }
    } else {
        let sign = (value >> 31) % 2 == 1;
        Shifted {
            value: if sign { u32::MAX } else { 0 },
            carry: sign,
        }
    }
}

/// The value rotated right by the amount modulo 32. The carry is bit 31 of the result: the manual's `ROR_C()`. The amount 0 keeps value and
/// carry; every other multiple of 32 keeps only the value.
#[tactic(auto, unfolding(crate::specs::Shifts::rotated_right))]
pub fn rotate_right(value: u32, amount: u32, carry: bool) -> Shifted
    ensures { result ≡ rotated_right value amount carry }
{
    if amount == 0 {
        Shifted { value, carry }
    } else {
        let rotated = value.rotate_right(amount);
        Shifted {
            value: rotated,
            carry: (rotated >> 31) % 2 == 1,
        }
    }
}

/// A number of `bits` bits, the highest of them the sign, extended to 32 bits: the manual's `SignExtend()`.
#[inline(always)]
#[tactic(auto, using(crate::proofs::PowerLemmas::powers, std::proofs::lemmas::Bool::Decides::nat_tests))]
pub fn sign_extend(value: u32, bits: u32) -> u32
    requires some { 0 < bits }
    requires fewer { bits < 32 }
    requires fits { value < 2 ^ bits }
    ensures { result ≡ sign_extended bits value }
{
    let sign = 1 << (bits - 1);
    if value < sign {
        value
    } else {
        value + (u32::MAX - (2 * sign - 1))
    }
}
