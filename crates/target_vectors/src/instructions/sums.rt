//! Sums and shifts.

use anyhow::{Result, bail};
use armv6m_alu::{
    Shifted, add_with_carry, rotate_right, shift_left, shift_right, shift_right_signed,
};
use row_text::number;

/// Whether a bit is set.
fn is_set(word: &str) -> bool {
    word == "1"
}

/// Whether a sum is as the words say: its value, the carry and the overflow.
fn is_sum(x: u32, y: u32, carry: bool, due: &[&str]) -> Result<bool> {
    let [value, carry_out, overflow] = due else {
        bail!("a sum is VALUE CARRY OVERFLOW");
    };
    let sum = add_with_carry(x, y, carry);
    Ok(
        sum.value == number(value)?
            && sum.carry == is_set(carry_out)
            && sum.overflow == is_set(overflow),
    )
}

/// Whether a value and a carry are these words.
fn is_shifted(shifted: Shifted, words: &[&str]) -> Result<bool> {
    let [value, carry] = words else {
        bail!("a value and a carry are wanted");
    };
    Ok(shifted.value == number(value)? && shifted.carry == is_set(carry))
}

/// Whether all shifts and the rotation of a value are as the words say.
fn are_shifts(value: u32, amount: u32, carry: bool, due: &[&str]) -> Result<bool> {
    let shifts = [
        shift_left(value, amount, carry),
        shift_right(value, amount, carry),
        shift_right_signed(value, amount, carry),
        rotate_right(value, amount, carry),
    ];
    if due.len() != 8 {
        bail!("a value and a carry of four shifts are wanted");
    }
    for (shifted, words) in shifts.iter().zip(due.chunks_exact(2)) {
        if !is_shifted(*shifted, words)? {
            return Ok(false);
        }
    }
    Ok(true)
}

/// Whether a row holds.
pub fn holds(words: &[&str]) -> Result<bool> {
    match words {
        ["sum", x, y, carry, due @ ..] => is_sum(number(x)?, number(y)?, is_set(carry), due),
        ["shift", value, amount, carry, due @ ..] => {
            are_shifts(number(value)?, number(amount)?, is_set(carry), due)
        }
        _ => bail!("sum or shift is wanted"),
    }
}
