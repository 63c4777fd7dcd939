//! Bytes that are written as pairs of hexadecimal digits.
ghost use Rattle.std.specs.Prelude.{◌≡◌, ◌≤◌, ◌*◌, length, sum, unwrap_or};
ghost use Rattle.std.specs.List.{list_all};
ghost use Rattle.octets.specs.Digit.{hex_value, pair_value};
ghost use Rattle.record_lines.specs.Digits.{is_hex_digit, pairs};

/// The value of each byte as a hexadecimal digit, or 16 for no digit. A processor can't predict digits, so a branch for each
/// one costs more than a look into a table.
const VALUES: [u8; 256] = [
    16, 16, 16, 16, 16, 16, 16, 16, 16, 16, 16, 16, 16, 16, 16, 16, 16, 16, 16, 16, 16, 16, 16, 16,
    16, 16, 16, 16, 16, 16, 16, 16, 16, 16, 16, 16, 16, 16, 16, 16, 16, 16, 16, 16, 16, 16, 16, 16,
    0, 1, 2, 3, 4, 5, 6, 7, 8, 9, 16, 16, 16, 16, 16, 16, 16, 10, 11, 12, 13, 14, 15, 16, 16, 16,
    16, 16, 16, 16, 16, 16, 16, 16, 16, 16, 16, 16, 16, 16, 16, 16, 16, 16, 16, 16, 16, 16, 16, 10,
    11, 12, 13, 14, 15, 16, 16, 16, 16, 16, 16, 16, 16, 16, 16, 16, 16, 16, 16, 16, 16, 16, 16, 16,
    16, 16, 16, 16, 16, 16, 16, 16, 16, 16, 16, 16, 16, 16, 16, 16, 16, 16, 16, 16, 16, 16, 16, 16,
    16, 16, 16, 16, 16, 16, 16, 16, 16, 16, 16, 16, 16, 16, 16, 16, 16, 16, 16, 16, 16, 16, 16, 16,
    16, 16, 16, 16, 16, 16, 16, 16, 16, 16, 16, 16, 16, 16, 16, 16, 16, 16, 16, 16, 16, 16, 16, 16,
    16, 16, 16, 16, 16, 16, 16, 16, 16, 16, 16, 16, 16, 16, 16, 16, 16, 16, 16, 16, 16, 16, 16, 16,
    16, 16, 16, 16, 16, 16, 16, 16, 16, 16, 16, 16, 16, 16, 16, 16, 16, 16, 16, 16, 16, 16, 16, 16,
    16, 16, 16, 16, 16, 16, 16, 16, 16, 16, 16, 16, 16, 16,
];

/// The value of a hexadecimal digit in either case, or 16 for any other byte.
#[inline(always)]
fn value_of(byte: u8) -> u8
    ensures { result ≡ unwrap_or (hex_value byte) 16 }
{
    VALUES[usize::from(byte)]
}

/// Whether a byte is a hexadecimal digit. It has no branch, so that many bytes are tested at once.
#[inline(always)]
fn is_digit(byte: u8) -> bool
    ensures { result ≡ is_hex_digit byte }
{
    let number = byte.wrapping_sub(b'0');
    let letter = (byte | 32).wrapping_sub(b'a');
    (number < 10) | (letter < 6)
}

/// The byte that two hexadecimal digits stand for, or 0 where one of them is no digit.
#[inline(always)]
fn byte_of(high: u8, low: u8) -> u8
    ensures { result ≡ unwrap_or (pair_value high low) 0 }
{
    let high = value_of(high);
    let low = value_of(low);
    if high < 16 && low < 16 {
        16 * high + low
    } else {
        0
    }
}

/// Whether each byte of a text is a hexadecimal digit.
pub fn all_digits(text: &[u8]) -> bool
    ensures { result ≡ list_all is_hex_digit text.now }
{
    let mut all = true;
    for byte in text {
        all &= is_digit(*byte);
    }
    all
}

/// Writes the bytes that pairs of digits stand for.
pub fn decode(digits: &[u8], out: &mut [u8])
    requires { length digits.now ≡ 2 * length out.old }
    ensures { out.new ≡ pairs digits.now }
{
    for (index, byte) in out.iter_mut().enumerate() {
        *byte = byte_of(digits[2 * index], digits[2 * index + 1]);
    }
}

/// The sum of some bytes.
pub fn byte_sum(bytes: &[u8]) -> u32
    requires { length bytes.now ≤ 65536 }
    ensures { result ≡ sum bytes.now }
{
    let mut total = 0;
    for byte in bytes {
        total += u32::from(*byte);
    }
    total
}
