//! Words that are numbers or addresses.
ghost use Rattle.std.specs.Prelude.{◌≡◌, ◌≤◌, ◌<◌, ◌^◌, ℕ, MatchOption};
ghost use Rattle.std.specs.Str.Parse.{IsNumeral, digits_value};
ghost use Rattle.armv6m_asm.specs.Statement.{IsNumber, IsAddress};

/// Reads a word as a number below 2^32: decimal digits, or `0x` and hexadecimal digits.
pub(crate) fn read_number(word: &[u8]) -> Option<u32>
    ensures { MatchOption result ((value : ℕ) → IsNumber word.now value → ⊥) (λ value. IsNumber word.now value) }
{
    match word.strip_prefix(b"0x") {
        Some(digits) => read_digits(digits, 16),
        None => read_digits(word, 10),
    }
}

/// How many bytes a written address has.
const ADDRESS_LEN: usize = 10;

/// Reads a word as an address: `0x` and eight hexadecimal digits.
pub(crate) fn read_address(word: &[u8]) -> Option<u32>
    ensures { MatchOption result ((address : ℕ) → IsAddress word.now address → ⊥) (λ address. IsAddress word.now address) }
{
    if word.len() != ADDRESS_LEN {
        return None;
    }
    match word.strip_prefix(b"0x") {
        Some(digits) => read_digits(digits, 16),
        None => None,
    }
}

/// Reads digits of a radix, at least one, as a number below 2^32.
fn read_digits(digits: &[u8], radix: u32) -> Option<u32>
    requires low { 2 ≤ radix }
    requires high { radix ≤ 36 }
    ensures { MatchOption result (IsNumeral radix digits.now → digits_value radix digits.now < 2 ^ 32 → ⊥)
        (λ value. IsNumeral radix digits.now × (value ≡ digits_value radix digits.now)) }
{
    if digits.starts_with(b"+") {
        return None;
    }
    match str::from_utf8(digits) {
        Ok(text) => u32::from_str_radix(text, radix).ok(),
        Err(_) => None,
    }
}
