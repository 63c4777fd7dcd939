//! Addresses as words.
ghost use Rattle.std.specs.Prelude.{◌≡◌, ◌≢◌, ◌≤◌, ◌<◌, ◌^◌, ◌++◌, ℕ, List, MatchOption, IfSome, IfNone};
ghost use Rattle.std.specs.Str.Parse.{IsNumeral, digits_value};
ghost use Rattle.command_words.specs.Words.{IsAddress};

/// The address that a word says: `0x` and 1 to 8 hexadecimal digits, or decimal digits of a value below 2^32.
pub fn read_address(word: &str) -> Option<u32>
    ensures some { IfSome result (IsAddress word.now) }
    ensures none { IfNone result ((at : ℕ) → IsAddress word.now at → ⊥) }
{
    match after(word, "0x") {
        None => read_number(word, 10),
        Some(digits) if digits.len() <= 8 => read_number(digits, 16),
        Some(_) => None,
    }
}

/// The number that these digits write, if there is at least one digit and the number is below 2^32.
pub fn read_number(digits: &str, radix: u32) -> Option<u32>
    requires low { 2 ≤ radix }
    requires high { radix ≤ 36 }
    ensures { MatchOption result (IsNumeral radix digits.now → digits_value radix digits.now < 2 ^ 32 → ⊥)
        (λ n. IsNumeral radix digits.now × (n ≡ digits_value radix digits.now)) }
{
    if digits.as_bytes().starts_with(b"+") {
        return None;
    }
    match u32::from_str_radix(digits, radix) {
        Ok(number) => Some(number),
        Err(_) => None,
    }
}

/// What follows `beginning` in a text, if the text begins with it.
pub fn after<'a>(text: &'a str, beginning: &str) -> Option<&'a str>
    ensures { MatchOption result ((rest : List ℕ) → text.now ≢ beginning.now ++ rest) (λ rest. text.now ≡ beginning.now ++ rest.now) }
{
    text.strip_prefix(beginning)
}
