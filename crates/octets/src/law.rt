//! The law on fields: a field is a number, and its bytes are that number's, the low one first.
ghost use Rattle.std.specs.Prelude.{◌≡◌, ◌≤◌, ◌<◌, ◌+◌, ◌^◌, ◌++◌, ℕ, List, All, length, take, drop};
ghost use Rattle.std.specs.Int.{w16, w32, to_le_bytes};
ghost use Rattle.octets.specs.Field.{field16, field32};

/// The bytes of a field are those of its number. Where the bytes of a number are, the field is that number.
pub fn fields_are_their_bytes()
    ensures bytes_of_16 { (bytes : List ℕ) (at : ℕ) → All (λ byte. byte < 256) bytes → at + 2 ≤ length bytes
        → to_le_bytes w16 (field16 bytes at) ≡ take 2 (drop at bytes) }
    ensures bytes_of_32 { (bytes : List ℕ) (at : ℕ) → All (λ byte. byte < 256) bytes → at + 4 ≤ length bytes
        → to_le_bytes w32 (field32 bytes at) ≡ take 4 (drop at bytes) }
    ensures field_of_16 { (front rest : List ℕ) (n : ℕ) → n < 2 ^ 16 → field16 (front ++ to_le_bytes w16 n ++ rest) (length front) ≡ n }
    ensures field_of_32 { (front rest : List ℕ) (n : ℕ) → n < 2 ^ 32 → field32 (front ++ to_le_bytes w32 n ++ rest) (length front) ≡ n }
{}
