//! Loads and stores of bytes at the addresses from a base on, little-endian. An access is done only if all its bytes are there.
#![tactic(auto, using(std::proofs::lemmas::Bool::Decides::nat_tests))]

ghost use Rattle.std.specs.Prelude.{◌≡◌, ◌≤◌, ◌<◌, ◌+◌, ◌^◌, true, false, Some, None, IfSome, if◌then◌else◌};
ghost use Rattle.armv6m_step.specs.Ram.{ram_at, place_of, loaded_from, stored_in};

/// The index of the first byte of an access to `len` bytes that begin at a base, if the access is within them.
fn place(base: u32, len: usize, at: u32, width: u32) -> Option<usize>
    requires { width ≤ 4 }
    ensures value { result ≡ place_of base len at width }
    ensures bound { IfSome result (λ i. i + width ≤ len) }
{
    if at < base {
        return None;
    }
    let i = (at - base) as usize;
    if i + width as usize > len {
        return None;
    }
    Some(i)
}

/// The byte at an address, or `None` if it isn't among the bytes from the base on.
pub fn load8(base: u32, bytes: &[u8], at: u32) -> Option<u32>
    ensures value { result ≡ loaded_from (ram_at base bytes.now) 1 at }
    ensures fits { IfSome result (λ v. v < 2 ^ 8) }
{
    let i = place(base, bytes.len(), at, 1)?;
    Some(u32::from(bytes[i]))
}

/// The halfword at an address, or `None` if one of its two bytes isn't there.
pub fn load16(base: u32, bytes: &[u8], at: u32) -> Option<u32>
    ensures value { result ≡ loaded_from (ram_at base bytes.now) 2 at }
    ensures fits { IfSome result (λ v. v < 2 ^ 16) }
{
    let i = place(base, bytes.len(), at, 2)?;
    Some(u32::from(bytes[i]) + 0x100 * u32::from(bytes[i + 1]))
}

/// The word at an address, or `None` if one of its four bytes isn't there.
pub fn load32(base: u32, bytes: &[u8], at: u32) -> Option<u32>
    ensures { result ≡ loaded_from (ram_at base bytes.now) 4 at }
{
    let i = place(base, bytes.len(), at, 4)?;
    Some(
        u32::from(bytes[i])
            + 0x100 * u32::from(bytes[i + 1])
            + 0x1_0000 * u32::from(bytes[i + 2])
            + 0x100_0000 * u32::from(bytes[i + 3]),
    )
}

/// Stores a byte, and answers whether it is among the bytes from the base on. If not, nothing changes.
pub fn store8(base: u32, bytes: &mut [u8], at: u32, value: u32) -> bool
    requires { value < 2 ^ 8 }
    ensures stored { stored_in (ram_at base bytes.old) 1 at value ≡ (if result then Some bytes.new else None) }
    ensures kept { result ≡ false → bytes.new ≡ bytes.old }
{
    let Some(i) = place(base, bytes.len(), at, 1) else {
        return false;
    };
    bytes[i] = value as u8;
    true
}

/// Stores a halfword, and answers whether both its bytes are there. If not, nothing changes.
pub fn store16(base: u32, bytes: &mut [u8], at: u32, value: u32) -> bool
    requires { value < 2 ^ 16 }
    ensures stored { stored_in (ram_at base bytes.old) 2 at value ≡ (if result then Some bytes.new else None) }
    ensures kept { result ≡ false → bytes.new ≡ bytes.old }
{
    let Some(i) = place(base, bytes.len(), at, 2) else {
        return false;
    };
    bytes[i] = (value % 0x100) as u8;
    bytes[i + 1] = (value / 0x100) as u8;
    true
}

/// Stores a word, and answers whether all its four bytes are there. If not, nothing changes.
pub fn store32(base: u32, bytes: &mut [u8], at: u32, value: u32) -> bool
    ensures stored { stored_in (ram_at base bytes.old) 4 at value ≡ (if result then Some bytes.new else None) }
    ensures kept { result ≡ false → bytes.new ≡ bytes.old }
{
    let Some(i) = place(base, bytes.len(), at, 4) else {
        return false;
    };
    bytes[i] = (value % 0x100) as u8;
    bytes[i + 1] = (value / 0x100 % 0x100) as u8;
    bytes[i + 2] = (value / 0x1_0000 % 0x100) as u8;
    bytes[i + 3] = (value / 0x100_0000) as u8;
    true
}
