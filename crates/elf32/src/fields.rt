//! Little-endian fields.
ghost use Rattle.std.specs.Prelude.{◌≡◌, ◌≤◌, ◌+◌, length};
ghost use Rattle.elf32.specs.Fields.{half, word};

use byteorder::{ByteOrder, LittleEndian};

/// The 16-bit field at `at`.
#[tactic(auto, unfolding(crate::specs::Fields::half))]
pub fn half(bytes: &[u8], at: usize) -> u16
    requires { at + 2 ≤ length bytes.now }
    ensures { result ≡ half bytes.now at }
{
    LittleEndian::read_u16(&bytes[at..])
}

/// The 32-bit field at `at`.
#[tactic(auto, unfolding(crate::specs::Fields::word))]
pub fn word(bytes: &[u8], at: usize) -> u32
    requires { at + 4 ≤ length bytes.now }
    ensures { result ≡ word bytes.now at }
{
    LittleEndian::read_u32(&bytes[at..])
}
