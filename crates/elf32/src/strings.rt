//! String tables (System V ABI, "String Table").
ghost use Rattle.std.specs.Prelude.{◌≡◌, ◌<◌, ◌≤◌, ◌^◌, length, Some, None, MatchOption, IfOk, IfErr, OnOk, IsSome};
ghost use Rattle.std.specs.List.{before_first, position, position_or_len};
ghost use Rattle.elf32.specs.Strings.{is_zero, string_at, is_name, EndsAt, IsWithin};

use crate::fault::ElfFault;
use std::marker::Model;

/// A string table, with the place after its last zero byte, so that the end of no string is searched for twice.
#[derive(Drop)]
pub struct Strings<'a> {
    bytes: &'a [u8],
    ended: usize,
}

impl<'a> Model for Strings<'a> {
    ghost use Rattle.std.specs.Prelude.{ℕ, List};
    ghost use Rattle.elf32.specs.Strings.{EndsAt};

    ghost Value = { List ℕ };

    ghost view = { λ s. s.bytes.now };

    ghost invariant = { λ s. EndsAt s.bytes.now s.ended };
}

impl<'a> Strings<'a> {
    /// The table of these bytes.
    pub fn new(bytes: &'a [u8]) -> Strings<'a>
        ensures { result ≡ bytes.entry.now }
    {
        Strings {
            bytes,
            ended: last_end(bytes),
        }
    }

    /// The string at `at`, or none if it is longer than `limit` bytes. It is refused if it begins
    /// outside the table or has no end in it.
    pub fn name(&self, at: u32, limit: usize) -> Result<Option<&'a [u8]>, ElfFault>
        requires { limit < 2 ^ 63 }
        ensures bad { IfErr result (λ fault. (fault ≡ ElfFault.BadName at) × (string_at self.now at ≡ None)) }
        ensures within { IfOk result (IsWithin limit (string_at self.now at)) }
    {
        if at as usize >= self.ended {
            return Err(ElfFault::BadName { offset: at });
        }
        Ok(string(&self.bytes[at as usize..], limit))
    }

    /// Whether the string at `at` is `name`. It is refused if it begins outside the table or has no end in it.
    pub fn is(&self, at: u32, name: &[u8]) -> Result<bool, ElfFault>
        ensures bad { IfErr result (λ fault. (fault ≡ ElfFault.BadName at) × (string_at self.now at ≡ None)) }
        ensures good { OnOk result (IsSome (string_at self.now at)) }
        ensures value { IfOk result (λ same. same ≡ is_name name.now (string_at self.now at)) }
    {
        let found = self.name(at, name.len())?;
        Ok(match found {
            Some(text) => text == name,
            None => false,
        })
    }
}

/// The place after the last zero byte of a table, or 0 if it has none.
fn last_end(table: &[u8]) -> usize
    ensures { EndsAt table.now result }
{
    let mut ended = table.len();
    while ended > 0 && table[ended - 1] != 0 {
        ended -= 1;
    }
    ended
}

/// The bytes before the first zero byte, or none if there are more than `limit`. There must be a zero byte.
fn string(rest: &[u8], limit: usize) -> Option<&[u8]>
    requires limit { limit < 2 ^ 63 }
    requires ends { position_or_len is_zero rest.now < length rest.now }
    ensures { MatchOption result (limit < position_or_len is_zero rest.now)
        (λ text. (text.now ≡ before_first is_zero rest.now) × (position_or_len is_zero rest.now ≤ limit)) }
{
    let window = &rest[..rest.len().min(limit + 1)];
    let len = zero_place(window)?;
    Some(&window[..len])
}

/// The place of the first zero byte.
fn zero_place(bytes: &[u8]) -> Option<usize>
    ensures { result ≡ position is_zero bytes.now }
{
    bytes.iter().position(|byte| *byte == 0)
}
