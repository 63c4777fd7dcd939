//! Appending bytes and little-endian fields.
ghost use Rattle.std.specs.Prelude.{◌≡◌, ◌<◌, ◌^◌, ◌++◌, All, OnOk};
ghost use Rattle.flm_forge.specs.Fields.{half_bytes, halves_bytes, word_bytes, words_bytes};

use byteorder::{LittleEndian, WriteBytesExt};
use faults::OutOfMemory;

/// Adds bytes.
pub fn put(out: &mut Vec<u8>, bytes: &[u8]) -> Result<(), OutOfMemory>
    ensures { OnOk result (out.new.items ≡ out.old.items ++ bytes.now) }
{
    Ok(out.extend_from_slice(bytes)?)
}

/// Adds a 16-bit field.
fn put_half(out: &mut Vec<u8>, number: u16) -> Result<(), OutOfMemory>
    ensures { OnOk result (out.new.items ≡ out.old.items ++ half_bytes number) }
{
    match out.write_u16::<LittleEndian>(number) {
        Ok(()) => Ok(()),
        Err(_) => Err(OutOfMemory),
    }
}

/// Adds a 32-bit field.
fn put_word(out: &mut Vec<u8>, number: u32) -> Result<(), OutOfMemory>
    ensures { OnOk result (out.new.items ≡ out.old.items ++ word_bytes number) }
{
    match out.write_u32::<LittleEndian>(number) {
        Ok(()) => Ok(()),
        Err(_) => Err(OutOfMemory),
    }
}

/// Adds 16-bit fields.
pub fn put_halves(out: &mut Vec<u8>, numbers: &[u16]) -> Result<(), OutOfMemory>
    ensures { OnOk result (out.new.items ≡ out.old.items ++ halves_bytes numbers.now) }
{
    for number in numbers {
        put_half(out, *number)?;
    }
    Ok(())
}

/// Adds 32-bit fields.
pub fn put_words(out: &mut Vec<u8>, numbers: &[u32]) -> Result<(), OutOfMemory>
    ensures bytes { OnOk result (out.new.items ≡ out.old.items ++ words_bytes numbers.now) }
    ensures fit { OnOk result (All (λ number. number < 2 ^ 32) numbers.now) }
{
    for number in numbers {
        put_word(out, *number)?;
    }
    Ok(())
}
