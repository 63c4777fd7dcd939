//! Steps of reading a file from left to right, each taking something from the front, and the steps that write it.
ghost use Rattle.std.specs.Prelude.{◌≡◌, ◌≤◌, ◌+◌, ◌++◌, length, IfOk, OnOk};
ghost use Rattle.job_text.specs.Body.{field};
ghost use Rattle.job_text.specs.Reading.{number_at, text_at, mark_at};
ghost use Rattle.job_text.specs.Shown.{Gives};

use crate::fault::JobFault;
use byteorder::{ByteOrder, LittleEndian};
use octets::le32;
use std::alloc::AllocError;

/// What a body of the first format begins with: `FLMJOB1`.
pub const FIRST_MARK: [u8; 7] = [70, 76, 77, 74, 79, 66, 49];

/// What a body of the second format begins with: `FLMJOB2`.
pub const SECOND_MARK: [u8; 7] = [70, 76, 77, 74, 79, 66, 50];

/// Takes a field. If the bytes end too early, it answers `whole`, the file's length.
pub fn take_number(whole: u64, bytes: &[u8]) -> Result<(u32, &[u8]), JobFault>
    ensures gives { Gives (λ x. (x.0, x.1.now)) result (number_at whole bytes.now) }
    ensures shorter { IfOk result (λ x. length x.1.now ≤ length bytes.now) }
    ensures taken { IfOk result (λ x. length bytes.now ≤ length x.1.now + 4) }
{
    if bytes.len() < 4 {
        return Err(JobFault::NotAJob { at: whole });
    }
    Ok((le32(bytes, 0), &bytes[4..]))
}

/// Takes `len` bytes.
pub fn take_text(whole: u64, len: u32, bytes: &[u8]) -> Result<(&[u8], &[u8]), JobFault>
    ensures gives { Gives (λ x. (x.0.now, x.1.now)) result (text_at whole len bytes.now) }
    ensures shorter { IfOk result (λ x. length x.1.now ≤ length bytes.now) }
    ensures taken { IfOk result (λ x. length bytes.now ≤ length x.1.now + len) }
{
    let len = len as usize;
    if bytes.len() < len {
        return Err(JobFault::NotAJob { at: whole });
    }
    Ok(bytes.split_at(len))
}

/// Takes the mark of the first format.
pub fn take_mark(bytes: &[u8]) -> Result<&[u8], JobFault>
    requires { 7 ≤ length bytes.now }
    ensures gives { Gives (λ x. x.now) result (mark_at bytes.now) }
    ensures taken { IfOk result (λ x. length bytes.now ≤ length x.now + 7) }
{
    if bytes.starts_with(&FIRST_MARK) {
        Ok(&bytes[7..])
    } else {
        Err(JobFault::NotAJob { at: 1 })
    }
}

/// Appends a field.
pub fn put_number(out: &mut Vec<u8>, number: u32) -> Result<(), AllocError>
    ensures { OnOk result (out.new.items ≡ out.old.items ++ field number) }
{
    let mut bytes = [0; 4];
    LittleEndian::write_u32(&mut bytes, number);
    out.extend_from_slice(&bytes)
}
