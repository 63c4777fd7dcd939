//! The body of a job as it is written, in the second format.
ghost use Rattle.std.specs.Prelude.{◌≡◌, ◌<◌, ◌^◌, ◌++◌, length, option_copied, IfOk, OnOk};
ghost use Rattle.job_text.specs.Body.{field, flm_len};
ghost use Rattle.job_text.specs.Parts.{AreParts, files_with, flms_of, lengths_of, head_of_parts};

use crate::fields::{SECOND_MARK, put_number};
use byte_map::ByteMap;
use byteorder::{ByteOrder, LittleEndian};
use faults::OutOfMemory;
use std::alloc::{AllocError, Global};

/// The length of a body up to its lengths: the mark and the hash.
const HASH_END: usize = 39;

/// All of a job but its snapshot: the text of its board, an FLM file for each region, its image, and the number of cells.
#[derive(Clone, Copy)]
pub struct JobParts<'a> {
    pub board: &'a [u8],
    pub flm: &'a [u8],
    pub second: Option<&'a [u8]>,
    pub image: &'a ByteMap,
    pub size: u32,
}

/// Appends three numbers.
fn put_three(out: &mut Vec<u8>, first: u32, second: u32, third: u32) -> Result<(), AllocError>
    ensures { OnOk result (out.new.items ≡ out.old.items ++ field first ++ field second ++ field third) }
{
    put_number(out, first)?;
    put_number(out, second)?;
    put_number(out, third)
}

/// Appends the number of FLM files, and the length of the first and of the second, or 0.
fn put_file_lengths(
    out: &mut Vec<u8>,
    first: &[u8],
    second: Option<&[u8]>,
) -> Result<(), AllocError>
    requires first { length first.now < 2 ^ 32 }
    requires second { flm_len (files_with first.now (option_copied second)) 1 < 2 ^ 32 }
    ensures { OnOk result (out.new.items ≡ out.old.items ++ field (length (files_with first.now (option_copied second.entry)))
        ++ field (flm_len (files_with first.now (option_copied second.entry)) 0) ++ field (flm_len (files_with first.now (option_copied second.entry)) 1)) }
{
    match second {
        None => put_three(out, 1, first.len() as u32, 0),
        Some(second) => put_three(out, 2, first.len() as u32, second.len() as u32),
    }
}

/// Appends the six lengths that follow the hash.
fn put_lengths(out: &mut Vec<u8>, parts: &JobParts) -> Result<(), AllocError>
    requires board { length parts.now.board.now < 2 ^ 32 }
    requires first { length parts.now.flm.now < 2 ^ 32 }
    requires second { flm_len (flms_of parts.now) 1 < 2 ^ 32 }
    requires image { length parts.now.image.now < 2 ^ 32 }
    ensures { OnOk result (out.new.items ≡ out.old.items ++ lengths_of parts.now) }
{
    put_number(out, parts.board.len() as u32)?;
    put_file_lengths(out, parts.flm, parts.second)?;
    put_number(out, parts.image.runs() as u32)?;
    put_number(out, parts.size)
}

/// The 63 bytes before the board's text: the mark, zeros in the place of the hash, and the six lengths.
pub fn head_text(alloc: Global, parts: &JobParts) -> Result<Vec<u8>, OutOfMemory>
    requires { AreParts parts.now }
    ensures { IfOk result (λ v. v.items ≡ head_of_parts parts.now) }
{
    let mut out = Vec::new(alloc);
    out.extend_from_slice(&SECOND_MARK)?;
    out.resize(HASH_END, 0)?;
    put_lengths(&mut out, parts)?;
    Ok(out)
}

/// The eight bytes before those of a run: its address and its length.
pub fn run_head(at: u32, len: u32) -> [u8; 8]
    ensures { result ≡ field at ++ field len }
{
    let mut out = [0; 8];
    LittleEndian::write_u32(&mut out[..4], at);
    LittleEndian::write_u32(&mut out[4..], len);
    out
}
