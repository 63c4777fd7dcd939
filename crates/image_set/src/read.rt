//! Reading an image file.
ghost use Rattle.std.specs.Prelude.{Some, IfOk, IfErr};
ghost use Rattle.image_set.specs.declared.form.Form.TheVariants as form;
ghost use Rattle.image_set.specs.Read.{IsImage, IsFault, IsImageOfForm, IsFaultOfForm};

use crate::fault::ImageFault;
use crate::form::{Form, form_of};
use crate::segments::read_elf;
use byte_map::ByteMap;
use image_hex::{HexFault, HexKind, read_hex};
use image_srec::{SrecFault, SrecKind, read_srec};
use std::alloc::Global;

/// Reads an image file. If an address is given, the file's bytes are those of the image from there on. Otherwise its first bytes
/// show its form: ELF, Intel HEX or S-records. The first check that fails is answered.
pub fn read_image(alloc: Global, bytes: &[u8], raw_at: Option<u32>) -> Result<ByteMap, ImageFault>
    ensures ok { IfOk result (IsImage raw_at bytes.now) }
    ensures err { IfErr result (IsFault raw_at bytes.now) }
{
    match form_of(raw_at, bytes) {
        Some(Form::Raw { at }) => read_raw(alloc, at, bytes),
        Some(Form::Elf) => read_elf(alloc, bytes),
        Some(Form::Hex) => read_hex_text(alloc, bytes),
        Some(Form::Srec) => read_srec_text(alloc, bytes),
        None => Err(ImageFault::NoForm),
    }
}

/// The image of raw bytes: one run.
fn read_raw(alloc: Global, at: u32, bytes: &[u8]) -> Result<ByteMap, ImageFault>
    ensures ok { IfOk result (IsImageOfForm (Some (form.Raw at)) bytes.now) }
    ensures err { IfErr result (IsFaultOfForm (Some (form.Raw at)) bytes.now) }
{
    let mut map = ByteMap::new(alloc);
    map.lay(at, bytes)?;
    Ok(map)
}

/// The image of a text of Intel HEX.
fn read_hex_text(alloc: Global, text: &[u8]) -> Result<ByteMap, ImageFault>
    ensures ok { IfOk result (IsImageOfForm (Some form.Hex) text.now) }
    ensures err { IfErr result (IsFaultOfForm (Some form.Hex) text.now) }
{
    match read_hex(alloc, text) {
        Ok(map) => Ok(map),
        Err(
            HexFault {
                kind: HexKind::OutOfMemory,
                ..
            },
        ) => Err(ImageFault::OutOfMemory),
        Err(fault) => Err(ImageFault::Hex(fault)),
    }
}

/// The image of a text of S-records.
fn read_srec_text(alloc: Global, text: &[u8]) -> Result<ByteMap, ImageFault>
    ensures ok { IfOk result (IsImageOfForm (Some form.Srec) text.now) }
    ensures err { IfErr result (IsFaultOfForm (Some form.Srec) text.now) }
{
    match read_srec(alloc, text) {
        Ok(map) => Ok(map),
        Err(
            SrecFault {
                kind: SrecKind::OutOfMemory,
                ..
            },
        ) => Err(ImageFault::OutOfMemory),
        Err(fault) => Err(ImageFault::Srec(fault)),
    }
}
