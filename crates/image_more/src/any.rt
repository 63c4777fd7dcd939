//! The image of a file of any form.
ghost use Rattle.std.specs.Prelude.{◌≡◌, IfOk, IfErr};
ghost use Rattle.image_more.specs.Any.{is_uf2, IsAnyImage, IsAnyFault};

use crate::fault::{AnyFault, Uf2Fault};
use crate::uf2::read_uf2;
use byte_map::ByteMap;
use image_set::{ImageFault, read_image};
use std::alloc::Global;

/// The first magic number of UF2 as bytes: `UF2` and a line feed.
const MAGIC: [u8; 4] = [b'U', b'F', b'2', b'\n'];

/// Reads an image file. If an address is given, the file's bytes are those of the image from there on. Otherwise its first bytes show its
/// form: UF2, ELF, Intel HEX or S-records. The first check that fails is answered.
pub fn read_any(alloc: Global, bytes: &[u8], raw_at: Option<u32>) -> Result<ByteMap, AnyFault>
    ensures ok { IfOk result (IsAnyImage raw_at bytes.now) }
    ensures err { IfErr result (IsAnyFault raw_at bytes.now) }
{
    if is_uf2(raw_at, bytes) {
        return match read_uf2(alloc, bytes) {
            Ok(map) => Ok(map),
            Err(Uf2Fault::OutOfMemory) => Err(AnyFault::OutOfMemory),
            Err(fault) => Err(AnyFault::Uf2(fault)),
        };
    }
    match read_image(alloc, bytes, raw_at) {
        Ok(map) => Ok(map),
        Err(ImageFault::OutOfMemory) => Err(AnyFault::OutOfMemory),
        Err(fault) => Err(AnyFault::Image(fault)),
    }
}

/// Whether a file is read as UF2: it begins with the magic number, and no address is given for raw bytes.
fn is_uf2(raw_at: Option<u32>, bytes: &[u8]) -> bool
    ensures { result ≡ is_uf2 raw_at bytes.now }
{
    raw_at.is_none() && bytes.starts_with(&MAGIC)
}
