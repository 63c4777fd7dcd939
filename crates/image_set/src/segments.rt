//! The image of an ELF file.
ghost use Rattle.std.specs.Prelude.{◌≡◌, ◌+◌, ◌≤◌, ◌<◌, length, Some, Ok, IfOk, IfErr, OnOk};
ghost use Rattle.byte_map.specs.Laying.{Lays};
ghost use Rattle.elf32.specs.Format.{e_phnum};
ghost use Rattle.elf32.specs.Tables.{segment_part};
ghost use Rattle.image_set.specs.declared.form.Form.TheVariants as form;
ghost use Rattle.image_set.specs.Segments.{piece_at, size_before, IsSegmentFault};
ghost use Rattle.image_set.specs.Read.{IsImageOfForm, IsFaultOfForm};

use crate::fault::ImageFault;
use byte_map::ByteMap;
use elf32::{Elf, ElfFault, Segment};
use std::alloc::Global;

/// The most bytes that the loaded segments of a file may have in all: 64 MiB.
const MOST_BYTES: usize = 1 << 26;

/// Reads an ELF file. The image is the union of its loaded segments: the bytes of each in the file, from its physical address
/// on. Segments are added in the order of the file, and the first check that fails is answered. More than 64 MiB in all is
/// answered as out of memory.
pub fn read_elf(alloc: Global, bytes: &[u8]) -> Result<ByteMap, ImageFault>
    ensures ok { IfOk result (IsImageOfForm (Some form.Elf) bytes.now) }
    ensures size { IfOk result (λ _. size_before bytes.now (e_phnum bytes.now) ≤ 67108864) }
    ensures err { IfErr result (IsFaultOfForm (Some form.Elf) bytes.now) }
{
    let elf = match Elf::read(alloc, bytes) {
        Ok(elf) => elf,
        Err(ElfFault::OutOfMemory) => return Err(ImageFault::OutOfMemory),
        Err(fault) => return Err(ImageFault::Elf(fault)),
    };
    let mut map = ByteMap::new(alloc);
    let mut room = MOST_BYTES;
    for index in 0..elf.segments() {
        if elf.segment(index).kind == Segment::LOAD {
            lay_segment(&mut map, &elf, index, &mut room)?;
        }
    }
    Ok(map)
}

/// Adds the bytes of one segment to an image. There must be at most `room` of them, and `room` is reduced by their number.
fn lay_segment(
    map: &mut ByteMap,
    elf: &Elf,
    index: usize,
    room: &mut usize,
) -> Result<(), ImageFault>
    requires { index < e_phnum elf.now }
    ensures size { OnOk result (room.new + length (piece_at elf.now index).bytes ≡ room.old) }
    ensures whole { OnOk result (segment_part elf.now index ≡ Ok (piece_at elf.now index).bytes) }
    ensures ok { OnOk result (Lays (piece_at elf.now index) map.old map.new) }
    ensures err { IfErr result (IsSegmentFault elf.now index map.old) }
{
    let at = elf.segment(index).paddr;
    let bytes = match elf.segment_bytes(index) {
        Ok(bytes) => bytes,
        Err(fault) => return Err(ImageFault::Elf(fault)),
    };
    if bytes.len() > *room {
        return Err(ImageFault::OutOfMemory);
    }
    map.lay(at, bytes)?;
    *room -= bytes.len();
    Ok(())
}
