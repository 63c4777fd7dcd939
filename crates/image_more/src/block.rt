//! One block of a UF2 file.
ghost use Rattle.std.specs.Prelude.{◌≡◌, ◌++◌, List, length, OnOk, IfErr};
ghost use Rattle.byte_map.specs.Image.{Run};
ghost use Rattle.record_lines.specs.Gathered.{IsUnionOf};
ghost use Rattle.image_more.specs.Uf2.{has_magic, is_skipped, runs_of, IsRight, IsBlockFault};

use crate::fault::Uf2Fault;
use byte_map::ByteMap;
use octets::le32;

/// The three magic numbers: at the places 0, 4 and 508.
const FIRST: u32 = 0x0A32_4655;

const SECOND: u32 = 0x9E5D_5157;

const LAST: u32 = 0x0AB1_6F30;

/// The most bytes that a payload has.
const MOST: u32 = 476;

/// Adds the payload of a block to an image. A block that isn't for main flash is checked by itself and adds nothing.
pub fn lay_block(map: &mut ByteMap, block: &[u8], number: u64) -> Result<(), Uf2Fault>
    requires { length block.now ≡ 512 }
    ensures right { OnOk result (IsRight block.now) }
    ensures union { OnOk result ((runs : List Run) → IsUnionOf runs map.old → IsUnionOf (runs ++ runs_of block.now) map.new) }
    ensures err { IfErr result (IsBlockFault number block.now map.old) }
{
    if !has_magic(block) {
        return Err(Uf2Fault::BadMagic { block: number });
    }
    let size = le32(block, 16);
    if size > MOST {
        return Err(Uf2Fault::BadSize {
            block: number,
            size,
        });
    }
    if is_skipped(block) {
        return Ok(());
    }
    map.lay(le32(block, 12), &block[32..32 + size as usize])?;
    Ok(())
}

/// Whether a block has the three magic numbers.
fn has_magic(block: &[u8]) -> bool
    requires { length block.now ≡ 512 }
    ensures { result ≡ has_magic block.now }
{
    le32(block, 0) == FIRST && le32(block, 4) == SECOND && le32(block, 508) == LAST
}

/// Whether a block isn't for main flash.
fn is_skipped(block: &[u8]) -> bool
    requires { length block.now ≡ 512 }
    ensures { result ≡ is_skipped block.now }
{
    le32(block, 8) % 2 == 1
}
