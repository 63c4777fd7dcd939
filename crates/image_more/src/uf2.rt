//! Images as UF2 files.
ghost use Rattle.std.specs.Prelude.{IfOk, IfErr};
ghost use Rattle.image_more.specs.Uf2.{IsUf2Image, IsUf2Fault};

use crate::block::lay_block;
use crate::fault::Uf2Fault;
use byte_map::ByteMap;
use std::alloc::Global;

/// How many bytes a block has.
const BLOCK: usize = 512;

/// Reads a UF2 file. The image is the union of its blocks for main flash, each with its payload at its address. The first check that fails
/// is answered. First comes the file's length. Then, block by block, come the magic numbers, the size of the payload, whether it goes
/// past 0xFFFF_FFFF, and whether an earlier block has another byte at one of its addresses. If bit 0 of its flags says that a block
/// isn't for main flash, only the magic numbers and the size are checked. (Microsoft, "USB Flashing Format (UF2)".)
#[tactic(auto, using(crate::proofs::Uf2Lemmas::no_block, crate::proofs::Uf2Lemmas::block_refused))]
pub fn read_uf2(alloc: Global, bytes: &[u8]) -> Result<ByteMap, Uf2Fault>
    ensures ok { IfOk result (IsUf2Image bytes.now) }
    ensures err { IfErr result (IsUf2Fault bytes.now) }
{
    if bytes.is_empty() || bytes.len() % BLOCK != 0 {
        return Err(Uf2Fault::BadLength {
            len: bytes.len() as u64,
        });
    }
    let mut map = ByteMap::new(alloc);
    for index in 0..bytes.len() / BLOCK {
        let block = &bytes[BLOCK * index..BLOCK * index + BLOCK];
        lay_block(&mut map, block, index as u64 + 1)?;
    }
    Ok(map)
}
