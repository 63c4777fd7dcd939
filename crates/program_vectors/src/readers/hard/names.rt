//! The names of a file's sections.

use std::alloc::{AllocError, Global};

/// The length of a random name and of a colliding one.
const NAME_LEN: u32 = 44;

/// The length of a long string.
const LONG: u32 = 1 << 20;

/// The number of blocks with which a colliding name begins, and the length of a block.
const BLOCKS: usize = 5;

const BLOCK_LEN: usize = 8;

/// The bytes with which a colliding name ends.
const TAIL_LEN: usize = 4;

/// The kind of names that the sections have.
#[derive(Clone, Copy)]
pub enum Names {
    /// Names of 44 random bytes each.
    Random,
    /// Names of 44 bytes each, which std's `FoldHasher` takes to one place of a map. A name has five blocks of eight bytes and a tail of
    /// four. Each block is one of a pair that leaves the hash in the same state. A table has the pairs, and then the tails.
    Colliding,
    /// One string of a mebibyte for all sections.
    One,
    /// Strings that begin at each byte of a mebibyte and end with it.
    Overlapping,
}

/// A string table, where in it the name of each section begins, and the name that is sought.
#[derive(Drop)]
pub struct Table {
    pub strings: Vec<u8>,
    pub starts: Vec<u32>,
    pub sought: Vec<u8>,
}

impl Names {
    /// The names that a word asks for.
    pub fn named(word: &str) -> Option<Names> {
        match word {
            "random" => Some(Names::Random),
            "colliding" => Some(Names::Colliding),
            "one" => Some(Names::One),
            "overlapping" => Some(Names::Overlapping),
            _ => None,
        }
    }

    /// A table with names for `sections` sections.
    pub fn table(
        self,
        alloc: Global,
        sections: u32,
        colliding: &[u8],
    ) -> Result<Table, AllocError> {
        match self {
            Names::Random => random(alloc, sections),
            Names::Colliding => colliding_names(alloc, sections, colliding),
            Names::One => long(alloc, sections, 0),
            Names::Overlapping => long(alloc, sections, 1),
        }
    }
}

/// Names of random bytes, none of them zero.
fn random(alloc: Global, sections: u32) -> Result<Table, AllocError> {
    let mut strings = Vec::new(alloc);
    let mut state: u64 = 0x243F_6A88_85A3_08D3;
    for _name in 0..sections {
        for _byte in 0..NAME_LEN {
            state = state.wrapping_mul(0x5851_F42D_4C95_7F2D).wrapping_add(1);
            strings.push((state >> 56) as u8 | 1)?;
        }
        strings.push(0)?;
    }
    with_starts(alloc, strings, sections)
}

/// Names that collide.
fn colliding_names(alloc: Global, sections: u32, table: &[u8]) -> Result<Table, AllocError> {
    let mut strings = Vec::new(alloc);
    for number in 0..sections as usize {
        for block in 0..BLOCKS {
            let which = 2 * block + (number >> block) % 2;
            strings.extend_from_slice(piece(table, which * BLOCK_LEN, BLOCK_LEN))?;
        }
        let tail = 2 * BLOCKS * BLOCK_LEN + (number >> BLOCKS) * TAIL_LEN;
        strings.extend_from_slice(piece(table, tail, TAIL_LEN))?;
        strings.push(0)?;
    }
    with_starts(alloc, strings, sections)
}

/// The piece of a table, as far as the table goes.
fn piece(table: &[u8], start: usize, len: usize) -> &[u8] {
    table.get(start..).unwrap_or(&[]).get(..len).unwrap_or(&[])
}

/// The table of names of one length. The last name is the one that is sought.
fn with_starts(alloc: Global, strings: Vec<u8>, sections: u32) -> Result<Table, AllocError> {
    let mut starts = Vec::new(alloc);
    for number in 0..sections.min(0xFFFF) {
        starts.push(number * (NAME_LEN + 1))?;
    }
    let sought = match strings.rchunks(NAME_LEN as usize + 1).next() {
        Some([name @ .., _end]) => name.to_vec(alloc)?,
        _ => Vec::new(alloc),
    };
    Ok(Table {
        strings,
        starts,
        sought,
    })
}

/// The table of one long string. The name of section `k` begins at byte `k * step`. Another name is sought.
fn long(alloc: Global, sections: u32, step: u32) -> Result<Table, AllocError> {
    let mut strings = Vec::new(alloc);
    for _byte in 0..LONG {
        strings.push(b'a')?;
    }
    strings.push(0)?;
    let mut starts = Vec::new(alloc);
    for number in 0..sections.min(0xFFFF) {
        starts.push(number * step.min(1))?;
    }
    Ok(Table {
        strings,
        starts,
        sought: b"PrgCode".to_vec(alloc)?,
    })
}
