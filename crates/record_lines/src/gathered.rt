//! Runs of bytes in the order in which they came, in few blocks of memory.
ghost use Rattle.std.specs.Prelude.{◌≡◌, ◌<◌, [], ◌∷◌, ◌++◌, length, slice_get, Some, OnOk};
ghost use Rattle.std.specs.List.Sorted.{IsPermutation};

use byte_map::ByteMap;
use std::alloc::{AllocError, Global};
use std::marker::Model;

/// Where the bytes of one run are.
#[derive(Clone, Copy)]
struct Piece {
    /// The address of the first byte.
    at: u32,
    /// Where its bytes begin in the store, and how many there are.
    start: usize,
    len: usize,
}

/// Runs of bytes in the order in which they came. They may share addresses.
#[derive(Drop)]
pub struct Gathered {
    pieces: Vec<Piece>,
    bytes: Vec<u8>,
}

impl Model for Gathered {
    ghost use Rattle.std.specs.Prelude.{List, map};
    ghost use Rattle.std.specs.List.{All};
    ghost use Rattle.byte_map.specs.Image.{Run};
    ghost use Rattle.record_lines.specs.Gathered.{run_of, IsInside};

    ghost Value = { List Run };

    ghost view = { λ g. map (run_of g.bytes.items) g.pieces.items };

    ghost invariant = { λ g. All (IsInside g.bytes.items) g.pieces.items };
}

impl Gathered {
    /// An empty list of runs.
    pub fn new(alloc: Global) -> Gathered
        ensures { result ≡ [] }
    {
        Gathered {
            pieces: Vec::new(alloc),
            bytes: Vec::new(alloc),
        }
    }

    /// How many runs there are.
    pub fn len(&self) -> usize
        ensures { result ≡ length self.now }
    {
        self.pieces.len()
    }

    /// The address of a run's first byte, and the run's bytes.
    pub fn run(&self, index: usize) -> (u32, &[u8])
        requires { index < length self.now }
        ensures { slice_get self.now index ≡ Some (record { at = result.0; bytes = result.1.now }) }
    {
        let piece = self.pieces[index];
        (piece.at, &self.bytes[piece.start..piece.start + piece.len])
    }

    /// Appends a run.
    pub fn push(&mut self, at: u32, bytes: &[u8]) -> Result<(), AllocError>
        ensures { OnOk result (self.new ≡ self.old ++ record { at = at; bytes = bytes.now } ∷ []) }
    {
        let start = self.bytes.len();
        let len = bytes.len();
        self.bytes.extend_from_slice(bytes)?;
        self.pieces.push(Piece { at, start, len })?;
        Ok(())
    }

    /// Appends the runs of a map.
    pub fn push_runs(&mut self, map: &ByteMap) -> Result<(), AllocError>
        ensures { OnOk result (self.new ≡ self.old ++ map.now) }
    {
        for index in 0..map.runs() {
            let (at, bytes) = map.run(index);
            self.push(at, bytes)?;
        }
        Ok(())
    }

    /// Sorts the runs by address. If memory runs out, they are unchanged.
    pub fn sort(&mut self) -> Result<(), AllocError>
        ensures { IsPermutation self.old self.new }
    {
        self.pieces.sort_by_key(|piece| piece.at)
    }
}
