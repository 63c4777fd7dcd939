//! A text that is gathered, and put in long pieces.
ghost use Rattle.std.specs.Prelude.{◌≡◌, [], OnOk};
ghost use Rattle.std.specs.List.{flat_map};
ghost use Rattle.outside_io.specs.Gathers.{Gathers};
ghost use Rattle.outside_io.specs.Puts.{Puts};

use crate::sink::{OutputFault, Sink};
use arrayvec::ArrayVec;
use std::marker::Model;

/// Up to 4,096 bytes of text that wait for the sink. A contract sees the list of these bytes.
#[derive(Drop)]
pub struct Gathered {
    text: ArrayVec<u8, 4096>,
}

impl Model for Gathered {
    ghost use Rattle.std.specs.Prelude.{ℕ, List};

    ghost Value = { List ℕ };

    ghost view = { λ gathered. gathered.text.items };
}

impl Gathered {
    /// A buffer with no text.
    pub fn new() -> Gathered
        ensures { result ≡ [] }
    {
        Gathered {
            text: ArrayVec::new(),
        }
    }

    /// Puts all that waits.
    pub fn put<O: Sink>(&mut self, out: &mut O) -> Result<(), OutputFault>
        ensures puts { Puts O.tells (O.state out.old) (O.state out.new) self.old result }
        ensures none { OnOk result (self.new ≡ []) }
    {
        out.put(self.text.as_slice())?;
        self.text.clear();
        Ok(())
    }

    /// Gathers pieces one after the other.
    pub fn add_all<O: Sink>(&mut self, out: &mut O, pieces: &[&[u8]]) -> Result<(), OutputFault>
        ensures { Gathers O.tells (O.state out.old) (O.state out.new) self.old self.new (flat_map (λ piece. piece.now) pieces.now) result }
    {
        for piece in pieces {
            self.add(out, piece)?;
        }
        Ok(())
    }

    /// Gathers a piece. If it has no room, what waits is put first.
    pub fn add<O: Sink>(&mut self, out: &mut O, piece: &[u8]) -> Result<(), OutputFault>
        ensures { Gathers O.tells (O.state out.old) (O.state out.new) self.old self.new piece.now result }
    {
        if self.text.try_extend_from_slice(piece).is_ok() {
            return Ok(());
        }
        self.put(out)?;
        self.add_first(out, piece)
    }

    /// Gathers a piece where none waits. One that is too long to wait is put at once.
    fn add_first<O: Sink>(&mut self, out: &mut O, piece: &[u8]) -> Result<(), OutputFault>
        requires { self.old ≡ [] }
        ensures { Gathers O.tells (O.state out.old) (O.state out.new) self.old self.new piece.now result }
    {
        if self.text.try_extend_from_slice(piece).is_ok() {
            return Ok(());
        }
        out.put(piece)
    }
}
