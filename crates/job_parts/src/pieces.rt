//! Texts in pieces.
ghost use Rattle.std.specs.List.{flat_map};
ghost use Rattle.outside_io.specs.Puts.{Puts};

use outside_io::{OutputFault, Sink, put_all};

/// Puts pieces one after the other.
pub fn put_pieces<O: Sink>(out: &mut O, pieces: &[&[u8]]) -> Result<(), OutputFault>
    ensures { Puts O.tells (O.state out.old) (O.state out.new) (flat_map (λ piece. piece.now) pieces.now) result }
{
    put_all(out, pieces)
}
