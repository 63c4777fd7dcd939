//! The texts of the faults of a board's text.
ghost use Rattle.report_text.specs.Faults.{board_text};
ghost use Rattle.outside_io.specs.Puts.{Puts};

use crate::pieces::put_pieces;
use board_file::BoardFault;
use outside_io::{OutputFault, Sink};

/// Puts the text of a fault of a board's text.
#[tactic(auto, unfolding(crate::specs::Faults::board_text))]
pub fn put_board_fault<E: Sink>(err: &mut E, fault: BoardFault) -> Result<(), OutputFault>
    ensures { Puts E.tells (E.state err.old) (E.state err.new) (board_text fault) result }
{
    match fault {
        BoardFault::OutOfMemory => put_pieces(err, &[b"OutOfMemory"]),
        BoardFault::NotToml => put_pieces(err, &[b"NotToml"]),
        BoardFault::Missing { key } => put_pieces(err, &[b"Missing ", key.text().as_bytes()]),
        BoardFault::BadValue { key } => put_pieces(err, &[b"BadValue ", key.text().as_bytes()]),
        BoardFault::Overlap { a, b } => put_pieces(
            err,
            &[b"Overlap ", a.text().as_bytes(), b" ", b.text().as_bytes()],
        ),
        BoardFault::TooBig { key } => put_pieces(err, &[b"TooBig ", key.text().as_bytes()]),
        BoardFault::ManyRegions => put_pieces(err, &[b"ManyRegions"]),
    }
}
