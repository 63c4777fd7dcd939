//! The line of an end.
ghost use Rattle.report_text.specs.End.{end_text};
ghost use Rattle.outside_io.specs.Puts.{Puts};

use crate::pieces::put_pieces;
use outside_io::{OutputFault, Sink};

/// How a call ends that did what was asked.
#[derive(Clone, Copy)]
pub enum End {
    /// A job was closed.
    Done,

    /// A job was begun.
    Begun,

    /// The cells are the bytes that they were compared with.
    Same,
}

/// Puts the line of an end. A fault may leave a beginning of it.
pub fn put_end<O: Sink>(out: &mut O, end: End) -> Result<(), OutputFault>
    ensures { Puts O.tells (O.state out.old) (O.state out.new) (end_text end) result }
{
    match end {
        End::Done => put_pieces(out, &[b"done\n"]),
        End::Begun => put_pieces(out, &[b"begun\n"]),
        End::Same => put_pieces(out, &[b"same\n"]),
    }
}
