//! The line of one of many targets.
ghost use Rattle.std.specs.Prelude.{option_copied, option_map};
ghost use Rattle.outside_io.specs.Puts.{Puts};
ghost use Rattle.report_text.specs.Target.{outcome_text, target_line};
ghost use Rattle.report_text.specs.Shown.{shown};

use crate::pieces::put_pieces;
use crate::refusal::{Refusal, put_reason};
use itoa::Buffer;
use outside_io::{OutputFault, Sink};

/// Puts the line of the target with this number, where the first has 1: that it is done, or why it isn't. A fault may leave a beginning
/// of it.
pub fn put_target<O: Sink>(
    out: &mut O,
    index: u32,
    refusal: Option<&Refusal<'_>>,
) -> Result<(), OutputFault>
    ensures { Puts O.tells (O.state out.old) (O.state out.new) (target_line index (option_map shown (option_copied refusal.entry))) result }
{
    let mut digits = Buffer::new();
    let number = digits.format(index).as_bytes();
    put_pieces(out, &[b"target ", number, b" "])?;
    put_outcome(out, refusal)
}

/// Puts that a target is done, or why it isn't, and the end of the line.
fn put_outcome<O: Sink>(out: &mut O, refusal: Option<&Refusal<'_>>) -> Result<(), OutputFault>
    ensures { Puts O.tells (O.state out.old) (O.state out.new) (outcome_text (option_map shown (option_copied refusal.entry))) result }
{
    match refusal {
        None => put_pieces(out, &[b"done\n"]),
        Some(refusal) => {
            put_reason(out, refusal)?;
            put_pieces(out, &[b"\n"])
        }
    }
}
