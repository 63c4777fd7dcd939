//! The line that names a region.
ghost use Rattle.report_text.specs.Region.{region_text};
ghost use Rattle.outside_io.specs.Puts.{Puts};

use crate::pieces::put_pieces;
use octets::hex_digits;
use outside_io::{OutputFault, Sink};

/// Puts the line of the region whose first byte has the address `base`. A fault may leave a beginning of it.
#[tactic(auto, unfolding(crate::specs::Region::region_text))]
pub fn put_region<O: Sink>(out: &mut O, base: u32) -> Result<(), OutputFault>
    ensures { Puts O.tells (O.state out.old) (O.state out.new) (region_text base) result }
{
    let base = hex_digits::<8>(base);
    put_pieces(out, &[b"region ", &base, b"\n"])
}
