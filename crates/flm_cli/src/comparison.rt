//! The end of a comparison of the cells.
ghost use Rattle.std.specs.Prelude.{◌<◌, ◌+◌, ◌^◌};
ghost use Rattle.std.specs.Option.{ForSome};
ghost use Rattle.std.specs.Result.{ForOk};
ghost use Rattle.command_files.specs.Call.{sink_call};
ghost use Rattle.command_files.specs.Shown.{answer_of};
ghost use Rattle.flm_cli.specs.Steps.{TellsFound};

use bench_model::DeviceFault;
use outside_io::Sink;
use readback::Difference;
use report_text::{End, Refusal, put_end};

/// How many cells are read at a time.
pub const WINDOW: usize = 16_384;

/// Ends a comparison of the cells, where the first cell has the address `base`. It prints `same` if no cell differs; else it answers the
/// difference with its address.
pub fn tell_found<'a, O: Sink>(
    base: u32,
    found: Result<Option<Difference>, DeviceFault>,
    out: &mut O,
) -> Result<(), Refusal<'a>>
    requires { ForOk found (λ difference. ForSome difference (λ d. base + d.at < 2 ^ 32)) }
    ensures { TellsFound base found (sink_call O.tells (O.state out.old) (O.state out.new)) (answer_of result) }
{
    match found? {
        Some(Difference { at, want, got }) => Err(Refusal::Differs {
            at: base + at,
            wanted: want,
            found: got,
        }),
        None => {
            put_end(out, End::Same)?;
            Ok(())
        }
    }
}
