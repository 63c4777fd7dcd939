//! `resume` and `revert`, which continue the job in the file.
ghost use Rattle.std.specs.Prelude.{◌≡◌};
ghost use Rattle.job_file.specs.First.{SyncsFirst};
ghost use Rattle.command_files.specs.Inputs.{InputsCall, TakesNothing};
ghost use Rattle.command_files.specs.Call.{bench_call, sink_call, refused};
ghost use Rattle.command_files.specs.Shown.{answer_of};
ghost use Rattle.report_text.specs.Refusal.{store_fault};
ghost use Rattle.job_commands.specs.GoOn.{GoOnEnds};

use crate::carry::carry;
use bench_model::Bench;
use flash_session::Goal;
use outside_io::Sink;
use report_text::Refusal;
use std::alloc::Global;

/// Carries the job in the file to its image (`Goal::New`, `resume`), or back to its snapshot (`Goal::Old`, `revert`). No input is taken.
pub fn go_on<'a, B: Bench, O: Sink>(
    alloc: Global,
    goal: Goal,
    bench: &mut B,
    out: &mut O,
) -> Result<(), Refusal<'a>>
    ensures ends { (inputs : InputsCall) → TakesNothing inputs → GoOnEnds goal (bench_call B.tells (B.state bench.old) (B.state bench.new)) inputs
        (sink_call O.tells (O.state out.old) (O.state out.new)) (answer_of result) }

    // The file is synced before any other call on the bench.
    ensures first { SyncsFirst B.tells B.state B.acts bench.old bench.new (answer_of result ≡ refused store_fault) }
{
    carry(alloc, goal, bench, out)
}
