//! `inspect FLM`: prints what an FLM file says about its algorithm.
ghost use Rattle.command_files.specs.Inputs.{inputs_call};
ghost use Rattle.command_files.specs.Call.{bench_call, sink_call};
ghost use Rattle.flm_cli.specs.Inspect.{InspectEnds};
ghost use Rattle.command_files.specs.Shown.{answer_of};

use bench_model::Bench;
use command_files::take_one;
use flm_descriptor::read_flm;
use octets::Word;
use outside_io::{Inputs, Sink};
use report_text::{Refusal, put_inspection};
use std::alloc::Global;

/// Prints an FLM file's description of its algorithm. The bench isn't called.
pub fn inspect<'a, B: Bench, I: Inputs, O: Sink>(
    alloc: Global,
    flm: &'a Word,
    bench: &mut B,
    inputs: &mut I,
    out: &mut O,
) -> Result<(), Refusal<'a>>
    requires { I.may_take inputs.old flm.now }
    ensures { InspectEnds flm.now (bench_call B.tells (B.state bench.old) (B.state bench.new))
        (inputs_call I.tells (I.state inputs.old) (I.state inputs.new)) (sink_call O.tells (O.state out.old) (O.state out.new)) (answer_of result) }
{
    let file = take_one(alloc, flm, inputs)?;
    let algorithm = read_flm(alloc, file.bytes())?;
    put_inspection(out, &algorithm)?;
    Ok(())
}
