//! The commands that begin a job from files: `program` carries it to its image, and `begin` only begins it.
ghost use Rattle.std.specs.Prelude.{◌≡◌, All, IsSome, option_copied};
ghost use Rattle.board_file.specs.Limits.{size_of};
ghost use Rattle.command_words.specs.Files.{names_in};
ghost use Rattle.command_words.specs.Requested.{files_of};
ghost use Rattle.command_files.specs.Inputs.{inputs_call};
ghost use Rattle.command_files.specs.Steps.{said_aim};
ghost use Rattle.command_files.specs.Call.{bench_call, sink_call};
ghost use Rattle.command_files.specs.Shown.{answer_of};
ghost use Rattle.job_commands.specs.Program.{ProgramEnds};
ghost use Rattle.job_commands.specs.Begin.{BeginEnds};

use crate::job_begin::{begin_alone, begin_job};
use bench_model::Bench;
use command_files::{TargetFiles, cells_of, read_target_files};
use command_words::FileNames;
use job_text::JobParts;
use octets::Bytes;
use outside_io::{Inputs, Sink};
use report_text::Refusal;
use std::alloc::Global;

/// `program [--raw-at ADDR] BOARD FLM... IMAGE...`: begins a job over a free file, for the union of images in the regions of the board,
/// and carries it to its end. The cells are then the image laid over their earlier contents.
pub fn program<'a, B: Bench, I: Inputs, O: Sink>(
    alloc: Global,
    names: &FileNames<'a>,
    bench: &mut B,
    inputs: &mut I,
    out: &mut O,
) -> Result<(), Refusal<'a>>
    requires has_flm { IsSome (files_of names.now).flm }
    requires may_take { All (I.may_take inputs.old) (names_in (files_of names.now)) }
    ensures { ProgramEnds (files_of names.now) (bench_call B.tells (B.state bench.old) (B.state bench.new))
        (inputs_call I.tells (I.state inputs.old) (I.state inputs.new)) (sink_call O.tells (O.state out.old) (O.state out.new)) (answer_of result) }
{
    let said = read_target_files(alloc, names, inputs)?;
    begin_job(alloc, &parts_of(&said), bench, out)
}

/// `begin [--raw-at ADDR] BOARD FLM... IMAGE...`: begins the job that `program` begins with these names, and prints `begun`. It calls no
/// algorithm, and changes no cell except in the range of an operation that was open.
pub fn begin<'a, B: Bench, I: Inputs, O: Sink>(
    alloc: Global,
    names: &FileNames<'a>,
    bench: &mut B,
    inputs: &mut I,
    out: &mut O,
) -> Result<(), Refusal<'a>>
    requires has_flm { IsSome (files_of names.now).flm }
    requires may_take { All (I.may_take inputs.old) (names_in (files_of names.now)) }
    ensures { BeginEnds (files_of names.now) (bench_call B.tells (B.state bench.old) (B.state bench.new))
        (inputs_call I.tells (I.state inputs.old) (I.state inputs.new)) (sink_call O.tells (O.state out.old) (O.state out.new)) (answer_of result) }
{
    let said = read_target_files(alloc, names, inputs)?;
    begin_alone(alloc, &parts_of(&said), bench, out)
}

/// The parts of the job that the files describe.
fn parts_of(said: &TargetFiles) -> JobParts<'_>
    ensures board { result.board.now ≡ said.now.board_text }
    ensures flm { result.flm.now ≡ said.now.flm }
    ensures second { option_copied result.second ≡ said.now.second }
    ensures image { result.image.now ≡ (said_aim said.now).image }
    ensures size { result.size ≡ size_of (said_aim said.now).board.regions }
{
    JobParts {
        board: said.board_text.bytes(),
        flm: said.flm.bytes(),
        second: text_of(&said.second),
        image: &said.wanted.image,
        size: cells_of(&said.wanted.board),
    }
}

/// The bytes of a text, if there is one.
fn text_of(text: &Option<Bytes>) -> Option<&[u8]>
    ensures { option_copied result ≡ text.now }
{
    match text {
        Some(text) => Some(text.bytes()),
        None => None,
    }
}
