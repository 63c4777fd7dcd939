//! `compare IMAGE`: the cells against the raw bytes of one file.
ghost use Rattle.std.specs.Prelude.{◌≤◌, length, IfOk};
ghost use Rattle.command_files.specs.Inputs.{inputs_call};
ghost use Rattle.command_files.specs.Call.{bench_call, sink_call};
ghost use Rattle.flm_cli.specs.Compare.{CellsAre, DiffersFrom, CompareEnds};
ghost use Rattle.command_files.specs.Shown.{answer_of};
ghost use Rattle.flm_cli.specs.Steps.{FoundBy};
ghost use Rattle.device_dump.specs.Looks.{LooksAtCells};

use crate::comparison::{WINDOW, tell_found};
use bench_model::{Bench, DeviceFault};
use command_files::take_one;
use octets::Word;
use outside_io::{Inputs, Sink};
use readback::{Difference, first_difference};
use report_text::Refusal;
use std::alloc::Global;

/// Compares the cells from place 0 on with the bytes of a file, and prints `same` where they agree.
pub fn compare<'a, B: Bench, I: Inputs, O: Sink>(
    alloc: Global,
    image: &'a Word,
    bench: &mut B,
    inputs: &mut I,
    out: &mut O,
) -> Result<(), Refusal<'a>>
    requires { I.may_take inputs.old image.now }
    ensures { CompareEnds image.now (bench_call B.tells (B.state bench.old) (B.state bench.new))
        (inputs_call I.tells (I.state inputs.old) (I.state inputs.new)) (sink_call O.tells (O.state out.old) (O.state out.new)) (answer_of result) }
{
    let file = take_one(alloc, image, inputs)?;
    let cells = bench.cells_len();
    if file.len() > cells as usize {
        return Err(Refusal::ImageTooLong {
            bytes: file.len(),
            cells,
        });
    }
    let found = find_in_cells(bench, file.bytes());
    tell_found(0, found, out)
}

/// Breaks off an open operation, and compares the cells from place 0 on with these bytes.
fn find_in_cells<B: Bench>(bench: &mut B, bytes: &[u8]) -> Result<Option<Difference>, DeviceFault>
    requires { length bytes.now ≤ (B.state bench.old).cell_count }
    ensures found { IfOk result (FoundBy 0 (CellsAre (bench_call B.tells (B.state bench.old) (B.state bench.new)) bytes.now)
        (DiffersFrom (bench_call B.tells (B.state bench.old) (B.state bench.new)) bytes.now)) }
    ensures looks { LooksAtCells (bench_call B.tells (B.state bench.old) (B.state bench.new)) result }
{
    bench.cells_drop()?;
    first_difference(bench, 0, bytes, &mut [0; WINDOW])
}
