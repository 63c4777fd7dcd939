//! `plan [--raw-at ADDR] BOARD FLM IMAGE...`: what would be erased and programmed to bring images into the cells.
ghost use Rattle.std.specs.Prelude.{◌≡◌, ◌≤◌, ◌<◌, ◌+◌, ◌^◌, All, IsSome, IsTrue, IfOk, OnOk, None, map, true};
ghost use Rattle.faults.specs.Counts.{HasCause};
ghost use Rattle.board_file.specs.Limits.{size_of};
ghost use Rattle.flm_descriptor.specs.Shown.{shown};
ghost use Rattle.outside_io.specs.Puts.{Puts};
ghost use Rattle.readback.specs.Readback.{OnlyReadsCells};
ghost use Rattle.command_words.specs.Files.{names_in};
ghost use Rattle.command_words.specs.Requested.{files_of};
ghost use Rattle.command_files.specs.Inputs.{inputs_call};
ghost use Rattle.command_files.specs.Steps.{aim_of};
ghost use Rattle.command_files.specs.Call.{bench_call, sink_call};
ghost use Rattle.flm_cli.specs.Plan.{text_of, PlanEnds};
ghost use Rattle.command_files.specs.Shown.{answer_of};
ghost use Rattle.flm_cli.specs.Steps.{AreDevices, AreParts, ArePlanned, cells_on, part_text, parts_text, PlansCells};
ghost use Rattle.device_dump.specs.Looks.{LooksAtCells};

use bench_model::{Bench, DeviceFault};
use command_files::{Wanted, cells_of, read_files, take_files};
use command_words::FileNames;
use faults::OutOfMemory;
use flash_session::{RegionPlan, survey_cells};
use flm_descriptor::Algorithm;
use outside_io::{Inputs, OutputFault, Sink};
use report_text::{Refusal, put_plan, put_region};
use std::alloc::Global;

/// Prints the plans that are chosen to bring the union of images into the cells as they are. There is one for each region of the board,
/// by the algorithm of its FLM file. The job file isn't looked at.
pub fn plan<'a, B: Bench, I: Inputs, O: Sink>(
    alloc: Global,
    names: &FileNames<'a>,
    bench: &mut B,
    inputs: &mut I,
    out: &mut O,
) -> Result<(), Refusal<'a>>
    requires has_flm { IsSome (files_of names.now).flm }
    requires may_take { All (I.may_take inputs.old) (names_in (files_of names.now)) }
    ensures { PlanEnds (files_of names.now) (bench_call B.tells (B.state bench.old) (B.state bench.new))
        (inputs_call I.tells (I.state inputs.old) (I.state inputs.new)) (sink_call O.tells (O.state out.old) (O.state out.new)) (answer_of result) }
{
    let files = take_files(alloc, names, inputs)?;
    let wanted = read_files(alloc, names, &files)?;
    let size = cells_of(&wanted.board);
    let cells = bench.cells_len();
    if cells != size {
        return Err(Refusal::CellsDiffer {
            wanted: size,
            found: cells,
        });
    }
    print_plans(alloc, &wanted, bench, out)
}

/// Prints the plans for a board's regions, on a bench with as many cells. All memory is taken before the cells are looked at.
fn print_plans<'a, B: Bench, O: Sink>(
    alloc: Global,
    wanted: &Wanted,
    bench: &mut B,
    out: &mut O,
) -> Result<(), Refusal<'a>>
    requires devices { AreDevices wanted.now.board.regions (map shown wanted.now.algorithms.items) }
    requires cells { size_of wanted.now.board.regions ≡ (B.state bench.old).cell_count }
    ensures { PlansCells (bench_call B.tells (B.state bench.old) (B.state bench.new)) (sink_call O.tells (O.state out.old) (O.state out.new))
        (text_of (aim_of wanted.now)) (answer_of result) }
{
    let mut parts = make_parts(alloc, &wanted.algorithms)?;
    print_from(wanted, bench, out, &mut parts)
}

/// Surveys the regions, and prints their plans.
fn print_from<'a, B: Bench, O: Sink>(
    wanted: &Wanted,
    bench: &mut B,
    out: &mut O,
    parts: &mut [RegionPlan],
) -> Result<(), Refusal<'a>>
    requires devices { AreDevices wanted.now.board.regions (map shown wanted.now.algorithms.items) }
    requires cells { size_of wanted.now.board.regions ≡ (B.state bench.old).cell_count }
    requires parts { AreParts (map shown wanted.now.algorithms.items) 0 parts.old }
    ensures { PlansCells (bench_call B.tells (B.state bench.old) (B.state bench.new)) (sink_call O.tells (O.state out.old) (O.state out.new))
        (text_of (aim_of wanted.now)) (answer_of result) }
{
    survey(bench, wanted, parts)?;
    put_parts(out, parts)?;
    Ok(())
}

/// Takes the memory for the plans by these algorithms, each for its own region.
fn make_parts(alloc: Global, algorithms: &[Algorithm]) -> Result<Vec<RegionPlan>, OutOfMemory>
    requires { cells_on (map shown algorithms.now) < 2 ^ 32 }
    ensures { IfOk result (λ parts. AreParts (map shown algorithms.now) 0 parts.items) }
{
    let mut parts = Vec::new(alloc);
    let mut start = 0;
    for algorithm in algorithms {
        parts.push(RegionPlan::new(alloc, algorithm, start)?)?;
        start += algorithm.device.size;
    }
    Ok(parts)
}

/// Breaks off an open operation, and makes the plans from the cells as they are to the image laid over them.
fn survey<B: Bench>(
    bench: &mut B,
    wanted: &Wanted,
    parts: &mut [RegionPlan],
) -> Result<(), DeviceFault>
    requires parts { AreParts (map shown wanted.now.algorithms.items) 0 parts.old }
    requires cells { cells_on (map shown wanted.now.algorithms.items) ≡ (B.state bench.old).cell_count }
    ensures parts { OnOk result (AreParts (map shown wanted.now.algorithms.items) 0 parts.new) }
    ensures plans { OnOk result (ArePlanned B.tells wanted.now.board.weights wanted.now.image (B.state bench.new).cells
        (map shown wanted.now.algorithms.items) parts.new) }
    ensures looks { LooksAtCells (bench_call B.tells (B.state bench.old) (B.state bench.new)) result }
{
    bench.cells_drop()?;
    survey_parts(bench, wanted, parts)
}

/// Makes the plan of each region.
fn survey_parts<B: Bench>(
    bench: &mut B,
    wanted: &Wanted,
    parts: &mut [RegionPlan],
) -> Result<(), DeviceFault>
    requires parts { AreParts (map shown wanted.now.algorithms.items) 0 parts.old }
    requires cells { cells_on (map shown wanted.now.algorithms.items) ≡ (B.state bench.old).cell_count }
    requires idle { IsTrue B.tells → (B.state bench.old).operation ≡ None }
    ensures parts { OnOk result (AreParts (map shown wanted.now.algorithms.items) 0 parts.new) }
    ensures plans { OnOk result (ArePlanned B.tells wanted.now.board.weights wanted.now.image (B.state bench.old).cells
        (map shown wanted.now.algorithms.items) parts.new) }
    ensures reads { OnlyReadsCells B.tells (B.state bench.old) (B.state bench.new) }
    ensures cause { HasCause (B.state bench.old).device_faults (B.state bench.new).device_faults result }
{
    let weights = &wanted.board.weights;
    for index in 0..parts.len() {
        let algorithm = &wanted.algorithms[index];
        survey_cells(bench, &wanted.image, weights, algorithm, &mut parts[index])?;
    }
    Ok(())
}

/// Puts the plans. If there is one region, that is the text of its plan; otherwise it is for each region in turn its line and the text.
fn put_parts<O: Sink>(out: &mut O, parts: &[RegionPlan]) -> Result<(), OutputFault>
    requires { All (λ p. p.base + p.geometry.size ≤ 2 ^ 32) parts.now }
    ensures { Puts O.tells (O.state out.old) (O.state out.new) (parts_text parts.now) result }
{
    let named = parts.len() > 1;
    for part in parts {
        put_part(out, named, part)?;
    }
    Ok(())
}

/// Puts the text of a plan, after the line of its region if `named`.
fn put_part<O: Sink>(out: &mut O, named: bool, part: &RegionPlan) -> Result<(), OutputFault>
    requires { part.now.base + part.now.geometry.size ≤ 2 ^ 32 }
    ensures { Puts O.tells (O.state out.old) (O.state out.new) (part_text named part.now) result }
{
    if named {
        return put_named(out, part);
    }
    put_plan(out, &part.geometry, part.base, &part.plan)
}

/// Puts the line of a region and its plan.
fn put_named<O: Sink>(out: &mut O, part: &RegionPlan) -> Result<(), OutputFault>
    requires { part.now.base + part.now.geometry.size ≤ 2 ^ 32 }
    ensures { Puts O.tells (O.state out.old) (O.state out.new) (part_text true part.now) result }
{
    put_region(out, part.base)?;
    put_plan(out, &part.geometry, part.base, &part.plan)
}
