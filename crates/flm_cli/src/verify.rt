//! `verify [--raw-at ADDR] BOARD IMAGE...`: compares the cells with the image of files, on a board.
ghost use Rattle.std.specs.Prelude.{◌≡◌, All, Option, None, ◌≤◌, ◌<◌, ◌+◌, ◌^◌, ◌∷◌, [], Some, length, IsTrue, IfOk};
ghost use Rattle.command_words.specs.Files.{names_in};
ghost use Rattle.command_words.specs.Requested.{files_of};
ghost use Rattle.command_files.specs.Inputs.{inputs_call};
ghost use Rattle.command_files.specs.Call.{bench_call, sink_call};
ghost use Rattle.command_files.specs.Shown.{answer_of};
ghost use Rattle.flm_cli.specs.Verify.{VerifyEnds, AgreesWith, DiffersAt};
ghost use Rattle.faults.specs.Counts.{HasCause};
ghost use Rattle.board_file.specs.Limits.{size_of};
ghost use Rattle.readback.specs.Readback.{OnlyReadsCells};
ghost use Rattle.flm_cli.specs.Steps.{FindsInImage, FindsInRegion, FoundBy};
ghost use Rattle.device_dump.specs.Looks.{LooksAtCells};

use crate::comparison::{WINDOW, tell_found};
use bench_model::{Bench, DeviceFault};
use board_file::{Board, Region};
use byte_map::ByteMap;
use command_files::{cells_of, read_files, take_files};
use command_words::FileNames;
use outside_io::{Inputs, Sink};
use readback::{Difference, first_difference};
use report_text::Refusal;
use std::alloc::Global;

/// Compares the cells with the union of images wherever the union has a byte, and prints `same` where they agree.
pub fn verify<'a, B: Bench, I: Inputs, O: Sink>(
    alloc: Global,
    names: &FileNames<'a>,
    bench: &mut B,
    inputs: &mut I,
    out: &mut O,
) -> Result<(), Refusal<'a>>
    requires no_flm { (files_of names.now).flm ≡ None }
    requires may_take { All (I.may_take inputs.old) (names_in (files_of names.now)) }
    ensures { VerifyEnds (files_of names.now) (bench_call B.tells (B.state bench.old) (B.state bench.new))
        (inputs_call I.tells (I.state inputs.old) (I.state inputs.new)) (sink_call O.tells (O.state out.old) (O.state out.new)) (answer_of result) }
{
    let files = take_files(alloc, names, inputs)?;
    let wanted = read_files(alloc, names, &files)?;
    let size = cells_of(&wanted.board);
    let cells = bench.cells_len();
    if cells != size {
        return Err(Refusal::CellsDiffer {
            wanted: size,
            found: cells,
        });
    }
    let found = find_in_image(bench, &wanted.board, &wanted.image);
    tell_found(0, found, out)
}

/// Breaks off an open operation, and compares the cells of a board's regions with an image. The cells of the second region follow those
/// of the first. The answer is the difference at the least place, with the address of its cell.
pub fn find_in_image<B: Bench>(
    bench: &mut B,
    board: &Board,
    image: &ByteMap,
) -> Result<Option<Difference>, DeviceFault>
    requires { size_of board.now.regions ≡ (B.state bench.old).cell_count }
    ensures found { IfOk result (FoundBy 0 (AgreesWith (bench_call B.tells (B.state bench.old) (B.state bench.new)) board.now.regions image.now)
        (DiffersAt (bench_call B.tells (B.state bench.old) (B.state bench.new)) board.now.regions image.now)) }
    ensures looks { LooksAtCells (bench_call B.tells (B.state bench.old) (B.state bench.new)) result }
{
    bench.cells_drop()?;
    find_in_regions(bench, board, image, &mut [0; WINDOW])
}

/// Compares the cells of a board's regions with an image, region after region, up to the first region where a cell differs.
fn find_in_regions<B: Bench>(
    bench: &mut B,
    board: &Board,
    image: &ByteMap,
    window: &mut [u8],
) -> Result<Option<Difference>, DeviceFault>
    requires cells { size_of board.now.regions ≡ (B.state bench.old).cell_count }
    requires room { 0 < length window.old }
    requires idle { IsTrue B.tells → (B.state bench.old).operation ≡ None }
    ensures ok { IfOk result (FindsInImage B.tells (B.state bench.old).cells board.now.regions image.now) }
    ensures bench { OnlyReadsCells B.tells (B.state bench.old) (B.state bench.new) }
    ensures cause { HasCause (B.state bench.old).device_faults (B.state bench.new).device_faults result }
{
    let regions = board.regions.as_slice();
    let mut start = 0;
    for region in regions {
        let found = find_in_region(bench, start, region, image, window)?;
        if found.is_some() {
            return Ok(found);
        }
        start += region.size;
    }
    Ok(None)
}

/// Compares the cells of a region with an image, from the least address up to the first cell that differs. The region's first cell has
/// the place `start`.
fn find_in_region<B: Bench>(
    bench: &mut B,
    start: u32,
    region: &Region,
    image: &ByteMap,
    window: &mut [u8],
) -> Result<Option<Difference>, DeviceFault>
    requires fits { start + region.now.size ≤ (B.state bench.old).cell_count }
    requires room { 0 < length window.old }
    requires idle { IsTrue B.tells → (B.state bench.old).operation ≡ None }
    ensures ok { IfOk result (FindsInRegion B.tells (B.state bench.old).cells start region.now.base region.now.size image.now) }
    ensures bench { OnlyReadsCells B.tells (B.state bench.old) (B.state bench.new) }
    ensures cause { HasCause (B.state bench.old).device_faults (B.state bench.new).device_faults result }
{
    for index in 0..image.runs() {
        let (at, bytes) = image.run(index);
        let found = find_in_run(bench, start, region, at, bytes, window)?;
        if found.is_some() {
            return Ok(found);
        }
    }
    Ok(None)
}

/// Compares the cells of a region with the bytes of one run from one address on, as far as they lie in the region.
fn find_in_run<B: Bench>(
    bench: &mut B,
    start: u32,
    region: &Region,
    at: u32,
    bytes: &[u8],
    window: &mut [u8],
) -> Result<Option<Difference>, DeviceFault>
    requires fits { start + region.now.size ≤ (B.state bench.old).cell_count }
    requires run_ends { at + length bytes.now ≤ 2 ^ 32 }
    requires room { 0 < length window.old }
    requires idle { IsTrue B.tells → (B.state bench.old).operation ≡ None }
    ensures ok { IfOk result (FindsInRegion B.tells (B.state bench.old).cells start region.now.base region.now.size
        (record { at = at; bytes = bytes.now } ∷ [])) }
    ensures bench { OnlyReadsCells B.tells (B.state bench.old) (B.state bench.new) }
    ensures cause { HasCause (B.state bench.old).device_faults (B.state bench.new).device_faults result }
{
    let base = u64::from(region.base);
    let first = u64::from(at);
    let from = first.max(base);
    let end = (first + bytes.len() as u64).min(base + u64::from(region.size));
    if end <= from {
        return Ok(None);
    }
    let part = &bytes[(from - first) as usize..(end - first) as usize];
    let place = start + (from - base) as u32;
    let found = first_difference(bench, place, part, window)?;
    match found {
        None => Ok(None),
        Some(Difference { at, want, got }) => Ok(Some(Difference {
            at: at - start + region.base,
            want,
            got,
        })),
    }
}
