//! `dump FORM BOARD`: the cells as Intel HEX or as S-records, on a board.
ghost use Rattle.std.specs.Prelude.{◌≡◌, length};
ghost use Rattle.board_file.specs.Limits.{size_of};
ghost use Rattle.command_files.specs.Inputs.{inputs_call};
ghost use Rattle.command_files.specs.Call.{bench_call, sink_call};
ghost use Rattle.command_files.specs.Shown.{answer_of};
ghost use Rattle.outside_io.specs.Puts.{Puts};
ghost use Rattle.device_dump.specs.Dump.{text_in, DumpEnds};
ghost use Rattle.device_dump.specs.Steps.{DumpsCells, PutsCells};

use crate::cell_survey::survey;
use crate::cells::{know_bytes, map_of_cells};
use bench_model::Bench;
use board_file::{Board, Region};
use byte_map::ByteMap;
use command_files::{cells_of, read_text, take_one};
use command_words::TextForm;
use image_more::{write_hex, write_srec};
use octets::Word;
use outside_io::{Inputs, OutputFault, Sink};
use report_text::Refusal;
use std::alloc::Global;

/// Puts every cell at its address as a text of this form. All cells are read before anything is put. It takes one byte of memory
/// for each cell, and as much again for their map. The job file isn't read.
pub fn dump<'a, B: Bench, I: Inputs, O: Sink>(
    alloc: Global,
    form: TextForm,
    board: &'a Word,
    bench: &mut B,
    inputs: &mut I,
    out: &mut O,
) -> Result<(), Refusal<'a>>
    requires { I.may_take inputs.old board.now }
    ensures { DumpEnds form board.now (bench_call B.tells (B.state bench.old) (B.state bench.new))
        (inputs_call I.tells (I.state inputs.old) (I.state inputs.new)) (sink_call O.tells (O.state out.old) (O.state out.new)) (answer_of result) }
{
    let file = take_one(alloc, board, inputs)?;
    let board = read_text(alloc, file.bytes())?;
    let wanted = cells_of(&board);
    let found = bench.cells_len();
    if found != wanted {
        return Err(Refusal::CellsDiffer { wanted, found });
    }
    dump_cells(alloc, form, &board, bench, out)
}

/// Puts the cells, if there are as many as the regions of a board have. The memory for them is taken before they are read.
fn dump_cells<'a, B: Bench, O: Sink>(
    alloc: Global,
    form: TextForm,
    board: &Board,
    bench: &mut B,
    out: &mut O,
) -> Result<(), Refusal<'a>>
    requires { size_of board.now.regions ≡ (B.state bench.old).cell_count }
    ensures { DumpsCells form board.now.regions (bench_call B.tells (B.state bench.old) (B.state bench.new))
        (sink_call O.tells (O.state out.old) (O.state out.new)) (answer_of result) }
{
    let size = bench.cells_len() as usize;
    let Ok(mut cells) = vec![in alloc; 0u8; size] else {
        return Err(Refusal::OutOfMemory);
    };
    survey(bench, &mut cells)?;
    put_cells(alloc, form, board.regions.as_slice(), &cells, out)
}

/// Puts the cells of some regions at their addresses.
#[tactic(auto, using(crate::proofs::DumpLemmas::put_done, crate::proofs::DumpLemmas::put_cut))]
fn put_cells<'a, O: Sink>(
    alloc: Global,
    form: TextForm,
    regions: &[Region],
    cells: &[u8],
    out: &mut O,
) -> Result<(), Refusal<'a>>
    requires { length cells.now ≡ size_of regions.now }
    ensures { PutsCells form regions.now cells.now (sink_call O.tells (O.state out.old) (O.state out.new)) (answer_of result) }
{
    know_bytes(cells);
    let map = map_of_cells(alloc, regions, cells)?;
    put_map(out, form, &map)?;
    Ok(())
}

/// Puts a map as a text of this form.
fn put_map<O: Sink>(out: &mut O, form: TextForm, map: &ByteMap) -> Result<(), OutputFault>
    ensures { Puts O.tells (O.state out.old) (O.state out.new) (text_in form map.now) result }
{
    match form {
        TextForm::Hex => write_hex(map, out),
        TextForm::Srec => write_srec(map, out),
    }
}
