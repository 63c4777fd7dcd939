//! Questions about the texts of boards.

use crate::print::Piece::{Hex2, Hex8, Number, Text};
use crate::print::{put, put_fault};
use anyhow::{Context, Result};
use board_file::{Board, ControllerKind, QuietRange, Region, SectorRun, read_board};
use std::alloc::Global;

/// Prints what a text says: the board's numbers, its regions and quiet ranges, or why it is refused.
fn put_answer(rt: &HostRuntime, text: &[u8]) {
    match read_board(rt.alloc(), text) {
        Ok(board) => put_board(rt, &board),
        Err(fault) => put_fault(rt, fault),
    }
}

/// Prints a board, and then the line's end.
fn put_board(rt: &HostRuntime, board: &Board) {
    put_numbers(rt, board);
    for region in board.regions.as_slice() {
        put_region(rt, region);
    }
    put_kind(rt, board.kind);
    put_quiet(rt, board.quiet.as_slice());
    put(rt, &[Text("\n")]);
}

/// Prints the RAM, the controller, the clock and the weights.
fn put_numbers(rt: &HostRuntime, board: &Board) {
    let pieces = [
        Hex8("ram ", board.ram_base),
        Number(" ", board.ram_size),
        Number(" ", board.stack),
        Hex8(" controller ", board.controller_base),
        Number(" ", board.program_ticks),
        Number(" ", board.erase_ticks),
        Number(" ", board.chip_ticks),
        Number(" clock ", board.hz),
        Number(" ", board.steps_per_ms),
        Number(" weights ", board.weights.sector),
        Number(" ", board.weights.page),
        Number(" ", board.weights.chip),
    ];
    put(rt, &pieces);
}

/// Prints a region.
fn put_region(rt: &HostRuntime, region: &Region) {
    let pieces = [
        Hex8(" region ", region.base),
        Number(" ", region.size),
        Hex2(" ", region.empty),
        Number(" ", region.unit),
    ];
    put(rt, &pieces);
    put_runs(rt, region.sectors.as_slice());
}

/// Prints runs of sectors.
fn put_runs(rt: &HostRuntime, runs: &[SectorRun]) {
    for run in runs {
        put(rt, &[Number(" ", run.count), Number("x", run.size)]);
    }
}

/// Prints a kind of controller that isn't FC1.
fn put_kind(rt: &HostRuntime, kind: ControllerKind) {
    if kind == ControllerKind::Fpec {
        put(rt, &[Text(" fpec")]);
    }
}

/// Prints quiet ranges.
fn put_quiet(rt: &HostRuntime, ranges: &[QuietRange]) {
    for range in ranges {
        put(rt, &[Hex8(" quiet ", range.base), Number(" ", range.size)]);
    }
}

/// The name of a key among those of the region, or among those of the text itself.
fn name_in(key: &str, in_region: bool) -> Option<&str> {
    if in_region {
        key.strip_prefix("region.")
    } else {
        Some(key)
    }
}

/// Appends a line of a board. A line with the key gets the other value, or is left out where that value is empty.
fn push_line(text: &mut String, line: &str, key: Option<&str>, value: &str) -> Result<()> {
    let name = line.split(" =").next().unwrap_or("");
    if key != Some(name) {
        text.push_str(line)?;
    } else if !value.is_empty() {
        text.push_str(name)?;
        text.push_str(" =")?;
        text.push_str(value)?;
    }
    text.push_str("\n")?;
    Ok(())
}

/// The text of a board with another value for one key. Where the value is empty, the key is left out.
fn changed(alloc: Global, base: &str, key: &str, value: &str) -> Result<String> {
    let mut text = String::new(alloc);
    let mut in_region = false;
    for line in base.lines() {
        if line == "[[region]]" {
            in_region = true;
        }
        push_line(&mut text, line, name_in(key, in_region), value)?;
    }
    Ok(text)
}

/// Answers a text, after its name.
fn answer_named<'a>(rt: &HostRuntime, name: &'a str, end: &'a str, text: &str) {
    put(rt, &[Text(name), Text(end)]);
    put_answer(rt, text.as_bytes());
}

/// Answers a board in which one key has another value: `KEY = VALUE`. Where the value is empty, the key is left out. A key of the region
/// has `region.` before its name.
pub fn answer_change(rt: &HostRuntime, base: &str, change: &str) -> Result<()> {
    let (key, value) = change.split_once(" =").context("KEY = VALUE is wanted")?;
    let text = changed(rt.alloc(), base, key, value)?;
    answer_named(rt, change, ": ", text.as_str());
    Ok(())
}

/// Answers a text.
pub fn answer_text(rt: &HostRuntime, text: &str) {
    answer_named(rt, text, "----: ", text);
}
