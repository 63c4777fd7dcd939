//! The steps of the cases.

use crate::calls::end::end;
use crate::calls::plan::carry_out;
use crate::calls::trial::Trial;
use crate::files::board;
use crate::lines::{numbers, put_line, words};
use algo_calls::Call;
use algo_loader::{Layout, NoRoom, place};
use anyhow::{Context, Result, bail};
use board_file::Board;
use flm_descriptor::{Algorithm, read_flm};
use row_text::{all_bytes, counted_bytes, number};
use std::alloc::Global;
use std::fs;

/// The algorithm of a file.
fn algorithm(rt: &HostRuntime, name: &str) -> Result<Algorithm> {
    let file = fs::read(rt, name)?;
    Ok(read_flm(rt.alloc(), &file)?)
}

/// The layout of five addresses, and of its need.
fn laid_out(words: &[&str], need: &str) -> Result<Layout> {
    let [return_at, code_at, static_base, buffer_at, stack_top] = numbers::<5>(words)?;
    let need = need.parse::<u64>()?;
    Ok(Layout {
        return_at,
        code_at,
        static_base,
        buffer_at,
        stack_top,
        need,
    })
}

/// The refusal that says what is needed, and what there is.
fn no_room(need: &str, have: &str) -> Result<NoRoom> {
    let need = need.parse::<u64>()?;
    let have = have.parse::<u64>()?;
    Ok(NoRoom { need, have })
}

/// The layout that some words name, or why there is none.
fn layout(words: &[&str]) -> Result<std::result::Result<Layout, NoRoom>> {
    match words {
        ["no", "room", need, have] => Ok(Err(no_room(need, have)?)),
        [_, _, _, _, _, need] => Ok(Ok(laid_out(words, need)?)),
        _ => bail!("no layout"),
    }
}

/// Whether a call with these bytes answers what is due.
fn called(trial: &mut Trial, call: Call, bytes: &[u8], due: &[&str]) -> Result<bool> {
    Ok(trial.call(call, bytes)? == end(due)?)
}

/// Whether a call with the bytes of a word answers what is due.
fn called_with(
    trial: &mut Trial,
    call: Call,
    page: &str,
    due: &[&str],
    alloc: Global,
) -> Result<bool> {
    let bytes = counted_bytes(alloc, page)?;
    called(trial, call, &bytes, due)
}

/// Whether a reset answers what is due.
fn reset(trial: &mut Trial, due: &[&str]) -> Result<bool> {
    let found = trial.reset();
    match due {
        ["ok"] => Ok(found.is_ok()),
        ["device", "fault"] => Ok(found.is_err()),
        _ => bail!("no end of a reset"),
    }
}

/// Whether the cells are those that some words give.
fn holds_cells(trial: &Trial, words: &[&str], alloc: Global) -> Result<bool> {
    let cells = all_bytes(alloc, words)?;
    Ok(trial.cells() == cells.as_slice())
}

/// Makes the calls to come in slices of the number of steps that the word says.
fn cut(trial: &mut Trial, words: &[&str]) -> Result<bool> {
    let [steps] = words else {
        bail!("a number of steps is wanted");
    };
    trial.cut(steps.parse::<u64>()?);
    Ok(true)
}

/// The call of a name, with this number.
fn call_of(name: &str, number: u32) -> Result<Call> {
    Ok(match name {
        "Init" => Call::Init { kind: number },
        "UnInit" => Call::UnInit { kind: number },
        "EraseSector" => Call::EraseSector { at: number },
        "ProgramPage" => Call::ProgramPage { at: number },
        "Verify" => Call::Verify { at: number },
        _ => bail!("no step"),
    })
}

/// Whether a call that has a number in it answers what is due.
fn numbered(trial: &mut Trial, name: &str, words: &[&str], alloc: Global) -> Result<bool> {
    let [word, rest @ ..] = words else {
        bail!("no number");
    };
    let call = call_of(name, number(word)?)?;
    match (call, rest) {
        (Call::ProgramPage { .. } | Call::Verify { .. }, [page, due @ ..]) => {
            called_with(trial, call, page, due, alloc)
        }
        _ => called(trial, call, &[], rest),
    }
}

/// Whether a step of a trial answers what is due.
fn holds(trial: &mut Trial, words: &[&str], alloc: Global) -> Result<bool> {
    let [name, rest @ ..] = words else {
        bail!("no step");
    };
    match *name {
        "load" if rest.is_empty() => {
            trial.load();
            Ok(true)
        }
        "reset" => reset(trial, rest),
        "slices" => cut(trial, rest),
        "EraseChip" => called(trial, Call::EraseChip, &[], rest),
        "cells" => holds_cells(trial, rest, alloc),
        name => numbered(trial, name, rest, alloc),
    }
}

/// Whether an algorithm is laid out on a board as is due.
fn placed_on(rt: &HostRuntime, board: &Board, flm: &str, due: &[&str]) -> Result<bool> {
    let due = layout(due)?;
    let algorithm = algorithm(rt, flm)?;
    Ok(place(&algorithm, board) == due)
}

/// Whether an algorithm is laid out as is due on the board of a file.
fn placed(rt: &HostRuntime, board_name: &str, flm: &str, due: &[&str]) -> Result<bool> {
    let board = board(rt, board_name)?;
    placed_on(rt, &board, flm, due)
}

/// Carries out a plan with an algorithm on this board.
fn plan_on(rt: &HostRuntime, board: &Board, flm: &str, chip: bool) -> Result<()> {
    let algorithm = algorithm(rt, flm)?;
    carry_out(rt, board, algorithm, chip)
}

/// Carries out a plan with an algorithm on the board of a file, by the chip or by sectors.
fn plan(rt: &HostRuntime, board_name: &str, flm: &str, way: &str) -> Result<bool> {
    let board = board(rt, board_name)?;
    plan_on(rt, &board, flm, way == "chip")?;
    Ok(true)
}

/// Whether the step of a line holds, if it has one. A step without a trial is a layout or a plan.
fn step(rt: &HostRuntime, trial: Option<&mut Trial>, words: &[&str]) -> Result<bool> {
    match (words, trial) {
        ([], _) => Ok(true),
        (["place", board, flm, due @ ..], _) => placed(rt, board, flm, due),
        (["plan", board, flm, way], _) => plan(rt, board, flm, way),
        (words, Some(trial)) => holds(trial, words, rt.alloc()),
        _ => Ok(false),
    }
}

/// Whether the step holds that the words of a line say.
fn step_holds(rt: &HostRuntime, trial: Option<&mut Trial>, line: &str) -> Result<bool> {
    step(rt, trial, &words(rt.alloc(), line)?)
}

/// Does a line: prints the name of a case, or sees that its step holds.
fn line_holds(rt: &HostRuntime, trial: Option<&mut Trial>, line: &str) -> Result<()> {
    if let Some(name) = line.strip_prefix("case ") {
        put_line(rt, name)?;
    } else if !step_holds(rt, trial, line)? {
        bail!("{line}");
    }
    Ok(())
}

/// Goes through the lines of a trial.
fn go_through(rt: &HostRuntime, trial: &mut Trial, text: &str) -> Result<()> {
    for line in text.lines() {
        line_holds(rt, Some(trial), line)?;
    }
    Ok(())
}

/// Makes a trial on a board, and goes through its lines.
fn try_on(
    rt: &HostRuntime,
    board: &Board,
    flm: &str,
    cells: &[u8],
    fail: u64,
    text: &str,
) -> Result<()> {
    let algorithm = algorithm(rt, flm)?;
    let mut trial = Trial::new(rt.alloc(), board, algorithm, cells, fail)?;
    go_through(rt, &mut trial, text)
}

/// Makes a trial on the board of a file, and goes through its lines.
fn try_with(
    rt: &HostRuntime,
    board_name: &str,
    flm: &str,
    cells: &[u8],
    fail: u64,
    text: &str,
) -> Result<()> {
    let board = board(rt, board_name)?;
    try_on(rt, &board, flm, cells, fail, text)
}

/// Makes the trial that some words name, and goes through its lines.
fn try_words(rt: &HostRuntime, words: &[&str], text: &str) -> Result<()> {
    let [board_name, flm, fail, cells @ ..] = words else {
        bail!("a trial is BOARD FLM FAIL BYTES..");
    };
    let fail = fail.parse::<u64>()?;
    let cells = all_bytes(rt.alloc(), cells)?;
    try_with(rt, board_name, flm, &cells, fail, text)
}

/// Makes the trial that a text names first, and goes through its other lines.
fn try_one(rt: &HostRuntime, text: &str) -> Result<()> {
    let (line, text) = text.split_once('\n').context("a trial has no lines")?;
    try_words(rt, &words(rt.alloc(), line)?, text)
}

/// Does the lines before the first trial.
fn before_trials(rt: &HostRuntime, text: &str) -> Result<()> {
    for line in text.lines() {
        line_holds(rt, None, line)?;
    }
    Ok(())
}

/// Goes through the lines, and prints the name of each case.
pub fn check(rt: &HostRuntime, text: &str) -> Result<()> {
    let mut trials = text.split("\nnew ");
    if let Some(text) = trials.next() {
        before_trials(rt, text)?;
    }
    for text in trials {
        try_one(rt, text)?;
    }
    Ok(())
}
