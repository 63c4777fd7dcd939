//! The steps of the rows.

use crate::controllers::made::driver;
use crate::controllers::trial::Trial;
use crate::lines::{numbers, put_line, words};
use anyhow::{Result, bail};
use bench_model::BusEnd;
use board_file::ControllerKind;
use flash_controller::State as Fc1State;
use flash_driver::Registers;
use fpec_controller::State as FpecState;
use row_text::{bytes_of, number};
use std::alloc::Global;
use std::result;

/// The end that a word names, where it isn't `ok` or a number.
fn end(word: &str) -> Option<BusEnd> {
    if word == "fault" {
        return Some(BusEnd::Fault);
    }
    if word == "device" {
        return Some(BusEnd::Device);
    }
    None
}

/// Whether a step without a value ended as is due.
fn ended(found: result::Result<(), BusEnd>, due: &str) -> bool {
    match found {
        Ok(()) => due == "ok",
        Err(fault) => end(due) == Some(fault),
    }
}

/// Whether a load ended as is due.
fn loaded(found: result::Result<u32, BusEnd>, due: &str) -> Result<bool> {
    match found {
        Ok(value) => Ok(end(due).is_none() && value == number(due)?),
        Err(fault) => Ok(end(due) == Some(fault)),
    }
}

/// Whether cells hold these bytes.
fn has(cells: &[u8], alloc: Global, due: &str) -> Result<bool> {
    let due = bytes_of(alloc, due)?;
    Ok(cells == due.as_slice())
}

/// Whether a step with the numbers of some words answers what is due.
fn answers<R: Registers>(
    trial: &mut Trial<R>,
    name: &str,
    words: &[&str],
    due: &str,
) -> Result<bool> {
    let [first, width, value] = numbers::<3>(words)?;
    match name {
        "store" if words.len() == 3 => Ok(ended(trial.store(first, width, value), due)),
        "load" if words.len() == 2 => loaded(trial.load(first, width), due),
        "tick" if words.len() == 1 => Ok(ended(trial.ticks(first), due)),
        "reset" if words.is_empty() => Ok(ended(trial.reset(), due)),
        _ => Ok(false),
    }
}

/// Whether a step answers what its last word says.
fn holds<R: Registers>(trial: &mut Trial<R>, words: &[&str], alloc: Global) -> Result<bool> {
    match words {
        ["cells", due] => has(trial.cells(), alloc, due),
        [name, words @ .., due] => answers(trial, name, words, due),
        _ => Ok(false),
    }
}

/// The trial over a board and these cells. The cell call with the given number fails.
fn trial_of<R: Registers>(
    rt: &HostRuntime,
    kind: ControllerKind,
    board: &str,
    cells: &[u8],
    fail: u32,
) -> Result<Trial<R>> {
    let driver = driver(rt, kind, board)?;
    Trial::new(rt.alloc(), driver, cells, fail)
}

/// The trial of a line that begins with this word.
fn made<R: Registers>(
    rt: &HostRuntime,
    kind: ControllerKind,
    new: &str,
    words: &[&str],
) -> Result<Option<Trial<R>>> {
    match words {
        [first, board, cells, fail] if *first == new => {
            let fail = number(fail)?;
            let cells = bytes_of(rt.alloc(), cells)?;
            Ok(Some(trial_of(rt, kind, board, &cells, fail)?))
        }
        _ => Ok(None),
    }
}

/// Does what the words of a line say: another trial, or a step.
fn follow<R: Registers>(
    rt: &HostRuntime,
    kind: ControllerKind,
    new: &str,
    trial: &mut Trial<R>,
    words: &[&str],
) -> Result<bool> {
    if let Some(made) = made(rt, kind, new, words)? {
        *trial = made;
        return Ok(true);
    }
    if words.is_empty() {
        return Ok(true);
    }
    holds(trial, words, rt.alloc())
}

/// Does what the words of a line say.
fn follow_line<R: Registers>(
    rt: &HostRuntime,
    kind: ControllerKind,
    new: &str,
    trial: &mut Trial<R>,
    line: &str,
) -> Result<bool> {
    follow(rt, kind, new, trial, &words(rt.alloc(), line)?)
}

/// Goes through a line, and prints the name of a row.
fn check_line<R: Registers>(
    rt: &HostRuntime,
    kind: ControllerKind,
    new: &str,
    trial: &mut Trial<R>,
    line: &str,
) -> Result<()> {
    if let Some(name) = line.strip_prefix("row ") {
        put_line(rt, name)?;
    } else if !follow_line(rt, kind, new, trial, line)? {
        bail!("{line}");
    }
    Ok(())
}

/// Goes through the lines, from a trial on.
fn check_lines<R: Registers>(
    rt: &HostRuntime,
    kind: ControllerKind,
    new: &str,
    trial: &mut Trial<R>,
    text: &str,
) -> Result<()> {
    for line in text.lines() {
        check_line(rt, kind, new, trial, line)?;
    }
    Ok(())
}

/// Goes through the lines.
fn check_all<R: Registers>(
    rt: &HostRuntime,
    kind: ControllerKind,
    new: &str,
    text: &str,
) -> Result<()> {
    let mut trial = trial_of::<R>(rt, kind, "areas", &[0; 8], 0)?;
    check_lines(rt, kind, new, &mut trial, text)
}

/// Goes through the lines of a file, all of one controller.
pub fn check(rt: &HostRuntime, text: &str) -> Result<()> {
    if text.lines().any(|line| line.starts_with("fpec ")) {
        return check_all::<FpecState>(rt, ControllerKind::Fpec, "fpec", text);
    }
    check_all::<Fc1State>(rt, ControllerKind::Fc1, "new", text)
}
