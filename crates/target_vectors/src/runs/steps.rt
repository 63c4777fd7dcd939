//! The steps of the cases.

use crate::lines::{put_bytes, put_line, words};
use crate::runs::left::Left;
use crate::runs::measured::measure;
use crate::runs::pair::Pair;
use crate::runs::put::put_end;
use crate::runs::trial::{BOARD, FPEC_BOARD, Trial, alone, frame};
use anyhow::{Context, Result, bail, ensure};
use board_file::read_board;
use row_text::{bytes_of, number};
use std::alloc::Global;
use target_core::Frame;

/// The frame of some words.
fn frame_of(pc: &str, r0: &str, r1: &str) -> Result<Frame> {
    Ok(frame(number(pc)?, number(r0)?, number(r1)?))
}

/// Stores a word.
fn store(trial: &mut Trial, words: &[&str]) -> Result<()> {
    let [at, value] = words else {
        bail!("word AT VALUE");
    };
    match trial.word(number(at)?, number(value)?) {
        Ok(()) => Ok(()),
        Err(_) => bail!("the word isn't stored"),
    }
}

/// Runs the code.
fn run(rt: &HostRuntime, trial: &mut Trial, words: &[&str]) -> Result<()> {
    let [pc, r0, r1, fuel] = words else {
        bail!("run PC R0 R1 FUEL");
    };
    let end = trial.run(&frame_of(pc, r0, r1)?, fuel.parse::<u64>()?);
    put_end(rt, end)?;
    put_line(rt, "")
}

/// Runs the code in slices.
fn slices(rt: &HostRuntime, trial: &mut Trial, words: &[&str]) -> Result<()> {
    let [pc, r0, r1, fuel, steps] = words else {
        bail!("slices PC R0 R1 FUEL STEPS");
    };
    let frame = frame_of(pc, r0, r1)?;
    let (end, left) = trial.slices(&frame, fuel.parse::<u64>()?, steps.parse::<u64>()?);
    put_end(rt, end)?;
    put_slices(rt, left, trial.as_last())
}

/// Prints what is left of the fuel, and whether the registers are those of the last run.
fn put_slices(rt: &HostRuntime, left: u64, as_last: bool) -> Result<()> {
    let registers = if as_last {
        "the same registers"
    } else {
        "other registers"
    };
    println!(rt; ", {left} left, {registers}")?;
    Ok(())
}

/// Code for one of two machines: its bytes, and how it begins.
#[derive(Drop)]
struct Code {
    bytes: Vec<u8>,
    frame: Frame,
}

/// The code of some words.
fn code_of(alloc: Global, words: &[&str]) -> Result<Code> {
    let [code, pc, r0, r1] = words else {
        bail!("code is CODE PC R0 R1");
    };
    let bytes = bytes_of(alloc, code)?;
    let frame = frame_of(pc, r0, r1)?;
    Ok(Code { bytes, frame })
}

/// Prints how one of two machines ended, and whether it left what a target leaves that is alone.
fn put_turned(rt: &HostRuntime, code: &Code, fuel: u64, left: &Left) -> Result<()> {
    put_end(rt, left.end)?;
    let alone = alone(rt.alloc(), code.bytes.as_slice(), &code.frame, fuel)?;
    let same = if left.same_as(&alone) {
        ", as alone"
    } else {
        ", not as alone"
    };
    put_line(rt, same)
}

/// Two machines in one arena.
fn two_machines(alloc: Global) -> Result<Pair> {
    let board = read_board(alloc, BOARD.as_bytes())?;
    Pair::new(alloc, &board)
}

/// What two machines leave after they ran by turns.
fn turned(alloc: Global, one: &Code, other: &Code, fuel: u64, steps: u64) -> Result<(Left, Left)> {
    ensure!(
        one.bytes.len() <= 256 && other.bytes.len() <= 256,
        "no room"
    );
    let mut pair = two_machines(alloc)?;
    pair.start_one(one.bytes.as_slice(), &one.frame, fuel);
    pair.start_other(other.bytes.as_slice(), &other.frame, fuel);
    pair.by_turns(fuel, steps)
}

/// Runs two machines by turns, and prints how each ended.
fn put_both(rt: &HostRuntime, one: &Code, other: &Code, fuel: u64, steps: u64) -> Result<()> {
    let (first, second) = turned(rt.alloc(), one, other, fuel, steps)?;
    put_turned(rt, one, fuel, &first)?;
    put_turned(rt, other, fuel, &second)
}

/// Runs two machines by turns.
fn turns(rt: &HostRuntime, words: &[&str]) -> Result<()> {
    let [fuel, steps, codes @ ..] = words else {
        bail!("turns FUEL STEPS CODE CODE");
    };
    let fuel = fuel.parse::<u64>()?;
    let steps = steps.parse::<u64>()?;
    turn_codes(rt, fuel, steps, codes)
}

/// Runs two machines by turns with the codes of eight words.
fn turn_codes(rt: &HostRuntime, fuel: u64, steps: u64, codes: &[&str]) -> Result<()> {
    ensure!(codes.len() == 8, "code is CODE PC R0 R1, twice");
    let one = code_of(rt.alloc(), &codes[..4])?;
    let other = code_of(rt.alloc(), &codes[4..])?;
    put_both(rt, &one, &other, fuel, steps)
}

/// Does a step on a target.
fn go(rt: &HostRuntime, trial: &mut Trial, words: &[&str]) -> Result<()> {
    let [name, rest @ ..] = words else {
        return Ok(());
    };
    match *name {
        "word" => store(trial, rest),
        "run" => run(rt, trial, rest),
        "slices" => slices(rt, trial, rest),
        "turns" => turns(rt, rest),
        "cells" if rest.is_empty() => put_bytes(rt, trial.cells()),
        "measure" => measure(rt, rest),
        _ => bail!("no step"),
    }
}

/// Does the step of a line, if it has one.
fn go_by(rt: &HostRuntime, trial: &mut Trial, line: &str) -> Result<()> {
    go(rt, trial, &words(rt.alloc(), line)?)
}

/// Prints the name of a case, or does the step of a line.
fn step(rt: &HostRuntime, trial: &mut Trial, line: &str) -> Result<()> {
    match line.strip_prefix("case ") {
        Some(name) => put_line(rt, name),
        None => go_by(rt, trial, line),
    }
}

/// The target of CODE and FAIL.
fn target_of(alloc: Global, code: &str, fail: &str) -> Result<Trial> {
    let (fail, board) = match fail.strip_suffix(" fpec") {
        Some(fail) => (fail, FPEC_BOARD),
        None => (fail, BOARD),
    };
    let fail = fail.parse::<u64>()?;
    let code = bytes_of(alloc, code)?;
    Trial::of(alloc, board, &code, fail)
}

/// Does the steps of some lines.
fn steps_of(rt: &HostRuntime, trial: &mut Trial, text: &str) -> Result<()> {
    for line in text.lines() {
        step(rt, trial, line)?;
    }
    Ok(())
}

/// CODE and FAIL, and the other lines.
fn parts(text: &str) -> Option<(&str, &str, &str)> {
    let (code, text) = text.split_once(' ')?;
    let (fail, text) = text.split_once('\n')?;
    Some((code, fail, text))
}

/// Makes a target, and does the steps of some lines.
fn go_on(rt: &HostRuntime, code: &str, fail: &str, text: &str) -> Result<()> {
    let mut trial = target_of(rt.alloc(), code, fail)?;
    steps_of(rt, &mut trial, text)
}

/// Makes the target that a text names first, and goes through its other lines.
fn go_through_one(rt: &HostRuntime, text: &str) -> Result<()> {
    let (code, fail, text) = parts(text).context("a target is CODE FAIL")?;
    go_on(rt, code, fail, text)
}

/// Goes through the lines. A case has one target or more, and begins with a target.
pub fn go_through(rt: &HostRuntime, text: &str) -> Result<()> {
    let mut targets = text.split("\nnew ");
    if let Some(name) = targets.next() {
        put_line(rt, name.trim_start_matches("case "))?;
    }
    for text in targets {
        go_through_one(rt, text)?;
    }
    Ok(())
}
