//! The lines of a file of plans, one command each:
//!
//! - `device SIZE PAGE ITEM..`: a blank device. Each item is SIZE@OFFSET.
//! - `weights SECTOR PAGE CHIP`: what it costs to erase a sector, to program a page and to erase the chip. `entry yes` or `entry no`:
//!   whether the algorithm can erase the chip.
//! - `old AT LEN VALUE`: sets LEN bytes of the old and of the wanted contents from a place on. The value `count` is the place modulo 256.
//! - `want AT LEN VALUE`: sets LEN bytes of the wanted contents alone, with the values of `old`.
//! - `plan NAME`: prints the plan.
//! - `lists VALUES`: tries every list of up to four actions between contents of VALUES values.

use crate::plans::device::{Item, geometry_of};
use crate::plans::lists::try_lists;
use crate::plans::trial::{EMPTY, Trial, show_plan};
use anyhow::{Context, Result, bail};
use board_file::Weights;
use page_geometry::Geometry;
use std::alloc::Global;

/// Does what each line says.
pub fn run_lines(rt: &HostRuntime, flm: &[u8], text: &str) -> Result<()> {
    let weights = Weights {
        sector: 100,
        page: 10,
        chip: 2000,
    };
    let mut trial = device(rt.alloc(), flm, weights, "1 1 1@0")?;
    run_all(rt, flm, text, &mut trial)
}

/// Does what each line says, from a trial on.
fn run_all(rt: &HostRuntime, flm: &[u8], text: &str, trial: &mut Trial) -> Result<()> {
    for line in text.lines() {
        run_line(rt, flm, line, trial)?;
    }
    Ok(())
}

/// Does what a line says.
fn run_line(rt: &HostRuntime, flm: &[u8], line: &str, trial: &mut Trial) -> Result<()> {
    let (command, rest) = line.split_once(' ').context("a command has words")?;
    match command {
        "device" => change_device(rt.alloc(), flm, rest, trial),
        "weights" => change_weights(rest, trial),
        "entry" => change_entry(rest, trial),
        "old" => fill_both(rest, trial),
        "want" => fill(&mut trial.want, rest),
        "plan" => show_plan(rt, rest, trial),
        "lists" => try_lists(rt, trial, number(Some(rest))? as usize),
        _ => bail!("no command: {line}"),
    }
}

/// Gives a trial other weights.
fn change_weights(text: &str, trial: &mut Trial) -> Result<()> {
    trial.weights = weights(text)?;
    Ok(())
}

/// Says whether the algorithm of a trial can erase the chip.
fn change_entry(text: &str, trial: &mut Trial) -> Result<()> {
    trial.has_chip = text == "yes";
    Ok(())
}

/// Sets some bytes of both contents.
fn fill_both(text: &str, trial: &mut Trial) -> Result<()> {
    fill(&mut trial.old, text)?;
    fill(&mut trial.want, text)
}

/// Replaces the device of a trial by a blank one, and keeps all else.
fn change_device(alloc: Global, flm: &[u8], text: &str, trial: &mut Trial) -> Result<()> {
    let has_chip = trial.has_chip;
    *trial = device(alloc, flm, trial.weights, text)?;
    trial.has_chip = has_chip;
    Ok(())
}

/// A sector item: its size and its offset.
fn item(word: &str) -> Result<Item> {
    let Some((size, offset)) = word.split_once('@') else {
        bail!("no item: {word}");
    };
    Ok(Item {
        size: number(Some(size))?,
        offset: number(Some(offset))?,
    })
}

/// The sector items that come after the size and the page of a device.
fn items_of(alloc: Global, text: &str) -> Result<Vec<Item>> {
    let mut items = Vec::new(alloc);
    for word in text.split_whitespace().skip(2) {
        items.push(item(word)?)?;
    }
    Ok(items)
}

/// The geometry of a device: its size, its page and its items.
fn shape(alloc: Global, flm: &[u8], text: &str) -> Result<Geometry> {
    let mut words = text.split_whitespace();
    let size = number(words.next())?;
    let page = number(words.next())?;
    let items = items_of(alloc, text)?;
    geometry_of(alloc, flm, size, page, &items)
}

/// A blank device.
fn device(alloc: Global, flm: &[u8], weights: Weights, text: &str) -> Result<Trial> {
    let geometry = shape(alloc, flm, text)?;
    let old = blank(alloc, geometry.size())?;
    let want = blank(alloc, geometry.size())?;
    Ok(Trial {
        geometry,
        weights,
        has_chip: false,
        old,
        want,
    })
}

/// Contents of empty bytes.
fn blank(alloc: Global, size: u32) -> Result<Vec<u8>> {
    let mut cells = Vec::new(alloc);
    cells.resize(size as usize, EMPTY)?;
    Ok(cells)
}

/// The weights of a sector, a page and the chip.
fn weights(text: &str) -> Result<Weights> {
    let mut words = text.split_whitespace();
    Ok(Weights {
        sector: number(words.next())?,
        page: number(words.next())?,
        chip: number(words.next())?,
    })
}

/// Sets bytes of contents. The words say from which place on, how many, and to which value.
fn fill(cells: &mut [u8], text: &str) -> Result<()> {
    let mut words = text.split_whitespace();
    let at = number(words.next())? as usize;
    let len = number(words.next())? as usize;
    let value = match words.next() {
        Some("count") => None,
        word => Some((number(word)? % 256) as u8),
    };
    for (place, cell) in cells.iter_mut().enumerate().skip(at).take(len) {
        *cell = value.unwrap_or((place % 256) as u8);
    }
    Ok(())
}

/// A decimal number.
fn number(word: Option<&str>) -> Result<u32> {
    let word = word.context("a number is wanted")?;
    Ok(word.parse::<u32>()?)
}
