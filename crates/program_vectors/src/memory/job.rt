//! A job of random bytes, which is measured from outside.

use crate::memory::call::call_in;
use crate::memory::files::put_file;
use crate::memory::lines::first_of;
use crate::memory::trial::{Fails, MOST, Trial};
use crate::print::Piece::{Number, Text};
use crate::print::put;
use anyhow::{Result, ensure};
use bench_model::MemoryBench;
use std::alloc::Global;

/// The words of the call.
const CALL: &str = "program --raw-at 0x08000000 board.toml a1.flm image";

/// The algorithm, with pages of 1,024 bytes and 500 milliseconds for the erase of a sector.
const ALGORITHM: &str = "A1 board.toml 1024 500";

/// The most bytes that a job file has besides image and snapshot.
const BESIDE: u64 = 1 << 16;

/// The room for what is printed.
const PRINTED: usize = 1 << 23;

/// The first state of the generator of random bytes.
const SEED: u32 = 2_463_534_242;

/// Runs a job of random bytes, or puts its files into a folder: `SECTORS SIZE [FOLDER]`.
pub fn run_random(rt: &HostRuntime, text: &str) -> Result<()> {
    let mut trial = Trial::new(rt.alloc());
    run_in(rt, &mut trial, text)
}

/// Runs a job of random bytes, or puts its files into a folder, in a row that is given.
fn run_in(rt: &HostRuntime, trial: &mut Trial, text: &str) -> Result<()> {
    let (sectors, rest) = first_of(text);
    let (size, folder) = first_of(rest);
    make(
        rt.alloc(),
        trial,
        sectors.parse::<u32>()?,
        size.parse::<u32>()?,
    )?;
    if folder.is_empty() {
        return carry(rt, trial);
    }
    trial.files.put(rt, folder)?;
    put_file(rt, folder, "cells", &trial.cells)
}

/// Runs the job. Prints the status, and whether the cells are the image.
fn carry(rt: &HostRuntime, trial: &Trial) -> Result<()> {
    let mut bench = trial.bench_with(rt.alloc(), &trial.cells, &[], Fails::none())?;
    let status = carry_on(rt.alloc(), trial, &mut bench)?;
    let cells = if bench.cells() == trial.files.bytes("image")? {
        "\nsame\n"
    } else {
        "\nother cells\n"
    };
    put(rt, &[Number("status ", u32::from(status)), Text(cells)]);
    Ok(())
}

/// Runs the job on a bench, and answers the status.
fn carry_on(alloc: Global, trial: &Trial, bench: &mut MemoryBench) -> Result<u8> {
    let said = call_in(alloc, &trial.files, Fails::none(), bench, CALL, PRINTED)?;
    Ok(said.status)
}

/// Makes the files of the job, each under the name that the call gives it, and the cells before it. The device has `sectors` sectors of
/// `size` bytes. What the board's text doesn't say has its default. The record has room for the job: four units for each two bytes that are
/// programmed, and the bytes of the job file.
fn make(alloc: Global, trial: &mut Trial, sectors: u32, size: u32) -> Result<()> {
    let len = sectors.saturating_mul(size) as usize;
    ensure!(len <= MOST, "a device too large");
    trial.room = 2 * (2 * len as u64 + BESIDE);
    let mut state = SEED;
    let image = random_bytes(alloc, &mut state, len)?;
    trial.files.give(alloc, "image", image)?;
    trial.cells = random_bytes(alloc, &mut state, len)?;
    let board = format!(in alloc;
        "\
        [ram]\n\
        base = 0x20000000\n\
        size = 8192\n\
        [[region]]\n\
        base = 0x08000000\n\
        sectors = [[{sectors}, {size}]]\n\
        [controller]\n\
        base = 0x40022000\n\
    "
    )?;
    trial.files.give(alloc, "board.toml", board.into_bytes())?;
    let flm = trial.files.forged(alloc, ALGORITHM)?;
    trial.files.give(alloc, "a1.flm", flm)
}

/// The next `count` bytes of a generator (Marsaglia, Xorshift RNGs, 2003), which continues from its state.
fn random_bytes(alloc: Global, state: &mut u32, count: usize) -> Result<Vec<u8>> {
    let mut bytes = vec![in alloc; 0; count]?;
    for byte in bytes.iter_mut() {
        *state ^= *state << 13;
        *state ^= *state >> 17;
        *state ^= *state << 5;
        *byte = (*state % 256) as u8;
    }
    Ok(bytes)
}
