//! Compares the Armv6-M crates with what other tools and the manual say of the same code. It prints a line for each comparison, and ends
//! with an error at the first line that differs.

mod code;
mod compiled;
mod conditions;
mod ends;
mod row;
mod rows;
mod statements;
mod steps;
mod sums;
mod table;

use crate::lines::put_line;
use anyhow::{Context, Result};
use rows::Kind;
use std::fs;

/// The name of a file that the command line gives.
fn name<'a>(names: &[&'a str], index: usize) -> Result<&'a str> {
    Ok(*names.get(index).context("a file is missing")?)
}

/// The text of a file that the command line gives.
fn text(rt: &HostRuntime, names: &[&str], index: usize) -> Result<String> {
    Ok(fs::read_to_string(rt, name(names, index)?)?)
}

/// Prints a line: how many things were compared, and what they are.
fn put(rt: &HostRuntime, count: usize, what: &str) -> Result<()> {
    println!(rt; "{count} {what}")?;
    Ok(())
}

/// Compares the table.
fn check_table(rt: &HostRuntime, names: &[&str]) -> Result<()> {
    let text = text(rt, names, 0)?;
    let rows = table::check(text.as_str(), rt.alloc())?;
    put(rt, rows, "rows of the table")
}

/// Compares the rows of a file.
fn check_rows(
    rt: &HostRuntime,
    names: &[&str],
    index: usize,
    kind: Kind,
    what: &str,
) -> Result<()> {
    let text = text(rt, names, index)?;
    let rows = rows::check(kind, text.as_str(), rt.alloc())?;
    put(rt, rows, what)
}

/// Compares a text with the code of a file.
fn check_code(rt: &HostRuntime, text: &str, name: &str) -> Result<()> {
    let due = fs::read(rt, name)?;
    let bytes = statements::check_whole(text, &due, rt.alloc())?;
    put(rt, bytes, "bytes as binutils makes them")
}

/// Compares a whole text with the code that binutils make of it.
fn check_whole(rt: &HostRuntime, names: &[&str]) -> Result<()> {
    let code = name(names, 4)?;
    let text = text(rt, names, 3)?;
    check_code(rt, text.as_str(), code)
}

/// Runs compiled code.
fn check_compiled(rt: &HostRuntime, names: &[&str]) -> Result<()> {
    let code = fs::read(rt, name(names, 9)?)?;
    compiled::check(&code, rt.alloc())?;
    put_line(rt, "compiled code")
}

/// Steps, each file with its place among the names, and with what its rows are.
const STEPS: [(usize, Kind, &str); 4] = [
    (5, Kind::Step, "steps as QEMU makes them"),
    (6, Kind::Step, "steps worked out by hand"),
    (7, Kind::End, "ends"),
    (8, Kind::Condition, "conditions"),
];

/// Compares the steps.
fn check_steps(rt: &HostRuntime, names: &[&str]) -> Result<()> {
    for (index, kind, what) in STEPS {
        check_rows(rt, names, index, kind, what)?;
    }
    Ok(())
}

/// Makes all comparisons with these files.
pub fn check_all(rt: &HostRuntime, names: &[&str]) -> Result<()> {
    check_table(rt, names)?;
    check_rows(
        rt,
        names,
        1,
        Kind::Code,
        "instructions as binutils writes them",
    )?;
    check_rows(rt, names, 2, Kind::Statement, "texts")?;
    check_whole(rt, names)?;
    check_steps(rt, names)?;
    check_compiled(rt, names)?;
    check_rows(
        rt,
        names,
        10,
        Kind::Sum,
        "sums and shifts worked out by hand",
    )
}
