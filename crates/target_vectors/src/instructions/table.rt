//! Compares the decoder with the values and masks of the table.

use crate::instructions::row::{half, words};
use anyhow::{Result, bail};
use armv6m_decode::{Decoded, decode16};
use std::alloc::Global;

#[derive(Clone, Copy)]
struct Row {
    value: u16,
    mask: u16,
    count: usize,
}

fn row_of(words: &[&str]) -> Result<Row> {
    let [value, mask, count] = words else {
        bail!("not three words");
    };
    Ok(Row {
        value: half(value)?,
        mask: half(mask)?,
        count: count.parse::<usize>()?,
    })
}

/// How many halfwords fit a row. Each of them is an instruction.
fn fitting(row: &Row) -> usize {
    (0..=u16::MAX)
        .filter(|half| *half & row.mask == row.value)
        .filter(|half| matches!(decode16(*half), Decoded::Op(_)))
        .count()
}

/// Checks that a halfword fits one row where it is an instruction, and otherwise none.
fn check_half(half: u16, rows: &[Row]) -> Result<()> {
    let fit = rows
        .iter()
        .filter(|row| half & row.mask == row.value)
        .count();
    let due = match decode16(half) {
        Decoded::Op(_) => 1,
        Decoded::NeedsSecond | Decoded::Undefined => 0,
    };
    if fit != due {
        bail!("{half:04X}: fits {fit} rows");
    }
    Ok(())
}

/// Appends the row of a line, if it has one.
fn push_row(rows: &mut Vec<Row>, line: &str, alloc: Global) -> Result<()> {
    let words = words(line, alloc)?;
    if !words.is_empty() {
        rows.push(row_of(&words)?)?;
    }
    Ok(())
}

/// The rows of a text.
fn rows_of(text: &str, alloc: Global) -> Result<Vec<Row>> {
    let mut rows = Vec::new(alloc);
    for line in text.lines() {
        push_row(&mut rows, line, alloc)?;
    }
    Ok(rows)
}

/// Compares each halfword and each row, and answers the number of rows.
fn check_rows(rows: &[Row]) -> Result<usize> {
    for row in rows {
        let found = fitting(row);
        if found != row.count {
            bail!("{:04X}: {found} halfwords", row.value);
        }
    }
    for half in 0..=u16::MAX {
        check_half(half, rows)?;
    }
    Ok(rows.len())
}

/// Compares the rows of a text, and answers their number.
pub fn check(text: &str, alloc: Global) -> Result<usize> {
    let rows = rows_of(text, alloc)?;
    check_rows(&rows)
}
