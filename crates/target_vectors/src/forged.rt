//! Makes FLM files and inspects them. They are A1 to A7 for the board of one file, F1 and A1 for those of two others, and A1 and A2 for the
//! second region of a fourth. Last comes a listing with data and zeroed data. It prints what each file says, and its bytes. Then it prints,
//! for forged algorithms on five boards, whether they are A1 on a board that A1 serves.

mod data;
mod put;
mod serves;

use crate::files::board;
use anyhow::Result;
use board_file::Board;
use data::with_data;
use flm_forge::{Kind, listing, listing_at};
use put::put;
use std::fs;

/// Puts an algorithm with pages of `page` bytes.
fn put_kind(rt: &HostRuntime, name: &str, kind: Kind, board: &Board, page: u32) -> Result<()> {
    put(rt, name, &listing(rt.alloc(), kind, board, page)?)
}

/// Puts algorithms for the board of a file, with pages of `page` bytes.
fn put_kinds(rt: &HostRuntime, file: &str, page: u32, kinds: &[(&str, Kind)]) -> Result<()> {
    let board = board(rt, file)?;
    for (name, kind) in kinds {
        put_kind(rt, name, *kind, &board, page)?;
    }
    Ok(())
}

/// The algorithms for FC1.
const KINDS: [(&str, Kind); 7] = [
    ("A1", Kind::A1),
    ("A2", Kind::A2),
    ("A3", Kind::A3),
    ("A4", Kind::A4),
    ("A5", Kind::A5),
    ("A6", Kind::A6),
    ("A7", Kind::A7),
];

/// Puts an algorithm for the second region of a board, if it has two.
fn put_second(rt: &HostRuntime, name: &str, kind: Kind, board: &Board) -> Result<()> {
    if board.regions.as_slice().len() == 2 {
        put(rt, name, &listing_at(rt.alloc(), kind, board, 1, 64)?)
    } else {
        Ok(())
    }
}

/// Puts two algorithms for the second region of the board of a file.
fn put_seconds(rt: &HostRuntime, file: &str) -> Result<()> {
    let board = board(rt, file)?;
    for (name, kind) in [("A1 second", Kind::A1), ("A2 second", Kind::A2)] {
        put_second(rt, name, kind, &board)?;
    }
    Ok(())
}

/// Puts the listing with data.
fn put_data(rt: &HostRuntime) -> Result<()> {
    let text = fs::read(rt, "data.s")?;
    put(rt, "data", &with_data(rt.alloc(), text)?)
}

/// Puts all of them, and the answers.
pub fn put_all(rt: &HostRuntime) -> Result<()> {
    put_kinds(rt, "small.toml", 64, &KINDS)?;
    put_kinds(rt, "fpec.toml", 64, &[("F1", Kind::F1)])?;
    put_kinds(rt, "wide.toml", 1024, &[("wide", Kind::A1)])?;
    put_seconds(rt, "two.toml")?;
    put_data(rt)?;
    serves::put_answers(rt)
}
