//! The files that the cases name.

use anyhow::Result;
use board_file::{Board, read_board};
use std::fs;

/// The board of a file.
pub fn board(rt: &HostRuntime, name: &str) -> Result<Board> {
    let text = fs::read(rt, name)?;
    Ok(read_board(rt.alloc(), &text)?)
}
