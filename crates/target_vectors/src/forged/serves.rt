//! Asks for forged algorithms whether they are A1 on a board that A1 serves. Each line has the board, the algorithm, the bytes of a page
//! and the answer. The last line says whether the text of A1 makes `A1_CODE`.

use crate::files::board;
use anyhow::Result;
use armv6m_asm::assemble;
use board_file::Board;
use flm_descriptor::read_flm;
use flm_forge::{Kind, Listing, forge, listing};
use serve_law::{A1_CODE, a1_serves};

/// The board of this name, from its file.
fn board_of(rt: &HostRuntime, name: &str) -> Result<Board> {
    let path = format!(in rt.alloc(); "{name}.toml")?;
    board(rt, path.as_str())
}

/// The answer for the algorithm of a listing.
fn answer(rt: &HostRuntime, board: &Board, listing: &Listing) -> Result<bool> {
    let file = forge(rt.alloc(), listing)?;
    let algorithm = read_flm(rt.alloc(), file.bytes())?;
    Ok(a1_serves(board, &algorithm))
}

/// Puts a line with an answer.
fn put_line(rt: &HostRuntime, name: &str, kind: Kind, page: u32, serves: bool) -> Result<()> {
    print!(rt; "{name} {kind:?} ")?;
    println!(rt; "{page} {serves}")?;
    Ok(())
}

/// Puts the answer for an algorithm with pages of `page` bytes.
fn put(rt: &HostRuntime, name: &str, board: &Board, kind: Kind, page: u32) -> Result<()> {
    let listing = listing(rt.alloc(), kind, board, page)?;
    put_line(rt, name, kind, page, answer(rt, board, &listing)?)
}

/// Puts the answers for algorithms on the board of this name.
fn put_all(rt: &HostRuntime, name: &str, algorithms: &[(Kind, u32)]) -> Result<()> {
    let board = board_of(rt, name)?;
    for &(kind, page) in algorithms {
        put(rt, name, &board, kind, page)?;
    }
    Ok(())
}

/// Whether the text of a listing makes the code of A1.
fn makes_code(rt: &HostRuntime, listing: &Listing) -> Result<bool> {
    let code = assemble(rt.alloc(), listing.text.bytes())?;
    Ok(code.bytes.bytes() == A1_CODE.as_slice())
}

/// Whether the text of A1 for a board makes the code.
fn a1_makes_code(rt: &HostRuntime, board: &Board) -> Result<bool> {
    let listing = listing(rt.alloc(), Kind::A1, board, 64)?;
    makes_code(rt, &listing)
}

/// Puts whether the text of A1 makes its code.
fn put_code(rt: &HostRuntime) -> Result<()> {
    let board = board(rt, "small.toml")?;
    put_code_on(rt, &board)
}

/// Puts whether the text of A1 for this board makes its code.
fn put_code_on(rt: &HostRuntime, board: &Board) -> Result<()> {
    println!(rt; "code {}", a1_makes_code(rt, board)?)?;
    Ok(())
}

/// The questions on the small board: A1 with the shortest and the longest page, A1 with a page too short and one too long, and the
/// algorithms that aren't A1.
const SMALL: [(Kind, u32); 10] = [
    (Kind::A1, 64),
    (Kind::A1, 2776),
    (Kind::A1, 63),
    (Kind::A1, 2778),
    (Kind::A2, 64),
    (Kind::A3, 64),
    (Kind::A4, 64),
    (Kind::A5, 64),
    (Kind::A6, 64),
    (Kind::A7, 64),
];

/// Puts the answers.
pub fn put_answers(rt: &HostRuntime) -> Result<()> {
    put_all(rt, "small", &SMALL)?;
    put_all(rt, "demo", &[(Kind::A1, 1024)])?;
    put_all(rt, "unit_4", &[(Kind::A1, 64)])?;
    put_all(rt, "fpec", &[(Kind::A1, 64), (Kind::F1, 64)])?;
    put_all(rt, "quiet", &[(Kind::A1, 64)])?;
    put_code(rt)
}
