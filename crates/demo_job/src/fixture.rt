//! The board and the algorithm of the demonstration.
ghost use Rattle.std.specs.Prelude.{IfOk, IsSomeAnd, slice_get};
ghost use Rattle.board_file.specs.Shown.{shown as board_shown};
ghost use Rattle.board_file.specs.Text.{IsBoard};
ghost use Rattle.flm_descriptor.specs.Shown.{shown as flm_shown};
ghost use Rattle.flm_descriptor.specs.Flm.{IsFlm};
ghost use Rattle.flm_forge.specs.Listed.{listing_of};
ghost use Rattle.flm_forge.specs.Read.{IsForged};
ghost use Rattle.flm_forge.specs.declared.kind.Kind.TheVariants.{A1};
ghost use Rattle.demo_job.specs.Fixture.{board_text, IsFixture};
ghost use Rattle.demo_job.specs.Scene.{fixture_of};

use board_file::{Board, read_board};
use faults::OutOfMemory;
use flm_descriptor::{Algorithm, read_flm};
use flm_forge::{Kind, forge, listing};
use octets::Bytes;
use std::alloc::Global;

/// The text of the board. What it leaves out has its default.
pub(crate) const BOARD: &[u8] = b"\
    [ram]\n\
    base = 0x20000000\n\
    size = 4096\n\
    [[region]]\n\
    base = 0x08000000\n\
    sectors = [[64, 1024]]\n\
    [controller]\n\
    base = 0x40022000\n";

/// The length of a page in bytes.
const PAGE: u32 = 1024;

/// A board, an FLM file, and the algorithm of that file.
#[derive(Drop)]
pub(crate) struct Fixture {
    pub(crate) board: Board,
    pub(crate) flm: Bytes,
    pub(crate) algorithm: Algorithm,
}

/// The fixture of every demonstration.
pub(crate) fn make_fixture(alloc: Global) -> Result<Fixture, OutOfMemory>
    ensures { IfOk result (λ t. IsFixture (fixture_of t)) }
{
    let board = board(alloc)?;
    let flm = flm(alloc, &board)?;
    let algorithm = algorithm(alloc, &flm)?;
    Ok(Fixture {
        board,
        flm,
        algorithm,
    })
}

/// The board that the text describes; the text is that of a board.
#[tactic(auto, unfolding(crate::specs::Fixture::board_text))]
fn board(alloc: Global) -> Result<Board, OutOfMemory>
    ensures { IfOk result (λ b. IsBoard board_text (board_shown b)) }
{
    match read_board(alloc, BOARD) {
        Ok(board) => Ok(board),
        Err(_) => Err(OutOfMemory),
    }
}

/// The file of the algorithm A1 for a board.
fn flm(alloc: Global, board: &Board) -> Result<Bytes, OutOfMemory>
    ensures { IfOk result (λ file. IsSomeAnd (slice_get board.now.regions 0) (λ region. IsForged (listing_of A1 board.now.controller_base region 1024) file)) }
{
    let listing = listing(alloc, Kind::A1, board, PAGE)?;
    match forge(alloc, &listing) {
        Ok(flm) => Ok(flm),
        Err(_) => Err(OutOfMemory),
    }
}

/// The algorithm of a file.
fn algorithm(alloc: Global, flm: &Bytes) -> Result<Algorithm, OutOfMemory>
    ensures { IfOk result (λ a. IsFlm flm.now (flm_shown a)) }
{
    match read_flm(alloc, flm.bytes()) {
        Ok(algorithm) => Ok(algorithm),
        Err(_) => Err(OutOfMemory),
    }
}
