//! A board as it was read, line by line.
ghost use Rattle.std.specs.List.{flat_map};
ghost use Rattle.board_file.specs.Shown.{shown};
ghost use Rattle.outside_io.specs.Puts.{Puts};
ghost use Rattle.job_parts.specs.Board.{ram_line, kind_word, controller_line, rates_line, weights_line, quiet_line, sectors_line, region_line};
ghost use Rattle.job_parts.specs.Board.{region_text, board_text};
ghost use Rattle.std.specs.Prelude.{◌≡◌};

use crate::pieces::put_pieces;
use board_file::{Board, ControllerKind, QuietRange, Region, SectorRun};
use itoa::Buffer;
use octets::hex_digits;
use outside_io::{OutputFault, Sink};

/// Puts what a board is. A fault may leave a beginning of it.
#[tactic(auto, unfolding(crate::specs::Board::board_text))]
pub fn put_board<O: Sink>(out: &mut O, board: &Board) -> Result<(), OutputFault>
    ensures { Puts O.tells (O.state out.old) (O.state out.new) (board_text (shown board.now)) result }
{
    put_ram(out, board)?;
    put_controller(out, board)?;
    put_rates(out, board)?;
    put_weights(out, board)?;
    put_quiet(out, board.quiet.as_slice())?;
    put_regions(out, board.regions.as_slice())
}

/// Puts the line of the RAM.
#[tactic(auto, unfolding(crate::specs::Board::ram_line))]
fn put_ram<O: Sink>(out: &mut O, board: &Board) -> Result<(), OutputFault>
    ensures { Puts O.tells (O.state out.old) (O.state out.new) (ram_line (shown board.now)) result }
{
    let mut of_size = Buffer::new();
    let mut of_stack = Buffer::new();
    let base = hex_digits::<8>(board.ram_base);
    let size = of_size.format(board.ram_size).as_bytes();
    let stack = of_stack.format(board.stack).as_bytes();
    put_pieces(out, &[b"ram ", &base, b" ", size, b" stack ", stack, b"\n"])
}

/// The word for a kind of controller.
fn kind_word(kind: ControllerKind) -> &'static [u8]
    ensures { result.now ≡ kind_word kind }
{
    match kind {
        ControllerKind::Fc1 => b"fc1",
        ControllerKind::Fpec => b"fpec",
    }
}

/// Puts the line of the flash controller.
#[tactic(auto, unfolding(crate::specs::Board::controller_line))]
fn put_controller<O: Sink>(out: &mut O, board: &Board) -> Result<(), OutputFault>
    ensures { Puts O.tells (O.state out.old) (O.state out.new) (controller_line (shown board.now)) result }
{
    let mut of_program = Buffer::new();
    let mut of_erase = Buffer::new();
    let mut of_chip = Buffer::new();
    let kind = kind_word(board.kind);
    let base = hex_digits::<8>(board.controller_base);
    let program = of_program.format(board.program_ticks).as_bytes();
    let erase = of_erase.format(board.erase_ticks).as_bytes();
    let chip = of_chip.format(board.chip_ticks).as_bytes();
    put_pieces(
        out,
        &[
            b"controller ",
            kind,
            b" ",
            &base,
            b" ticks ",
            program,
            b" ",
            erase,
            b" ",
            chip,
            b"\n",
        ],
    )
}

/// Puts the line of the clock.
#[tactic(auto, unfolding(crate::specs::Board::rates_line))]
fn put_rates<O: Sink>(out: &mut O, board: &Board) -> Result<(), OutputFault>
    ensures { Puts O.tells (O.state out.old) (O.state out.new) (rates_line (shown board.now)) result }
{
    let mut of_hz = Buffer::new();
    let mut of_steps = Buffer::new();
    let hz = of_hz.format(board.hz).as_bytes();
    let steps = of_steps.format(board.steps_per_ms).as_bytes();
    put_pieces(out, &[b"clock ", hz, b" steps ", steps, b"\n"])
}

/// Puts the line of the weights.
#[tactic(auto, unfolding(crate::specs::Board::weights_line))]
fn put_weights<O: Sink>(out: &mut O, board: &Board) -> Result<(), OutputFault>
    ensures { Puts O.tells (O.state out.old) (O.state out.new) (weights_line (shown board.now)) result }
{
    let mut of_sector = Buffer::new();
    let mut of_page = Buffer::new();
    let mut of_chip = Buffer::new();
    let sector = of_sector.format(board.weights.sector).as_bytes();
    let page = of_page.format(board.weights.page).as_bytes();
    let chip = of_chip.format(board.weights.chip).as_bytes();
    put_pieces(
        out,
        &[
            b"weights sector ",
            sector,
            b" page ",
            page,
            b" chip ",
            chip,
            b"\n",
        ],
    )
}

/// Puts a line for each quiet range.
fn put_quiet<O: Sink>(out: &mut O, ranges: &[QuietRange]) -> Result<(), OutputFault>
    ensures { Puts O.tells (O.state out.old) (O.state out.new) (flat_map quiet_line ranges.now) result }
{
    for range in ranges {
        put_range(out, *range)?;
    }
    Ok(())
}

/// Puts the line of a quiet range.
#[tactic(auto, unfolding(crate::specs::Board::quiet_line))]
fn put_range<O: Sink>(out: &mut O, range: QuietRange) -> Result<(), OutputFault>
    ensures { Puts O.tells (O.state out.old) (O.state out.new) (quiet_line range) result }
{
    let mut of_size = Buffer::new();
    let base = hex_digits::<8>(range.base);
    let size = of_size.format(range.size).as_bytes();
    put_pieces(out, &[b"quiet ", &base, b" ", size, b"\n"])
}

/// Puts the lines of each region.
fn put_regions<O: Sink>(out: &mut O, regions: &[Region]) -> Result<(), OutputFault>
    ensures { Puts O.tells (O.state out.old) (O.state out.new) (flat_map region_text regions.now) result }
{
    for region in regions {
        put_region(out, region)?;
    }
    Ok(())
}

/// Puts the lines of a region.
#[tactic(auto, unfolding(crate::specs::Board::region_text))]
fn put_region<O: Sink>(out: &mut O, region: &Region) -> Result<(), OutputFault>
    ensures { Puts O.tells (O.state out.old) (O.state out.new) (region_text region.now) result }
{
    put_region_line(out, region)?;
    put_sectors(out, region.sectors.as_slice())
}

/// Puts the line of a region.
#[tactic(auto, unfolding(crate::specs::Board::region_line))]
fn put_region_line<O: Sink>(out: &mut O, region: &Region) -> Result<(), OutputFault>
    ensures { Puts O.tells (O.state out.old) (O.state out.new) (region_line region.now) result }
{
    let mut of_size = Buffer::new();
    let mut of_unit = Buffer::new();
    let base = hex_digits::<8>(region.base);
    let size = of_size.format(region.size).as_bytes();
    let empty = hex_digits::<2>(u32::from(region.empty));
    let unit = of_unit.format(region.unit).as_bytes();
    put_pieces(
        out,
        &[
            b"region ", &base, b" ", size, b" empty ", &empty, b" unit ", unit, b"\n",
        ],
    )
}

/// Puts a line for each run of sectors.
fn put_sectors<O: Sink>(out: &mut O, runs: &[SectorRun]) -> Result<(), OutputFault>
    ensures { Puts O.tells (O.state out.old) (O.state out.new) (flat_map sectors_line runs.now) result }
{
    for run in runs {
        put_run(out, *run)?;
    }
    Ok(())
}

/// Puts the line of a run of sectors.
#[tactic(auto, unfolding(crate::specs::Board::sectors_line))]
fn put_run<O: Sink>(out: &mut O, run: SectorRun) -> Result<(), OutputFault>
    ensures { Puts O.tells (O.state out.old) (O.state out.new) (sectors_line run) result }
{
    let mut of_count = Buffer::new();
    let mut of_size = Buffer::new();
    let count = of_count.format(run.count).as_bytes();
    let size = of_size.format(run.size).as_bytes();
    put_pieces(out, &[b"sectors ", count, b" of ", size, b"\n"])
}
