//! Taking and reading the files.
ghost use Rattle.std.specs.Prelude.{All, IsSome};
ghost use Rattle.command_words.specs.Files.{names_in};
ghost use Rattle.command_words.specs.Requested.{files_of};
ghost use Rattle.command_files.specs.Inputs.{inputs_call};
ghost use Rattle.command_files.specs.Steps.{bytes_of};
ghost use Rattle.flm_check.specs.Steps.{ReadsBoardAlgorithms, TakesBoardAlgorithms};

use crate::board_algorithms::BoardAlgorithms;
use command_files::{Files, read_algorithms, read_text, take_files};
use command_words::FileNames;
use outside_io::Inputs;
use report_text::Refusal;
use std::alloc::Global;

/// Takes the files in the order of the words, and then reads them. The first file that can't be taken is answered, or else the
/// first refusal.
pub fn take_board_algorithms<'a, I: Inputs>(
    alloc: Global,
    names: &FileNames<'a>,
    inputs: &mut I,
) -> Result<BoardAlgorithms, Refusal<'a>>
    requires has_flm { IsSome (files_of names.now).flm }
    requires may_take { All (I.may_take inputs.old) (names_in (files_of names.now)) }
    ensures { TakesBoardAlgorithms (inputs_call I.tells (I.state inputs.old) (I.state inputs.new)) (files_of names.now) result }
{
    let files = take_files(alloc, names, inputs)?;
    read_board_algorithms(alloc, &files)
}

/// Reads the board, and then an FLM file for each of its regions. There must be as many files as regions.
fn read_board_algorithms<'a>(alloc: Global, files: &Files) -> Result<BoardAlgorithms, Refusal<'a>>
    requires { IsSome files.now.flm }
    ensures { ReadsBoardAlgorithms (bytes_of files.now) result }
{
    let board = read_text(alloc, files.board.bytes())?;
    let regions = board.regions.as_slice();
    let others = files.images.as_slice();
    let count = others.len() + 1;
    if count != regions.len() {
        return Err(Refusal::Usage);
    }
    let algorithms = read_algorithms(alloc, &board, &files.flm, others)?;
    Ok(BoardAlgorithms { board, algorithms })
}
