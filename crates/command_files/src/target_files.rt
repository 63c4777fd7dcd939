//! The files of a command on a target.
ghost use Rattle.std.specs.Prelude.{◌≤◌, All, IsSome, IfOk, length};
ghost use Rattle.std.specs.Option.{ForSome};
ghost use Rattle.command_words.specs.Files.{names_in};
ghost use Rattle.command_words.specs.Requested.{files_of};
ghost use Rattle.command_files.specs.Inputs.{inputs_call};
ghost use Rattle.command_files.specs.Steps.{ReadsTargetFiles};

use crate::take::{Files, take_files};
use crate::wanted::{Wanted, read_files};
use command_words::FileNames;
use octets::Bytes;
use outside_io::{Inputs, LONGEST};
use report_text::Refusal;
use std::alloc::Global;

/// What the files of a command on a target want, with the bytes of the board's text and of each region's FLM file.
#[derive(Drop)]
pub struct TargetFiles {
    pub board_text: Bytes,
    pub flm: Bytes,
    pub second: Option<Bytes>,
    pub wanted: Wanted,
}

/// Takes the files of a command on a target in the order of its words, and then reads them. It answers with the first file that can't be
/// taken, else with the first refusal.
pub fn read_target_files<'a, I: Inputs>(
    alloc: Global,
    names: &FileNames<'a>,
    inputs: &mut I,
) -> Result<TargetFiles, Refusal<'a>>
    requires has_flm { IsSome (files_of names.now).flm }
    requires may_take { All (I.may_take inputs.old) (names_in (files_of names.now)) }
    ensures reads { ReadsTargetFiles (inputs_call I.tells (I.state inputs.old) (I.state inputs.new)) (files_of names.now) result }
    ensures short_board { IfOk result (λ said. length said.board_text ≤ LONGEST) }
    ensures short_flm { IfOk result (λ said. length said.flm ≤ LONGEST) }
    ensures short_second { IfOk result (λ said. ForSome said.second (λ bytes. length bytes ≤ LONGEST)) }
{
    let files = take_files(alloc, names, inputs)?;
    let wanted = read_files(alloc, names, &files)?;
    let others = wanted.board.regions.as_slice().len() - 1;
    let Files {
        board: board_text,
        flm,
        mut images,
    } = files;
    images.truncate(others);
    Ok(TargetFiles {
        board_text,
        flm: flm.unwrap(),
        second: images.pop(),
        wanted,
    })
}
