//! Taking the files of a command.
ghost use Rattle.std.specs.Prelude.{◌≡◌, ◌≤◌, ◌↔◌, ◌∷◌, [], ℕ, List, All, length, IfOk, option_to_list, option_copied};
ghost use Rattle.std.specs.Option.{ForSome};
ghost use Rattle.std.specs.Result.{result_map_both};
ghost use Rattle.command_words.specs.Files.{names_in};
ghost use Rattle.command_words.specs.Names.{names_of};
ghost use Rattle.command_words.specs.Requested.{files_of};
ghost use Rattle.command_files.specs.Inputs.{inputs_call};
ghost use Rattle.command_files.specs.Steps.{TakesEach, TakesFiles, AreShort};

use command_words::{FileNames, Names};
use octets::{Bytes, Word};
use outside_io::{Inputs, LONGEST, TakeFault};
use report_text::Refusal;
use std::alloc::Global;

/// The bytes of a command's files: a board, an FLM file if the command has one, and the other files.
#[derive(Drop)]
pub struct Files {
    pub board: Bytes,
    pub flm: Option<Bytes>,
    pub images: Vec<Bytes>,
}

/// Takes the files of a command in the order of its words, up to the first that can't be taken.
pub fn take_files<'a, I: Inputs>(
    alloc: Global,
    names: &FileNames<'a>,
    inputs: &mut I,
) -> Result<Files, Refusal<'a>>
    requires { All (I.may_take inputs.old) (names_in (files_of names.now)) }
    ensures takes { TakesFiles (inputs_call I.tells (I.state inputs.old) (I.state inputs.new)) (files_of names.now) (names_in (files_of names.now)) result }
    ensures short { IfOk result AreShort }
{
    let board = take_one(alloc, names.board, inputs)?;
    let flm = take_optional(alloc, names.flm, inputs)?;
    let images = take_each(alloc, &names.images, inputs)?;
    Ok(Files { board, flm, images })
}

/// Takes one file.
pub fn take_one<'a, I: Inputs>(
    alloc: Global,
    name: &'a Word,
    inputs: &mut I,
) -> Result<Bytes, Refusal<'a>>
    requires { I.may_take inputs.old name.now }
    ensures takes { TakesEach (inputs_call I.tells (I.state inputs.old) (I.state inputs.new)) (name.now ∷ [])
        (result_map_both (λ file. file ∷ []) (λ e. e) result) }
    ensures short { IfOk result (λ file. length file ≤ LONGEST) }
    ensures stands { (other : List ℕ) → (I.state inputs.new).stands other ≡ (I.state inputs.old).stands other }
    ensures leave { (other : List ℕ) → I.may_take inputs.new other ↔ I.may_take inputs.old other }
{
    match inputs.take(alloc, name) {
        Ok(bytes) => Ok(bytes),
        Err(TakeFault::OutOfMemory) => Err(Refusal::OutOfMemory),
        Err(TakeFault::InputFault) => Err(Refusal::InputFault { name }),
    }
}

/// Takes the file of a name, where there is one.
fn take_optional<'a, I: Inputs>(
    alloc: Global,
    name: Option<&'a Word>,
    inputs: &mut I,
) -> Result<Option<Bytes>, Refusal<'a>>
    requires { All (I.may_take inputs.old) (option_to_list (option_copied name)) }
    ensures takes { TakesEach (inputs_call I.tells (I.state inputs.old) (I.state inputs.new)) (option_to_list (option_copied name.entry))
        (result_map_both option_to_list (λ e. e) result) }
    ensures short { IfOk result (λ file. ForSome file (λ bytes. length bytes ≤ LONGEST)) }
    ensures stands { (other : List ℕ) → (I.state inputs.new).stands other ≡ (I.state inputs.old).stands other }
    ensures leave { (other : List ℕ) → I.may_take inputs.new other ↔ I.may_take inputs.old other }
{
    match name {
        None => Ok(None),
        Some(name) => match take_one(alloc, name, inputs) {
            Ok(bytes) => Ok(Some(bytes)),
            Err(refusal) => Err(refusal),
        },
    }
}

/// Takes the file of each name, in turn.
fn take_each<'a, I: Inputs>(
    alloc: Global,
    names: &Names<'a>,
    inputs: &mut I,
) -> Result<Vec<Bytes>, Refusal<'a>>
    requires { All (I.may_take inputs.old) (names_of names.now) }
    ensures takes { TakesEach (inputs_call I.tells (I.state inputs.old) (I.state inputs.new)) (names_of names.now)
        (result_map_both (λ files. files.items) (λ e. e) result) }
    ensures short { IfOk result (λ files. All (λ bytes. length bytes ≤ LONGEST) files.items) }
{
    let mut files = Vec::new(alloc);
    for index in 0..names.len() {
        let bytes = take_one(alloc, names.name(index), inputs)?;
        if files.push(bytes).is_err() {
            return Err(Refusal::OutOfMemory);
        }
    }
    Ok(files)
}
