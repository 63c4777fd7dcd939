//! Whether a command may have these addresses and positional words.
ghost use Rattle.std.specs.Prelude.{◌≡◌, ◌↔◌, ℕ, List, [], ◌∷◌, IfSome, IfNone, IsTrue, Option, None, length, option_map};
ghost use Rattle.command_words.specs.Files.{FilesAsked};
ghost use Rattle.command_words.specs.Fits.{Fitted};
ghost use Rattle.command_words.specs.Lines.{Gives, Spells};
ghost use Rattle.command_words.specs.Requested.{files_of, command_of};
ghost use Rattle.command_words.specs.declared.command.TextForm.{TextForm};
ghost use Rattle.command_words.specs.Words.{form_text, AreFew, Positional, HasOneNumber, HasBoardAndImages, HasTargetAndImages};

use crate::address::{read_address, read_number};
use crate::command::{CommandName, FileNames, Request, TextForm};
use crate::names::Names;
use command_line::Line;
use octets::Word;

/// The command that a line asks for under this name, or none if the line doesn't fit it.
pub fn read_command(name: CommandName, line: &Line) -> Option<Request<'_>>
    ensures { (others : List (List ℕ)) → Spells others line.now → Fitted name others (option_map command_of result) }
{
    match name {
        CommandName::Program => Some(Request::Program(target_and_images(line)?)),
        CommandName::Begin => Some(Request::Begin(target_and_images(line)?)),
        CommandName::Resume => has_no_name(line).then_some(Request::Resume),
        CommandName::Revert => has_no_name(line).then_some(Request::Revert),
        CommandName::Plan => Some(Request::Plan(target_and_images(line)?)),
        CommandName::Verify => Some(Request::Verify(board_and_images(line)?)),
        CommandName::Compare => Some(Request::Compare {
            image: only_name(line)?,
        }),
        CommandName::Status => has_no_name(line).then_some(Request::Status),
        CommandName::Inspect => Some(Request::Inspect {
            flm: only_name(line)?,
        }),
        CommandName::Dump => {
            let (form, board) = form_and_board(line)?;
            Some(Request::Dump { form, board })
        }
        CommandName::Demo => Some(Request::Demo {
            seed: only_number(line)?,
        }),
    }
}

/// The most images that a command may have.
const MOST_IMAGES: usize = 16;

/// The address and the files of `verify`: a board and 1 to 16 images, or one image with an address.
fn board_and_images(line: &Line) -> Option<FileNames<'_>>
    ensures some { IfSome result (λ files. (others : List (List ℕ)) → Spells others line.now → HasBoardAndImages others (files_of files)) }
    ensures none { IfNone result ((others : List (List ℕ)) → Spells others line.now → (files : FilesAsked) → HasBoardAndImages others files → ⊥) }
{
    let raw_at = raw_at(&line.addresses)?;
    let [board, images @ ..] = line.names.as_slice() else {
        return None;
    };
    if !are_few(raw_at, images.len()) {
        return None;
    }
    Some(FileNames {
        raw_at,
        board,
        flm: None,
        images: Names { words: images },
    })
}

/// The address and the files of a command on a target: a board, an FLM file and 1 to 16 images, or one image with an address.
fn target_and_images(line: &Line) -> Option<FileNames<'_>>
    ensures some { IfSome result (λ files. (others : List (List ℕ)) → Spells others line.now → HasTargetAndImages others (files_of files)) }
    ensures none { IfNone result ((others : List (List ℕ)) → Spells others line.now → (files : FilesAsked) → HasTargetAndImages others files → ⊥) }
{
    let raw_at = raw_at(&line.addresses)?;
    let [board, flm, images @ ..] = line.names.as_slice() else {
        return None;
    };
    if !are_few(raw_at, images.len()) {
        return None;
    }
    Some(FileNames {
        raw_at,
        board,
        flm: Some(flm),
        images: Names { words: images },
    })
}

/// The address that the options give, if there is at most one option; none if they don't fit.
fn raw_at(addresses: &[Word]) -> Option<Option<u32>>
    ensures some { IfSome result (Gives addresses.now) }
    ensures none { IfNone result ((at : Option ℕ) → Gives addresses.now at → ⊥) }
{
    match addresses {
        [] => Some(None),
        [address] => Some(Some(read_address(address.text())?)),
        _ => None,
    }
}

/// Whether this number of images is allowed.
fn are_few(raw_at: Option<u32>, images: usize) -> bool
    ensures { IsTrue result ↔ AreFew raw_at images }
{
    match raw_at {
        None => images > 0 && images <= MOST_IMAGES,
        Some(_) => images == 1,
    }
}

/// The positional word, if there is exactly one and no address.
fn only_name(line: &Line) -> Option<&Word>
    ensures some { IfSome result (λ name. (others : List (List ℕ)) → Spells others line.now → Positional others (name.now ∷ [])) }
    ensures none { IfNone result ((others : List (List ℕ)) → Spells others line.now → (name : List ℕ) → Positional others (name ∷ []) → ⊥) }
{
    if !has_no_address(line) {
        return None;
    }
    let [name, others @ ..] = line.names.as_slice() else {
        return None;
    };
    if !others.is_empty() {
        return None;
    }
    Some(name)
}

/// The format and the board of `dump`: the two positional words, if there are exactly two and no address.
fn form_and_board(line: &Line) -> Option<(TextForm, &Word)>
    ensures some { IfSome result (λ p. (others : List (List ℕ)) → Spells others line.now → Positional others (form_text p.0 ∷ p.1.now ∷ [])) }
    ensures none { IfNone result ((others : List (List ℕ)) → Spells others line.now → (form : TextForm) (board : List ℕ)
        → Positional others (form_text form ∷ board ∷ []) → ⊥) }
{
    if !has_no_address(line) {
        return None;
    }
    let [form, board, others @ ..] = line.names.as_slice() else {
        return None;
    };
    if !others.is_empty() {
        return None;
    }
    let form = TextForm::read(form)?;
    Some((form, board))
}

/// The positional word as a number in decimal digits, if there is exactly one and no address.
fn only_number(line: &Line) -> Option<u32>
    ensures some { IfSome result (λ number. (others : List (List ℕ)) → Spells others line.now → HasOneNumber others number) }
    ensures none { IfNone result ((others : List (List ℕ)) → Spells others line.now → (number : ℕ) → HasOneNumber others number → ⊥) }
{
    let word = only_name(line)?;
    read_number(word.text(), 10)
}

/// Whether there is no address.
fn has_no_address(line: &Line) -> bool
    ensures { IsTrue result ↔ (length line.now.addresses.items ≡ 0) }
{
    line.addresses.is_empty()
}

/// Whether there is no positional word and no address.
fn has_no_name(line: &Line) -> bool
    ensures { (others : List (List ℕ)) → Spells others line.now → (IsTrue result ↔ Positional others []) }
{
    line.addresses.is_empty() && line.names.is_empty()
}
