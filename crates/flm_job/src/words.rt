//! The words of a command line, after the name of the job file.
ghost use Rattle.std.specs.Prelude.{[], ◌∷◌, IfSome, IfNone};
ghost use Rattle.command_words.specs.declared.command.TextForm.{TextForm};
ghost use Rattle.job_parts.specs.declared.part.Part.{Part};
ghost use Rattle.flm_job.specs.Words.{IsForm, AskFor, flm_name, snapshot_name};

use command_words::TextForm;
use job_parts::{Part, Place};
use octets::Word;

/// The form of a word.
fn read_form(word: &Word) -> Option<TextForm>
    ensures some { IfSome result (IsForm word.now) }
    ensures none { IfNone result ((form : TextForm) → IsForm word.now form → ⊥) }
{
    match word.bytes() {
        b"hex" => Some(TextForm::Hex),
        b"srec" => Some(TextForm::Srec),
        _ => None,
    }
}

/// The part that one word asks for.
fn read_one(word: &Word) -> Option<Part>
    ensures some { IfSome result (AskFor (word.now ∷ [])) }
    ensures none { IfNone result ((part : Part) → AskFor (word.now ∷ []) part → ⊥) }
{
    match word.bytes() {
        b"board" => Some(Part::Board),
        b"flm" => Some(Part::Flm(Place::First)),
        _ => None,
    }
}

/// The FLM file that a word asks for.
fn read_flm(word: &Word) -> Option<Part>
    ensures some { IfSome result (AskFor (flm_name ∷ word.now ∷ [])) }
    ensures none { IfNone result ((part : Part) → AskFor (flm_name ∷ word.now ∷ []) part → ⊥) }
{
    match word.bytes() {
        b"1" => Some(Part::Flm(Place::First)),
        b"2" => Some(Part::Flm(Place::Second)),
        _ => None,
    }
}

/// The form of a snapshot that a word asks for.
fn read_snapshot(word: &Word) -> Option<Part>
    ensures some { IfSome result (AskFor (snapshot_name ∷ word.now ∷ [])) }
    ensures none { IfNone result ((part : Part) → AskFor (snapshot_name ∷ word.now ∷ []) part → ⊥) }
{
    match word.bytes() {
        b"raw" => Some(Part::Snapshot),
        _ => None,
    }
}

/// The part that two words ask for.
fn read_two(word: &Word, detail: &Word) -> Option<Part>
    ensures some { IfSome result (AskFor (word.now ∷ detail.now ∷ [])) }
    ensures none { IfNone result ((part : Part) → AskFor (word.now ∷ detail.now ∷ []) part → ⊥) }
{
    match word.bytes() {
        b"flm" => read_flm(detail),
        b"image" => Some(Part::Image(read_form(detail)?)),
        b"snapshot" => read_snapshot(detail),
        _ => None,
    }
}

/// What words ask for, or none if they fit nothing.
pub fn read_part(words: &[Word]) -> Option<Part>
    ensures some { IfSome result (AskFor words.now) }
    ensures none { IfNone result ((part : Part) → AskFor words.now part → ⊥) }
{
    match words {
        [] => Some(Part::Listing),
        [word] => read_one(word),
        [word, detail] => read_two(word, detail),
        _ => None,
    }
}
