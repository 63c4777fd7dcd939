//! The words of a command line.
ghost use Rattle.std.specs.Prelude.{◌≡◌, ◌≤◌, ◌↔◌, [], ◌∷◌, ℕ, List, All, IsTrue, IfSome, IfNone, length, take};
ghost use Rattle.flm_check.specs.Words.{Asked, Asks, AreOptions, IsName};
ghost use Rattle.flm_check.specs.Requested.{asked_of, IsSetting};
ghost use Rattle.flm_check.specs.declared.words.Setting.{Setting};

use command_words::{FileNames, Names, read_number};
use duty_rounds::Rounds;
use octets::Word;

/// What the words ask for: a board, an FLM file for each of its regions, and the rounds to make.
#[derive(Clone, Copy)]
pub struct Request<'a> {
    pub names: FileNames<'a>,
    pub rounds: Rounds,
}

/// The number that an option gives.
#[derive(Clone, Copy)]
enum Setting {
    Seed(u32),
    Rounds(u32),
}

/// The number where no option gives one.
const NOT_GIVEN: u32 = 1;

/// Whether a word is a name: it doesn't begin with `-`.
fn is_name(word: &Word) -> bool
    ensures { IsTrue result ↔ IsName word.now }
{
    !word.bytes().starts_with(b"-")
}

/// How many names these words begin with, counted up to 1.
fn count_names(words: &[Word]) -> usize
    ensures few { result ≤ 1 }
    ensures inside { result ≤ length words.now }
    ensures names { All IsName (take result words.now) }
    ensures all { result ≡ 0 → (first : List ℕ) (rest : List (List ℕ)) → words.now ≡ first ∷ rest → IsName first → ⊥ }
{
    let [first, ..] = words else {
        return 0;
    };
    if is_name(first) { 1 } else { 0 }
}

/// The setting for a number of rounds. There is at least one round: no rounds would try nothing.
fn read_rounds(number: u32) -> Option<Setting>
    ensures some { IfSome result (λ setting. (setting ≡ Setting.Rounds number) × (1 ≤ number)) }
    ensures none { IfNone result (number ≡ 0) }
{
    if number == 0 {
        None
    } else {
        Some(Setting::Rounds(number))
    }
}

/// What an option and the word after it give.
fn read_setting(name: &Word, value: &Word) -> Option<Setting>
    ensures some { IfSome result (IsSetting name.now value.now) }
    ensures none { IfNone result ((setting : Setting) → IsSetting name.now value.now setting → ⊥) }
{
    let number = read_number(value.text(), 10)?;
    match name.bytes() {
        b"--seed" => Some(Setting::Seed(number)),
        b"--rounds" => read_rounds(number),
        _ => None,
    }
}

/// The rounds of one setting.
fn rounds_of(setting: Setting) -> Rounds
    ensures { (name word : List ℕ) → IsSetting name word setting → AreOptions (name ∷ word ∷ []) result.seed result.rounds }
{
    match setting {
        Setting::Seed(seed) => Rounds {
            seed,
            rounds: NOT_GIVEN,
        },
        Setting::Rounds(rounds) => Rounds {
            seed: NOT_GIVEN,
            rounds,
        },
    }
}

/// The rounds of two settings, which must be of different kinds.
fn rounds_of_both(one: Setting, other: Setting) -> Option<Rounds>
    ensures some { IfSome result (λ r. (name word other_name other_word : List ℕ) → IsSetting name word one → IsSetting other_name other_word other
        → AreOptions (name ∷ word ∷ other_name ∷ other_word ∷ []) r.seed r.rounds) }
    ensures none { IfNone result ((name word other_name other_word : List ℕ) → IsSetting name word one → IsSetting other_name other_word other
        → (seed rounds : ℕ) → AreOptions (name ∷ word ∷ other_name ∷ other_word ∷ []) seed rounds → ⊥) }
{
    match (one, other) {
        (Setting::Seed(seed), Setting::Rounds(rounds)) => Some(Rounds { seed, rounds }),
        (Setting::Rounds(rounds), Setting::Seed(seed)) => Some(Rounds { seed, rounds }),
        (Setting::Seed(_), Setting::Seed(_)) | (Setting::Rounds(_), Setting::Rounds(_)) => None,
    }
}

/// The rounds that options ask for. Each option may be given once.
fn read_options(options: &[Word]) -> Option<Rounds>
    ensures some { IfSome result (λ r. AreOptions options.now r.seed r.rounds) }
    ensures none { IfNone result ((seed rounds : ℕ) → AreOptions options.now seed rounds → ⊥) }
{
    match options {
        [] => Some(Rounds {
            seed: NOT_GIVEN,
            rounds: NOT_GIVEN,
        }),
        [name, value] => Some(rounds_of(read_setting(name, value)?)),
        [name, value, other_name, other_value] => {
            let one = read_setting(name, value)?;
            let other = read_setting(other_name, other_value)?;
            rounds_of_both(one, other)
        }
        _ => None,
    }
}

/// What words ask for, or none if they fit no call.
pub fn read_words(words: &[Word]) -> Option<Request<'_>>
    ensures some { IfSome result (λ request. Asks words.now (asked_of request)) }
    ensures none { IfNone result ((asked : Asked) → Asks words.now asked → ⊥) }
{
    let [board, flm, rest @ ..] = words else {
        return None;
    };
    if !is_name(board) || !is_name(flm) {
        return None;
    }
    let others = count_names(rest);
    let rounds = read_options(&rest[others..])?;
    Some(Request {
        names: FileNames {
            raw_at: None,
            board,
            flm: Some(flm),
            images: Names {
                words: &rest[..others],
            },
        },
        rounds,
    })
}
