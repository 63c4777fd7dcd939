//! The law on the words of a command line.
ghost use Rattle.std.specs.Prelude.{◌≡◌, ℕ, List};
ghost use Rattle.command_words.specs.Words as words;

/// A list of words asks for at most one command.
pub fn words_ask_for_one_command()
    ensures { (given : List (List ℕ)) (one other : words.Command) → words.Asks given one → words.Asks given other → one ≡ other }
{}
