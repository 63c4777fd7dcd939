//! The words of the command line.
ghost use Rattle.std.specs.Prelude.{◌≡◌, ◌++◌, ◌∷◌, [], ◌↔◌, IsTrue, OnOk, drop, get_or};
ghost use Rattle.flm_main.specs.Line.{job_name, cells_name, words_for_one, IsForGang, words_for_gang};

use faults::OutOfMemory;
use octets::Word;
use std::alloc::Global;
use std::marker::Model;

/// The word in place of the job file's name where the words are for several devices.
const GANG: &str = "--gang";

/// The arguments of the program. The first is the program's own name. A contract sees the list of their bytes.
#[derive(Drop)]
pub struct Arguments {
    line: Vec<Word>,
}

impl Model for Arguments {
    ghost use Rattle.std.specs.Prelude.{ℕ, List};

    ghost Value = { List (List ℕ) };

    ghost view = { λ a. a.line.items };
}

impl Arguments {
    /// An empty list of arguments.
    pub fn new(alloc: Global) -> Arguments
        ensures { result ≡ [] }
    {
        Arguments {
            line: Vec::new(alloc),
        }
    }

    /// Takes the next argument.
    pub fn take(&mut self, argument: Word) -> Result<(), OutOfMemory>
        ensures { OnOk result (self.new ≡ self.old ++ argument ∷ []) }
    {
        self.line.push(argument)?;
        Ok(())
    }

    /// The arguments given by these words.
    pub fn of(line: Vec<Word>) -> Arguments
        ensures { result ≡ line.items }
    {
        Arguments { line }
    }

    /// The argument at this place, or an empty one if it is missing.
    fn text_at(&self, place: usize) -> &str
        ensures { result.now ≡ get_or self.now place [] }
    {
        match self.line.get(place) {
            Some(word) => word.text(),
            None => "",
        }
    }

    /// The arguments from this place on.
    fn words_from(&self, place: usize) -> &[Word]
        ensures { result.now ≡ drop place self.now }
    {
        let words = self.line.as_slice();
        &words[place.min(words.len())..]
    }

    /// Whether the arguments are for several devices.
    pub fn are_for_gang(&self) -> bool
        ensures { IsTrue result ↔ IsForGang self.now }
    {
        self.text_at(1) == GANG
    }

    /// The name of the device's job file.
    pub fn job(&self) -> &str
        requires { IsForGang self.now → ⊥ }
        ensures { result.now ≡ job_name self.now }
    {
        self.text_at(1)
    }

    /// The name of the device's cells file.
    pub fn cells(&self) -> &str
        requires { IsForGang self.now → ⊥ }
        ensures { result.now ≡ cells_name self.now }
    {
        self.text_at(2)
    }

    /// The command for the device, with the words of the command.
    pub fn words(&self) -> &[Word]
        requires { IsForGang self.now → ⊥ }
        ensures { result.now ≡ words_for_one self.now }
    {
        self.words_from(3)
    }

    /// The words for several devices: for each device the name of its job file, then the name of its cells file.
    pub fn gang_words(&self) -> &[Word]
        requires { IsForGang self.now }
        ensures { result.now ≡ words_for_gang self.now }
    {
        self.words_from(2)
    }
}
