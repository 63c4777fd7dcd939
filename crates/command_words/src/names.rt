//! The names among the words of a command line.
ghost use Rattle.std.specs.Prelude.{◌≡◌, ◌<◌, Some, length, slice_get};
ghost use Rattle.command_words.specs.Names.{names_of};

use octets::Word;

/// Names in a command line, in the order of its words.
#[derive(Clone, Copy)]
pub struct Names<'a> {
    pub words: &'a [Word],
}

impl<'a> Names<'a> {
    /// How many names there are.
    pub fn len(&self) -> usize
        ensures { result ≡ length (names_of self.now) }
    {
        self.words.len()
    }

    /// The name with this number.
    pub fn name(&self, index: usize) -> &'a Word
        requires { index < length (names_of self.now) }
        ensures { slice_get (names_of self.now) index ≡ Some result.now }
    {
        let words = self.words;
        &words[index]
    }
}
