//! A line of text of at most 64 bytes.
ghost use Rattle.std.specs.Prelude.{◌≡◌, ◌+◌, ◌≤◌, [], ◌++◌, length};

use arrayvec::ArrayVec;
use std::marker::Model;

/// Up to 64 bytes of text. A contract sees it as the list of its bytes.
#[derive(Drop)]
pub struct Line {
    text: ArrayVec<u8, 64>,
}

impl Model for Line {
    ghost use Rattle.std.specs.Prelude.{ℕ, List};

    ghost Value = { List ℕ };

    ghost view = { λ line. line.text.items };
}

impl Line {
    /// An empty line.
    pub fn new() -> Line
        ensures { result ≡ [] }
    {
        Line {
            text: ArrayVec::new(),
        }
    }

    /// The bytes of the line as a slice.
    pub fn bytes(&self) -> &[u8]
        ensures text { result.now ≡ self.now }
        ensures fits { length result.now ≤ 64 }
    {
        self.text.as_slice()
    }

    /// Makes the line empty.
    pub(crate) fn clear(&mut self)
        ensures { self.new ≡ [] }
    {
        self.text.clear();
    }

    /// Adds a piece of text at the end.
    pub(crate) fn put(&mut self, piece: &[u8])
        requires { length self.old + length piece.now ≤ 64 }
        ensures { self.new ≡ self.old ++ piece.now }
    {
        let _ = self.text.try_extend_from_slice(piece);
    }
}
