//! The tokens of a line.
ghost use Rattle.std.specs.Prelude.{◌≡◌, ◌≢◌, ◌≤◌, ◌↔◌, ℕ, List, [], ◌∷◌, length, false, slice_index, IsTrue, MatchOption};
ghost use Rattle.std.specs.List.{prefix_len};
ghost use Rattle.armv6m_asm.specs.Token.{Token as Piece, word, mark, is_blank, is_of_word, tokens_of};
ghost use Rattle.armv6m_asm.specs.Scanned.{token_of};

/// A token of a line.
#[derive(Clone, Copy)]
pub(crate) enum Token<'a> {
    /// A run of letters, digits, underscores and dots.
    Word { bytes: &'a [u8] },
    /// Any other byte that isn't a blank.
    Mark { byte: u8 },
}

/// The first token of a line and what follows it.
pub(crate) fn split_token(line: &[u8]) -> Option<(Token<'_>, &[u8])>
    ensures { MatchOption result (tokens_of line.now ≡ []) (λ split. tokens_of line.now ≡ token_of split.0 ∷ tokens_of split.1.now) }
{
    let text = without_blanks(line);
    let [byte, rest @ ..] = text else {
        return None;
    };
    if *byte == b';' {
        None
    } else if is_of_word(*byte) {
        let (word, rest) = text.split_at(word_len(text));
        Some((Token::Word { bytes: word }, rest))
    } else {
        Some((Token::Mark { byte: *byte }, rest))
    }
}

/// The word that a line begins with, and what follows it.
pub(crate) fn split_word(line: &[u8]) -> Option<(&[u8], &[u8])>
    ensures { MatchOption result ((bytes : List ℕ) (rest : List Piece) → tokens_of line.now ≢ word bytes ∷ rest)
        (λ split. tokens_of line.now ≡ word split.0.now ∷ tokens_of split.1.now) }
{
    match split_token(line)? {
        (Token::Word { bytes }, rest) => Some((bytes, rest)),
        (Token::Mark { .. }, _) => None,
    }
}

/// What follows a mark, if the line begins with this one.
pub(crate) fn skip_mark(line: &[u8], wanted: u8) -> Option<&[u8]>
    ensures { MatchOption result ((rest : List Piece) → tokens_of line.now ≢ mark wanted ∷ rest)
        (λ rest. tokens_of line.now ≡ mark wanted ∷ tokens_of rest.now) }
{
    match split_token(line)? {
        (Token::Mark { byte }, rest) if byte == wanted => Some(rest),
        _ => None,
    }
}

/// Whether a line has no token.
pub(crate) fn is_end(line: &[u8]) -> bool
    ensures { IsTrue result ↔ (tokens_of line.now ≡ []) }
{
    split_token(line).is_none()
}

/// A line without the blanks that it begins with.
fn without_blanks(line: &[u8]) -> &[u8]
    ensures same { tokens_of result.now ≡ tokens_of line.now }
    ensures first { is_blank (slice_index result.now 0) ≡ false }
{
    &line[blank_len(line)..]
}

/// How many blanks a line begins with.
fn blank_len(line: &[u8]) -> usize
    ensures len { result ≡ prefix_len is_blank line.now }
    ensures within { result ≤ length line.now }
{
    line.iter().take_while(|byte| is_blank(**byte)).count()
}

/// How many bytes the first word of a text has.
fn word_len(text: &[u8]) -> usize
    ensures len { result ≡ prefix_len is_of_word text.now }
    ensures within { result ≤ length text.now }
{
    text.iter().take_while(|byte| is_of_word(**byte)).count()
}

/// Whether a byte is a space or a tab.
fn is_blank(byte: u8) -> bool
    ensures { result ≡ is_blank byte }
{
    byte == b' ' || byte == b'\t'
}

/// Whether a byte belongs to a word.
fn is_of_word(byte: u8) -> bool
    ensures { result ≡ is_of_word byte }
{
    byte.is_ascii_alphanumeric() || byte == b'_' || byte == b'.'
}
