//! The statement of a line.
ghost use Rattle.std.specs.Prelude.{◌≡◌, ◌≢◌, ℕ, List, ◌∷◌, MatchOption};
ghost use Rattle.armv6m_asm.specs.Token.{Token, word, mark, tokens_of};
ghost use Rattle.armv6m_asm.specs.Statement.{IsStatement};
ghost use Rattle.armv6m_asm.specs.declared.statement.Statement.{Statement};

use crate::destination::is_name;
use crate::operation::read_operation;
use crate::token::{skip_mark, split_word};
use armv6m_decode::Instr;
use armv6m_forms::Aim;

/// The destination of an instruction as the text has it.
#[derive(Clone, Copy)]
pub enum Destination<'a> {
    /// The name of a label.
    Label { name: &'a [u8] },
    /// `0x` and eight hexadecimal digits.
    Address { address: u32 },
}

/// What a statement does at its place.
#[derive(Clone, Copy)]
pub enum Operation<'a> {
    /// Nothing: the line has only a label, only a comment, both, or neither.
    Nothing,
    /// `.word value`: four bytes.
    Word {
        value: u32,
    },
    /// `.align`: pads with `NOP` to a multiple of 4.
    Align,
    /// An instruction without a destination.
    Plain {
        instr: Instr,
    },
    /// An instruction with a destination.
    Aimed {
        aim: Aim,
        destination: Destination<'a>,
    },
}

/// The statement of a line.
#[derive(Clone, Copy)]
pub struct Statement<'a> {
    pub label: Option<&'a [u8]>,
    pub operation: Operation<'a>,
}

/// Reads a line as a statement.
pub(crate) fn read_statement(line: &[u8]) -> Option<Statement<'_>>
    ensures { MatchOption result ((statement : Statement) → IsStatement line.now statement → ⊥) (λ statement. IsStatement line.now statement) }
{
    match split_label(line) {
        None => {
            let operation = read_operation(line)?;
            Some(Statement {
                label: None,
                operation,
            })
        }
        Some((name, rest)) if is_name(name) => {
            let operation = read_operation(rest)?;
            Some(Statement {
                label: Some(name),
                operation,
            })
        }
        Some(_) => None,
    }
}

/// The word before the colon that a line has as its second token, and what follows the colon.
fn split_label(line: &[u8]) -> Option<(&[u8], &[u8])>
    ensures { MatchOption result ((name : List ℕ) (rest : List Token) → tokens_of line.now ≢ word name ∷ mark 58 ∷ rest)
        (λ split. tokens_of line.now ≡ word split.0.now ∷ mark 58 ∷ tokens_of split.1.now) }
{
    let (name, rest) = split_word(line)?;
    let rest = skip_mark(rest, b':')?;
    Some((name, rest))
}
