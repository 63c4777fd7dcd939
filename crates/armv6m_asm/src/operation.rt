//! What a statement does.
ghost use Rattle.std.specs.Prelude.{◌↔◌, ℕ, [], ◌∷◌, codes, IsTrue, MatchOption};
ghost use Rattle.armv6m_decode.specs.declared.instr.Instr.{Instr};
ghost use Rattle.armv6m_forms.specs.declared.form.Aim.{Aim};
ghost use Rattle.armv6m_asm.specs.Statement.{Are, exactly, number, ArePlain, AreAimed, AreOperation};
ghost use Rattle.armv6m_asm.specs.Token.{word, tokens_of};
ghost use Rattle.armv6m_asm.specs.declared.statement.Operation.{Operation};
ghost use Rattle.armv6m_asm.specs.declared.statement.Destination.{Destination};

use crate::destination::{last_destination, last_pair};
use crate::number::read_number;
use crate::operands::read_operands;
use crate::statement::{Destination, Operation};
use crate::token::{is_end, split_word};
use armv6m_decode::Instr;
use armv6m_forms::{Aim, instruction, read_branch, read_mnemonic};

/// Reads a text as an operation.
pub(crate) fn read_operation(line: &[u8]) -> Option<Operation<'_>>
    ensures { MatchOption result ((operation : Operation) → AreOperation operation (tokens_of line.now) → ⊥)
        (λ operation. AreOperation operation (tokens_of line.now)) }
{
    if is_end(line) {
        return Some(Operation::Nothing);
    }
    let (first, rest) = split_word(line)?;
    operation_of(first, rest)
}

/// Reads an operation by its first word and the text after it.
fn operation_of<'a>(first: &[u8], rest: &'a [u8]) -> Option<Operation<'a>>
    ensures { MatchOption result ((operation : Operation) → AreOperation operation (word first.now ∷ tokens_of rest.now) → ⊥)
        (λ operation. AreOperation operation (word first.now ∷ tokens_of rest.now)) }
{
    if is_align(first, rest) {
        Some(Operation::Align)
    } else if let Some(value) = read_word(first, rest) {
        Some(Operation::Word { value })
    } else if let Some(instr) = read_plain(first, rest) {
        Some(Operation::Plain { instr })
    } else if let Some((aim, destination)) = read_aimed(first, rest) {
        Some(Operation::Aimed { aim, destination })
    } else {
        None
    }
}

/// Whether the words are `.align` and nothing else.
fn is_align(first: &[u8], rest: &[u8]) -> bool
    ensures { IsTrue result ↔ Are (exactly (codes ".align") ∷ []) (word first.now ∷ tokens_of rest.now) }
{
    first == b".align".as_slice() && is_end(rest)
}

/// The value of a `.word`.
fn read_word(first: &[u8], rest: &[u8]) -> Option<u32>
    ensures { MatchOption result ((value : ℕ) → Are (exactly (codes ".word") ∷ number value ∷ []) (word first.now ∷ tokens_of rest.now) → ⊥)
        (λ value. Are (exactly (codes ".word") ∷ number value ∷ []) (word first.now ∷ tokens_of rest.now)) }
{
    if first != b".word".as_slice() {
        return None;
    }
    let (bytes, behind) = split_word(rest)?;
    if is_end(behind) {
        read_number(bytes)
    } else {
        None
    }
}

/// Reads an instruction without a destination.
fn read_plain(first: &[u8], rest: &[u8]) -> Option<Instr>
    ensures { MatchOption result ((instr : Instr) → ArePlain instr (word first.now ∷ tokens_of rest.now) → ⊥)
        (λ instr. ArePlain instr (word first.now ∷ tokens_of rest.now)) }
{
    let mnemonic = read_mnemonic(first)?;
    let operands = read_operands(rest)?;
    instruction(mnemonic, operands)
}

/// Reads an instruction with a destination.
fn read_aimed<'a>(first: &[u8], rest: &'a [u8]) -> Option<(Aim, Destination<'a>)>
    ensures { MatchOption result ((aim : Aim) (to : Destination) → AreAimed aim to (word first.now ∷ tokens_of rest.now) → ⊥)
        (λ aimed. AreAimed aimed.0 aimed.1 (word first.now ∷ tokens_of rest.now)) }
{
    if first == b"LDR".as_slice() {
        let (t, destination) = last_pair(rest)?;
        Some((Aim::Load { t }, destination))
    } else if first == b"ADR".as_slice() {
        let (d, destination) = last_pair(rest)?;
        Some((Aim::Address { d }, destination))
    } else {
        let aim = read_branch(first)?;
        let destination = last_destination(rest)?;
        Some((aim, destination))
    }
}
