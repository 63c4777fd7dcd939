//! The statements of the lines of a text.

ghost use Rattle.std.specs.Prelude.{◌≡◌, ◌↔◌, ◌<◌, ◌^◌, ◌+◌, false, IfOk, IfErr, IfSome, IsTrue, MatchOption};
ghost use Rattle.octets.specs.Lines.{lines_of};
ghost use Rattle.armv6m_asm.specs.Usable.{IsUsable};
ghost use Rattle.armv6m_asm.specs.Assembly.{IsAligned, IsRight, IsBad};
ghost use Rattle.armv6m_asm.specs.Passes.{ReadsAll, IsReadFault};

use crate::fault::AsmFault;
use crate::size::place_behind;
use crate::statement::{Operation, Statement, read_statement};
use octets::next_line;
use std::alloc::Global;

/// Reads each line as a statement. The fault names the first line that can't be read.
pub(crate) fn read_all(alloc: Global, text: &[u8]) -> Result<Vec<Statement<'_>>, AsmFault>
    ensures ok { IfOk result (λ statements. ReadsAll (lines_of text.now) statements.items) }
    ensures err { IfErr result (IsReadFault (lines_of text.now)) }
{
    let mut statements = Vec::new(alloc);
    let mut from = 0;
    let mut place = 0;
    while from < text.len() {
        let (start, end, next) = next_line(text, from);
        match read_line(&text[start..end], place) {
            Some(statement) => {
                place = place_behind(&statement.operation, place)?;
                statements.push(statement)?;
            }
            None => return Err(bad_line(statements.len())),
        }
        from = next;
    }
    Ok(statements)
}

/// The fault of the line that comes after `before` other lines.
fn bad_line(before: usize) -> AsmFault
    requires { before < 2 ^ 63 }
    ensures { result ≡ AsmFault.BadWord (before + 1) }
{
    AsmFault::BadWord {
        line: before as u64 + 1,
    }
}

/// Reads a line at a place as a statement.
fn read_line(line: &[u8], place: u32) -> Option<Statement<'_>>
    ensures cases { MatchOption result (IsBad line.now place) (IsRight line.now place) }
    ensures usable { IfSome result IsUsable }
{
    let statement = read_statement(line)?;
    if is_askew(&statement.operation, place) {
        None
    } else {
        Some(statement)
    }
}

/// Whether an operation is a `.word` at a place that isn't a multiple of 4.
fn is_askew(operation: &Operation, place: u32) -> bool
    ensures askew { IsTrue result ↔ (IsAligned operation.now place → ⊥) }
    ensures aligned { (result ≡ false) → IsAligned operation.now place }
{
    matches!(operation, Operation::Word { value: _ }) && place % 4 != 0
}
