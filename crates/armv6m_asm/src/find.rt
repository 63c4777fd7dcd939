//! The labels of the statements, and whether each destination is one of them.

ghost use Rattle.std.specs.Prelude.{◌≡◌, ◌<◌, ◌^◌, All, Contains, IfOk, IfErr, IfSome, OnOk};
ghost use Rattle.std.specs.Str.{IsAscii};
ghost use Rattle.armv6m_asm.specs.Usable.{IsUsable, IsUsableOperation};
ghost use Rattle.armv6m_asm.specs.Label.{names_of};
ghost use Rattle.armv6m_asm.specs.Assembly.{place_after, label_at, named_by, destinations_of};
ghost use Rattle.armv6m_asm.specs.Passes.{FindsLabels, AddsLabels, IsAddFault, IsLabelFault, IsMissingFault, IsDestinationFault};

use crate::fault::AsmFault;
use crate::labels::{Label, Labels};
use crate::size::size;
use crate::statement::{Destination, Operation, Statement};
use faults::OutOfMemory;
use octets::Word;
use std::alloc::Global;

/// The labels of the statements, each with its place. The fault names the first label that stands twice.
pub(crate) fn find_labels(alloc: Global, statements: &[Statement]) -> Result<Labels, AsmFault>
    requires usable { All IsUsable statements.now }
    requires fits { place_after 0 statements.now < 2 ^ 32 }
    ensures ok { IfOk result (FindsLabels statements.now) }
    ensures err { IfErr result (IsLabelFault statements.now) }
{
    let mut labels = Labels::new(alloc);
    let mut place = 0;
    for statement in statements {
        add_label(alloc, &mut labels, statement.label, place)?;
        place += size(&statement.operation, place);
    }
    Ok(labels)
}

/// Adds the label of a statement, if it has one.
fn add_label(
    alloc: Global,
    labels: &mut Labels,
    label: Option<&[u8]>,
    place: u32,
) -> Result<(), AsmFault>
    requires { IfSome label (λ name. IsAscii name.now) }
    ensures ok { OnOk result (AddsLabels labels.old labels.new (label_at label.entry place)) }
    ensures err { IfErr result (IsAddFault labels.old (label_at label.entry place)) }
{
    let Some(name) = label else {
        return Ok(());
    };
    let word = copy_name(alloc, name)?;
    if labels.get(name).is_some() {
        return Err(AsmFault::TwiceLabel { name: word });
    }
    labels.push(Label { name: word, place })?;
    Ok(())
}

/// Checks that each destination that is a name is a label. The fault names the first that isn't.
pub(crate) fn check_destinations(
    alloc: Global,
    statements: &[Statement],
    labels: &Labels,
) -> Result<(), AsmFault>
    requires { All IsUsable statements.now }
    ensures ok { OnOk result (All (Contains (names_of labels.now)) (destinations_of statements.now)) }
    ensures err { IfErr result (IsDestinationFault (destinations_of statements.now) (names_of labels.now)) }
{
    for statement in statements {
        check_destination(alloc, &statement.operation, labels)?;
    }
    Ok(())
}

/// Checks that the destination of a statement is a label, if it is a name.
fn check_destination(alloc: Global, operation: &Operation, labels: &Labels) -> Result<(), AsmFault>
    requires { IsUsableOperation operation.now }
    ensures ok { OnOk result (All (Contains (names_of labels.now)) (named_by operation.now)) }
    ensures err { IfErr result (IsMissingFault operation.now (names_of labels.now)) }
{
    let Operation::Aimed {
        aim: _,
        destination: Destination::Label { name },
    } = *operation
    else {
        return Ok(());
    };
    if labels.get(name).is_none() {
        return Err(AsmFault::NoLabel {
            name: copy_name(alloc, name)?,
        });
    }
    Ok(())
}

/// A copy of a name.
fn copy_name(alloc: Global, name: &[u8]) -> Result<Word, OutOfMemory>
    requires { IsAscii name.now }
    ensures { IfOk result (λ word. word ≡ name.now) }
{
    Word::copy(alloc, text_of_name(name))
}

/// A name as text.
fn text_of_name(name: &[u8]) -> &str
    requires { IsAscii name.now }
    ensures { result.now ≡ name.now }
{
    std::str::from_utf8(name).unwrap()
}
