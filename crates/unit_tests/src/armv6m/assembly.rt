//! Whole texts: their code, their labels, and why they are refused. `target_vectors` compares more of them.

mod back;
mod texts;

use crate::expect::expect;
use armv6m_asm::{Code, Label, Labels, assemble};
use std::alloc::Global;
use std::process::Abort;
use std::test::Fail;
use texts::{algorithm, algorithm_code};

#[test]
fn a_flash_algorithm(rt: HostRuntime) -> Result<(), Fail> {
    let code = assemble(rt.alloc(), algorithm())?;
    assert_algorithm(&rt, &code);
    Ok(())
}

/// Asserts the place of a label, or that no label has this name.
fn assert_place(rt: &impl Abort, labels: &Labels, name: &[u8], place: Option<u32>) {
    expect(rt, &labels.get(name), &place);
}

/// Asserts the code and the labels of the flash algorithm.
fn assert_algorithm(rt: &impl Abort, code: &Code) {
    expect(rt, &code.bytes.len(), &144);
    expect(rt, code.bytes.bytes(), algorithm_code());
    expect(rt, &code.labels.as_slice().len(), &19);
    for (name, place) in [
        (b"Init".as_slice(), Some(0)),
        (b"UnInit".as_slice(), Some(0x0E)),
        (b"EraseChip".as_slice(), Some(0x16)),
        (b"EraseSector".as_slice(), Some(0x1A)),
        (b"ProgramPage".as_slice(), Some(0x3C)),
        (b"Verify".as_slice(), Some(0x6C)),
        (b"base".as_slice(), Some(0x84)),
        (b"init".as_slice(), None),
    ] {
        assert_place(rt, &code.labels, name, place);
    }
}

/// Asserts that a text has this code.
fn assert_code(rt: &impl Abort, alloc: Global, text: &[u8], due: &[u8]) -> Result<(), Fail> {
    let code = assemble(alloc, text)?;
    expect(rt, code.bytes.bytes(), due);
    Ok(())
}

#[test]
fn short_texts(rt: HostRuntime) -> Result<(), Fail> {
    let cases: [(&[u8], &[u8]); 3] = [
        (b"\n ; nothing\n\t\r\n", b""),
        (b"EraseSector: B EraseSector", b"\xFE\xE7"),
        (
            b"LDR R0, x\n.align\nx: .word 1",
            b"\x00\x48\x00\xBF\x01\x00\x00\x00",
        ),
    ];
    for (text, due) in cases {
        assert_code(&rt, rt.alloc(), text, due)?;
    }
    Ok(())
}

/// A label is the place before the bytes that its own statement pads.
#[test]
fn labels_have_their_places(rt: HostRuntime) -> Result<(), Fail> {
    let code = assemble(rt.alloc(), b"a: DSB\nb: NOP\nc: .align\nd: .word 1\ne:")?;
    assert_places(&rt, &code.labels);
    assert_vector(&rt, code.labels);
    Ok(())
}

/// Asserts the places of five labels.
fn assert_places(rt: &impl Abort, labels: &Labels) {
    for (name, place) in [(b"a", 0), (b"b", 4), (b"c", 6), (b"d", 8), (b"e", 12)] {
        assert_place(rt, labels, name, Some(place));
    }
}

/// Asserts the labels of a text as a vector, and the vector of one label.
fn assert_vector(rt: &impl Abort, labels: Labels) {
    let labels = labels.into_vec();
    assert_third(rt, &labels);
    assert_place(rt, &Labels::from_vec(labels), b"e", Some(12));
}

/// Asserts that there are five labels and that the third is c.
fn assert_third(rt: &impl Abort, labels: &[Label]) {
    expect(rt, &labels.len(), &5);
    if let Some(third) = labels.get(2) {
        expect(rt, third.name.bytes(), b"c");
    }
}

/// Why a text is refused.
fn told(alloc: Global, text: &[u8]) -> Result<String, Fail> {
    match assemble(alloc, text) {
        Ok(_) => Ok(String::new(alloc)),
        Err(fault) => Ok(format!(in alloc; "{fault}")?),
    }
}

/// Asserts that a text is refused with this fault.
fn assert_fault(rt: &impl Abort, alloc: Global, text: &[u8], due: &str) -> Result<(), Fail> {
    let told = told(alloc, text)?;
    assert_eq!(rt; told.as_str(), due);
    Ok(())
}

/// Each check goes over the whole text before the next check.
#[test]
fn refusals_come_in_their_order(rt: HostRuntime) -> Result<(), Fail> {
    let cases: [(&[u8], &str); 4] = [
        (
            b"LDR R0, 0x00000002\nB z\nx: NOP\nx: NOP\nNOPE",
            "BadWord 5",
        ),
        (
            b"LDR R0, 0x00000002\nB z\nx: NOP\nx: NOP\nNOP",
            "TwiceLabel x",
        ),
        (b"LDR R0, 0x00000002\nB z\nx: NOP\ny: NOP\nNOP", "NoLabel z"),
        (
            b"LDR R0, 0x00000002\nB x\nx: NOP\ny: NOP\nNOP",
            "OutOfReach 1",
        ),
    ];
    for (text, due) in cases {
        assert_fault(&rt, rt.alloc(), text, due)?;
    }
    Ok(())
}
