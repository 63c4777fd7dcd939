//! Answers questions about files. First it reads what is hard on the readers of ELF files and of images (`hard`). Then come ELF files and
//! an FLM file, as a compiler, a linker or a hand made them and with some bytes changed. They are followed by boards with one key changed
//! and other texts of boards. It prints each question with its answer. Then it reads the image files of a list, which other tools wrote,
//! and compares their bytes with the binary file that the same tools make of them. Last it goes through sweeps: every prefix of a file,
//! every byte of it changed, large numbers in its fields. It counts their answers.

mod board;
mod digest;
mod elf;
mod flm;
mod hard;
mod images;
mod reader;
mod sweeps;
mod tally;

use crate::print::Piece::Text;
use crate::print::put;
use anyhow::{Context, Result, bail};
pub use hard::read as read_hard;
pub use images::compare;
use std::fs;
use std::str::SplitAsciiWhitespace;

/// Changes a file as a word says it: `AT=VALUE` writes a byte, the place in decimal digits and the byte in hexadecimal ones; `cut=LEN`
/// cuts the file.
fn change(bytes: &mut Vec<u8>, word: &str) -> Result<()> {
    let (at, value) = word.split_once('=').context("AT=VALUE is wanted")?;
    if at == "cut" {
        bytes.truncate(value.parse::<usize>()?);
        return Ok(());
    }
    let at = at.parse::<usize>()?;
    let value = u8::from_str_radix(value, 16)?;
    match bytes.get_mut(at) {
        Some(byte) => *byte = value,
        None => bail!("{at}: past the end"),
    }
    Ok(())
}

/// A file with changes of its bytes.
fn changed(rt: &HostRuntime, name: &str, changes: SplitAsciiWhitespace) -> Result<Vec<u8>> {
    let mut bytes = fs::read(rt, name)?;
    for word in changes {
        change(&mut bytes, word)?;
    }
    Ok(bytes)
}

/// Answers a question about a file. The line has what it shows, `FILE WHAT NAME NUMBER`, and then changes of the file's bytes.
fn answer(rt: &HostRuntime, line: &str) -> Result<()> {
    let (_shows, question) = line.split_once("; ").context("what it shows is wanted")?;
    let mut words = question.split_ascii_whitespace();
    let (Some(file), Some(what), Some(name), Some(number)) = (
        words.next(),
        words.next(),
        words.next(),
        words.next(),
    ) else {
        bail!("FILE WHAT NAME NUMBER is wanted");
    };
    let number = number.parse::<u32>()?;
    let bytes = changed(rt, file, words)?;
    put(rt, &[Text(line), Text(": ")]);
    if what == "flm" {
        flm::answer(rt, &bytes)
    } else {
        elf::answer(rt, &bytes, what, name, number)
    }
}

/// Answers the questions about files.
fn answer_questions(rt: &HostRuntime) -> Result<()> {
    let questions = fs::read_to_string(rt, "questions.txt")?;
    for line in questions.lines() {
        answer(rt, line)?;
    }
    Ok(())
}

/// Answers boards with one key changed.
fn answer_changes(rt: &HostRuntime) -> Result<()> {
    let base = fs::read_to_string(rt, "board.toml")?;
    let changes = fs::read_to_string(rt, "changes.txt")?;
    for change in changes.lines() {
        board::answer_change(rt, &base, change)?;
    }
    Ok(())
}

/// Answers other texts of boards.
fn answer_texts(rt: &HostRuntime) -> Result<()> {
    let texts = fs::read_to_string(rt, "texts.txt")?;
    for text in texts.split("----\n") {
        board::answer_text(rt, text);
    }
    Ok(())
}

/// Compares the images of the list.
fn compare_images(rt: &HostRuntime) -> Result<()> {
    let list = fs::read_to_string(rt, "images.txt")?;
    let names = list.lines().collect::<Vec<&str>>(rt.alloc())?;
    compare(rt, &names)
}

/// Answers all questions.
pub fn answer_all(rt: &HostRuntime) -> Result<()> {
    hard::read_some(rt)?;
    answer_questions(rt)?;
    answer_changes(rt)?;
    answer_texts(rt)?;
    compare_images(rt)?;
    sweeps::go_through(rt)
}
