//! Image files that other tools wrote. A name that ends in `hex` is read as Intel HEX, any other as S-records. A name that begins with
//! `refused` is a table. Each of its lines has what it shows, and then a text, in which `|` stands for a line feed. The fault of each text
//! is printed.

use crate::print::Piece::{Count, Hex8, Text};
use crate::print::{put, put_fault};
use anyhow::{Context, Result, bail};
use byte_map::ByteMap;
use image_hex::read_hex;
use image_srec::read_srec;
use std::alloc::Global;
use std::fs;

/// The image of a text.
fn read_image(alloc: Global, name: &str, text: &[u8]) -> Result<ByteMap> {
    if name.ends_with("hex") {
        Ok(read_hex(alloc, text)?)
    } else {
        Ok(read_srec(alloc, text)?)
    }
}

/// A text in which `|` stands for a line feed.
fn text_of(alloc: Global, line: &str) -> Result<Vec<u8>> {
    let mut text = Vec::from_slice(alloc, line.as_bytes())?;
    for byte in text.iter_mut() {
        if *byte == b'|' {
            *byte = b'\n';
        }
    }
    Ok(text)
}

/// Prints what a line of a table shows, and then the fault of its text.
fn print_fault<'a>(rt: &HostRuntime, name: &'a str, line: &'a str) -> Result<()> {
    let (shows, text) = line.split_once("; ").context("what it shows is wanted")?;
    put(rt, &[Text(name), Text(": "), Text(shows), Text(": ")]);
    let text = text_of(rt.alloc(), text)?;
    print_answer(rt, name, &text);
    Ok(())
}

/// Prints the fault of each text of a table.
fn print_faults(rt: &HostRuntime, name: &str, table: &str) -> Result<()> {
    for line in table.lines() {
        print_fault(rt, name, line)?;
    }
    Ok(())
}

/// How many runs the image of a text has.
fn runs_of(alloc: Global, name: &str, text: &[u8]) -> Result<usize> {
    let map = read_image(alloc, name, text)?;
    Ok(map.runs())
}

/// Prints how many runs the image of a text has, or why there is none.
fn print_answer(rt: &HostRuntime, name: &str, text: &[u8]) {
    match runs_of(rt.alloc(), name, text) {
        Ok(runs) => put(rt, &[Count("", runs), Text(" runs\n")]),
        Err(fault) => put_fault(rt, fault),
    }
}

/// Prints an image's length and place, and whether its bytes are those that are wanted.
fn print_image<'a>(rt: &HostRuntime, name: &'a str, map: &ByteMap, wanted: &[u8]) -> Result<()> {
    if map.runs() != 1 {
        bail!("{name}: not one run");
    }
    let (at, found) = map.run(0);
    let pieces = [
        Text(name),
        Count(": ", found.len()),
        Hex8(" bytes from ", at),
        Text(if found == wanted {
            ", same\n"
        } else {
            ", other\n"
        }),
    ];
    put(rt, &pieces);
    Ok(())
}

/// Compares an image's text.
fn compare_text(rt: &HostRuntime, name: &str, text: &[u8], wanted: &[u8]) -> Result<()> {
    let map = read_image(rt.alloc(), name, text)?;
    print_image(rt, name, &map, wanted)
}

/// Compares an image's file.
fn compare_one(rt: &HostRuntime, name: &str, wanted: &[u8]) -> Result<()> {
    let text = fs::read(rt, name)?;
    compare_text(rt, name, &text, wanted)
}

/// Prints the faults of a file's table.
fn print_table(rt: &HostRuntime, name: &str) -> Result<()> {
    let table = fs::read_to_string(rt, name)?;
    print_faults(rt, name, table.as_str())
}

/// Compares the files of images, and prints the faults of those that are tables.
fn compare_each(rt: &HostRuntime, names: &[&str], wanted: &[u8]) -> Result<()> {
    for name in names {
        if name.starts_with("refused") {
            print_table(rt, name)?;
        } else {
            compare_one(rt, name, wanted)?;
        }
    }
    Ok(())
}

/// Reads the files of images, and compares each with the binary file that comes first.
pub fn compare(rt: &HostRuntime, names: &[&str]) -> Result<()> {
    let [binary, names @ ..] = names else {
        bail!("BINARY IMAGE.. is wanted");
    };
    let wanted = fs::read(rt, *binary)?;
    compare_each(rt, names, &wanted)
}
