//! Reads an ELF file of COUNT symbols, and looks for a symbol that isn't there as often as the reader of FLM files looks for one:
//! `program_vectors symbols COUNT`. It prints how often it was found.

use crate::print::Piece::{Count, Number, Text};
use crate::print::put;
use crate::readers::hard::sections::{HEADER_LEN, SECTION_LEN, push_header, push_words};
use anyhow::Result;
use elf32::{Elf, ElfFault, Section};
use std::alloc::{AllocError, Global};

/// The most symbols here: 64 MiB.
const MOST: u32 = 1 << 22;

/// How many symbols the reader of FLM files looks for.
const SOUGHT: u32 = 7;

/// The sections: none, the strings and the symbols.
const SECTIONS: u32 = 3;

/// The string table. Its one name differs from the sought one in the last byte.
const STRINGS: [u8; 8] = *b"\0UnIniT\0";

/// The bytes of a symbol.
const SYMBOL_LEN: u32 = 16;

/// Appends the headers of a file with `count` symbols, and its strings.
fn push_headers(file: &mut Vec<u8>, count: u32) -> Result<(), AllocError> {
    let strings = HEADER_LEN + SECTION_LEN * SECTIONS;
    let len = STRINGS.len() as u32;
    let size = SYMBOL_LEN * count.min(MOST);
    push_header(file, SECTIONS)?;
    push_words(file, &[0, 0, 0, 0, 0, 0, 0, 0, 0, 0])?;
    push_words(file, &[0, 3, 0, 0, strings, len, 0, 0, 0, 0])?;
    push_words(
        file,
        &[0, Section::SYMTAB, 0, 0, strings + len, size, 1, 0, 0, 0],
    )?;
    file.extend_from_slice(&STRINGS)
}

/// Appends a file with `count` symbols of that name. Each of them belongs to section 1.
fn push_file(file: &mut Vec<u8>, count: u32) -> Result<(), AllocError> {
    push_headers(file, count)?;
    for _symbol in 0..count.min(MOST) {
        push_words(file, &[1, 1, 0, 1 << 16])?;
    }
    Ok(())
}

/// How often the sought symbol is found.
fn look_in(elf: &Elf) -> Result<u32, ElfFault> {
    let mut found = 0u32;
    for _time in 0..SOUGHT {
        if elf.symbol(b"UnInit")?.is_some() {
            found = found.saturating_add(1);
        }
    }
    Ok(found)
}

/// How often the sought symbol is found in a file.
fn look(alloc: Global, file: &[u8]) -> Result<u32, ElfFault> {
    let elf = Elf::read(alloc, file)?;
    look_in(&elf)
}

/// Prints how often the sought symbol is found in a file.
fn put_found(rt: &HostRuntime, file: &[u8]) -> Result<()> {
    let found = look(rt.alloc(), file)?;
    let pieces = [
        Count("", file.len()),
        Number(" bytes, found ", found),
        Text(" times\n"),
    ];
    put(rt, &pieces);
    Ok(())
}

/// Looks for a symbol among `count` symbols.
fn look_among(rt: &HostRuntime, count: u32) -> Result<()> {
    let mut file = Vec::new(rt.alloc());
    push_file(&mut file, count)?;
    put_found(rt, &file)
}

/// Does what the word asks for.
pub fn run(rt: &HostRuntime, words: &[&str]) -> Result<()> {
    for word in words {
        look_among(rt, word.parse::<u32>()?)?;
    }
    Ok(())
}
