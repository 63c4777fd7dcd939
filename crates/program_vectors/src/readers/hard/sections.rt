//! Reads an ELF file of 65,279 sections and looks for one by its name, TIMES times: `program_vectors elf NAMES TIMES`, or `program_vectors
//! elf colliding TIMES TABLE`. It prints the place of the section in the file's table.

use crate::print::Piece::{Number, Text};
use crate::print::put;
use crate::readers::hard::names::{Names, Table};
use anyhow::{Result, bail};
use elf32::{Elf, Section};
use std::alloc::{AllocError, Global};
use std::fs;

/// The most sections that a file may have.
const SECTIONS: u32 = 0xFEFF;

/// The most bytes of a string table here: 64 MiB.
const MOST: u32 = 1 << 26;

/// The bytes of the ELF header, and of a section header.
pub const HEADER_LEN: u32 = 52;

pub const SECTION_LEN: u32 = 40;

/// An ELF header with its magic bytes, class, data, version, type and machine.
const BEGIN: [u8; 20] = *b"\x7FELF\x01\x01\x01\0\0\0\0\0\0\0\0\0\x01\0\x28\0";

/// Appends the words of a section header or of a part of one.
pub fn push_words(file: &mut Vec<u8>, words: &[u32]) -> Result<(), AllocError> {
    for word in words {
        file.extend_from_slice(&word.to_le_bytes())?;
    }
    Ok(())
}

/// Appends the header of a file of `sections` sections. The section with the names is the second.
pub fn push_header(file: &mut Vec<u8>, sections: u32) -> Result<(), AllocError> {
    file.extend_from_slice(&BEGIN)?;
    push_words(
        file,
        &[
            1,
            0,
            0,
            HEADER_LEN,
            0,
            52,
            SECTION_LEN << 16,
            1 << 16 | sections,
        ],
    )
}

/// Appends the headers of the sections. Section 1 has the names, in `len` bytes. Each other section has its own place as its offset.
fn push_sections(file: &mut Vec<u8>, starts: &[u32], len: u32) -> Result<(), AllocError> {
    let strings = HEADER_LEN + SECTION_LEN * SECTIONS;
    for (index, start) in (0..SECTIONS).zip(starts.iter()) {
        let (kind, offset, size) = if index == 1 {
            (3, strings, len)
        } else {
            (Section::PROGBITS, index, 0)
        };
        push_words(file, &[*start, kind, 0, 0, offset, size, 0, 0, 0, 0])?;
    }
    Ok(())
}

/// Appends a file with a section for each name.
fn push_file(file: &mut Vec<u8>, table: &Table) -> Result<(), AllocError> {
    push_header(file, SECTIONS)?;
    let len = table.strings.len().min(MOST as usize) as u32;
    push_sections(file, table.starts.as_slice(), len)?;
    file.extend_from_slice(&table.strings)
}

/// Reads the file `times` times, and looks for the section each time. Answers its place in the file's table.
fn look(alloc: Global, file: &[u8], sought: &[u8], times: u32) -> Result<Option<u32>> {
    let mut found = None;
    for _time in 0..times {
        let elf = Elf::read(alloc, file)?;
        found = elf.section(sought, Section::PROGBITS);
    }
    Ok(found.map(|section| section.offset))
}

/// Prints a section's place in the file's table.
fn put_found(rt: &HostRuntime, found: Option<u32>) {
    match found {
        Some(place) => put(rt, &[Number("section ", place), Text("\n")]),
        None => put(rt, &[Text("no section\n")]),
    }
}

/// Looks for the name that is sought in a file with the names of a table.
fn look_in(rt: &HostRuntime, table: &Table, times: u32) -> Result<()> {
    let mut file = Vec::new(rt.alloc());
    push_file(&mut file, table)?;
    let found = look(rt.alloc(), &file, &table.sought, times)?;
    put_found(rt, found);
    Ok(())
}

/// Does what the words ask for.
pub fn run(rt: &HostRuntime, words: &[&str]) -> Result<()> {
    let mut names = None;
    let mut times = 0;
    let mut colliding = Vec::new(rt.alloc());
    for word in words {
        if let Ok(number) = word.parse::<u32>() {
            times = number;
        } else if let Some(form) = Names::named(word) {
            names = Some(form);
        } else {
            colliding = fs::read(rt, *word)?;
        }
    }
    let Some(names) = names else {
        bail!("names are wanted: random, colliding, one or overlapping");
    };
    let table = names.table(rt.alloc(), SECTIONS, &colliding)?;
    look_in(rt, &table, times)
}
