//! Questions about ELF files.

use crate::print::Piece::{Count, Hex2, Hex5, Hex6, Hex8, Number, Text};
use crate::print::{put, put_fault};
use anyhow::{Result, bail};
use elf32::{Elf, ElfFault, Section, Segment, Symbol};

/// Prints what a file says: `read`, `section NAME TYPE`, `bytes NAME TYPE`, `symbol NAME` or `segment - INDEX`.
pub fn answer(rt: &HostRuntime, bytes: &[u8], what: &str, name: &str, number: u32) -> Result<()> {
    match Elf::read(rt.alloc(), bytes) {
        Ok(elf) => put_answer(rt, &elf, what, name, number)?,
        Err(fault) => put_fault(rt, fault),
    }
    Ok(())
}

/// Prints what a file says that is read.
fn put_answer(rt: &HostRuntime, elf: &Elf, what: &str, name: &str, number: u32) -> Result<()> {
    match what {
        "read" => read(rt, elf),
        "section" => section(rt, elf, name, number),
        "bytes" => section_bytes(rt, elf, name, number),
        "symbol" => symbol(rt, elf, name),
        "segment" => segment(rt, elf, number as usize),
        _ => bail!("{what}: no question"),
    }
    Ok(())
}

/// Prints how many segments there are.
fn read(rt: &HostRuntime, elf: &Elf) {
    put(rt, &[Count("", elf.segments()), Text(" segments\n")]);
}

/// Prints that there is nothing.
fn put_none(rt: &HostRuntime) {
    put(rt, &[Text("none\n")]);
}

/// Prints the address, the offset and the size of a section.
fn section(rt: &HostRuntime, elf: &Elf, name: &str, kind: u32) {
    match elf.section(name.as_bytes(), kind) {
        Some(found) => put_section(rt, &found),
        None => put_none(rt),
    }
}

/// Prints the fields of a section's header.
fn put_section(rt: &HostRuntime, found: &Section) {
    let pieces = [
        Hex8("", found.addr),
        Hex6(" ", found.offset),
        Hex6(" ", found.size),
        Text("\n"),
    ];
    put(rt, &pieces);
}

/// Prints bytes in hexadecimal digits.
fn put_bytes(rt: &HostRuntime, bytes: &[u8]) {
    for byte in bytes {
        put(rt, &[Hex2("", *byte)]);
    }
    put(rt, &[Count(" ", bytes.len()), Text(" bytes\n")]);
}

/// Prints bytes, or why there are none.
fn put_found(rt: &HostRuntime, answer: Result<&[u8], ElfFault>) {
    match answer {
        Ok(bytes) => put_bytes(rt, bytes),
        Err(fault) => put_fault(rt, fault),
    }
}

/// Prints the bytes of a section.
fn section_bytes(rt: &HostRuntime, elf: &Elf, name: &str, kind: u32) {
    match elf.section(name.as_bytes(), kind) {
        Some(found) => put_found(rt, elf.section_bytes(&found)),
        None => put_none(rt),
    }
}

/// Prints the value and the size of a symbol.
fn symbol(rt: &HostRuntime, elf: &Elf, name: &str) {
    match elf.symbol(name.as_bytes()) {
        Ok(Some(found)) => put_symbol(rt, found),
        Ok(None) => put_none(rt),
        Err(fault) => put_fault(rt, fault),
    }
}

/// Prints the value and the size of a symbol that is found.
fn put_symbol(rt: &HostRuntime, found: Symbol) {
    let pieces = [Hex8("", found.value), Number(" ", found.size), Text("\n")];
    put(rt, &pieces);
}

/// Prints the fields of a program header, and its bytes in the file.
fn segment(rt: &HostRuntime, elf: &Elf, index: usize) {
    if index >= elf.segments() {
        return put_none(rt);
    }
    put_segment(rt, &elf.segment(index));
    put_found(rt, elf.segment_bytes(index));
}

/// Prints the fields of a program header.
fn put_segment(rt: &HostRuntime, found: &Segment) {
    let pieces = [
        Number("type ", found.kind),
        Hex6(" offset ", found.offset),
        Hex8(" addresses ", found.vaddr),
        Hex8(" ", found.paddr),
        Hex5(" sizes ", found.filesz),
        Hex5(" ", found.memsz),
        Number(" flags ", found.flags),
        Number(" align ", found.align),
        Text(" "),
    ];
    put(rt, &pieces);
}
