//! Files that are no jobs. A separate program reads those that are, and those that are nearly so.
use crate::expect::expect;
use faults::OutOfMemory;
use job_text::{Class, class_of_file};
use std::alloc::{AllocError, Global};

/// Whether a file of this class is free, and the offset that shows that it is no job.
fn shown(class: &Class) -> (bool, Option<u64>) {
    match class {
        Class::Free => (true, None),
        Class::NotAJob { at } => (false, Some(*at)),
        _ => (false, None),
    }
}

/// Whether a file with these bytes is free, and the offset that shows that it is no job.
fn read(alloc: Global, file: &[u8]) -> Result<(bool, Option<u64>), OutOfMemory> {
    let class = class_of_file(alloc, file)?;
    Ok(shown(&class))
}

#[test]
fn short_and_closed_files_are_free(rt: HostRuntime) {
    let files: [&[u8]; 4] = [b"", b"\xA5", b"\0\x01", b"\xA4\x01"];
    for file in files {
        expect(&rt, read(rt.alloc(), file), Ok((true, None)));
    }
}

#[test]
fn an_open_gate_before_no_body_is_no_job(rt: HostRuntime) {
    let short = read(rt.alloc(), b"\xA5\0");
    expect(&rt, short, Ok((false, Some(2))));
    let longer = read(rt.alloc(), &[0xA5; 30]);
    expect(&rt, longer, Ok((false, Some(1))));
}

/// A file with an open gate, and with a board's text of fewer than 256 bytes. It ends where the FLM file of one byte would begin.
fn half_a_job(alloc: Global, board: &str) -> Result<Vec<u8>, AllocError> {
    let len = [(board.len() % 256) as u8];
    let parts: [&[u8]; 4] = [
        b"\xA5FLMJOB1",
        &len,
        b"\0\0\0\x01\0\0\0\x01\0\0\0\x40\0\0\0",
        board.as_bytes(),
    ];
    parts.concat(alloc)
}

/// Whether a file that ends after a board's text is free, and the offset that shows that it is no job.
fn read_half(alloc: Global, board: &str) -> Result<(bool, Option<u64>), OutOfMemory> {
    let file = half_a_job(alloc, board)?;
    read(alloc, &file)
}

#[test]
fn a_board_of_two_regions_is_none_of_a_job(rt: HostRuntime) {
    let one =
        "ram = { base = 0, size = 256 }\ncontroller.base = 512\nregion = [{ base = 256, sectors = [[1, 64]] }]\n";
    let two =
        "ram = { base = 0, size = 256 }\ncontroller.base = 512\nregion = [{ base = 256, sectors = [[1, 64]] }, { base = 1024, sectors = [[1, 4]] }]\n";
    let whole = 24 + one.len() as u64;
    expect(&rt, read_half(rt.alloc(), one), Ok((false, Some(whole))));
    expect(&rt, read_half(rt.alloc(), two), Ok((false, Some(24))));
}
