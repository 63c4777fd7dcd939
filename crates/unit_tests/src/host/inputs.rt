//! Files as inputs.

use super::{Temporary, pattern};
use crate::expect::expect_all;
use host_files::FileInputs;
use outside_io::Inputs;
use std::alloc::AllocError;
use std::test::Fail;

/// Whether the inputs give these bytes for a file.
fn takes(inputs: &mut FileInputs, file: &Temporary, bytes: &[u8]) -> bool {
    match inputs.take(file.rt.alloc(), &file.name) {
        Ok(found) => found.bytes() == bytes,
        Err(_) => false,
    }
}

/// Whether the inputs refuse a file.
fn refuses(inputs: &mut FileInputs, file: &Temporary) -> bool {
    inputs.take(file.rt.alloc(), &file.name).is_err()
}

#[test]
fn inputs_are_files(rt: HostRuntime) -> Result<(), Fail> {
    let file = Temporary::new(rt, "image")?;
    let seen = taken(&file)?;
    expect_all(&rt, &seen);
    Ok(())
}

/// The answers for a file as an input, a short one and a long one.
fn taken(file: &Temporary) -> Result<[bool; 6], AllocError> {
    let long = pattern(file.rt.alloc(), 70_000)?;
    let mut inputs = FileInputs::new(file.rt);
    Ok(taken_from(&mut inputs, file, &long))
}

/// Whether a file can be taken once it exists.
fn taken_from(inputs: &mut FileInputs, file: &Temporary, long: &[u8]) -> [bool; 6] {
    [
        refuses(inputs, file),
        file.write(b"bytes"),
        takes(inputs, file, b"bytes"),
        file.write(long),
        takes(inputs, file, long),
        file.remove(),
    ]
}

#[test]
fn a_folder_is_no_input(rt: HostRuntime) -> Result<(), Fail> {
    let folder = Temporary::folder(rt)?;
    let mut inputs = FileInputs::new(rt);
    assert!(rt; refuses(&mut inputs, &folder));
    Ok(())
}
