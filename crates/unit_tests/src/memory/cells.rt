//! Cells read back from a bench in memory.
ghost use Rattle.std.specs.Prelude.{◌<◌, length};

use crate::expect::expect_all;
use bench_model::{DeviceFault, MemoryBench};
use faults::OutOfMemory;
use readback::{Difference, first_difference, read_cells};
use std::alloc::Global;
use std::test::Fail;

#[test]
fn reads_cells(rt: HostRuntime) -> Result<(), Fail> {
    let seen = read_twice(rt.alloc())?;
    expect_all(&rt, &seen);
    Ok(())
}

/// Whether cells are read where the first call goes through, and not where the second one fails.
fn read_twice(alloc: Global) -> Result<[bool; 3], OutOfMemory> {
    let mut bench = MemoryBench::new(alloc, &[1, 2, 3, 4], &[], 0, 8, &[], &[2], &[])?;
    let mut found = [0; 2];
    let first = read_cells(&mut bench, 1, &mut found);
    let second = read_cells(&mut bench, 1, &mut [0; 2]);
    Ok([first.is_ok(), found == [2, 3], second.is_err()])
}

/// The window holds two cells: the difference is in the second.
#[test]
fn finds_the_first_difference(rt: HostRuntime) -> Result<(), Fail> {
    let found = difference_from(rt.alloc(), &[1, 2, 3, 7], &mut [0; 2])?;
    let wanted = Difference {
        at: 4,
        want: 7,
        got: 4,
    };
    assert_eq!(rt; found, Ok(Some(wanted)));
    Ok(())
}

#[test]
fn finds_no_difference(rt: HostRuntime) -> Result<(), Fail> {
    let found = difference_from(rt.alloc(), &[1, 2, 3, 4], &mut [0; 8])?;
    assert_eq!(rt; found, Ok(None));
    Ok(())
}

/// The place where the cells 1, 2, 3 and 4, which come after another cell, first differ from these.
fn difference_from(
    alloc: Global,
    want: &[u8; 4],
    window: &mut [u8],
) -> Result<Result<Option<Difference>, DeviceFault>, OutOfMemory>
    requires { 0 < length window.old }
{
    let mut bench = MemoryBench::new(alloc, &[9, 1, 2, 3, 4], &[], 0, 8, &[], &[], &[])?;
    Ok(first_difference(&mut bench, 1, want, window))
}
