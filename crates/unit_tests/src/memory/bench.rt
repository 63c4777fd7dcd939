//! Stops of a bench in memory, and its failing calls.

ghost use Rattle.std.specs.Prelude.{◌≡◌, length, None};
ghost use Rattle.bench_model.specs.Shown.{bench_of};

use crate::expect::expect_all;
use bench_model::{Bench, BusEnd, DeviceFault, MemoryBench, Pick, StopBench, StoreFault};
use faults::OutOfMemory;
use std::alloc::Global;
use std::process::Abort;
use std::test::Fail;

// Makes each file call once, on a file of 3 bytes.
fn use_file(bench: &mut MemoryBench, done: &mut usize) -> Result<(), StoreFault>
    requires { length (bench_of bench.old).file ≡ 3 }
{
    let _len = bench.file_len()?;
    *done = 1;
    bench.file_read(1, &mut [0; 2])?;
    *done = 2;
    bench.file_cut(1)?;
    *done = 3;
    bench.file_write(0, &[8, 9])?;
    *done = 4;
    bench.file_sync()?;
    *done = 5;
    Ok(())
}

#[test]
fn each_file_call_goes_and_fails_by_its_number(rt: HostRuntime) -> Result<(), Fail> {
    let wanted: [&[u8]; 6] = [&[1, 2, 3], &[1, 2, 3], &[1, 2, 3], &[1], &[8, 9], &[8, 9]];
    for (calls, file) in wanted.iter().enumerate() {
        let seen = file_after(rt.alloc(), calls, file)?;
        expect_all(&rt, &seen);
    }
    Ok(())
}

// Whether `calls` of the five calls go through, the next one fails, and the file is then this one.
fn file_after(alloc: Global, calls: usize, file: &[u8]) -> Result<[bool; 3], OutOfMemory> {
    let failing = (calls as u64).saturating_add(1);
    let mut bench = MemoryBench::new(alloc, &[], &[1, 2, 3], 4, 9, &[failing], &[], &[])?;
    let mut done = 0;
    let end = use_file(&mut bench, &mut done);
    Ok([
        end.is_ok() == (calls == 5),
        done == calls,
        bench.file() == file,
    ])
}

// Makes each cell call, on 4 cells.
fn use_cells(bench: &mut MemoryBench, done: &mut usize) -> Result<(), DeviceFault>
    requires cells { length (bench_of bench.old).cells ≡ 4 }
    requires idle { (bench_of bench.old).operation ≡ None }
{
    bench.cells_read(1, &mut [0; 3])?;
    *done = 1;
    bench.cells_open(1, 2)?;
    *done = 2;
    bench.cells_settle(&[7, 8])?;
    *done = 3;
    bench.cells_open(0, 1)?;
    *done = 4;
    bench.cells_settle_fill(9)?;
    *done = 5;
    use_drop(bench, done)
}

fn use_drop(bench: &mut MemoryBench, done: &mut usize) -> Result<(), DeviceFault>
    requires cells { length (bench_of bench.old).cells ≡ 4 }
    requires idle { (bench_of bench.old).operation ≡ None }
{
    bench.cells_open(3, 1)?;
    *done = 6;
    bench.cells_drop()?;
    *done = 7;
    Ok(())
}

#[test]
fn each_cell_call_goes_and_fails_by_its_number(rt: HostRuntime) -> Result<(), Fail> {
    let wanted: [[u8; 4]; 8] = [
        [1, 2, 3, 4],
        [1, 2, 3, 4],
        [1, 2, 3, 4],
        [1, 7, 8, 4],
        [1, 7, 8, 4],
        [9, 7, 8, 4],
        [9, 7, 8, 4],
        [9, 7, 8, 5],
    ];
    for (calls, cells) in wanted.iter().enumerate() {
        let seen = cells_after(rt.alloc(), calls, cells)?;
        expect_all(&rt, &seen);
    }
    Ok(())
}

// Whether `calls` of the seven calls go through, the next one fails, and the cells are then these.
fn cells_after(alloc: Global, calls: usize, cells: &[u8]) -> Result<[bool; 3], OutOfMemory> {
    let failing = (calls as u64).saturating_add(1);
    let mut bench = MemoryBench::new(alloc, &[1, 2, 3, 4], &[], 0, 9, &[], &[failing], &[5])?;
    let mut done = 0;
    let end = use_cells(&mut bench, &mut done);
    Ok([
        end.is_ok() == (calls == 7),
        done == calls,
        bench.cells() == cells,
    ])
}

#[test]
fn room_ends(rt: HostRuntime) -> Result<(), Fail> {
    let mut bench = MemoryBench::new(rt.alloc(), &[1], &[1, 2, 3], 4, 3, &[], &[], &[])?;
    expect_room(&rt, &mut bench);
    Ok(())
}

// Asserts which calls have room, on a file of 3 bytes and one cell.
fn expect_room(rt: &impl Abort, bench: &mut MemoryBench)
    requires file { length (bench_of bench.old).file ≡ 3 }
    requires count { (bench_of bench.old).cell_count ≡ 1 }
    requires idle { (bench_of bench.old).operation ≡ None }
{
    assert!(rt; bench.file_write(3, &[7, 8]).is_err());
    assert!(rt; bench.file_write(0, &[7, 8, 9]).is_err());
    assert!(rt; bench.file_write(2, &[7]).is_ok());
    let calls = [
        bench.file_sync().is_ok(),
        bench.file_sync().is_err(),
        bench.cells_open(0, 1).is_err(),
        bench.cells_len() == 1,
        bench.file() == [1, 2, 7].as_slice(),
    ];
    expect_all(rt, &calls);
}

// Leaves a write and a cut unsynced, and an operation open.
fn leave_open(bench: &mut MemoryBench) -> Result<(), BusEnd>
    requires file { length (bench_of bench.old).file ≡ 4 }
    requires cells { length (bench_of bench.old).cells ≡ 3 }
    requires idle { (bench_of bench.old).operation ≡ None }
{
    if bench.file_write(1, &[7]).is_err() || bench.file_cut(3).is_err() {
        return Err(BusEnd::Fault);
    }
    bench.cells_open(0, 2)?;
    Ok(())
}

#[test]
fn lost_power_leaves_what_is_picked(rt: HostRuntime) -> Result<(), Fail> {
    let picks: [(Pick, &[u8], [u8; 3]); 3] = [
        (Pick::AsWritten, &[1, 7, 3], [4, 5, 6]),
        (Pick::AsOld, &[1, 2, 3, 4], [4, 5, 6]),
        (
            Pick::Filled { value: 0x5A },
            &[1, 0x5A, 3, 0x5A],
            [0x5A, 0x5A, 6],
        ),
    ];
    for (pick, file, cells) in picks.iter() {
        let seen = left_by(rt.alloc(), *pick, file, cells)?;
        expect_all(&rt, &seen);
    }
    Ok(())
}

// Whether a stop with this pick leaves this file and these cells.
fn left_by(alloc: Global, pick: Pick, file: &[u8], cells: &[u8]) -> Result<[bool; 3], OutOfMemory> {
    let mut bench = MemoryBench::new(alloc, &[4, 5, 6], &[1, 2, 3, 4], 8, 9, &[], &[], &[])?;
    let end = leave_open(&mut bench);
    bench.power_loss(pick);
    Ok([end.is_ok(), bench.file() == file, bench.cells() == cells])
}

#[test]
fn a_stopped_bench_lets_no_call_through(rt: HostRuntime) -> Result<(), Fail> {
    let (calls, stays) = stopped(rt.alloc())?;
    expect_all(&rt, &calls);
    assert!(rt; stays);
    Ok(())
}

// Whether two calls go through and no later one, and whether what they left stays.
fn stopped(alloc: Global) -> Result<([bool; 4], bool), OutOfMemory> {
    let inner = MemoryBench::new(alloc, &[1], &[1, 2], 4, 9, &[], &[], &[])?;
    let mut bench = StopBench::new(inner, 2);
    let calls = [
        bench.file_len() == Ok(2),
        bench.file_write(0, &[9]).is_ok(),
        bench.file_sync().is_err(),
        bench.cells_drop().is_err(),
    ];
    let inner = bench.into_inner();
    Ok((calls, inner.file() == [9, 2].as_slice()))
}
