//! The cells and the job file through one bench.

use super::{Files, Temporary, over, over_cells};
use bench_model::Bench;
use std::test::Fail;

#[test]
fn a_bench_holds_what_was_written(rt: HostRuntime) -> Result<(), Fail> {
    let ends = ("job", "cells");
    over_cells(
        &rt,
        rt,
        ends,
        &[1, 2, 3, 4, 5, 6],
        written_and_held,
        [true; 15],
    )
}

/// Whether each call that changes the cells or the job file goes through. Whether reads and the files themselves then have what was
/// written.
fn written_and_held(files: &mut Files) -> [bool; 15] {
    [
        files.open(0, 1),
        files.bench.cells_drop().is_ok(),
        files.open(1, 2),
        files.bench.cells_settle(&[9, 8]).is_ok(),
        files.open(4, 2),
        files.bench.cells_settle_fill(7).is_ok(),
        files.write_synced(0, b"abcdef"),
        files.bench.file_cut(4).is_ok(),
        files.bench.file_sync().is_ok(),
        files.reads_cells([1, 9, 8, 4, 7, 7]),
        files.reads(1, *b"bcd"),
        files.bench.file_read(2, &mut [0; 3]).is_err(),
        files.has_length(4),
        files.hold(b"abcd", &[1, 9, 8, 4, 7, 7]),
        files.remove(),
    ]
}

/// Other programs cut both files while a bench uses them. A read of what is no longer there is a fault.
#[test]
fn files_that_others_cut_are_not_read_whole(rt: HostRuntime) -> Result<(), Fail> {
    let ends = ("short_job", "short_cells");
    over_cells(
        &rt,
        rt,
        ends,
        &[1, 2, 3, 4, 5, 6],
        whole_and_cut,
        [true; 10],
    )
}

/// Whether both files are read whole, and are no longer once they are cut.
fn whole_and_cut(files: &mut Files) -> [bool; 10] {
    [
        files.write_synced(0, b"abcdef"),
        files.reads_cells([1, 2, 3, 4, 5, 6]),
        files.reads(3, *b"def"),
        files.bench.cells_drop().is_ok(),
        files.job.write(b"abcd"),
        files.cells.write(&[1, 2]),
        !files.reads_cells([1, 2, 0, 0, 0, 0]),
        files.reads(1, *b"bcd"),
        !files.reads(3, *b"d\0\0"),
        files.remove(),
    ]
}

#[test]
fn a_missing_cells_file_has_no_cells(rt: HostRuntime) -> Result<(), Fail> {
    let job = Temporary::new(rt, "no_job")?;
    over(
        &rt,
        job,
        Temporary::new(rt, "no_cells")?,
        no_cells,
        [true; 3],
    )
}

/// Whether a bench has no cells, breaks no operation off, and makes no job file.
fn no_cells(files: &mut Files) -> [bool; 3] {
    [
        files.bench.cells_len() == 0,
        files.bench.cells_drop().is_err(),
        files.job.is_missing(),
    ]
}

#[test]
fn a_folder_is_no_file(rt: HostRuntime) -> Result<(), Fail> {
    let job = Temporary::folder(rt)?;
    over(&rt, job, Temporary::folder(rt)?, no_files, [true; 4])
}

/// Whether a bench has no cells and breaks no operation off, and has no job file and makes none.
fn no_files(files: &mut Files) -> [bool; 4] {
    [
        files.bench.cells_len() == 0,
        files.bench.cells_drop().is_err(),
        files.bench.file_len().is_err(),
        files.bench.file_write(0, b"a").is_err(),
    ]
}
