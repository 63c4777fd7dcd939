//! Other programs that use the same files.

use super::{Files, Temporary, bench_over};
use crate::expect::expect_all;
use bench_model::Bench;
use faults::OutOfMemory;
use host_files::FileBench;
use octets::Word;
use std::fmt::Debug;
use std::fs::File;
use std::process::Abort;
use std::test::Fail;
use std::{fs, io};

/// The cells of each test.
const CELLS: [u8; 6] = [1, 2, 3, 4, 5, 6];

/// The files of a bench, with three bytes in the job file, and the same files opened by another program.
#[derive(Drop)]
struct Shared {
    files: Files,
    job: File,
    cells: File,
}

/// A bench over files with these ends of their names, with three bytes in the job file.
fn with_job(rt: HostRuntime, ends: (&str, &str)) -> Result<Files, Fail> {
    let files = Files::new(rt, ends, &CELLS)?;
    fs::write(&rt, files.job.name.text(), b"abc")?;
    Ok(files)
}

/// The job file and the cells, opened by another program.
fn opened(files: &Files) -> io::Result<(File, File)> {
    let job = File::open(&files.job.rt, files.job.name.text())?;
    let cells = File::open(&files.cells.rt, files.cells.name.text())?;
    Ok((job, cells))
}

/// Asserts the answers of a bench over files that another program has opened.
fn over_opened<T: PartialEq + Debug + Copy, F: FnOnce(&mut Shared) -> T + Copy>(
    rt: &impl Abort,
    host: HostRuntime,
    ends: (&str, &str),
    look: F,
    wanted: T,
) -> Result<(), Fail>
    requires { F.IsAlwaysCallable look }
{
    let files = with_job(host, ends)?;
    let (job, cells) = opened(&files)?;
    let mut shared = Shared { files, job, cells };
    assert_eq!(rt; look(&mut shared), wanted);
    Ok(())
}

/// Whether a program can lock a file for writing. It keeps the lock.
fn writes(file: &File) -> bool {
    file.try_lock().is_ok()
}

/// Whether a program can lock a file for reading. It keeps the lock.
fn reads(file: &File) -> bool {
    file.try_lock_shared().is_ok()
}

/// Gives up the lock of a file, and says whether that went well.
fn gives_back(file: &File) -> bool {
    file.unlock().is_ok()
}

/// Whether no call on the cells goes through.
fn cells_are_kept(files: &mut Files) -> bool {
    !files.reads_cells(CELLS) && !files.open(0, 2) && files.bench.cells_drop().is_err()
}

/// Whether no call on the job file goes through.
fn job_is_kept(files: &mut Files) -> bool {
    files.bench.file_len().is_err()
        && !files.reads(0, *b"abc")
        && files.bench.file_write(0, b"x").is_err()
        && files.bench.file_cut(0).is_err()
        && files.bench.file_sync().is_err()
}

#[test]
fn files_that_another_program_writes_are_faults(rt: HostRuntime) -> Result<(), Fail> {
    over_opened(
        &rt,
        rt,
        ("kept_job", "kept_cells"),
        kept_and_given_back,
        [true; 10],
    )
}

/// Whether no call goes through while another program has both files locked for writing. They are read once it has given up the locks.
fn kept_and_given_back(shared: &mut Shared) -> [bool; 10] {
    [
        writes(&shared.job),
        writes(&shared.cells),
        job_is_kept(&mut shared.files),
        cells_are_kept(&mut shared.files),
        shared.files.hold(b"abc", &CELLS),
        gives_back(&shared.job),
        gives_back(&shared.cells),
        shared.files.reads(0, *b"abc"),
        shared.files.reads_cells(CELLS),
        shared.files.remove(),
    ]
}

#[test]
fn a_job_file_that_another_program_reads_is_not_changed(rt: HostRuntime) -> Result<(), Fail> {
    over_opened(&rt, rt, ("read_job", "its_cells"), job_stays, [true; 7])
}

/// Whether the job file is read and not changed while another program reads it, and no call on it goes through after that refusal.
fn job_stays(shared: &mut Shared) -> [bool; 7] {
    [
        reads(&shared.job),
        shared.files.reads(0, *b"abc"),
        shared.files.bench.file_write(0, b"x").is_err(),
        shared.files.hold(b"abc", &CELLS),
        gives_back(&shared.job),
        job_is_kept(&mut shared.files),
        shared.files.remove(),
    ]
}

#[test]
fn cells_that_another_program_reads_are_not_changed(rt: HostRuntime) -> Result<(), Fail> {
    over_opened(&rt, rt, ("its_job", "read_cells"), cells_stay, [true; 7])
}

/// Whether the cells are read and not changed while another program reads them, and no call on them goes through after that refusal.
fn cells_stay(shared: &mut Shared) -> [bool; 7] {
    [
        reads(&shared.cells),
        shared.files.reads_cells(CELLS),
        !shared.files.open(0, 2),
        shared.files.hold(b"abc", &CELLS),
        gives_back(&shared.cells),
        cells_are_kept(&mut shared.files),
        shared.files.remove(),
    ]
}

#[test]
fn a_job_is_not_changed_while_another_program_reads_the_cells(rt: HostRuntime) -> Result<(), Fail> {
    over_opened(
        &rt,
        rt,
        ("whole_job", "seen_cells_of_it"),
        whole_job_stays,
        [true; 9],
    )
}

/// Whether the job file isn't changed while another program reads the cells.
fn whole_job_stays(shared: &mut Shared) -> [bool; 9] {
    [
        reads(&shared.cells),
        shared.files.reads(0, *b"abc"),
        shared.files.bench.cells_drop().is_ok(),
        shared.files.bench.file_write(0, b"x").is_err(),
        shared.files.bench.file_cut(0).is_err(),
        reads(&shared.job),
        gives_back(&shared.job),
        shared.files.hold(b"abc", &CELLS),
        shared.files.remove(),
    ]
}

#[test]
fn a_file_that_was_read_is_written_by_no_other(rt: HostRuntime) -> Result<(), Fail> {
    over_opened(
        &rt,
        rt,
        ("seen_job", "seen_cells"),
        job_and_cells_are_seen,
        [true; 12],
    )
}

/// Whether another program can write the files before the bench has looked at them, and after that can only read them.
fn job_and_cells_are_seen(shared: &mut Shared) -> [bool; 12] {
    [
        writes(&shared.job),
        gives_back(&shared.job),
        shared.files.bench.file_len().is_ok(),
        !writes(&shared.job),
        reads(&shared.job),
        gives_back(&shared.job),
        writes(&shared.cells),
        gives_back(&shared.cells),
        shared.files.bench.cells_drop().is_ok(),
        !writes(&shared.cells),
        reads(&shared.cells),
        shared.files.remove(),
    ]
}

#[test]
fn a_file_that_was_changed_is_kept_to_the_end(rt: HostRuntime) -> Result<(), Fail> {
    over_opened(
        &rt,
        rt,
        ("own_job", "own_cells"),
        own_and_still_own,
        [true; 11],
    )
}

/// Whether other programs can't read a file once the bench has opened it for a change, and still can't later.
fn own_and_still_own(shared: &mut Shared) -> [bool; 11] {
    [
        shared.files.open(0, 2),
        !reads(&shared.cells),
        shared.files.bench.cells_settle(&[7, 8]).is_ok(),
        shared.files.write_synced(0, b"xy"),
        !reads(&shared.job),
        shared.files.reads(0, *b"xyc"),
        shared.files.reads_cells([7, 8, 3, 4, 5, 6]),
        shared.files.bench.cells_drop().is_ok(),
        !reads(&shared.job),
        !reads(&shared.cells),
        shared.files.remove(),
    ]
}

#[test]
fn a_cut_keeps_the_job_file_too(rt: HostRuntime) -> Result<(), Fail> {
    over_opened(&rt, rt, ("cut_job", "cut_cells"), cut, [true; 4])
}

/// Whether no other program can read a job file that was cut.
fn cut(shared: &mut Shared) -> [bool; 4] {
    [
        shared.files.bench.file_cut(2).is_ok(),
        !reads(&shared.job),
        shared.files.hold(b"ab", &CELLS),
        shared.files.remove(),
    ]
}

/// Whether a job file with this name is a fault over these cells, which stay unchanged.
fn is_refused(cells: &Temporary, name: &Temporary) -> Result<bool, OutOfMemory> {
    let mut bench = bench_over(name, cells)?;
    Ok(job_is_refused(&mut bench, cells))
}

/// Whether no call on the job file goes through, and the cells file stays unchanged.
fn job_is_refused(bench: &mut FileBench, cells: &Temporary) -> bool {
    bench.file_len().is_err()
        && bench.file_write(0, b"x").is_err()
        && bench.file_cut(0).is_err()
        && cells.holds(&CELLS)
}

#[test]
fn the_cells_file_is_no_job_file(rt: HostRuntime) -> Result<(), Fail> {
    let cells = Temporary::holding(rt, "twice", &CELLS)?;
    let seen = refused_by_each_name(&cells)?;
    expect_all(&rt, &seen);
    Ok(())
}

/// Whether the cells file is refused as a job file by its own name and by links to it, and is removed.
fn refused_by_each_name(cells: &Temporary) -> Result<[bool; 4], Fail> {
    Ok([
        is_refused(cells, cells)?,
        by_symbolic_link(cells)?,
        by_hard_link(cells)?,
        cells.remove(),
    ])
}

/// Whether a symbolic link is made, refused as a job file, and removed.
fn by_symbolic_link(cells: &Temporary) -> Result<bool, Fail> {
    let link = Temporary::new(cells.rt, "twice_linked")?;
    let made = link.link_to(cells);
    Ok(is_refused(cells, &link)? && made && link.remove())
}

/// Whether a hard link is made, refused as a job file, and removed.
fn by_hard_link(cells: &Temporary) -> Result<bool, Fail> {
    let link = Temporary::new(cells.rt, "twice_hard")?;
    let made = fs::hard_link(&cells.rt, cells.name.text(), link.name.text()).is_ok();
    Ok(is_refused(cells, &link)? && made && link.remove())
}

/// The answers of a bench over files with these ends of their names, while other benches are open.
fn beside<F: FnOnce(&mut Files) -> bool + Copy>(
    rt: HostRuntime,
    others: &[FileBench],
    ends: (&str, &str),
    look: F,
) -> Result<bool, Fail>
    requires { F.IsAlwaysCallable look }
{
    let job = Temporary::new(rt, ends.0)?;
    let cells = Temporary::new(rt, ends.1)?;
    let bench = bench_beside(&job, &cells, others)?;
    let mut files = Files { job, cells, bench };
    Ok(look(&mut files))
}

/// A bench over two files, while other benches are open.
fn bench_beside(
    job: &Temporary,
    cells: &Temporary,
    others: &[FileBench],
) -> Result<FileBench, OutOfMemory> {
    let job_name = job.word()?;
    Ok(FileBench::beside(job.rt, job_name, cells.word()?, others))
}

#[test]
fn a_file_of_another_bench_is_a_fault(rt: HostRuntime) -> Result<(), Fail> {
    let seen = seen_beside(rt)?;
    expect_all(&rt, &seen.0);
    expect_all(&rt, &seen.1);
    expect_all(&rt, &seen.2);
    Ok(())
}

/// The answers of benches while a first one is open over its files.
fn seen_beside(rt: HostRuntime) -> Result<([bool; 4], [bool; 3], [bool; 4]), Fail> {
    let files = with_job(rt, ("first_job", "first_cells"))?;
    beside_others(&files)
}

/// The answers of benches over other files too, while a first one is open over these.
fn beside_others(files: &Files) -> Result<([bool; 4], [bool; 3], [bool; 4]), Fail> {
    let mut others = with_job(files.job.rt, ("second_job", "second_cells"))?;
    beside_files(files, &mut others)
}

/// The answers of benches over other files too. Checks also that the other files are then unchanged, and that all are removed.
fn beside_files(
    files: &Files,
    others: &mut Files,
) -> Result<([bool; 4], [bool; 3], [bool; 4]), Fail> {
    let (kept, changed) = beside_linked(files)?;
    let left = [
        others.reads(0, *b"abc"),
        others.reads_cells(CELLS),
        others.remove(),
        files.remove(),
    ];
    Ok((kept, changed, left))
}

/// The answers of benches while a link, which is then removed, leads to the first one's cells.
fn beside_linked(files: &Files) -> Result<([bool; 4], [bool; 3]), Fail> {
    let link = Temporary::new(files.job.rt, "first_link")?;
    let made = link.link_to(&files.cells);
    let (kept, changed) = beside_first(files)?;
    Ok((kept, [made, changed, link.remove()]))
}

/// Whether the first bench changes its files, while the other benches don't.
fn beside_first(files: &Files) -> Result<([bool; 4], bool), Fail> {
    let mut first = [bench_over(&files.job, &files.cells)?];
    let kept = kept_from(files.job.rt, &first)?;
    Ok((kept, changes(&mut first[0], files)))
}

/// Whether other benches can't use the first one's job file, its cells by a link, its cells as a job file, and its job file as cells.
fn kept_from(rt: HostRuntime, first: &[FileBench]) -> Result<[bool; 4], Fail> {
    Ok([
        beside(rt, first, ("first_job", "second_cells"), job_alone_is_kept)?,
        beside(
            rt,
            first,
            ("second_job", "first_link"),
            cells_alone_are_kept,
        )?,
        beside(rt, first, ("first_cells", "second_cells"), job_is_kept)?,
        beside(rt, first, ("second_job", "first_job"), cells_are_kept)?,
    ])
}

/// Whether no call on the job file goes through, while the cells are free.
fn job_alone_is_kept(files: &mut Files) -> bool {
    job_is_kept(files) && files.reads_cells(CELLS)
}

/// Whether no call on the cells goes through, while the job file is free and is read and not changed.
fn cells_alone_are_kept(files: &mut Files) -> bool {
    cells_are_kept(files) && files.reads(0, *b"abc") && files.bench.file_write(0, b"x").is_err()
}

/// Whether a bench changes its job file.
fn changes(bench: &mut FileBench, files: &Files) -> bool {
    bench.file_write(0, b"x").is_ok() && bench.cells_drop().is_ok() && files.hold(b"xbc", &CELLS)
}

/// No process can open for writing a program that is running.
#[test]
fn cells_that_cannot_be_written_are_read(rt: HostRuntime) -> Result<(), Fail> {
    let job = Temporary::new(rt, "program_job")?;
    let seen = program_as_cells(&job)?;
    expect_all(&rt, &seen);
    Ok(())
}

/// The answers of a bench with the running program as its cells, and of its job file.
fn program_as_cells(job: &Temporary) -> Result<[bool; 5], OutOfMemory> {
    let mut bench = bench_over_program(job)?;
    Ok(program_is_read(&mut bench, job))
}

/// A bench with the running program as its cells.
fn bench_over_program(job: &Temporary) -> Result<FileBench, OutOfMemory> {
    let program = Word::copy(job.rt.alloc(), "/proc/self/exe")?;
    Ok(FileBench::new(job.rt, job.word()?, program))
}

/// Whether the cells are a program, before and after an operation that can't be opened, and whether no job file is made.
fn program_is_read(bench: &mut FileBench, job: &Temporary) -> [bool; 5] {
    [
        is_program(bench),
        bench.cells_drop().is_ok(),
        cannot_be_opened(bench),
        is_program(bench),
        job.is_missing(),
    ]
}

/// Whether the cells begin as a program does.
fn is_program(bench: &mut FileBench) -> bool {
    let mut found = [0; 4];
    bench.cells_len() >= 6 && bench.cells_read(0, &mut found).is_ok() && found == *b"\x7fELF"
}

/// Whether an operation on the first two cells can't be opened.
fn cannot_be_opened(bench: &mut FileBench) -> bool {
    bench.cells_len() >= 6 && bench.cells_open(0, 2).is_err()
}
