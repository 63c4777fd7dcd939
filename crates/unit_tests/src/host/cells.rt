//! Cells that are read through the window of those that were read last.

use super::{Temporary, pattern};
use crate::expect::expect_all;
use bench_model::Bench;
use disk_files::{Disk, WindowedDisk};
use faults::OutOfMemory;
use host_files::{CellsFile, FileBench, HostDisk, JobFile};
use octets::Word;
use std::alloc::Global;
use std::fmt::Debug;
use std::fs;
use std::process::Abort;
use std::test::Fail;

/// The number of cells: those of a window, and some of the next one.
const CELLS: usize = 5000;

/// A bench over a file of cells that only one test uses. Calls that answer no value say whether they went well.
#[derive(Drop)]
struct Trial {
    file: Temporary,
    bench: FileBench,
}

/// A file with this end of its name, and the cells of the pattern.
fn patterned(rt: HostRuntime, end: &str) -> Result<Temporary, Fail> {
    let bytes = pattern(rt.alloc(), CELLS)?;
    Temporary::holding(rt, end, &bytes)
}

/// A bench over these cells, and no job file.
fn bench_of(cells: &Temporary) -> Result<FileBench, OutOfMemory> {
    let job = Word::copy(cells.rt.alloc(), "")?;
    Ok(FileBench::new(cells.rt, job, cells.word()?))
}

impl Trial {
    /// Whether these four cells are read in one call.
    fn reads(&mut self, at: u32, cells: [u8; 4]) -> bool {
        let mut found = [0; 4];
        let count = self.bench.cells_len();
        count >= 4
            && at <= count - 4
            && self.bench.cells_read(at, &mut found).is_ok()
            && found == cells
    }

    /// Opens an operation.
    fn open(&mut self, at: u32, len: u32) -> bool {
        let count = self.bench.cells_len();
        len > 0 && len <= count && at <= count - len && self.bench.cells_open(at, len).is_ok()
    }

    /// Makes an operation that settles these cells, and ends it.
    fn settle(&mut self, at: u32, bytes: &[u8]) -> bool {
        match u32::try_from(bytes.len()) {
            Ok(len) => self.open(at, len) && self.bench.cells_settle(bytes).is_ok(),
            Err(_) => false,
        }
    }

    /// Makes an operation that fills cells, and ends it.
    fn fill(&mut self, at: u32, len: u32, value: u8) -> bool {
        self.open(at, len) && self.bench.cells_settle_fill(value).is_ok()
    }

    /// The cell as it is in the file itself.
    fn stored(&self, at: usize) -> Option<u8> {
        match fs::read(&self.file.rt, self.file.name.text()) {
            Ok(cells) => cells.get(at).copied(),
            Err(_) => None,
        }
    }
}

/// Asserts the answers of a bench over a file with this end of its name.
fn over_pattern<T: PartialEq + Debug + Copy, F: FnOnce(&mut Trial) -> T + Copy>(
    rt: &impl Abort,
    host: HostRuntime,
    end: &str,
    look: F,
    wanted: T,
) -> Result<(), Fail>
    requires { F.IsAlwaysCallable look }
{
    let file = patterned(host, end)?;
    let bench = bench_of(&file)?;
    let mut trial = Trial { file, bench };
    assert_eq!(rt; look(&mut trial), wanted);
    Ok(())
}

#[test]
fn a_settle_is_seen_at_once(rt: HostRuntime) -> Result<(), Fail> {
    over_pattern(&rt, rt, "settled", settled, [true; 11])
}

/// Whether cells that were settled are read, over the end of a window and before it, twice.
fn settled(trial: &mut Trial) -> [bool; 11] {
    [
        trial.reads(4094, [78, 79, 80, 81]),
        trial.settle(4095, &[201, 202]),
        trial.stored(4095) == Some(201),
        trial.reads(4094, [78, 201, 202, 81]),
        trial.settle(4093, &[203, 204]),
        trial.reads(4094, [204, 201, 202, 81]),
        trial.reads(4092, [76, 203, 204, 201]),
        trial.settle(4095, &[205, 206]),
        trial.reads(4092, [76, 203, 204, 205]),
        trial.reads(4096, [206, 81, 82, 83]),
        trial.file.remove(),
    ]
}

#[test]
fn a_fill_is_seen_at_once(rt: HostRuntime) -> Result<(), Fail> {
    over_pattern(&rt, rt, "refilled", refilled, [true; 9])
}

/// Whether cells that were filled are read, within a window and over its end.
fn refilled(trial: &mut Trial) -> [bool; 9] {
    [
        trial.reads(0, [0, 1, 2, 3]),
        trial.fill(10, 300, 207),
        trial.stored(309) == Some(207),
        trial.reads(8, [8, 9, 207, 207]),
        trial.reads(308, [207, 207, 59, 60]),
        trial.fill(4000, 600, 208),
        trial.reads(4092, [208; 4]),
        trial.reads(4598, [208, 208, 82, 83]),
        trial.file.remove(),
    ]
}

#[test]
fn a_fill_has_all_bits_of_its_value(rt: HostRuntime) -> Result<(), Fail> {
    over_pattern(&rt, rt, "blanked", blanked, [true; 6])
}

/// Whether cells are filled with ones, and with zeros.
fn blanked(trial: &mut Trial) -> [bool; 6] {
    [
        trial.fill(20, 40, 0xFF),
        trial.stored(59) == Some(0xFF),
        trial.reads(18, [18, 19, 0xFF, 0xFF]),
        trial.fill(30, 2, 0),
        trial.reads(29, [0xFF, 0, 0, 0xFF]),
        trial.file.remove(),
    ]
}

#[test]
fn a_long_fill_reaches_each_cell(rt: HostRuntime) -> Result<(), Fail> {
    over_pattern(&rt, rt, "filled", filled, [true; 5])
}

/// Whether a long fill reaches each of its cells, and no other.
fn filled(trial: &mut Trial) -> [bool; 5] {
    [
        trial.fill(50, 4820, 252),
        is_filled(&trial.file),
        trial.reads(48, [48, 49, 252, 252]),
        trial.reads(4868, [252, 252, 101, 102]),
        trial.file.remove(),
    ]
}

/// Whether the file has the cells of the pattern, except where they were filled.
fn is_filled(file: &Temporary) -> bool {
    match pattern(file.rt.alloc(), CELLS) {
        Ok(mut wanted) => {
            wanted[50..4870].fill(252);
            file.holds(&wanted)
        }
        Err(_) => false,
    }
}

#[test]
fn cells_keep_their_places(rt: HostRuntime) -> Result<(), Fail> {
    over_pattern(&rt, rt, "placed", placed, [true; 7])
}

/// Settles 320 cells of the pattern from place 300 on.
fn place(trial: &mut Trial) -> bool {
    match pattern(trial.file.rt.alloc(), 320) {
        Ok(bytes) => trial.settle(300, &bytes),
        Err(_) => false,
    }
}

/// Whether these cells are there after that.
fn placed(trial: &mut Trial) -> [bool; 7] {
    [
        place(trial),
        trial.reads(298, [47, 48, 0, 1]),
        trial.reads(549, [249, 250, 0, 1]),
        trial.reads(618, [67, 68, 118, 119]),
        trial.stored(300) == Some(0),
        trial.stored(619) == Some(68),
        trial.file.remove(),
    ]
}

/// The cells of a file through a window, with a job file that has no name.
fn windowed(rt: HostRuntime, name: &str) -> Result<WindowedDisk<HostDisk>, OutOfMemory> {
    let name = Word::copy(rt.alloc(), name)?;
    let job = Word::copy(rt.alloc(), "")?;
    let cells = CellsFile::open(rt, name);
    let job = JobFile::new(rt, job, cells.id());
    Ok(WindowedDisk::new(rt.alloc(), HostDisk::new(job, cells)))
}

/// Whether all cells that are asked for are read in one call.
fn fills(cells: &mut WindowedDisk<HostDisk>, at: u64, found: &mut [u8]) -> bool {
    matches!(cells.cells_read_at(at, found), Ok(count) if count == found.len())
}

/// Whether these four cells are read in one call.
fn reads(cells: &mut WindowedDisk<HostDisk>, at: u64, bytes: [u8; 4]) -> bool {
    let mut found = [0; 4];
    fills(cells, at, &mut found) && found == bytes
}

#[test]
fn nothing_is_read_past_the_last_cell(rt: HostRuntime) -> Result<(), Fail> {
    let file = patterned(rt, "ended")?;
    let seen = ended(&file)?;
    expect_all(&rt, &seen);
    Ok(())
}

/// The answers of reads at the end of the cells, and of a read that is longer than a window.
fn ended(file: &Temporary) -> Result<[bool; 7], OutOfMemory> {
    let mut cells = windowed(file.rt, file.name.text())?;
    Ok(end_is_kept(&mut cells, file))
}

/// Whether the last cells are read and none past them, whether no window past the end is kept, and whether many cells are read at once.
fn end_is_kept(cells: &mut WindowedDisk<HostDisk>, file: &Temporary) -> [bool; 7] {
    [
        reads(cells, 0, [0, 1, 2, 3]) && reads(cells, 4996, [227, 228, 229, 230]),
        ends_before(cells, 4997),
        ends_before(cells, 5000),
        ends_before(cells, 9000),
        ends_before(cells, 4294967295),
        reads_many(file.rt.alloc(), cells),
        file.remove(),
    ]
}

/// Whether four cells can't be read from this place on, while the last four can.
fn ends_before(cells: &mut WindowedDisk<HostDisk>, at: u64) -> bool {
    !fills(cells, at, &mut [0; 4]) && reads(cells, 4996, [227, 228, 229, 230])
}

/// Whether 4,500 cells of the pattern, more than a window has, are read from place 400 on.
fn reads_many(alloc: Global, cells: &mut WindowedDisk<HostDisk>) -> bool {
    let mut many = [0; 4500];
    match pattern(alloc, CELLS) {
        Ok(wanted) => fills(cells, 400, &mut many) && many.as_slice() == &wanted[400..4900],
        Err(_) => false,
    }
}

#[test]
fn a_window_is_kept_until_it_is_dropped(rt: HostRuntime) -> Result<(), Fail> {
    let file = patterned(rt, "outside")?;
    let seen = written_meanwhile(&file)?;
    expect_all(&rt, &seen);
    Ok(())
}

/// The answers of reads through a window while another program writes the file.
fn written_meanwhile(file: &Temporary) -> Result<[bool; 12], OutOfMemory> {
    let mut cells = windowed(file.rt, file.name.text())?;
    Ok(kept_and_dropped(&mut cells, file))
}

/// Whether a window is kept while another program writes the file, until an operation is broken off. A sync drops the window too, and so
/// does a read that is longer than the window.
fn kept_and_dropped(cells: &mut WindowedDisk<HostDisk>, file: &Temporary) -> [bool; 12] {
    [
        reads(cells, 0, [0, 1, 2, 3]),
        file.write(&[211; CELLS]),
        reads(cells, 96, [96, 97, 98, 99]),
        cells.break_range().is_ok(),
        reads(cells, 0, [211; 4]),
        file.write(&[212; CELLS]),
        cells.cells_sync().is_ok(),
        reads(cells, 0, [212; 4]),
        file.write(&[213; CELLS]),
        !fills(cells, 1000, &mut [0; 4500]),
        reads(cells, 0, [213; 4]),
        file.remove(),
    ]
}

/// The system's `/dev/full` is read as zeros, and no write to it succeeds.
#[test]
fn a_write_that_failed_is_not_seen(rt: HostRuntime) -> Result<(), Fail> {
    let seen = full(rt)?;
    expect_all(&rt, &seen);
    Ok(())
}

/// The answers of a write to `/dev/full` and of reads.
fn full(rt: HostRuntime) -> Result<[bool; 4], OutOfMemory> {
    let mut cells = windowed(rt, "/dev/full")?;
    Ok(unwritten(&mut cells))
}

/// Whether a write fails, and zeros are read after it.
fn unwritten(cells: &mut WindowedDisk<HostDisk>) -> [bool; 4] {
    let mut found = [1; 2];
    [
        fills(cells, 0, &mut found),
        cells.open_range(0, 2).is_ok(),
        cells.cells_write_at(0, &[1, 2]).is_err(),
        fills(cells, 0, &mut found) && found == [0, 0],
    ]
}
