//! A bench in memory. It records each call that changed something, so it knows what a stop at each moment may leave.
ghost use Rattle.std.specs.Prelude.{◌≡◌, ◌≤◌, ◌<◌, ◌+◌, ◌^◌, ◌↔◌, length, slice_get, Some, IsTrue, IfOk, All, vec_len, vec_capacity};
ghost use Rattle.std.specs.Option.{ForSome};
ghost use Rattle.bench_model.specs.Memory.{InStep};
ghost use Rattle.bench_model.specs.Picked.{IsPickedFile, picked_cells};
ghost use Rattle.bench_model.specs.Record.{HasRoom, held_now, broken};

use crate::change::Change;
use crate::lay::{overwrite, replace, settle, settle_fill};
use crate::pick::Pick;
use crate::record::Record;
use crate::{Bench, DeviceFault, StoreFault};
use faults::{FailingCalls, OutOfMemory};
use std::alloc::Global;

/// A bench in memory, for tests and for devices that a test emulates. It shows its contents.
///
/// A call fails only if its number is one that is to fail, or if there is no room for it. It then changes only its number and the count of
/// faults.
#[derive(Drop)]
pub struct MemoryBench {
    file: Vec<u8>,
    cells: Vec<u8>,
    operation: Option<(u32, u32)>,
    history: Record,
    file_room: u64,
    store: FailingCalls,
    device: FailingCalls,
    garbage: Vec<u8>,
    breaks: u64,

    ghost in_step: { InStep (held_now history) file.items cells.items operation },
    ghost fits: { length cells.items < 2 ^ 32 },
    ghost file_bytes: { All (λ byte. byte < 256) file.items },
    ghost cells_bytes: { All (λ byte. byte < 256) cells.items },
    ghost counted: { length history.made.cells ≡ length cells.items },
    ghost within: { (held_now history).kept.greatest ≤ history.longest },
    ghost file_fits: { history.longest ≤ vec_capacity file },
    ghost room_fits: { file_room ≤ history.longest },
}

impl MemoryBench {
    ghost use Rattle.bench_model.specs.Shown.{shown, bench_of, made_bench};
    ghost use Rattle.bench_model.specs.Loss.{IsAtRest, IsPicked, after_loss};
    ghost use Rattle.bench_model.specs.State.{Left};

    /// A bench with these cells and this file, where nothing is pending. It takes all memory that it ever needs.
    ///
    /// `file_room` is the longest file, in bytes, that a write may give. `call_room` is the room for recorded calls in units: a call takes
    /// one unit, and one more for each byte of the slice that it gets. `store_fails` and `device_fails` are the numbers from 1 of the file
    /// calls and of the cell calls that are to fail. Each operation that is broken off leaves the next byte of `garbage` in its range, or
    /// its old bytes if no byte is left.
    pub fn new(
        alloc: Global,
        cells: &[u8],
        file: &[u8],
        file_room: u64,
        call_room: u64,
        store_fails: &[u64],
        device_fails: &[u64],
        garbage: &[u8],
    ) -> Result<MemoryBench, OutOfMemory>
        requires { length cells.now < 2 ^ 32 }
        ensures made { IfOk result (λ bench. shown bench ≡ made_bench cells.now file.now file_room call_room store_fails.now device_fails.now garbage.now) }
        ensures rest { IfOk result (λ bench. IsAtRest (bench_of bench)) }
    {
        let longest = file.len().max(file_room as usize);
        let mut own_file = Vec::with_capacity(alloc, longest)?;
        replace(&mut own_file, file);
        let mut own_cells = Vec::with_capacity(alloc, cells.len())?;
        replace(&mut own_cells, cells);
        Ok(MemoryBench {
            file: own_file,
            cells: own_cells,
            operation: None,
            history: Record::new(alloc, file, cells, call_room, longest)?,
            file_room,
            store: FailingCalls::new(alloc, store_fails)?,
            device: FailingCalls::new(alloc, device_fails)?,
            garbage: garbage.to_vec(alloc)?,
            breaks: 0,
        })
    }

    /// The cells of the bench.
    pub fn cells(&self) -> &[u8]
        ensures { result.now ≡ (bench_of self.now).cells }
    {
        &self.cells
    }

    /// The job file as a read gives it.
    pub fn file(&self) -> &[u8]
        ensures { result.now ≡ (bench_of self.now).file }
    {
        &self.file
    }

    /// Loses power. Of the pairs of a file and cells that a stop may leave, the picked one remains. Afterwards nothing is pending and no
    /// operation is open. The record is empty, and its moments begin again. The counts of faults and the numbers of calls continue.
    pub fn power_loss(&mut self, pick: Pick)
        ensures left { Left (bench_of self.old) (bench_of self.new).file (bench_of self.new).cells }
        ensures picked { IsPicked pick (shown self.old) (shown self.new).file (shown self.new).cells }
        ensures rest { IsAtRest (bench_of self.new) }
        ensures exact { shown self.new ≡ after_loss (shown self.new).file (shown self.new).cells (shown self.old) }
    {
        pick_file(&self.history, &mut self.file, pick);
        pick_cells(&mut self.cells, self.operation, pick);
        self.operation = None;
        self.history.restart(&self.file, &self.cells);
    }
}

/// Writes the file that a stop leaves.
fn pick_file(history: &Record, file: &mut Vec<u8>, pick: Pick)
    requires longest { (held_now history.now).kept.greatest ≤ vec_capacity file.old }
    requires older { length (held_now history.now).kept.synced ≤ vec_capacity file.old }
    ensures items { IsPickedFile pick (held_now history.now).kept file.old.items file.new.items }
    ensures bytes { All (λ byte. byte < 256) file.new.items }
    ensures capacity { vec_capacity file.old ≤ vec_capacity file.new }
{
    match pick {
        Pick::AsWritten => {}
        Pick::AsOld => replace(file, history.synced()),
        Pick::Filled { value } => history.fill(file, value),
    }
}

/// Writes the cells that a stop leaves.
fn pick_cells(cells: &mut Vec<u8>, operation: Option<(u32, u32)>, pick: Pick)
    requires { ForSome operation (λ range. range.0 + range.1 ≤ vec_len cells.old) }
    ensures items { cells.new.items ≡ picked_cells pick operation cells.old.items }
    ensures bytes { All (λ byte. byte < 256) cells.new.items }
{
    if let (Pick::Filled { value }, Some((at, len))) = (pick, operation) {
        settle_fill(cells, at as usize, len as usize, value);
    }
}

/// Whether there is room for a write in the file and in the record.
fn can_write(history: &Record, file_room: u64, at: u64, len: usize) -> bool
    ensures { IsTrue result ↔ (at + len ≤ file_room) × HasRoom len history.now }
{
    at <= file_room && len as u64 <= file_room - at && history.has_room(len)
}

/// Fills a range of cells with a byte, or leaves the old bytes if there is none.
fn leave(cells: &mut Vec<u8>, at: usize, len: usize, byte: Option<u8>)
    requires { at + len ≤ vec_len cells.old }
    ensures items { cells.new.items ≡ broken byte (Some (at, len)) cells.old.items }
    ensures bytes { All (λ byte. byte < 256) cells.new.items }
{
    if let Some(value) = byte {
        settle_fill(cells, at, len, value);
    }
}

/// The byte at a place, if there is one.
fn byte_at(bytes: &[u8], at: u64) -> Option<u8>
    ensures { result ≡ slice_get bytes.now at }
{
    if at < bytes.len() as u64 {
        return Some(bytes[at as usize]);
    }
    None
}

impl Bench for MemoryBench {
    ghost use Rattle.std.specs.Prelude.{true, refl};
    ghost use Rattle.bench_model.specs.Memory.{memory_state, left_as_read, left_as_told};
    ghost use Rattle.bench_model.specs.MemoryActs.{memory_acts};

    ghost tells = { true };

    ghost state = { λ m. memory_state m.file.items m.cells.items m.operation m.store.faults m.device.faults m.history };

    ghost acts = { memory_acts };

    ghost as_read = { λ m told. left_as_read m.history m.file.items m.cells.items m.operation m.in_step };

    ghost as_told = { λ m x told. left_as_told m.history m.file.items m.cells.items m.operation m.in_step x };

    ghost all_told = { λ m told. refl };

    ghost bytes = { λ m told. (m.file_bytes, m.cells_bytes) };

    ghost few = { λ m. m.fits };

    ghost inside = { λ m told. m.in_step.in_range };

    fn file_len(&mut self) -> Result<u64, StoreFault> {
        if !self.store.next_goes(true) {
            return Err(StoreFault);
        }
        Ok(self.file.len() as u64)
    }

    fn file_read(&mut self, at: u64, out: &mut [u8]) -> Result<(), StoreFault> {
        if !self.store.next_goes(true) {
            return Err(StoreFault);
        }
        let at = at as usize;
        out.copy_from_slice(&self.file[at..at + out.len()]);
        Ok(())
    }

    fn file_write(&mut self, at: u64, bytes: &[u8]) -> Result<(), StoreFault> {
        let len = bytes.len();
        let room = can_write(&self.history, self.file_room, at, len);
        if !self.store.next_goes(room) {
            return Err(StoreFault);
        }
        overwrite(&mut self.file, at as usize, bytes);
        self.history.note(Change::Wrote(at, len as u64), bytes);
        Ok(())
    }

    fn file_cut(&mut self, len: u64) -> Result<(), StoreFault> {
        let room = self.history.has_room(0);
        if !self.store.next_goes(room) {
            return Err(StoreFault);
        }
        self.file.truncate(len as usize);
        self.history.note(Change::Cut(len), &[]);
        Ok(())
    }

    fn file_sync(&mut self) -> Result<(), StoreFault> {
        let room = self.history.has_room(0);
        if !self.store.next_goes(room) {
            return Err(StoreFault);
        }
        self.history.note_sync(&self.file);
        Ok(())
    }

    fn cells_len(&self) -> u32 {
        self.cells.len() as u32
    }

    fn cells_read(&mut self, at: u32, out: &mut [u8]) -> Result<(), DeviceFault> {
        if !self.device.next_goes(true) {
            return Err(DeviceFault);
        }
        let at = at as usize;
        out.copy_from_slice(&self.cells[at..at + out.len()]);
        Ok(())
    }

    fn cells_open(&mut self, at: u32, len: u32) -> Result<(), DeviceFault> {
        let room = self.history.has_room(0);
        if !self.device.next_goes(room) {
            return Err(DeviceFault);
        }
        self.history.note(Change::Opened(at, len), &[]);
        self.operation = Some((at, len));
        Ok(())
    }

    fn cells_settle(&mut self, bytes: &[u8]) -> Result<(), DeviceFault> {
        let Some((at, _)) = self.operation else {
            unreachable!()
        };
        let room = self.history.has_room(bytes.len());
        if !self.device.next_goes(room) {
            return Err(DeviceFault);
        }
        settle(&mut self.cells, at as usize, bytes);
        self.history
            .note(Change::Settled(bytes.len() as u64), bytes);
        self.operation = None;
        Ok(())
    }

    fn cells_settle_fill(&mut self, value: u8) -> Result<(), DeviceFault> {
        let Some((at, len)) = self.operation else {
            unreachable!()
        };
        let room = self.history.has_room(0);
        if !self.device.next_goes(room) {
            return Err(DeviceFault);
        }
        settle_fill(&mut self.cells, at as usize, len as usize, value);
        self.history.note(Change::Filled(value), &[]);
        self.operation = None;
        Ok(())
    }

    fn cells_drop(&mut self) -> Result<(), DeviceFault> {
        let Some((at, len)) = self.operation else {
            if !self.device.next_goes(true) {
                return Err(DeviceFault);
            }
            return Ok(());
        };
        let room = self.history.has_room(0);
        if !self.device.next_goes(room) {
            return Err(DeviceFault);
        }
        let byte = byte_at(&self.garbage, self.breaks);
        leave(&mut self.cells, at as usize, len as usize, byte);
        self.history.note(Change::BrokenOff(byte), &[]);
        self.operation = None;
        self.breaks = self.breaks.saturating_add(1);
        Ok(())
    }
}
