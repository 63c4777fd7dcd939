//! The record of a bench in memory.
ghost use Rattle.std.specs.Prelude.{◌≡◌, ◌≤◌, ◌+◌, ◌<◌, ◌↔◌, ◌++◌, [], ◌∷◌, length, replicate, false, true, slice_index, slice_index_or, ℕ, IsTrue, IfOk};
ghost use Rattle.std.specs.Prelude.{vec_len, vec_capacity};
ghost use Rattle.bench_model.specs.Record.{handed, event_of, noted, synced, HasRoom, CanMark, marked, marked_by, at_rest, held_now};
ghost use Rattle.bench_model.specs.Kept.{IsFilled};

use crate::change::Change;
use crate::lay::{mark, replace};
use faults::OutOfMemory;
use std::alloc::Global;
use std::marker::Model;

#[derive(Drop)]
pub(crate) struct Record {
    // the bench when the record began
    made_file: Vec<u8>,
    made_cells: Vec<u8>,

    // the calls since then, and the bytes that they got
    changes: Vec<Change>,
    handed: Vec<u8>,

    // the units of these calls, and how many units there is room for
    used: u64,
    room: u64,

    // the file as the last sync left it, and for each byte up to its greatest length since then, whether it is pending
    synced: Vec<u8>,
    marks: Vec<bool>,

    // the longest file that there is room for
    longest: usize,
}

impl Model for Record {
    ghost use Rattle.std.specs.Prelude.{◌≤◌, length, vec_capacity};
    ghost use Rattle.bench_model.specs.Record.{Recorded, IsSound, at_rest, events_of};

    ghost Value = { Recorded };

    ghost view = { λ r. record {
      made = at_rest r.made_file.items r.made_cells.items;
      events = events_of r.changes.items r.handed.items;
      used = r.used;
      room = r.room;
      longest = r.longest;
    } };

    ghost invariant = { λ r. IsSound (at_rest r.made_file.items r.made_cells.items) r.changes.items r.handed.items r.synced.items r.marks.items
        r.used r.room r.longest (vec_capacity r.changes) (vec_capacity r.handed) (vec_capacity r.made_file) (vec_capacity r.synced) (vec_capacity r.marks) };
}

/// Adds a call at the end.
fn push(changes: &mut Vec<Change>, handed: &mut Vec<u8>, change: Change, bytes: &[u8])
    requires change_room { vec_len changes.old < vec_capacity changes.old }
    requires byte_room { vec_len handed.old + length bytes.now ≤ vec_capacity handed.old }
    ensures changes { changes.new.items ≡ changes.old.items ++ change ∷ [] }
    ensures handed { handed.new.items ≡ handed.old.items ++ bytes.now }
    ensures change_capacity { vec_capacity changes.old ≤ vec_capacity changes.new }
    ensures byte_capacity { vec_capacity handed.old ≤ vec_capacity handed.new }
{
    let _ = changes.push(change);
    let _ = handed.extend_from_slice(bytes);
}

/// Marks what a call leaves pending.
fn mark_by(marks: &mut Vec<bool>, change: Change, longest: usize)
    requires can { CanMark change (vec_len marks.old) longest }
    requires room { longest ≤ vec_capacity marks.old }
    ensures items { marks.new.items ≡ marked_by change marks.old.items }
    ensures capacity { vec_capacity marks.old ≤ vec_capacity marks.new }
{
    match change {
        Change::Wrote(at, len) => mark(marks, at as usize, at as usize + len as usize),
        Change::Cut(len) => mark_from(marks, len as usize),
        _ => {}
    }
}

fn mark_from(marks: &mut Vec<bool>, from: usize)
    requires { from ≤ vec_len marks.old }
    ensures items { marks.new.items ≡ marked from (vec_len marks.old) marks.old.items }
    ensures capacity { vec_capacity marks.old ≤ vec_capacity marks.new }
{
    let len = marks.len();
    mark(marks, from, len);
}

impl Record {
    /// An empty record of a bench at rest, with room for `room` units and for files of this length.
    pub(crate) fn new(
        alloc: Global,
        file: &[u8],
        cells: &[u8],
        room: u64,
        longest: usize,
    ) -> Result<Record, OutOfMemory>
        requires { length file.now ≤ longest }
        ensures { IfOk result (λ r. r ≡ record { made = at_rest file.now cells.now; events = []; used = 0; room = room; longest = longest }) }
    {
        let mut made_file = Vec::with_capacity(alloc, longest)?;
        replace(&mut made_file, file);
        let mut synced = Vec::with_capacity(alloc, longest)?;
        replace(&mut synced, file);
        let mut marks = Vec::with_capacity(alloc, longest)?;
        unmark(&mut marks, file.len());
        Ok(Record {
            made_file,
            made_cells: cells.to_vec(alloc)?,
            changes: Vec::with_capacity(alloc, room as usize)?,
            handed: Vec::with_capacity(alloc, room as usize)?,
            used: 0,
            room,
            synced,
            marks,
            longest,
        })
    }

    /// Whether there is room for a call that gets this number of bytes.
    pub(crate) fn has_room(&self, bytes: usize) -> bool
        ensures { IsTrue result ↔ HasRoom bytes self.now }
    {
        (bytes as u64) < self.room - self.used
    }

    /// Records a call other than a sync.
    pub(crate) fn note(&mut self, change: Change, bytes: &[u8])
        requires room { HasRoom (length bytes.now) self.old }
        requires handed { handed change ≡ length bytes.now }
        requires marks { CanMark change (held_now self.old).kept.greatest self.old.longest }
        ensures { self.new ≡ noted (event_of change bytes.now) self.old }
    {
        mark_by(&mut self.marks, change, self.longest);
        push(&mut self.changes, &mut self.handed, change, bytes);
        self.used += 1 + bytes.len() as u64;
    }

    /// Records a sync of this file.
    pub(crate) fn note_sync(&mut self, file: &[u8])
        requires room { HasRoom 0 self.old }
        requires file { (held_now self.old).kept.file ≡ file.now }
        requires fits { length file.now ≤ self.old.longest }
        ensures { self.new ≡ noted synced self.old }
    {
        replace(&mut self.synced, file);
        unmark(&mut self.marks, file.len());
        push(&mut self.changes, &mut self.handed, Change::Synced, &[]);
        self.used += 1;
    }

    /// The file as the last sync left it.
    pub(crate) fn synced(&self) -> &[u8]
        ensures { result.now ≡ (held_now self.now).kept.synced }
    {
        &self.synced
    }

    /// Writes the longest file that a stop may leave, with one value at each pending byte.
    pub(crate) fn fill(&self, file: &mut Vec<u8>, value: u8)
        requires { (held_now self.now).kept.greatest ≤ vec_capacity file.old }
        ensures items { IsFilled value (held_now self.now).kept file.new.items }
        ensures capacity { vec_capacity file.old ≤ vec_capacity file.new }
    {
        file.clear();
        let _ = file.resize(self.marks.len(), value);
        put_clear(file, &self.marks, &self.synced, value);
    }

    /// Begins a new record with a bench at rest.
    pub(crate) fn restart(&mut self, file: &[u8], cells: &[u8])
        requires file { length file.now ≤ self.old.longest }
        requires cells { length cells.now ≡ length self.old.made.cells }
        ensures { self.new ≡ record self.old { made = at_rest file.now cells.now; events = []; used = 0 } }
    {
        replace(&mut self.made_file, file);
        replace(&mut self.synced, file);
        unmark(&mut self.marks, file.len());
        self.made_cells.copy_from_slice(cells);
        self.changes.clear();
        self.handed.clear();
        self.used = 0;
    }
}

/// Writes the bytes without a mark over a file that has the same value everywhere.
fn put_clear(file: &mut [u8], marks: &[bool], bytes: &[u8], value: u8)
    requires filled { file.old ≡ replicate (length marks.now) value }
    requires enough { (i : ℕ) → i < length marks.now → slice_index_or marks.now i true ≡ false → i < length bytes.now }
    ensures long { length file.new ≡ length marks.now }
    ensures set { (i : ℕ) → i < length marks.now → slice_index_or marks.now i true ≡ true → slice_index file.new i ≡ value }
    ensures clear { (i : ℕ) → i < length marks.now → slice_index_or marks.now i true ≡ false → slice_index file.new i ≡ slice_index bytes.now i }
{
    for i in 0..marks.len() {
        if !marks[i] {
            file[i] = bytes[i];
        }
    }
}

/// Makes a list of `len` marks with nothing pending.
fn unmark(marks: &mut Vec<bool>, len: usize)
    requires { len ≤ vec_capacity marks.old }
    ensures items { marks.new.items ≡ replicate len false }
    ensures capacity { vec_capacity marks.old ≤ vec_capacity marks.new }
{
    marks.clear();
    let _ = marks.resize(len, false);
}
