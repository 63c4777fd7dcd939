//! A file whose changes wait in a cache until they are synced.
ghost use Rattle.std.specs.Prelude.{◌≤◌, length};

use std::alloc::{AllocError, Global};

/// The byte that a loss of power leaves where it may leave any byte.
const GARBAGE: u8 = 0x5A;

/// What becomes of a change that waits in a cache when the power is lost.
#[derive(Clone, Copy, Debug, PartialEq, Eq)]
pub enum Fate {
    /// The change didn't reach the disk.
    Absent,

    /// The whole change reached the disk.
    Whole,

    /// The first half of the change reached the disk.
    CutShort,

    /// The place of the change has any bytes.
    Garbage,
}

impl Fate {
    /// The next fate, in a round of the four.
    fn next(self) -> Fate {
        match self {
            Fate::Absent => Fate::Whole,
            Fate::Whole => Fate::CutShort,
            Fate::CutShort => Fate::Garbage,
            Fate::Garbage => Fate::Absent,
        }
    }
}

/// What becomes of the changes that wait. The first has this fate. Each later one has the same, or the next in the round of the four.
#[derive(Clone, Copy, Debug, PartialEq, Eq)]
pub struct Loss {
    pub first: Fate,
    pub mixed: bool,
}

/// A change of a file: bytes that replace others, or a cut to a length.
#[derive(Drop)]
enum Change {
    Write { at: usize, bytes: Vec<u8> },
    Cut { len: usize },
}

/// A file as it is on the disk and as a read gives it, and the changes that lead from the first to the second.
#[derive(Drop)]
pub struct CachedFile {
    disk: Vec<u8>,
    cache: Vec<u8>,
    waiting: Vec<Change>,
}

impl CachedFile {
    /// A file with these bytes, all of them on the disk.
    pub fn new(alloc: Global, bytes: &[u8]) -> Result<CachedFile, AllocError> {
        Ok(CachedFile {
            disk: Vec::from_slice(alloc, bytes)?,
            cache: Vec::from_slice(alloc, bytes)?,
            waiting: Vec::new(alloc),
        })
    }

    /// The bytes as a read gives them.
    pub fn bytes(&self) -> &[u8] {
        &self.cache
    }

    /// Reads some bytes from a place on, and says how many.
    pub fn read(&self, at: usize, out: &mut [u8]) -> usize
        ensures { result ≤ length out.old }
    {
        let rest = self.cache.get(at..).unwrap_or(&[]);
        let count = rest.len().min(out.len());
        for (to, byte) in out.iter_mut().zip(rest.iter()) {
            *to = *byte;
        }
        count
    }

    /// Writes bytes over others, from a place on.
    pub fn write(&mut self, alloc: Global, at: usize, bytes: &[u8]) -> Result<(), AllocError> {
        lay(&mut self.cache, at, bytes)?;
        let bytes = Vec::from_slice(alloc, bytes)?;
        self.waiting.push(Change::Write { at, bytes })?;
        Ok(())
    }

    /// Cuts the file.
    pub fn cut(&mut self, len: usize) -> Result<(), AllocError> {
        self.cache.truncate(len);
        self.waiting.push(Change::Cut { len })?;
        Ok(())
    }

    /// Brings the file to the disk.
    pub fn sync(&mut self, alloc: Global) -> Result<(), AllocError> {
        self.disk = Vec::from_slice(alloc, &self.cache)?;
        self.waiting.clear();
        Ok(())
    }

    /// What is on the disk after the power was lost.
    pub fn lose(self, loss: Loss) -> Result<Vec<u8>, AllocError> {
        let CachedFile {
            disk: mut left,
            cache: _,
            waiting,
        } = self;
        let mut fate = loss.first;
        for change in waiting.iter() {
            match change {
                Change::Write { at, bytes } => leave_write(&mut left, *at, bytes, fate)?,
                Change::Cut { len } => leave_cut(&mut left, *len, fate),
            }
            if loss.mixed {
                fate = fate.next();
            }
        }
        Ok(left)
    }
}

/// Writes bytes over others, from a place on. Where the file is shorter than that, zeros come between.
fn lay(file: &mut Vec<u8>, at: usize, bytes: &[u8]) -> Result<(), AllocError> {
    let end = at.saturating_add(bytes.len());
    if file.len() < end {
        file.resize(end, 0)?;
    }
    for (to, byte) in file.iter_mut().skip(at).zip(bytes.iter()) {
        *to = *byte;
    }
    Ok(())
}

/// What a loss of power leaves of a write that waited.
fn leave_write(file: &mut Vec<u8>, at: usize, bytes: &[u8], fate: Fate) -> Result<(), AllocError> {
    match fate {
        Fate::Absent => {}
        Fate::Whole => lay(file, at, bytes)?,
        Fate::CutShort => lay(file, at, &bytes[..bytes.len() / 2])?,
        Fate::Garbage => {
            lay(file, at, bytes)?;
            spoil(file, at, bytes.len());
        }
    }
    Ok(())
}

/// What a loss of power leaves of a cut that waited.
fn leave_cut(file: &mut Vec<u8>, len: usize, fate: Fate) {
    let rest = file.len().saturating_sub(len);
    match fate {
        Fate::Absent => {}
        Fate::Whole => file.truncate(len),
        Fate::CutShort => file.truncate(len.saturating_add(rest / 2)),
        Fate::Garbage => spoil(file, len, rest),
    }
}

/// Puts garbage into some bytes from a place on.
fn spoil(file: &mut Vec<u8>, at: usize, len: usize) {
    for byte in file.iter_mut().skip(at).take(len) {
        *byte = GARBAGE;
    }
}
