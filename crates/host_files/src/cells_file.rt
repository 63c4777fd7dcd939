//! The cells of the device as a file, one byte for each cell.
ghost use Rattle.std.specs.Prelude.{◌≡◌, ◌≤◌, length, IfOk};
ghost use Rattle.host_files.specs.declared.file_lock.Hold.TheVariants as hold;

use crate::file_id::FileId;
use crate::file_lock::FileLock;
use octets::Word;
use std::fs::{File, OpenOptions};
use std::io;
use std::io::ErrorKind;
use std::os::unix::fs::FileExt;

/// A cells file. If it can't be opened, each call but a sync fails. If it can only be read, each call that begins an operation fails. A
/// call also fails if another program has the file locked, and one that begins an operation if another program reads it.
#[derive(Drop)]
pub struct CellsFile {
    name: Word,
    file: Option<File>,
    writable: bool,
    count: u32,
    lock: FileLock,
}

impl CellsFile {
    /// Opens the file of this name.
    pub fn open(rt: HostRuntime, name: Word) -> CellsFile
        ensures name { result.name ≡ name }
        ensures lock { result.lock.hold ≡ hold.Nothing }
    {
        let (file, count, writable) = match open_file(rt, name.text()) {
            Ok((file, count, writable)) => (Some(file), count, writable),
            Err(_) => (None, 0, false),
        };
        CellsFile {
            name,
            file,
            writable,
            count,
            lock: FileLock::new(rt),
        }
    }

    /// Makes each later call fail that another program's lock would make fail.
    pub fn shut(&mut self)
        ensures name { self.new.name ≡ self.old.name }
        ensures lock { self.new.lock.hold ≡ hold.Lost }
    {
        self.lock.lose();
    }

    /// Sets whether other programs are kept from reading the cells from the first call on, unless one is reading them then.
    pub fn claim(&mut self, claims: bool)
        ensures name { self.new.name ≡ self.old.name }
        ensures lock { self.new.lock.hold ≡ self.old.lock.hold }
    {
        self.lock.claim(claims);
    }

    /// The number of cells: the file's length, at most 2^32 - 1, or 0 if it can't be opened.
    pub fn count(&self) -> u32 {
        self.count
    }

    /// The identity of the file, if it could be opened.
    pub fn id(&self) -> Option<FileId> {
        match &self.file {
            Some(file) => FileId::of(file).ok(),
            None => None,
        }
    }

    /// Reads some cells from place `at` on.
    pub fn read_at(&mut self, at: u64, out: &mut [u8]) -> io::Result<usize>
        ensures { IfOk result (λ count. count ≤ length out.old) }
    {
        shared(&self.file, &mut self.lock)?.read_at(out, at)
    }

    /// Writes some of these cells from place `at` on.
    pub fn write_at(&mut self, at: u64, bytes: &[u8]) -> io::Result<usize>
        ensures { IfOk result (λ count. count ≤ length bytes.now) }
    {
        owned(&self.file, &mut self.lock)?.write_at(bytes, at)
    }

    /// Keeps other programs from reading and writing the cells, if there are any. It is an error if one does.
    pub fn keep(&mut self) -> io::Result<()> {
        match &self.file {
            Some(file) => self.lock.own(file),
            None => Ok(()),
        }
    }

    /// Begins an operation.
    pub fn begin(&mut self) -> io::Result<()> {
        shared(&self.file, &mut self.lock)?;
        if !self.writable {
            return Err(io::Error::from(ErrorKind::PermissionDenied));
        }
        owned(&self.file, &mut self.lock)?;
        Ok(())
    }

    /// Breaks off an operation. Its range keeps the bytes that are there.
    pub fn break_off(&mut self) -> io::Result<()> {
        shared(&self.file, &mut self.lock)?;
        Ok(())
    }

    /// Syncs the cells to the disk, if there are any.
    pub fn sync(&mut self) -> io::Result<()> {
        match &self.file {
            Some(file) => file.sync_all(),
            None => Ok(()),
        }
    }
}

/// The file, if it could be opened and no other program can write it.
fn shared<'a>(file: &'a Option<File>, lock: &mut FileLock) -> io::Result<&'a File> {
    match file {
        Some(file) => {
            lock.share(file)?;
            Ok(file)
        }
        None => Err(io::Error::from(ErrorKind::NotFound)),
    }
}

/// The file, if it could be opened and no other program can read or write it.
fn owned<'a>(file: &'a Option<File>, lock: &mut FileLock) -> io::Result<&'a File> {
    match file {
        Some(file) => {
            lock.own(file)?;
            Ok(file)
        }
        None => Err(io::Error::from(ErrorKind::NotFound)),
    }
}

/// Opens a file of cells. Answers the file, its number of cells, and whether it can be written. If it can't, it is opened for
/// reading. A folder is an error.
fn open_file(rt: HostRuntime, name: &str) -> io::Result<(File, u32, bool)> {
    let (file, writable) = match OpenOptions::new().read(true).write(true).open(&rt, name) {
        Ok(file) => (file, true),
        Err(_) => (File::open(&rt, name)?, false),
    };
    let data = file.metadata()?;
    if data.is_dir() {
        return Err(io::Error::from(ErrorKind::IsADirectory));
    }
    let count = data.len().min(u64::from(u32::MAX)) as u32;
    Ok((file, count, writable))
}
