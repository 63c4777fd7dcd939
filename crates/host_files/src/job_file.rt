//! The job file on the disk.
ghost use Rattle.std.specs.Prelude.{◌≡◌, ◌≤◌, length, IfOk};
ghost use Rattle.host_files.specs.declared.file_lock.Hold.TheVariants as hold;

use crate::file_id::FileId;
use crate::file_lock::FileLock;
use octets::Word;
use std::fs::{File, OpenOptions};
use std::io::ErrorKind;
use std::os::unix::fs::FileExt;
use std::path::Path;
use std::{fs, io};

/// An open job file and its folder.
#[derive(Drop)]
struct Opened {
    file: File,
    folder: File,
}

/// A job file. Each call on it fails if the file isn't open, or if another program has locked it. A change also fails while another program
/// reads the file.
#[derive(Drop)]
pub struct JobFile {
    rt: HostRuntime,
    name: Word,
    cells: Option<FileId>,
    opened: Option<Opened>,
    lock: FileLock,
}

impl JobFile {
    /// The job file of this name, not opened yet. It must not be the cells file.
    pub fn new(rt: HostRuntime, name: Word, cells: Option<FileId>) -> JobFile
        ensures name { result.name ≡ name }
        ensures cells { result.cells ≡ cells }
        ensures lock { result.lock.hold ≡ hold.Nothing }
    {
        JobFile {
            rt,
            name,
            cells,
            opened: None,
            lock: FileLock::new(rt),
        }
    }

    /// Makes each later call fail that another program's lock would make fail.
    pub fn shut(&mut self)
        ensures name { self.new.name ≡ self.old.name }
        ensures lock { self.new.lock.hold ≡ hold.Lost }
    {
        self.lock.lose();
    }

    /// Sets whether other programs are kept from reading the file from the first call on, unless one is reading it then.
    pub fn claim(&mut self, claims: bool)
        ensures name { self.new.name ≡ self.old.name }
        ensures lock { self.new.lock.hold ≡ self.old.lock.hold }
    {
        self.lock.claim(claims);
    }

    /// Opens the file, or makes it if it is missing.
    pub fn open(&mut self) -> io::Result<()> {
        if self.opened.is_none() {
            self.opened = Some(open_or_make(self.rt, self.name.text(), self.cells)?);
        }
        let _file = self.shared()?;
        Ok(())
    }

    /// The file, once no other program can write it.
    fn shared(&mut self) -> io::Result<&File> {
        match &self.opened {
            Some(Opened { file, folder: _ }) => {
                self.lock.share(file)?;
                Ok(file)
            }
            None => Err(io::Error::from(ErrorKind::NotFound)),
        }
    }

    /// The file, once no other program can read or write it.
    fn owned(&mut self) -> io::Result<&File> {
        match &self.opened {
            Some(Opened { file, folder: _ }) => {
                self.lock.own(file)?;
                Ok(file)
            }
            None => Err(io::Error::from(ErrorKind::NotFound)),
        }
    }

    /// The number of bytes.
    pub fn len(&mut self) -> io::Result<u64> {
        Ok(self.shared()?.metadata()?.len())
    }

    /// Reads some bytes from `at` on.
    pub fn read_at(&mut self, at: u64, out: &mut [u8]) -> io::Result<usize>
        ensures { IfOk result (λ count. count ≤ length out.old) }
    {
        self.shared()?.read_at(out, at)
    }

    /// Writes some of the bytes from `at` on.
    pub fn write_at(&mut self, at: u64, bytes: &[u8]) -> io::Result<usize>
        ensures { IfOk result (λ count. count ≤ length bytes.now) }
    {
        self.owned()?.write_at(bytes, at)
    }

    /// Cuts the file to `len` bytes.
    pub fn cut(&mut self, len: u64) -> io::Result<()> {
        self.owned()?.set_len(len)
    }

    /// Syncs the file to the disk.
    pub fn sync(&mut self) -> io::Result<()> {
        match &self.opened {
            Some(Opened { file, folder: _ }) => {
                self.lock.share(file)?;
                file.sync_all()
            }
            None => Err(io::Error::from(ErrorKind::NotFound)),
        }
    }

    /// Syncs the file's entry in its folder to the disk. Another program, or a run that was killed, may just have made the file:
    /// so after a loss of power the host still finds it under its name.
    pub fn sync_folder(&mut self) -> io::Result<()> {
        match &self.opened {
            Some(Opened { file: _, folder }) => folder.sync_all(),
            None => Err(io::Error::from(ErrorKind::NotFound)),
        }
    }
}

/// Opens a job file, or makes it. It is an error if it is the cells file.
fn open_or_make(rt: HostRuntime, name: &str, cells: Option<FileId>) -> io::Result<Opened> {
    match OpenOptions::new().read(true).write(true).open(&rt, name) {
        Ok(file) => Ok(Opened {
            file: apart(file, cells)?,
            folder: open_real_folder(rt, name)?,
        }),
        Err(fault) if fault.kind() == ErrorKind::NotFound => make(rt, name),
        Err(fault) => Err(fault),
    }
}

/// Answers the file, unless it is the cells file under any name.
fn apart(file: File, cells: Option<FileId>) -> io::Result<File> {
    if FileId::of(&file)?.matches(cells) {
        return Err(io::Error::from(ErrorKind::InvalidInput));
    }
    Ok(file)
}

/// Makes a job file if there is none. A link that leads to no file is an error. So is a folder that can't be opened
/// for its sync: then no file is made.
fn make(rt: HostRuntime, name: &str) -> io::Result<Opened> {
    let folder = open_folder(rt, Path::new(name))?;
    let file = File::create_new(&rt, name)?;
    Ok(Opened { file, folder })
}

/// Opens the folder of a file. If the name is that of a link, it is the folder to which the link leads.
fn open_real_folder(rt: HostRuntime, name: &str) -> io::Result<File> {
    if fs::symlink_metadata(&rt, name)?.is_symlink() {
        open_folder(rt, fs::canonicalize(&rt, name)?.as_path())
    } else {
        open_folder(rt, Path::new(name))
    }
}

/// Opens the folder that a path names before its last part.
fn open_folder(rt: HostRuntime, path: Path<'_>) -> io::Result<File> {
    let folder = match path.parent() {
        Some(folder) if !folder.as_os_str().is_empty() => folder,
        _ => Path::new("."),
    };
    File::open(&rt, folder)
}
