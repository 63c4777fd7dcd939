//! Each adapter over real files, in the system's folder for temporary files.
ghost use Rattle.std.specs.Prelude.{◌≡◌, vec_len, IfOk};

mod bench;
mod cells;
mod inputs;
mod job;
mod locks;
mod systems;

use crate::expect::expect_all;
use bench_model::Bench;
use faults::OutOfMemory;
use host_files::{FileBench, StdSink};
use octets::Word;
use outside_io::Sink;
use std::alloc::{AllocError, Global};
use std::fmt::Debug;
use std::os::unix::fs::symlink;
use std::process::Abort;
use std::test::Fail;
use std::{env, fs, process};

/// A file that only one test uses. It exists once it is written.
#[derive(Drop)]
struct Temporary {
    rt: HostRuntime,
    name: Word,
}

/// A name in a folder, with this end and with the number of this run.
fn name_in(rt: HostRuntime, folder: &str, end: &str) -> Result<Word, OutOfMemory> {
    let id = process::id(rt.process());
    let path = format!(in rt.alloc(); "{folder}/host_files_{id}_{end}")?;
    Word::copy(rt.alloc(), path.as_str())
}

impl Temporary {
    /// A name with this end.
    fn new(rt: HostRuntime, end: &str) -> Result<Temporary, Fail> {
        let folder = env::temp_dir(&rt)?;
        let name = name_in(rt, folder.as_path().as_str(), end)?;
        Ok(Temporary { rt, name })
    }

    /// A file with this end of its name, and these bytes.
    fn holding(rt: HostRuntime, end: &str, bytes: &[u8]) -> Result<Temporary, Fail> {
        let file = Temporary::new(rt, end)?;
        fs::write(&rt, file.name.text(), bytes)?;
        Ok(file)
    }

    /// The folder for temporary files itself.
    fn folder(rt: HostRuntime) -> Result<Temporary, Fail> {
        let folder = env::temp_dir(&rt)?;
        let name = Word::copy(rt.alloc(), folder.as_path().as_str())?;
        Ok(Temporary { rt, name })
    }

    /// The name of the file.
    fn word(&self) -> Result<Word, OutOfMemory> {
        Word::copy(self.rt.alloc(), self.name.text())
    }

    /// Puts these bytes into the file, and says whether that went well.
    fn write(&self, bytes: &[u8]) -> bool {
        fs::write(&self.rt, self.name.text(), bytes).is_ok()
    }

    /// Whether the file holds these bytes.
    fn holds(&self, bytes: &[u8]) -> bool {
        match fs::read(&self.rt, self.name.text()) {
            Ok(found) => found.as_slice() == bytes,
            Err(_) => false,
        }
    }

    /// Makes the name a symbolic link to another one, and says whether that went well.
    fn link_to(&self, other: &Temporary) -> bool {
        symlink(&self.rt, other.name.text(), self.name.text()).is_ok()
    }

    /// Whether no file has the name.
    fn is_missing(&self) -> bool {
        matches!(fs::exists(&self.rt, self.name.text()), Ok(false))
    }

    /// Removes the file, and says whether that went well.
    fn remove(&self) -> bool {
        fs::remove_file(&self.rt, self.name.text()).is_ok()
    }
}

/// `len` bytes that differ from their neighbours, and from the bytes a window further on.
fn pattern(alloc: Global, len: usize) -> Result<Vec<u8>, AllocError>
    ensures { IfOk result (λ bytes. vec_len bytes ≡ len) }
{
    let mut bytes = vec![in alloc; 0u8; len]?;
    for (place, byte) in bytes.iter_mut().enumerate() {
        *byte = (place % 251) as u8;
    }
    Ok(bytes)
}

/// A bench over two files. Calls that answer no value say whether they went well.
#[derive(Drop)]
struct Files {
    job: Temporary,
    cells: Temporary,
    bench: FileBench,
}

/// A bench over two files.
fn bench_over(job: &Temporary, cells: &Temporary) -> Result<FileBench, OutOfMemory> {
    Ok(FileBench::new(job.rt, job.word()?, cells.word()?))
}

/// Asserts what is seen of a bench over these files.
fn over<T: PartialEq + Debug + Copy, F: FnOnce(&mut Files) -> T + Copy>(
    rt: &impl Abort,
    job: Temporary,
    cells: Temporary,
    look: F,
    wanted: T,
) -> Result<(), Fail>
    requires { F.IsAlwaysCallable look }
{
    let mut files = Files::over(job, cells)?;
    assert_eq!(rt; look(&mut files), wanted);
    Ok(())
}

/// Asserts what is seen of a bench over files with these ends of their names, and these cells.
fn over_cells<T: PartialEq + Debug + Copy, F: FnOnce(&mut Files) -> T + Copy>(
    rt: &impl Abort,
    host: HostRuntime,
    ends: (&str, &str),
    bytes: &[u8],
    look: F,
    wanted: T,
) -> Result<(), Fail>
    requires { F.IsAlwaysCallable look }
{
    let cells = Temporary::holding(host, ends.1, bytes)?;
    over(rt, Temporary::new(host, ends.0)?, cells, look, wanted)
}

impl Files {
    /// A bench over these files.
    fn over(job: Temporary, cells: Temporary) -> Result<Files, OutOfMemory> {
        let bench = bench_over(&job, &cells)?;
        Ok(Files { job, cells, bench })
    }

    /// Files with these ends of their names, and with these cells.
    fn new(rt: HostRuntime, ends: (&str, &str), bytes: &[u8]) -> Result<Files, Fail> {
        let cells = Temporary::holding(rt, ends.1, bytes)?;
        Ok(Files::over(Temporary::new(rt, ends.0)?, cells)?)
    }

    /// Opens an operation on some of the first six cells.
    fn open(&mut self, at: u32, len: u32) -> bool {
        len > 0
            && at < 6
            && len <= 6 - at
            && self.bench.cells_len() >= 6
            && self.bench.cells_open(at, len).is_ok()
    }

    /// Whether the first six cells are these.
    fn reads_cells(&mut self, cells: [u8; 6]) -> bool {
        let mut found = [0; 6];
        self.bench.cells_len() >= 6
            && self.bench.cells_read(0, &mut found).is_ok()
            && found == cells
    }

    /// Writes to the job file, and syncs it.
    fn write_synced(&mut self, at: u64, bytes: &[u8]) -> bool {
        self.bench.file_write(at, bytes).is_ok() && self.bench.file_sync().is_ok()
    }

    /// Whether the job file has `len` bytes.
    fn has_length(&mut self, len: u64) -> bool {
        matches!(self.bench.file_len(), Ok(found) if found == len)
    }

    /// Whether the job file has these three bytes from a place on.
    fn reads(&mut self, at: u64, bytes: [u8; 3]) -> bool {
        let mut found = [0; 3];
        self.bench.file_read(at, &mut found).is_ok() && found == bytes
    }

    /// Whether the files hold these bytes.
    fn hold(&self, job: &[u8], cells: &[u8]) -> bool {
        self.job.holds(job) && self.cells.holds(cells)
    }

    /// Removes both files.
    fn remove(&self) -> bool {
        self.job.remove() && self.cells.remove()
    }
}

#[test]
fn a_standard_stream_takes_pieces(rt: HostRuntime) {
    let mut out = StdSink::new(rt.stdout());
    expect_all(&rt, &[out.put(b"one ").is_ok(), out.put(b"line\n").is_ok()]);
}
