//! The job file and the cells file as a bench.
ghost use Rattle.std.specs.Prelude.{◌≡◌, List};
ghost use Rattle.host_files.specs.Bench.{has_file, has_one, is_taken};

use crate::cells_file::CellsFile;
use crate::file_id::FileId;
use crate::host_disk::HostDisk;
use crate::job_file::JobFile;
use crate::progress_line::ProgressLine;
use crate::purpose::Purpose;
use bench_model::{Bench, DeviceFault, StoreFault};
use disk_files::{DiskBench, WindowedDisk};
use octets::Word;

/// A bench that passes each call to the bench in it. It counts the erased and programmed cells on a line, and knows which files of the
/// system the bench in it is over.
#[derive(Drop)]
pub struct ShownBench<B> {
    bench: B,
    line: ProgressLine,
    // the length of the operation that was opened last
    open_len: u32,
    // the job file if it existed when the bench was made, and the cells file
    job: Option<FileId>,
    cells: Option<FileId>,
}

/// The bench over two files of the system. Contracts see no contents of it, since they see none of `HostDisk`.
pub type FileBench = ShownBench<DiskBench<WindowedDisk<HostDisk>>>;

/// Whether one of these benches has this file.
fn has_one(file: FileId, benches: &[FileBench]) -> bool
    ensures { result ≡ has_one file benches.now }
{
    for bench in benches {
        if bench.has(file) {
            return true;
        }
    }
    false
}

/// Whether a file was found and one of these benches has it.
fn is_taken(benches: &[FileBench], found: Option<FileId>) -> bool
    ensures { result ≡ is_taken found benches.now }
{
    match found {
        Some(file) => has_one(file, benches),
        None => false,
    }
}

impl ShownBench<DiskBench<WindowedDisk<HostDisk>>> {
    ghost use Rattle.host_files.specs.Bench.{state_of, job_name_of, cells_name_of, IsBeside};

    /// Opens the cells file. One that can't be opened counts as no cells, and each call on it that can fail does. The
    /// first call on the job file opens it.
    pub fn new(rt: HostRuntime, job_name: Word, cells_name: Word) -> FileBench
        ensures job { job_name_of result ≡ job_name }
        ensures cells { cells_name_of result ≡ cells_name }
        ensures store { (state_of result).store_faults ≡ 0 }
        ensures device { (state_of result).device_faults ≡ 0 }
    {
        FileBench::opened(rt, job_name, cells_name, &[], Purpose::Looks)
    }

    /// Opens the files as `new` does, beside other benches of this program. A file that one of these has counts as one that another program
    /// writes: each call on it that can fail does. So two benches never change one file, even on a system without locks. A job
    /// file that doesn't exist yet belongs to no bench: a command that resumes it finds no job.
    pub fn beside(
        rt: HostRuntime,
        job_name: Word,
        cells_name: Word,
        others: &[FileBench],
    ) -> FileBench
        ensures job { job_name_of result ≡ job_name }
        ensures cells { cells_name_of result ≡ cells_name }
        ensures beside { IsBeside others.now result }
        ensures store { (state_of result).store_faults ≡ 0 }
        ensures device { (state_of result).device_faults ≡ 0 }
    {
        FileBench::opened(rt, job_name, cells_name, others, Purpose::Looks)
    }

    /// Opens the files for a purpose, as `beside` does. If the purpose is to change them, other programs are kept from reading each file
    /// from the first call on it, unless one is reading it then. So no program that begins to read later gets in the way.
    pub fn opened(
        rt: HostRuntime,
        job_name: Word,
        cells_name: Word,
        others: &[FileBench],
        purpose: Purpose,
    ) -> FileBench
        ensures job { job_name_of result ≡ job_name }
        ensures cells { cells_name_of result ≡ cells_name }
        ensures beside { IsBeside others.now result }
        ensures store { (state_of result).store_faults ≡ 0 }
        ensures device { (state_of result).device_faults ≡ 0 }
    {
        let job_id = FileId::named(rt, job_name.text());
        let mut cells = CellsFile::open(rt, cells_name);
        let cells_id = cells.id();
        let count = cells.count();
        let mut job = JobFile::new(rt, job_name, cells_id);
        let claims = purpose.claims(job_id);
        job.claim(claims);
        cells.claim(claims);
        if is_taken(others, job_id) {
            job.shut();
        }
        if is_taken(others, cells_id) {
            cells.shut();
        }
        ShownBench {
            bench: DiskBench::new(
                WindowedDisk::new(rt.alloc(), HostDisk::new(job, cells)),
                count,
            ),
            line: ProgressLine::none(),
            open_len: 0,
            job: job_id,
            cells: cells_id,
        }
    }

    /// From now on, counts the cells that were erased and programmed on this line.
    pub fn show_on(&mut self, line: ProgressLine)
        ensures job { job_name_of self.new ≡ job_name_of self.old }
        ensures cells { cells_name_of self.new ≡ cells_name_of self.old }
        ensures beside { (others : List _) → IsBeside others self.old → IsBeside others self.new }
        ensures count { (state_of self.new).cell_count ≡ (state_of self.old).cell_count }
        ensures store { (state_of self.new).store_faults ≡ (state_of self.old).store_faults }
        ensures device { (state_of self.new).device_faults ≡ (state_of self.old).device_faults }
    {
        line.set_cells(self.bench.cells_len());
        self.line = line;
    }
}

impl<B> ShownBench<B> {
    /// Whether this is one of the bench's files.
    fn has(&self, file: FileId) -> bool
        ensures { result ≡ has_file file self.now }
    {
        file.matches(self.job) || file.matches(self.cells)
    }
}

impl<B: Bench> Bench for ShownBench<B> {
    ghost tells = { B.tells };

    ghost state = { λ b. B.state b.bench };

    ghost acts = { λ before act after. B.acts before.bench act after.bench };

    ghost as_read = { λ b told. B.as_read b.bench told };

    ghost as_told = { λ b cells told. B.as_told b.bench cells told };

    ghost all_told = { λ b told. B.all_told b.bench told };

    ghost bytes = { λ b told. B.bytes b.bench told };

    ghost few = { λ b. B.few b.bench };

    ghost inside = { λ b told. B.inside b.bench told };

    fn file_len(&mut self) -> Result<u64, StoreFault> {
        self.bench.file_len()
    }

    fn file_read(&mut self, at: u64, out: &mut [u8]) -> Result<(), StoreFault> {
        self.bench.file_read(at, out)
    }

    fn file_write(&mut self, at: u64, bytes: &[u8]) -> Result<(), StoreFault> {
        self.bench.file_write(at, bytes)
    }

    fn file_cut(&mut self, len: u64) -> Result<(), StoreFault> {
        self.bench.file_cut(len)
    }

    fn file_sync(&mut self) -> Result<(), StoreFault> {
        self.bench.file_sync()
    }

    fn cells_len(&self) -> u32 {
        self.bench.cells_len()
    }

    #[inline(always)]
    fn cells_read(&mut self, at: u32, out: &mut [u8]) -> Result<(), DeviceFault> {
        self.bench.cells_read(at, out)
    }

    fn cells_open(&mut self, at: u32, len: u32) -> Result<(), DeviceFault> {
        self.open_len = len;
        self.bench.cells_open(at, len)
    }

    fn cells_settle(&mut self, bytes: &[u8]) -> Result<(), DeviceFault> {
        self.bench.cells_settle(bytes)?;
        self.line.programmed(bytes.len() as u64);
        Ok(())
    }

    fn cells_settle_fill(&mut self, value: u8) -> Result<(), DeviceFault> {
        self.bench.cells_settle_fill(value)?;
        self.line.erased(u64::from(self.open_len));
        Ok(())
    }

    fn cells_drop(&mut self) -> Result<(), DeviceFault> {
        self.bench.cells_drop()
    }
}
