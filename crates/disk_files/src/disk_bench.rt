//! The files of a host as a bench.
ghost use Rattle.std.specs.Prelude.{◌≡◌, ◌<◌, ◌^◌, length, IsTrue, true, false};

use crate::Disk;
use crate::cells_half::{fill_range, read_cells, ready_to_change, sync_earlier, write_range};
use crate::job_half::{measure, read_job, sync_job, write_all};
use crate::syncs::{CellsSyncs, JobSyncs};
use bench_model::{Bench, DeviceFault, StoreFault};
use faults::FaultCount;

/// A bench over the files of a host.
///
/// The job file's entry is synced before any other call on the file. Before the job file is changed, cells that may have been
/// written are synced: so a loss of power never leaves the later job file with the earlier cells. The cells that an earlier run
/// left are synced at the first break-off. Once a sync of a file has failed, all later syncs of it fail. A call fails only where
/// a call of the files failed, or an earlier sync did.
#[derive(Drop)]
pub struct DiskBench<F: Disk> {
    disk: F,
    job: JobSyncs,
    cells: CellsSyncs,
    operation: Option<(u32, u32)>,
    cell_count: u32,
    store_faults: FaultCount,
    device_faults: FaultCount,
    ghost few: { cell_count < 2 ^ 32 },
    ghost many: { IsTrue F.tells → length (F.state disk).cells ≡ cell_count },
    ghost open: { IsTrue F.tells → (F.state disk).operation ≡ operation },
    ghost durable: { IsTrue F.tells → job.entry ≡ true → (F.state disk).entry ≡ true },
    ghost whole: { IsTrue F.tells → job.failed ≡ false → (F.state disk).file_whole ≡ true },
    ghost broken: { IsTrue F.tells → job.failed ≡ true → (F.state disk).file_whole ≡ false },
    ghost written: { IsTrue F.tells → cells.pending ≡ false → (F.state disk).unsynced ≡ false },
    ghost left: { IsTrue F.tells → cells.fresh ≡ false → (F.state disk).earlier ≡ false },
    ghost safe: { IsTrue F.tells → cells.failed ≡ false → (F.state disk).cells_whole ≡ true },
    ghost spoilt: { IsTrue F.tells → cells.failed ≡ true → (F.state disk).cells_whole ≡ false },
}

impl<F: Disk> DiskBench<F> {
    ghost use Rattle.std.specs.Prelude.{◌≤◌, ◌+◌, None};
    ghost use Rattle.bench_model.specs.Does.{ReadsCells};
    ghost use Rattle.disk_files.specs.DiskState.{over};
    ghost use Rattle.disk_files.specs.Fails.{Fails};

    /// A bench over these files. Nothing is assumed to be on the disk.
    pub fn new(disk: F, cell_count: u32) -> DiskBench<F>
        requires many { IsTrue F.tells → length (F.state disk).cells ≡ cell_count }
        requires idle { IsTrue F.tells → (F.state disk).operation ≡ None }
        requires file { IsTrue F.tells → (F.state disk).file_whole ≡ true }
        requires cells { IsTrue F.tells → (F.state disk).cells_whole ≡ true }
        ensures disk { result.disk ≡ disk }
        ensures count { result.cell_count ≡ cell_count }
        ensures store { result.store_faults ≡ 0 }
        ensures device { result.device_faults ≡ 0 }
    {
        DiskBench {
            disk,
            job: JobSyncs {
                entry: false,
                failed: false,
            },
            cells: CellsSyncs {
                pending: true,
                fresh: true,
                failed: false,
            },
            operation: None,
            cell_count,
            store_faults: FaultCount::new(),
            device_faults: FaultCount::new(),
        }
    }

    /// Gives the files back.
    pub fn into_disk(self) -> F
        ensures { result ≡ self.disk }
    {
        let DiskBench {
            disk,
            job: _,
            cells: _,
            operation: _,
            cell_count: _,
            store_faults: _,
            device_faults: _,
        } = self;
        disk
    }

    /// Reads a range of the cells by calls of the files.
    #[inline(never)]
    fn read_from_files(&mut self, at: u32, out: &mut [u8]) -> Result<(), DeviceFault>
        requires range { at + length out.old ≤ self.old.cell_count }
        requires idle { IsTrue F.tells → (F.state self.old.disk).operation ≡ None }
        ensures does { ReadsCells F.tells (over (F.state self.old.disk) self.old.cell_count self.old.store_faults self.old.device_faults)
            (over (F.state self.new.disk) self.new.cell_count self.new.store_faults self.new.device_faults) at out.old out.new result }
        ensures fails { IsTrue F.tells → Fails (F.state self.old.disk) (F.state self.new.disk) result }
    {
        match read_cells(&mut self.disk, u64::from(at), out) {
            Ok(()) => Ok(()),
            Err(_) => {
                self.device_faults.raise();
                Err(DeviceFault)
            }
        }
    }
}

impl<F: Disk + Drop> Bench for DiskBench<F> {
    ghost use Rattle.std.specs.Prelude.{IsTrue};
    ghost use Rattle.disk_files.specs.DiskState.{over};
    ghost use Rattle.disk_files.specs.Fails.{FailsAsFiles};
    ghost use Rattle.disk_files.specs.Laws.{bench_inside};

    ghost tells = { F.tells };

    ghost state = { λ b. over (F.state b.disk) b.cell_count b.store_faults b.device_faults };

    ghost acts = { λ before act after. IsTrue F.tells → FailsAsFiles (F.state before.disk) (F.state after.disk) act };

    ghost as_read = { λ b told. F.as_read b.disk told };

    ghost as_told = { λ b cells told. F.as_told b.disk cells told };

    ghost all_told = { λ b told. b.many told };

    ghost bytes = { λ b told. F.bytes b.disk told };

    ghost few = { λ b. b.few };

    ghost inside = { λ b told. bench_inside (F.state b.disk).cells (F.inside b.disk told) (b.many told) };

    fn file_len(&mut self) -> Result<u64, StoreFault> {
        match measure(&mut self.disk, &mut self.job) {
            Ok(len) => Ok(len),
            Err(_) => {
                self.store_faults.raise();
                Err(StoreFault)
            }
        }
    }

    fn file_read(&mut self, at: u64, out: &mut [u8]) -> Result<(), StoreFault> {
        match read_job(&mut self.disk, &mut self.job, at, out) {
            Ok(()) => Ok(()),
            Err(_) => {
                self.store_faults.raise();
                Err(StoreFault)
            }
        }
    }

    fn file_write(&mut self, at: u64, bytes: &[u8]) -> Result<(), StoreFault> {
        if ready_to_change(&mut self.disk, &mut self.job, &mut self.cells).is_err() {
            self.store_faults.raise();
            return Err(StoreFault);
        }
        match write_all(&mut self.disk, at, bytes) {
            Ok(()) => Ok(()),
            Err(_) => {
                self.store_faults.raise();
                Err(StoreFault)
            }
        }
    }

    fn file_cut(&mut self, len: u64) -> Result<(), StoreFault> {
        if ready_to_change(&mut self.disk, &mut self.job, &mut self.cells).is_err() {
            self.store_faults.raise();
            return Err(StoreFault);
        }
        match self.disk.job_set_len(len) {
            Ok(()) => Ok(()),
            Err(_) => {
                self.store_faults.raise();
                Err(StoreFault)
            }
        }
    }

    fn file_sync(&mut self) -> Result<(), StoreFault> {
        match sync_job(&mut self.disk, &mut self.job) {
            Ok(()) => Ok(()),
            Err(_) => {
                self.store_faults.raise();
                Err(StoreFault)
            }
        }
    }

    fn cells_len(&self) -> u32 {
        self.cell_count
    }

    #[inline(always)]
    fn cells_read(&mut self, at: u32, out: &mut [u8]) -> Result<(), DeviceFault> {
        if self.disk.cells_at_hand(u64::from(at), out) {
            return Ok(());
        }
        self.read_from_files(at, out)
    }

    fn cells_open(&mut self, at: u32, len: u32) -> Result<(), DeviceFault> {
        if self.operation.is_some() {
            self.device_faults.raise();
            return Err(DeviceFault);
        }
        match self.disk.open_range(at, len) {
            Ok(()) => {
                self.operation = Some((at, len));
                Ok(())
            }
            Err(_) => {
                self.device_faults.raise();
                Err(DeviceFault)
            }
        }
    }

    fn cells_settle(&mut self, bytes: &[u8]) -> Result<(), DeviceFault> {
        let Some((at, len)) = self.operation else {
            self.device_faults.raise();
            return Err(DeviceFault);
        };
        self.cells.pending = true;
        if bytes.len() != len as usize
            || write_range(&mut self.disk, u64::from(at), bytes).is_err()
        {
            self.device_faults.raise();
            return Err(DeviceFault);
        }
        match self.disk.close_range() {
            Ok(()) => {
                self.operation = None;
                Ok(())
            }
            Err(_) => {
                self.device_faults.raise();
                Err(DeviceFault)
            }
        }
    }

    fn cells_settle_fill(&mut self, value: u8) -> Result<(), DeviceFault> {
        let Some((at, len)) = self.operation else {
            self.device_faults.raise();
            return Err(DeviceFault);
        };
        self.cells.pending = true;
        if fill_range(&mut self.disk, at, len, value).is_err() {
            self.device_faults.raise();
            return Err(DeviceFault);
        }
        match self.disk.close_range() {
            Ok(()) => {
                self.operation = None;
                Ok(())
            }
            Err(_) => {
                self.device_faults.raise();
                Err(DeviceFault)
            }
        }
    }

    fn cells_drop(&mut self) -> Result<(), DeviceFault> {
        if sync_earlier(&mut self.disk, &mut self.cells).is_err() {
            self.device_faults.raise();
            return Err(DeviceFault);
        }
        match self.disk.break_range() {
            Ok(()) => {
                self.operation = None;
                Ok(())
            }
            Err(_) => {
                self.device_faults.raise();
                Err(DeviceFault)
            }
        }
    }
}
