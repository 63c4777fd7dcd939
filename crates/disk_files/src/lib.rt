//! A bench over the files of a host. A small trait stands for these files.
#![tactic(auto)]

mod cells_half;
mod disk;
mod disk_bench;
mod job_half;
mod lay;
mod memory_disk;
mod syncs;
mod window;
mod windowed_disk;

pub use disk::Disk;
pub use disk_bench::DiskBench;
pub use memory_disk::MemoryDisk;
pub use windowed_disk::WindowedDisk;
