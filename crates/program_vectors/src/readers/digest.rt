//! A number that distinguishes lists of bytes: FNV-1a of 32 bits (Fowler, Noll and Vo).

use board_file::{Board, Region};
use byte_map::ByteMap;
use flm_descriptor::{Algorithm, Device, Entries};
use job_text::Job;

/// The digest of what was added so far.
#[derive(Clone, Copy)]
pub struct Digest {
    value: u32,
}

impl Digest {
    /// The digest of nothing.
    pub fn new() -> Digest {
        Digest { value: 0x811C_9DC5 }
    }

    /// The number itself.
    pub fn value(&self) -> u32 {
        self.value
    }

    /// Adds bytes.
    pub fn bytes(&mut self, bytes: &[u8]) {
        for byte in bytes {
            self.value = (self.value ^ u32::from(*byte)).wrapping_mul(0x0100_0193);
        }
    }

    /// Adds numbers, each as four bytes, little-endian.
    pub fn numbers(&mut self, numbers: &[u32]) {
        for number in numbers {
            self.bytes(&number.to_le_bytes());
        }
    }

    /// Adds the runs of an image: address, length and bytes of each.
    pub fn image(&mut self, image: &ByteMap) {
        for index in 0..image.runs() {
            let (at, bytes) = image.run(index);
            self.numbers(&[at]);
            self.bytes(&(bytes.len() as u64).to_le_bytes());
            self.bytes(bytes);
        }
    }

    /// Adds all that an algorithm says.
    pub fn algorithm(&mut self, algorithm: &Algorithm) {
        self.bytes(algorithm.code.bytes());
        self.bytes(algorithm.init_data.bytes());
        self.numbers(&[algorithm.data_at, algorithm.zero_at]);
        self.numbers(&[algorithm.zero_len, algorithm.static_base]);
        self.entries(&algorithm.entries);
        self.device(&algorithm.device);
        for item in algorithm.items.as_slice() {
            self.numbers(&[item.size, item.offset]);
        }
        self.numbers(&[algorithm.sector_count()]);
    }

    /// Adds the places of functions, FFFFFFFF for one that isn't there.
    fn entries(&mut self, entries: &Entries) {
        self.numbers(&[entries.init, entries.uninit]);
        self.numbers(&[entries.erase_sector, entries.program_page]);
        self.numbers(&[entries.erase_chip.unwrap_or(u32::MAX)]);
        self.numbers(&[entries.verify.unwrap_or(u32::MAX)]);
    }

    /// Adds the fields of a device.
    fn device(&mut self, device: &Device) {
        self.numbers(&[u32::from(device.vers), u32::from(device.kind)]);
        self.bytes(device.name.bytes());
        self.numbers(&[device.base, device.size, device.page, device.res]);
        self.numbers(&[u32::from(device.empty), device.to_prog, device.to_erase]);
    }

    /// Adds all that a board says.
    fn board(&mut self, board: &Board) {
        self.numbers(&[board.ram_base, board.ram_size, board.stack]);
        self.numbers(&[board.controller_base, board.program_ticks]);
        self.numbers(&[board.erase_ticks, board.chip_ticks]);
        self.numbers(&[board.hz, board.steps_per_ms]);
        self.numbers(&[board.weights.sector, board.weights.page, board.weights.chip]);
        for region in board.regions.as_slice() {
            self.region(region);
        }
    }

    /// Adds a region of a board.
    fn region(&mut self, region: &Region) {
        self.numbers(&[
            region.base,
            region.size,
            u32::from(region.empty),
            region.unit,
        ]);
        for run in region.sectors.as_slice() {
            self.numbers(&[run.count, run.size]);
        }
    }

    /// Adds all that a job says.
    pub fn job(&mut self, job: &Job) {
        self.board(&job.board);
        for algorithm in job.algorithms.as_slice() {
            self.algorithm(algorithm);
        }
        self.image(&job.image);
        self.bytes(&job.snapshot_at.to_le_bytes());
    }
}
