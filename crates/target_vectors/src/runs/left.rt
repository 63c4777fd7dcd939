//! What a run leaves.

use target_core::{Machine, RunEnd};

/// The bytes of RAM.
pub const SIZE: usize = 256;

/// The number of cells.
pub const CELLS: usize = 8;

/// How a run ended, and what it left.
#[derive(Clone, Copy)]
pub struct Left {
    pub end: RunEnd,
    regs: [u32; 16],
    ram: [u8; SIZE],
    cells: [u8; CELLS],
}

impl Left {
    /// What a machine leaves, with this RAM and these cells.
    pub fn by(end: RunEnd, machine: &Machine, ram: [u8; SIZE], cells: &[u8]) -> Left {
        let mut all = [0; CELLS];
        for index in 0..CELLS {
            if index < cells.len() {
                all[index] = cells[index];
            }
        }
        Left {
            end,
            regs: machine.core.regs,
            ram,
            cells: all,
        }
    }

    /// Whether two runs left the same.
    pub fn same_as(&self, other: &Left) -> bool {
        self.end == other.end
            && self.regs == other.regs
            && self.ram == other.ram
            && self.cells == other.cells
    }
}
