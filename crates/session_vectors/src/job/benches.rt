//! The benches.
use anyhow::Result;
use bench_model::{Bench, MemoryBench};
use std::alloc::Global;

/// A bench with this many blank cells and this file. The file call and the cell call with the given numbers fail.
pub fn blank(
    alloc: Global,
    cells: u32,
    file: &[u8],
    store: u64,
    device: u64,
) -> Result<MemoryBench> {
    let cells = vec![in alloc; 0xFFu8; cells as usize]?;
    let bench = MemoryBench::new(
        alloc,
        &cells,
        file,
        0x1000,
        0x4000,
        &[store],
        &[device],
        &[0x5A],
    )?;
    Ok(bench)
}

/// A bench with 1,024 blank cells and an open operation on 256 of them. The operation leaves 5A where it is broken off.
pub fn busy(alloc: Global, file: &[u8]) -> Result<MemoryBench> {
    let cells = vec![in alloc; 0xFFu8; 1024]?;
    let mut bench = MemoryBench::new(alloc, &cells, file, 0x1000, 0x4000, &[], &[], &[0x5A])?;
    bench.cells_open(256, 256)?;
    Ok(bench)
}
