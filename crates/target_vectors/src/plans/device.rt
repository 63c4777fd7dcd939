//! The geometry of a device of any shape, which is read from an FLM file that is made for it.

use anyhow::Result;
use flm_descriptor::read_flm;
use page_geometry::Geometry;
use std::alloc::Global;

/// The place of szDev in the file.
const SIZE_AT: usize = 212;

/// The place of szPage in the file.
const PAGE_AT: usize = 216;

/// The place of the first sector item in the file. There is room for 512 items.
const ITEMS_AT: usize = 236;

/// A sector item: sectors of `size` bytes from `offset` on.
#[derive(Clone, Copy)]
pub struct Item {
    pub size: u32,
    pub offset: u32,
}

/// Writes a number of four bytes, little-endian, as far as the file goes.
fn put(file: &mut [u8], at: usize, number: u32) {
    for (index, byte) in number.to_le_bytes().into_iter().enumerate() {
        if let Some(cell) = file.get_mut(at.saturating_add(index)) {
            *cell = byte;
        }
    }
}

/// Writes the size, the page and the items of a device into an FLM file.
fn write(file: &mut [u8], size: u32, page: u32, items: &[Item]) {
    put(file, SIZE_AT, size);
    put(file, PAGE_AT, page);
    let mut at = ITEMS_AT;
    for item in items {
        put(file, at, item.size);
        put(file, at.saturating_add(4), item.offset);
        at = at.saturating_add(8);
    }
    put(file, at, u32::MAX);
    put(file, at.saturating_add(4), u32::MAX);
}

/// The geometry of the device of an FLM file.
fn geometry_in(alloc: Global, file: &[u8]) -> Result<Geometry> {
    let algorithm = read_flm(alloc, file)?;
    Ok(Geometry::of(alloc, &algorithm)?)
}

/// The geometry of a device of `size` bytes with pages of `page` bytes and these items.
pub fn geometry_of(
    alloc: Global,
    flm: &[u8],
    size: u32,
    page: u32,
    items: &[Item],
) -> Result<Geometry> {
    let mut file = flm.to_vec(alloc)?;
    write(&mut file, size, page, items);
    geometry_in(alloc, &file)
}
