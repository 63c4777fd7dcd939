//! What a seed makes: the cells, the image, and the number of calls after which the job is stopped.
ghost use Rattle.std.specs.Prelude.{◌≡◌, ◌≤◌, ◌+◌, ◌^◌, ◌++◌, [], ◌∷◌, replicate, length, IfOk, OnOk};
ghost use Rattle.demo_job.specs.Generator.{draws};
ghost use Rattle.demo_job.specs.Made.{sector_of, after_sector, sectors, after_sectors, cells_of, image_of, run_of, after_run, stop_from, stop_of};

use crate::draws::Draws;
use byte_map::ByteMap;
use faults::OutOfMemory;
use std::alloc::Global;

/// The address of the first cell.
pub(crate) const BASE: u32 = 0x0800_0000;

/// How many sectors there are.
pub(crate) const SECTORS: u32 = 64;

/// The length of a sector in bytes.
const SECTOR_LEN: u32 = 1024;

/// The length of the image in bytes.
const IMAGE_LEN: usize = 20_480;

/// The cells, the image, and how many calls on the bench go through.
#[derive(Drop)]
pub(crate) struct Made {
    pub(crate) cells: Vec<u8>,
    pub(crate) image: ByteMap,
    pub(crate) calls: u64,
}

/// What a seed makes.
pub(crate) fn make(alloc: Global, seed: u32) -> Result<Made, OutOfMemory>
    ensures cells { IfOk result (λ made. made.cells.items ≡ cells_of seed) }
    ensures image { IfOk result (λ made. made.image ≡ image_of seed) }
    ensures calls { IfOk result (λ made. made.calls ≡ stop_of seed) }
{
    let mut draws = Draws::new(seed);
    let mut cells = Vec::new(alloc);
    put_sectors(&mut draws, &mut cells, SECTORS)?;
    let image = image(alloc, &mut draws)?;
    Ok(Made {
        cells,
        image,
        calls: calls(&mut draws),
    })
}

/// The cells that a seed makes: 64 sectors of 1,024 bytes, each blank or full of draws.
pub fn made_cells(alloc: Global, seed: u32) -> Result<Vec<u8>, OutOfMemory>
    ensures { IfOk result (λ cells. cells.items ≡ cells_of seed) }
{
    let mut cells = Vec::new(alloc);
    put_sectors(&mut Draws::new(seed), &mut cells, SECTORS)?;
    Ok(cells)
}

/// Appends `count` sectors.
fn put_sectors(draws: &mut Draws, cells: &mut Vec<u8>, count: u32) -> Result<(), OutOfMemory>
    ensures bytes { OnOk result (cells.new.items ≡ cells.old.items ++ sectors count draws.old.state) }
    ensures state { OnOk result (draws.new.state ≡ after_sectors count draws.old.state) }
{
    for _sector in 0..count {
        put_sector(draws, cells)?;
    }
    Ok(())
}

/// Appends a sector, which is blank or full of draws.
#[tactic(auto, unfolding(crate::specs::Made::sector_of, crate::specs::Made::after_sector))]
fn put_sector(draws: &mut Draws, cells: &mut Vec<u8>) -> Result<(), OutOfMemory>
    ensures bytes { OnOk result (cells.new.items ≡ cells.old.items ++ sector_of draws.old.state) }
    ensures state { OnOk result (draws.new.state ≡ after_sector draws.old.state) }
{
    if draws.draw() % 2 == 0 {
        put_blank(cells, SECTOR_LEN as usize)
    } else {
        draws.put(cells, SECTOR_LEN as usize)
    }
}

/// Appends `count` blank cells.
fn put_blank(cells: &mut Vec<u8>, count: usize) -> Result<(), OutOfMemory>
    ensures { OnOk result (cells.new.items ≡ cells.old.items ++ replicate count 255) }
{
    for _cell in 0..count {
        cells.push(0xFF)?;
    }
    Ok(())
}

/// The image, which begins at one of the first 32 sectors.
#[tactic(auto, unfolding(crate::specs::Made::run_of, crate::specs::Made::after_run))]
fn image(alloc: Global, draws: &mut Draws) -> Result<ByteMap, OutOfMemory>
    ensures image { IfOk result (λ image. image ≡ run_of draws.old.state ∷ []) }
    ensures state { OnOk result (draws.new.state ≡ after_run draws.old.state) }
{
    let sector = u32::from(draws.draw()) % 32;
    let mut bytes = Vec::new(alloc);
    draws.put(&mut bytes, IMAGE_LEN)?;
    one_run(alloc, BASE + SECTOR_LEN * sector, &bytes)
}

/// An image of one run.
fn one_run(alloc: Global, at: u32, bytes: &[u8]) -> Result<ByteMap, OutOfMemory>
    requires some { 1 ≤ length bytes.now }
    requires fits { at + length bytes.now ≤ 2 ^ 32 }
    ensures { IfOk result (λ image. image ≡ record { at = at; bytes = bytes.now } ∷ []) }
{
    let mut image = ByteMap::new(alloc);
    match image.lay(at, bytes) {
        Ok(()) => Ok(image),
        Err(_) => Err(OutOfMemory),
    }
}

/// The number of calls after which the job is stopped.
#[tactic(auto, unfolding(crate::specs::Made::stop_from))]
fn calls(draws: &mut Draws) -> u64
    ensures { result ≡ stop_from draws.old.state }
{
    let high = u64::from(draws.draw());
    let low = u64::from(draws.draw());
    20_000 + (256 * high + low) % 10_000
}
