//! The listings of the algorithms for a board.
ghost use Rattle.std.specs.Prelude.{◌≡◌, ◌≤◌, ◌<◌, length, slice_get, IfOk, IsSomeAnd};
ghost use Rattle.board_file.specs.Limits.{cells_of, most_cells};
ghost use Rattle.flm_forge.specs.Listed.{device_name, hidden_in, hidden_names, items_from, listing_in, listing_of};
ghost use Rattle.flm_forge.specs.Texts.{lines, text_of};

use crate::kind::{Kind, put_text};
use crate::source::{Listing, Names};
use board_file::{Board, Region, SectorRun};
use faults::OutOfMemory;
use flm_descriptor::{Items, Name, SectorItem};
use octets::Bytes;
use std::alloc::Global;

/// The most time that programming a page takes, in milliseconds.
const TO_PROG: u32 = 100;

/// The most time that erasing a sector takes, in milliseconds.
const TO_ERASE: u32 = 500;

/// The listing of an algorithm for the first region of a board, with pages of `page` bytes. The text is for a region of unit 2 with an even
/// number of bytes in each sector and page.
pub fn listing(alloc: Global, kind: Kind, board: &Board, page: u32) -> Result<Listing, OutOfMemory>
    ensures { IfOk result (λ l. IsSomeAnd (slice_get board.now.regions 0) (λ region. l ≡ listing_of kind board.now.controller_base region page)) }
{
    listing_at(alloc, kind, board, 0, page)
}

/// The listing of an algorithm for a region of a board, with pages of `page` bytes. The regions count from 0. The listing for any region
/// but the first hides EraseChip: the controller erases the first one by it.
#[tactic(auto, using(crate::proofs::RegionLemmas::sectors_small))]
pub fn listing_at(
    alloc: Global,
    kind: Kind,
    board: &Board,
    region: usize,
    page: u32,
) -> Result<Listing, OutOfMemory>
    requires { region < length board.now.regions }
    ensures { IfOk result (λ l. IsSomeAnd (slice_get board.now.regions region) (λ r. l ≡ listing_in region kind board.now.controller_base r page)) }
{
    let hidden = hidden_in(alloc, kind, region)?;
    let region = &board.regions.as_slice()[region];
    Ok(Listing {
        text: text(alloc, kind, board.controller_base)?,
        init_data: Bytes::from_vec(Vec::new(alloc)),
        zero_len: 0,
        name: Bytes::copy(alloc, device_name(kind))?,
        base: region.base,
        size: region.size,
        page,
        empty: region.empty,
        to_prog: TO_PROG,
        to_erase: TO_ERASE,
        items: items(alloc, region.sectors.as_slice())?,
        hidden,
    })
}

/// The name of an algorithm's device.
fn device_name(kind: Kind) -> &'static [u8]
    ensures { result.now ≡ device_name kind }
{
    match kind {
        Kind::F1 => b"FPEC",
        _ => b"FC1",
    }
}

/// The text of an algorithm.
fn text(alloc: Global, kind: Kind, base: u32) -> Result<Bytes, OutOfMemory>
    ensures { IfOk result (λ text. text ≡ text_of (lines kind base)) }
{
    let mut text = Vec::new(alloc);
    put_text(&mut text, kind, base)?;
    Ok(Bytes::from_vec(text))
}

/// One item for each run of sectors.
fn items(alloc: Global, runs: &[SectorRun]) -> Result<Items, OutOfMemory>
    requires { cells_of runs.now ≤ most_cells }
    ensures { IfOk result (λ items. items ≡ items_from 0 runs.now) }
{
    let mut items = Vec::with_capacity(alloc, runs.len())?;
    let mut offset = 0;
    for run in runs {
        items.push(SectorItem {
            size: run.size,
            offset,
        })?;
        offset += run.count * run.size;
    }
    Ok(Items::from_vec(items))
}

/// The entries that an algorithm hides for a region of this number.
fn hidden_in(alloc: Global, kind: Kind, number: usize) -> Result<Names, OutOfMemory>
    ensures { IfOk result (λ names. names ≡ hidden_in number kind) }
{
    let mut names = hidden_names(alloc, kind)?;
    if number != 0 {
        names.push(Name::EraseChip)?;
    }
    Ok(Names::from_vec(names))
}

/// The entries that an algorithm hides for any region.
fn hidden_names(alloc: Global, kind: Kind) -> Result<Vec<Name>, OutOfMemory>
    ensures { IfOk result (λ names. names.items ≡ hidden_names kind) }
{
    let mut names = Vec::new(alloc);
    if kind == Kind::A2 || kind == Kind::A4 {
        names.push(Name::Verify)?;
    }
    Ok(names)
}
