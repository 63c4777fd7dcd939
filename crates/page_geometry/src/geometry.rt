//! The geometry of a device.
ghost use Rattle.std.specs.Prelude.{◌≡◌, ◌+◌, ◌<◌, ◌≤◌, length, IfOk, MatchOption};
ghost use Rattle.flm_descriptor.specs.Shape.{range_at, shape, IsLawful};
ghost use Rattle.page_geometry.specs.Geometry.{In, IsAt, shape_geometry, ArePagesOf, IsGeometry, PagesFit};

use crate::lookup::{page_number, page_range, sector_number, sector_pages, sector_range};
use crate::pieces::{count_pages, count_pieces, stop_of};
use faults::OutOfMemory;
use flm_descriptor::{Algorithm, Run, SectorItem};
use std::alloc::Global;
use std::marker::Model;

/// The sectors and pages of a device (Open-CMSIS-Pack, `FlashOS.h`, `struct FlashSectors` and szPage). From the offset of an item, sectors
/// have its size until the next item's offset or the end of the device. Each sector is cut from its start into pages of szPage bytes. The
/// last sector of an item and the last page of a sector may be shorter. Places, lengths and sizes are in bytes, places counted from the
/// device's first byte. Sectors and pages are numbered from 0 on, in rising order.
#[derive(Drop)]
pub struct Geometry {
    size: u32,
    page: u32,
    runs: Vec<Run>,
    starts: Vec<u32>,
    first_sectors: Vec<u32>,
    first_pages: Vec<u32>,
    sectors: u32,
    pages: u32,
}

impl Model for Geometry {
    ghost use Rattle.page_geometry.specs.Geometry.{Geometry};
    ghost use Rattle.page_geometry.specs.Table.{IsTable, runs_geometry};

    ghost Value = { Geometry };

    ghost view = { λ g. runs_geometry g.size g.page g.runs.items };

    ghost invariant = { λ g. IsTable g.size g.page g.runs.items g.starts.items g.first_sectors.items g.first_pages.items g.sectors g.pages };
}

impl Geometry {
    /// The geometry of an algorithm's device.
    pub fn of(alloc: Global, algorithm: &Algorithm) -> Result<Geometry, OutOfMemory>
        ensures geometry { IfOk result (λ g. g ≡ shape_geometry (shape algorithm.now.device.size algorithm.now.device.page algorithm.now.items)) }
        ensures lawful { IfOk result (λ g. IsGeometry g) }
        ensures fit { IfOk result (λ g. PagesFit algorithm.now.device.page g) }
    {
        build(
            alloc,
            algorithm.device.size,
            algorithm.device.page,
            algorithm.items.as_slice(),
        )
    }

    /// The size of the device in bytes.
    pub fn size(&self) -> u32
        ensures size { result ≡ self.now.size }
        ensures limit { result ≤ 16777216 }
    {
        self.size
    }

    /// How many sectors there are.
    pub fn sectors(&self) -> u32
        ensures count { result ≡ length self.now.sectors }
        ensures limit { result ≤ 65536 }
        ensures lawful { IsGeometry self.now }
    {
        self.sectors
    }

    /// How many pages there are.
    pub fn pages(&self) -> u32
        ensures count { result ≡ length self.now.pages }
        ensures limit { result ≤ 1048576 }
        ensures lawful { IsGeometry self.now }
    {
        self.pages
    }

    /// The place and the length of a sector.
    pub fn sector(&self, index: u32) -> (u32, u32)
        requires { index < length self.now.sectors }
        ensures range { IsAt (range_at self.now.sectors index) result.0 result.1 }
        ensures end { result.0 + result.1 ≤ 16777216 }
    {
        sector_range(&self.runs, &self.first_sectors, index)
    }

    /// The place and the length of a page.
    pub fn page(&self, index: u32) -> (u32, u32)
        requires { index < length self.now.pages }
        ensures range { IsAt (range_at self.now.pages index) result.0 result.1 }
        ensures end { result.0 + result.1 ≤ 16777216 }
    {
        page_range(self.page, &self.runs, &self.first_pages, index)
    }

    /// The sector of a place; none if the place lies outside the device.
    pub fn sector_at(&self, place: u32) -> Option<u32>
        ensures { MatchOption result (self.now.size ≤ place) (λ s. (s < length self.now.sectors) × In place (range_at self.now.sectors s)) }
    {
        if place >= self.size {
            return None;
        }
        Some(sector_number(
            self.size,
            &self.runs,
            &self.starts,
            &self.first_sectors,
            place,
        ))
    }

    /// The page of a place; none if the place lies outside the device.
    pub fn page_at(&self, place: u32) -> Option<u32>
        ensures { MatchOption result (self.now.size ≤ place) (λ p. (p < length self.now.pages) × In place (range_at self.now.pages p)) }
    {
        if place >= self.size {
            return None;
        }
        Some(page_number(
            self.size,
            self.page,
            &self.runs,
            &self.starts,
            &self.first_pages,
            place,
        ))
    }

    /// The first page of a sector, and how many pages it has.
    pub fn pages_of(&self, sector: u32) -> (u32, u32)
        requires { sector < length self.now.sectors }
        ensures { ArePagesOf self.now sector result.0 result.1 }
    {
        sector_pages(
            self.size,
            self.page,
            &self.runs,
            &self.first_sectors,
            &self.first_pages,
            sector,
        )
    }
}

/// The geometry of a device of `size` bytes, with pages of `page` bytes and these items.
fn build(alloc: Global, size: u32, page: u32, items: &[SectorItem]) -> Result<Geometry, OutOfMemory>
    requires { IsLawful (shape size page items.now) }
    ensures geometry { IfOk result (λ g. g ≡ shape_geometry (shape size page items.now)) }
    ensures lawful { IfOk result (λ g. IsGeometry g) }
    ensures fit { IfOk result (λ g. PagesFit page g) }
{
    let mut runs = Vec::new(alloc);
    let mut starts = Vec::new(alloc);
    let mut first_sectors = Vec::new(alloc);
    let mut first_pages = Vec::new(alloc);
    let mut sectors: u32 = 0;
    let mut pages: u32 = 0;
    for index in 0..items.len() {
        let item = items[index];
        let run = Run {
            start: item.offset,
            stop: stop_of(size, items, index),
            step: item.size,
        };
        runs.push(run)?;
        starts.push(run.start)?;
        first_sectors.push(sectors)?;
        first_pages.push(pages)?;
        sectors += count_pieces(run.step, run.start, run.stop);
        pages += count_pages(page, run);
    }
    Ok(Geometry {
        size,
        page,
        runs,
        starts,
        first_sectors,
        first_pages,
        sectors,
        pages,
    })
}
