//! The subject of trials: an algorithm, for a region of a board.
ghost use Rattle.std.specs.Prelude.{◌≡◌, ◌≤◌, ◌<◌, ◌+◌, ◌^◌, Ok, length, IfOk};
ghost use Rattle.board_file.specs.Shown.{shown as board_of};
ghost use Rattle.flm_descriptor.specs.Shown.{shown as algorithm_of};
ghost use Rattle.flash_layout.specs.Areas.{areas_of, cells_in};
ghost use Rattle.flash_layout.specs.Maps.{board_map};
ghost use Rattle.algo_loader.specs.Places.{placed};
ghost use Rattle.algo_calls.specs.Duties.{cells_before, device_of};
ghost use Rattle.duty_trials.specs.Fits.{IsFit};

use crate::list::Work;
use algo_loader::{Layout, place};
use board_file::{Board, Region};
use faults::OutOfMemory;
use flm_descriptor::Algorithm;
use page_geometry::Geometry;
use std::alloc::Global;

/// An algorithm, and the region of a board that is its device.
#[derive(Drop)]
pub struct Subject<'a> {
    pub board: &'a Board,
    pub algorithm: &'a Algorithm,
    /// The number of the region, from 0 on.
    pub region: usize,
    /// Where the algorithm is in the RAM.
    pub layout: Layout,
    /// The sectors and pages of the algorithm's device.
    pub geometry: Geometry,
    /// The place of the region's first cell among all cells of the board.
    pub start: u32,
    /// How many cells the board has.
    pub cells: u32,

    pub ghost laid_out: { placed (algorithm_of algorithm.now) (board_of board.now) ≡ Ok layout },
    pub ghost shaped: { geometry ≡ device_of (algorithm_of algorithm.now) },
    pub ghost begins: { start ≡ cells_before (board_map (board_of board.now)).areas region },
    pub ghost many: { cells ≡ cells_in (board_map (board_of board.now)).areas },
    pub ghost within: { start + algorithm.now.device.size ≤ cells },
}

/// A sector, a page or the whole device: the address of its first byte, its first place among all cells, and the place after its last.
#[derive(Clone, Copy)]
pub struct Span {
    pub address: u32,
    pub from: u32,
    pub to: u32,
}

/// How many cells the first `count` regions have together.
fn cells_before(regions: &[Region], count: usize) -> u32
    requires few { cells_in (areas_of regions.now) < 2 ^ 32 }
    requires inside { count ≤ length regions.now }
    ensures { result ≡ cells_before (areas_of regions.now) count }
{
    let mut cells = 0;
    for index in 0..count {
        cells += regions[index].size;
    }
    cells
}

impl<'a> Subject<'a> {
    ghost use Rattle.std.specs.Prelude.{◌↔◌, IsTrue};
    ghost use Rattle.flm_descriptor.specs.Shape.{range, range_at};
    ghost use Rattle.page_geometry.specs.Geometry.{ArePagesOf};
    ghost use Rattle.duty_trials.specs.Lists.{count_of, HasFunction};
    ghost use Rattle.duty_trials.specs.Subjects.{algorithm_in, site_in, IsSpan};

    /// A subject: an algorithm, and a region of a board. The algorithm has to be one for that region.
    pub fn new(
        alloc: Global,
        board: &'a Board,
        algorithm: &'a Algorithm,
        region: usize,
    ) -> Result<Subject<'a>, OutOfMemory>
        requires { IsFit (board_of board.now) (algorithm_of algorithm.now) region }
        ensures board { IfOk result (λ subject. subject.board.now ≡ board.now) }
        ensures algorithm { IfOk result (λ subject. subject.algorithm.now ≡ algorithm.now) }
        ensures region { IfOk result (λ subject. subject.region ≡ region) }
    {
        let regions = board.regions.as_slice();
        let layout = match place(algorithm, board) {
            Ok(layout) => layout,
            Err(_) => unreachable!(),
        };
        let start = cells_before(regions, region);
        let cells = cells_before(regions, regions.len());
        let geometry = Geometry::of(alloc, algorithm)?;
        Ok(Subject {
            board,
            algorithm,
            region,
            layout,
            geometry,
            start,
            cells,
        })
    }

    /// The places of a sector.
    pub fn sector(&self, number: u32) -> Span
        requires { number < length (site_in self.now).layout.sectors }
        ensures { IsSpan self.now (range_at (site_in self.now).layout.sectors number) result }
    {
        let (at, len) = self.geometry.sector(number);
        self.span(at, len)
    }

    /// The places of a page.
    pub fn page(&self, number: u32) -> Span
        requires { number < length (site_in self.now).layout.pages }
        ensures { IsSpan self.now (range_at (site_in self.now).layout.pages number) result }
    {
        let (at, len) = self.geometry.page(number);
        self.span(at, len)
    }

    /// All places of the device.
    pub fn whole(&self) -> Span
        ensures { IsSpan self.now (range 0 (site_in self.now).layout.size) result }
    {
        self.span(0, self.geometry.size())
    }

    /// `len` places of the device from `at` on.
    fn span(&self, at: u32, len: u32) -> Span
        requires some { 0 < len }
        requires within { at + len ≤ (site_in self.now).layout.size }
        ensures { IsSpan self.now (range at (at + len)) result }
    {
        let from = self.start + at;
        Span {
            address: self.algorithm.device.base + at,
            from,
            to: from + len,
        }
    }

    /// The first page of a sector, and how many pages it has.
    pub fn pages_of(&self, sector: u32) -> (u32, u32)
        requires { sector < length (site_in self.now).layout.sectors }
        ensures { ArePagesOf (site_in self.now).layout sector result.0 result.1 }
    {
        self.geometry.pages_of(sector)
    }

    /// How many sectors or pages a work has. The whole chip counts as one.
    pub fn count(&self, work: Work) -> u32
        ensures count { result ≡ count_of (site_in self.now).layout work }
        ensures limit { result ≤ 1048576 }
    {
        match work {
            Work::Sectors => self.geometry.sectors(),
            Work::Chip => 1,
            Work::Pages | Work::Checks => self.geometry.pages(),
        }
    }

    /// Whether the algorithm has the function that a work needs.
    pub fn has(&self, work: Work) -> bool
        ensures { IsTrue result ↔ HasFunction (algorithm_in self.now).entries work }
    {
        let entries = &self.algorithm.entries;
        match work {
            Work::Sectors | Work::Pages => true,
            Work::Chip => entries.erase_chip.is_some(),
            Work::Checks => entries.verify.is_some(),
        }
    }
}
