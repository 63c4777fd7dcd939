//! The limits that are checked once all keys of a text are read.
ghost use Rattle.std.specs.Prelude.{◌≡◌, ◌<◌, ◌≤◌, ◌+◌, ◌++◌, false, not, None, map, option_map, length, IsTrue, IfOk, IfSome};
ghost use Rattle.std.specs.List.{list_all, list_any};
ghost use Rattle.board_file.specs.Answer.{Gives};
ghost use Rattle.board_file.specs.Limits.{run_fits, region_fits, cells_of, sectors_of, size_of, sectors_in, fixed_parts, quiet_parts, named_overlap, parts_of};
ghost use Rattle.board_file.specs.Limits.{overlap, ends_late, is_short, are_quiet_too_big, most_ram, most_regions, most_cells, most_sectors};
ghost use Rattle.board_file.specs.Table.{addresses};
ghost use Rattle.board_file.specs.Written.{runs_shown, region_shown, quiets_shown};
ghost use Rattle.board_file.specs.Small.{small, small_region, small_regions, unless_too_big};
ghost use Rattle.board_file.specs.Text.{limited};

use crate::fault::BoardFault;
use crate::key::{ADDRESSES, Key, Part};
use crate::kind::ControllerKind;
use crate::place::{Placed, overlap};
use crate::quiet::{QuietRange, QuietRanges};
use crate::region::{Region, Regions};
use crate::sectors::{SectorRun, Sectors};
use crate::sum::Sum;
use crate::written::{WrittenQuiet, WrittenRegion, WrittenRun};
use std::alloc::{AllocError, Global};

/// The most bytes of RAM.
const MOST_RAM: u64 = 1_048_576;

/// The most regions.
const MOST_REGIONS: usize = 2;

/// The most quiet ranges.
const MOST_QUIET: usize = 16;

/// The runs, with the sums of cells and sectors so far, unless these are too large.
fn sectors(
    alloc: Global,
    before: Sum,
    written: &[WrittenRun],
) -> Result<Option<(Sum, Vec<SectorRun>)>, AllocError>
    ensures said { IfOk result (λ o. option_map (λ p. p.1.items) o ≡ small before.cells before.sectors (runs_shown written.now)) }
    ensures cells { IfOk result (λ o. IfSome o (λ p. p.0.cells ≡ before.cells + cells_of (runs_shown written.now))) }
    ensures sectors { IfOk result (λ o. IfSome o (λ p. p.0.sectors ≡ before.sectors + sectors_of (runs_shown written.now))) }
    ensures fit { IfOk result (λ o. IfSome o (λ p. IsTrue (list_all run_fits p.1.items))) }
{
    let mut sum = before;
    let mut runs = Vec::new(alloc);
    'written: for run in written {
        let Some(more) = sum.with(*run) else {
            return Ok(None);
        };
        sum = more;
        runs.push(SectorRun {
            count: run.count as u32,
            size: run.size as u32,
        })?;
    }
    Ok(Some((sum, runs)))
}

/// The next region that a text writes, unless it is too big with those before it.
fn small_region(
    alloc: Global,
    before: Sum,
    written: &WrittenRegion,
) -> Result<(Sum, Region), BoardFault>
    ensures said { Gives (λ x. x.1) result (small_region before.cells before.sectors (region_shown written.now)) }
    ensures same { IfOk result (λ x. x.1 ≡ region_shown written.now) }
    ensures cells { IfOk result (λ x. x.0.cells ≡ before.cells + x.1.size) }
    ensures sectors { IfOk result (λ x. x.0.sectors ≡ before.sectors + sectors_of x.1.sectors) }
    ensures fits { IfOk result (λ x. IsTrue (region_fits x.1)) }
{
    let fault = BoardFault::TooBig {
        key: Key::RegionSectors,
    };
    let (sum, runs) = sectors(alloc, before, &written.sectors)?.ok_or(fault)?;
    let size = (sum.cells - before.cells) as u32;
    if u64::from(written.base) + u64::from(size) > ADDRESSES {
        return Err(fault);
    }
    let region = Region {
        base: written.base,
        size,
        empty: written.empty,
        unit: written.unit,
        sectors: Sectors::from_vec(runs),
    };
    Ok((sum, region))
}

/// The regions that a text writes, each counted together with those before it.
fn counted_regions(alloc: Global, written: &[WrittenRegion]) -> Result<Vec<Region>, BoardFault>
    ensures said { Gives (λ v. v.items) result (small_regions 0 0 (map region_shown written.now)) }
    ensures same { IfOk result (λ v. v.items ≡ map region_shown written.now) }
    ensures fit { IfOk result (λ v. IsTrue (list_all region_fits v.items)) }
    ensures few_cells { IfOk result (λ v. size_of v.items ≤ most_cells) }
    ensures few_sectors { IfOk result (λ v. sectors_in v.items ≤ most_sectors) }
{
    let mut sum = Sum::new();
    let mut found = Vec::new(alloc);
    'written: for one in written {
        let (next, region) = small_region(alloc, sum, one)?;
        sum = next;
        found.push(region)?;
    }
    Ok(found)
}

/// The regions that a text writes, unless they are too big.
fn small_regions(alloc: Global, written: &[WrittenRegion]) -> Result<Vec<Region>, BoardFault>
    ensures said { Gives (λ v. v.items) result (unless_too_big (map region_shown written.now)) }
    ensures same { IfOk result (λ v. v.items ≡ map region_shown written.now) }
    ensures fit { IfOk result (λ v. IsTrue (list_all region_fits v.items)) }
    ensures few_cells { IfOk result (λ v. size_of v.items ≤ most_cells) }
    ensures few_sectors { IfOk result (λ v. sectors_in v.items ≤ most_sectors) }
{
    counted_regions(alloc, written)
}

/// Where the RAM and the flash controller of a text are.
#[derive(Clone, Copy)]
pub(crate) struct WrittenParts {
    pub ram_base: u32,
    pub ram_size: u64,
    pub kind: ControllerKind,
    pub controller_base: u32,
}

/// What a text writes, once the limits hold.
#[derive(Drop)]
pub(crate) struct WithinLimits {
    pub regions: Regions,
    pub quiet: QuietRanges,
}

/// Whether no quiet range ends past the last address.
fn end_early(written: &[WrittenQuiet]) -> bool
    ensures { result ≡ not (list_any ends_late (quiets_shown written.now)) }
{
    'written: for one in written {
        if u64::from(one.base) + one.size > ADDRESSES {
            return false;
        }
    }
    true
}

/// Whether the quiet ranges are too many, or one ends past the last address.
fn are_quiet_too_big(written: &[WrittenQuiet]) -> bool
    ensures { result ≡ are_quiet_too_big (quiets_shown written.now) }
{
    written.len() > MOST_QUIET || !end_early(written)
}

/// The parts of a board without its quiet ranges, in the order in which overlaps are looked for.
fn parts(alloc: Global, parts: &WrittenParts, regions: &[Region]) -> Result<Vec<Placed>, AllocError>
    ensures { IfOk result (λ v. v.items ≡ fixed_parts parts.now.ram_base parts.now.ram_size regions.now parts.now.kind parts.now.controller_base) }
{
    let mut found = Vec::new(alloc);
    found.push(Placed {
        part: Part::Ram,
        base: parts.ram_base,
        size: parts.ram_size,
    })?;
    let mut part = Part::Region;
    'regions: for region in regions {
        found.push(Placed {
            part,
            base: region.base,
            size: u64::from(region.size),
        })?;
        part = Part::Region2;
    }
    found.push(Placed {
        part: Part::Controller,
        base: parts.controller_base,
        size: u64::from(parts.kind.block()),
    })?;
    Ok(found)
}

/// The parts before, followed by the quiet ranges.
fn with_quiet(before: Vec<Placed>, written: &[WrittenQuiet]) -> Result<Vec<Placed>, AllocError>
    ensures { IfOk result (λ v. v.items ≡ before.items ++ quiet_parts (quiets_shown written.now)) }
{
    let mut found = before;
    'written: for one in written {
        found.push(Placed {
            part: Part::Quiet,
            base: one.base,
            size: one.size,
        })?;
    }
    Ok(found)
}

/// The two parts that a refusal names: pairs with a quiet range come after all others.
fn named_overlap(
    fixed: Vec<Placed>,
    quiet: &[WrittenQuiet],
) -> Result<Option<(Part, Part)>, AllocError>
    ensures { IfOk result (λ o. o ≡ named_overlap fixed.items (quiet_parts (quiets_shown quiet.now))) }
{
    let first = overlap(&fixed);
    if first.is_some() {
        return Ok(first);
    }
    let all = with_quiet(fixed, quiet)?;
    Ok(overlap(&all))
}

/// The quiet ranges that a text writes.
fn quiet_ranges(alloc: Global, written: &[WrittenQuiet]) -> Result<Vec<QuietRange>, AllocError>
    requires { IsTrue (list_all is_short (quiets_shown written.now)) }
    ensures { IfOk result (λ v. v.items ≡ quiets_shown written.now) }
{
    let mut found = Vec::new(alloc);
    'written: for one in written {
        found.push(QuietRange {
            base: one.base,
            size: one.size as u32,
        })?;
    }
    Ok(found)
}

/// The regions and the quiet ranges that a text writes, if the limits hold.
#[tactic(auto, unfolding(crate::specs::Text::limited))]
pub(crate) fn limited(
    alloc: Global,
    parts_written: &WrittenParts,
    quiet: &[WrittenQuiet],
    written: &[WrittenRegion],
) -> Result<WithinLimits, BoardFault>
    requires some { 0 < length written.now }
    requires ram { 0 < parts_written.now.ram_size }
    ensures said { Gives (λ x. x.regions) result (limited parts_written.now.ram_base parts_written.now.ram_size parts_written.now.kind
        parts_written.now.controller_base (quiets_shown quiet.now) (map region_shown written.now)) }
    ensures same { IfOk result (λ x. x.regions ≡ map region_shown written.now) }
    ensures quiet { IfOk result (λ x. x.quiet ≡ quiets_shown quiet.now) }
    ensures quiet_is_small { IfOk result (λ x. are_quiet_too_big x.quiet ≡ false) }
    ensures ram_is_small { IfOk result (λ _. parts_written.now.ram_size ≤ most_ram) }
    ensures ram_ends { IfOk result (λ _. parts_written.now.ram_base + parts_written.now.ram_size ≤ addresses) }
    ensures some_region { IfOk result (λ x. 0 < length x.regions) }
    ensures regions_fit { IfOk result (λ x. IsTrue (list_all region_fits x.regions)) }
    ensures few_regions { IfOk result (λ x. length x.regions ≤ most_regions) }
    ensures few_cells { IfOk result (λ x. size_of x.regions ≤ most_cells) }
    ensures few_sectors { IfOk result (λ x. sectors_in x.regions ≤ most_sectors) }
    ensures apart { IfOk result (λ x. overlap (parts_of parts_written.now.ram_base parts_written.now.ram_size x.regions parts_written.now.kind
        parts_written.now.controller_base x.quiet) ≡ None) }
{
    if written.len() > MOST_REGIONS {
        return Err(BoardFault::ManyRegions);
    }
    if parts_written.ram_size > MOST_RAM
        || u64::from(parts_written.ram_base) + parts_written.ram_size > ADDRESSES
    {
        return Err(BoardFault::TooBig { key: Key::RamSize });
    }
    let regions = small_regions(alloc, written)?;
    if are_quiet_too_big(quiet) {
        return Err(BoardFault::TooBig { key: Key::Quiet });
    }
    let fixed = parts(alloc, parts_written, &regions)?;
    if let Some((a, b)) = named_overlap(fixed, quiet)? {
        return Err(BoardFault::Overlap { a, b });
    }
    let quiet = quiet_ranges(alloc, quiet)?;
    Ok(WithinLimits {
        regions: Regions::from_vec(regions),
        quiet: QuietRanges::from_vec(quiet),
    })
}
