//! What a device's page, sector items and size have to be.
ghost use Rattle.std.specs.Prelude.{◌≡◌, ℕ, ◌+◌, ◌<◌, ◌≤◌, length, OnOk};
ghost use Rattle.flm_descriptor.specs.Shape.{shape, offset_at, size_at, IsLawful};
ghost use Rattle.flm_descriptor.specs.Results.{unless};
ghost use Rattle.flm_descriptor.specs.Lawful.{addresses};
ghost use Rattle.flm_descriptor.specs.Limits.{IsFitting, device_fault, gap_fault, order_fault, page_fault, size_fault};
ghost use Rattle.flm_descriptor.specs.Flm.{limits_of};

use crate::device::Device;
use crate::fault::FlmFault;
use crate::geometry::{count_pages, count_sectors};
use crate::items::SectorItem;

/// The greatest page, in bytes.
const PAGE_MAX: u32 = 65_536;

/// The greatest device, in bytes.
const DEVICE_MAX: u32 = 16_777_216;

/// The most sectors and pages of a device.
const SECTORS_MAX: u64 = 65_536;

const PAGES_MAX: u64 = 1_048_576;

/// How many addresses there are.
const ADDRESSES: u64 = 1 << 32;

/// The checks of a device and its items; the first that fails is answered.
#[tactic(auto, unfolding(crate::specs::Flm::limits_of))]
pub fn check_limits(device: &Device, items: &[SectorItem]) -> Result<(), FlmFault>
    requires { length items.now ≤ 512 }
    ensures limits { result ≡ limits_of device.now items.now }
    ensures lawful { OnOk result (IsLawful (shape device.now.size device.now.page items.now)) }
    ensures in_memory { OnOk result (device.now.base + device.now.size ≤ addresses) }
{
    check_page(device.page)?;
    check_first(items)?;
    check_order(items)?;
    check_sizes(items)?;
    check_device(device, items)
}

/// A page has 1 to 65,536 bytes.
#[tactic(auto, unfolding(crate::specs::Limits::page_fault))]
fn check_page(page: u32) -> Result<(), FlmFault>
    ensures fault { result ≡ unless (page_fault page) }
    ensures some { OnOk result (1 ≤ page) }
    ensures limit { OnOk result (page ≤ 65536) }
{
    if page == 0 || page > PAGE_MAX {
        return Err(FlmFault::BadPage { size: page });
    }
    Ok(())
}

/// There is an item, and the first begins at 0.
#[tactic(auto, unfolding(crate::specs::Limits::gap_fault))]
fn check_first(items: &[SectorItem]) -> Result<(), FlmFault>
    ensures fault { result ≡ unless (gap_fault items.now) }
    ensures some { OnOk result (1 ≤ length items.now) }
    ensures begins { OnOk result (offset_at items.now 0 ≡ 0) }
{
    match items.first() {
        Some(first) if first.offset == 0 => Ok(()),
        _ => Err(FlmFault::SectorGap),
    }
}

/// Each item begins above the one before.
fn check_order(items: &[SectorItem]) -> Result<(), FlmFault>
    requires few { length items.now ≤ 512 }
    requires some { 1 ≤ length items.now }
    ensures fault { result ≡ unless (order_fault items.now) }
    ensures rise { OnOk result ((k : ℕ) → k + 1 < length items.now → offset_at items.now k < offset_at items.now (k + 1)) }
{
    for index in 0..items.len() - 1 {
        if items[index + 1].offset <= items[index].offset {
            return Err(FlmFault::SectorOrder {
                item: index as u32 + 1,
            });
        }
    }
    Ok(())
}

/// Each item has sectors of at least one byte.
fn check_sizes(items: &[SectorItem]) -> Result<(), FlmFault>
    requires { length items.now ≤ 512 }
    ensures fault { result ≡ unless (size_fault items.now) }
    ensures steps { OnOk result ((k : ℕ) → k < length items.now → 1 ≤ size_at items.now k) }
{
    for index in 0..items.len() {
        if items[index].size == 0 {
            return Err(FlmFault::SectorSize { item: index as u32 });
        }
    }
    Ok(())
}

/// The device's size, its end in memory, and the numbers of its sectors and pages.
#[tactic(auto, unfolding(crate::specs::Limits::device_fault))]
fn check_device(device: &Device, items: &[SectorItem]) -> Result<(), FlmFault>
    requires page { 1 ≤ device.now.page }
    requires steps { (k : ℕ) → k < length items.now → 1 ≤ size_at items.now k }
    requires few { length items.now ≤ 512 }
    ensures fault { result ≡ unless (device_fault device.now.base (shape device.now.size device.now.page items.now)) }
    ensures fits { OnOk result (IsFitting device.now.base (shape device.now.size device.now.page items.now)) }
{
    let size = device.size;
    let bad = Err(FlmFault::BadDevice { size });
    if size == 0 || size > DEVICE_MAX || u64::from(device.base) + u64::from(size) > ADDRESSES {
        return bad;
    }
    if count_sectors(size, items) > SECTORS_MAX {
        return bad;
    }
    if count_pages(device.page, size, items) > PAGES_MAX {
        return bad;
    }
    Ok(())
}
