//! The description of the device.
ghost use Rattle.std.specs.Prelude.{◌≡◌, ◌++◌, replicate, All, OnOk};
ghost use Rattle.std.specs.List.{flat_map};
ghost use Rattle.flm_forge.specs.Device.{DeviceFits, ItemFits, ListingFits, descriptor_bytes, device_bytes, item_bytes, name_field};

use crate::source::Listing;
use crate::write::{put, put_halves, put_words};
use faults::OutOfMemory;
use flm_descriptor::SectorItem;

/// Interface version 1.01 (FLASH_DRV_VERS).
const VERSION: u16 = 0x0101;

/// A device in the chip (ONCHIP).
const ON_CHIP: u16 = 1;

/// How many bytes DevName has.
const NAME_LEN: usize = 128;

/// Adds zero bytes.
fn put_zeros(out: &mut Vec<u8>, count: usize) -> Result<(), OutOfMemory>
    ensures { OnOk result (out.new.items ≡ out.old.items ++ replicate count 0) }
{
    for _place in 0..count {
        put(out, &[0])?;
    }
    Ok(())
}

/// Adds DevName: the name, then zeros.
fn put_name(out: &mut Vec<u8>, name: &[u8]) -> Result<(), OutOfMemory>
    ensures { OnOk result (out.new.items ≡ out.old.items ++ name_field name.now) }
{
    let len = name.len().min(NAME_LEN);
    put(out, &name[..len])?;
    put_zeros(out, NAME_LEN - len)
}

/// Adds the fields of the device.
#[tactic(auto, unfolding(crate::specs::Device::device_bytes))]
fn put_device(out: &mut Vec<u8>, l: &Listing) -> Result<(), OutOfMemory>
    ensures bytes { OnOk result (out.new.items ≡ out.old.items ++ device_bytes l.now) }
    ensures fits { OnOk result (DeviceFits l.now) }
{
    put_halves(out, &[VERSION])?;
    put_name(out, l.name.bytes())?;
    put_halves(out, &[ON_CHIP])?;
    put_words(out, &[l.base, l.size, l.page, 0])?;
    put(out, &[l.empty, 0, 0, 0])?;
    put_words(out, &[l.to_prog, l.to_erase])
}

/// Adds sector items.
fn put_items(out: &mut Vec<u8>, items: &[SectorItem]) -> Result<(), OutOfMemory>
    ensures bytes { OnOk result (out.new.items ≡ out.old.items ++ flat_map item_bytes items.now) }
    ensures fits { OnOk result (All ItemFits items.now) }
{
    for item in items {
        put_words(out, &[item.size, item.offset])?;
    }
    Ok(())
}

/// Adds the description: the fields, the sector items, and the end pair.
#[tactic(auto, unfolding(crate::specs::Device::descriptor_bytes))]
pub fn put_descriptor(out: &mut Vec<u8>, l: &Listing) -> Result<(), OutOfMemory>
    ensures bytes { OnOk result (out.new.items ≡ out.old.items ++ descriptor_bytes l.now) }
    ensures fits { OnOk result (ListingFits l.now) }
{
    put_device(out, l)?;
    put_items(out, l.items.as_slice())?;
    put_words(out, &[0xFFFF_FFFF, 0xFFFF_FFFF])
}
