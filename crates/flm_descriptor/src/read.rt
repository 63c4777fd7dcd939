//! Reading an FLM file.
ghost use Rattle.std.specs.Prelude.{◌≡◌, ◌≢◌, ◌+◌, ◌*◌, ◌<◌, ◌≤◌, Ok, Err, length, position, IfOk, IfErr, IfSome};
ghost use Rattle.std.specs.List.{before_first};
ghost use Rattle.elf32.specs.Search.{first_below};
ghost use Rattle.elf32.specs.Strings.{is_zero};
ghost use Rattle.flm_descriptor.specs.Results.{Gives};
ghost use Rattle.flm_descriptor.specs.Described.{device_of, fields_at, is_end, item_at, items_of, pairs};
ghost use Rattle.flm_descriptor.specs.Lawful.{addresses};
ghost use Rattle.flm_descriptor.specs.Parts.{AreLong};
ghost use Rattle.flm_descriptor.specs.Seen.{seen, seen_description};
ghost use Rattle.flm_descriptor.specs.Shape.{shape, IsLawful};
ghost use Rattle.flm_descriptor.specs.Shown.{shown};
ghost use Rattle.flm_descriptor.specs.Flm.{algorithm_of, described_of, flm_of, IsFlm};

use crate::algorithm::Algorithm;
use crate::checks::check_limits;
use crate::device::Device;
use crate::fault::{FlmFault, Name};
use crate::items::{Items, SectorItem};
use crate::parts::{
    LentContents, Sections, find_sections, find_symbols, lay_out, place_entries, place_in,
    take_contents,
};
use elf32::Elf;
use octets::{Bytes, le16, le32};
use std::alloc::Global;

/// The bytes of `struct FlashDevice` before its sector items.
const DEVICE_LEN: usize = 160;

/// The bytes of a sector item.
const ITEM_LEN: usize = 8;

/// The most pairs that are looked at: 512 sector items (SECTOR_NUM) and the end pair.
const PAIRS_MAX: usize = 513;

/// The device that a file describes, and its items.
#[derive(Drop)]
pub struct Description {
    pub device: Device,
    pub items: Items,
}

/// Reads an FLM file: the algorithm of the file, or else the first check that fails.
#[tactic(auto, unfolding(crate::specs::Flm::flm_of))]
pub fn read_flm(alloc: Global, bytes: &[u8]) -> Result<Algorithm, FlmFault>
    ensures ok { IfOk result (λ algorithm. IsFlm bytes.now (shown algorithm)) }
    ensures refused { IfErr result (λ fault. fault ≢ FlmFault.OutOfMemory → flm_of bytes.now ≡ Err fault) }
{
    let elf = Elf::read(alloc, bytes)?;
    let sections = find_sections(&elf)?;
    let contents = take_contents(&elf, &sections)?;
    algorithm(alloc, &elf, &sections, &contents)
}

/// The algorithm that some sections and their bytes make.
#[tactic(auto, unfolding(crate::specs::Flm::algorithm_of))]
fn algorithm(
    alloc: Global,
    elf: &Elf,
    sections: &Sections,
    contents: &LentContents,
) -> Result<Algorithm, FlmFault>
    requires { AreLong sections.now (seen contents.now) }
    ensures { Gives shown result (algorithm_of elf.now sections.now (seen contents.now)) }
{
    let symbols = find_symbols(elf)?;
    let entries = place_entries(&sections.code, &symbols)?;
    let at = place_in(
        &sections.descriptor,
        Name::FlashDevice,
        symbols.device,
        symbols.device,
    )?;
    let places = lay_out(sections)?;
    let description = describe(alloc, contents.descriptor, at)?;
    let code = Bytes::copy(alloc, contents.code)?;
    let init_data = Bytes::copy(alloc, contents.init_data)?;
    let Description { device, items } = description;
    Ok(Algorithm {
        code,
        init_data,
        data_at: places.data_at,
        zero_at: places.zero_at,
        zero_len: places.zero_len,
        static_base: places.static_base,
        entries,
        device,
        items,
    })
}

/// The description at a place of the section DevDscr.
#[tactic(auto, unfolding(crate::specs::Flm::described_of))]
fn describe(alloc: Global, descriptor: &[u8], at: u32) -> Result<Description, FlmFault>
    ensures described { Gives seen_description result (described_of descriptor.now at) }
    ensures lawful { IfOk result (λ d. IsLawful (shape d.device.size d.device.page d.items)) }
    ensures in_memory { IfOk result (λ d. d.device.base + d.device.size ≤ addresses) }
{
    let device = read_device(alloc, descriptor, at as usize)?;
    let items = read_items(alloc, descriptor, at as usize)?;
    check_limits(&device, items.as_slice())?;
    Ok(Description { device, items })
}

/// The fields of the structure at a place.
#[tactic(auto, unfolding(crate::specs::Described::device_of, crate::specs::Described::fields_at))]
fn read_device(alloc: Global, bytes: &[u8], at: usize) -> Result<Device, FlmFault>
    requires { at < addresses }
    ensures device { Gives (λ device. device) result (device_of bytes.now at) }
    ensures long { IfOk result (λ _. at + 160 ≤ length bytes.now) }
{
    if bytes.len() < at + DEVICE_LEN {
        return Err(FlmFault::DescriptorShort);
    }
    let name = Bytes::copy(alloc, before_zero(&bytes[at + 2..at + 130]))?;
    Ok(Device {
        vers: le16(bytes, at),
        name,
        kind: le16(bytes, at + 130),
        base: le32(bytes, at + 132),
        size: le32(bytes, at + 136),
        page: le32(bytes, at + 140),
        res: le32(bytes, at + 144),
        empty: bytes[at + 148],
        to_prog: le32(bytes, at + 152),
        to_erase: le32(bytes, at + 156),
    })
}

/// The bytes before the first zero byte.
fn before_zero(bytes: &[u8]) -> &[u8]
    ensures { result.now ≡ before_first is_zero bytes.now }
{
    let len = zero_place(bytes).unwrap_or(bytes.len());
    &bytes[..len]
}

/// The place of the first zero byte.
fn zero_place(bytes: &[u8]) -> Option<usize>
    ensures { result ≡ position is_zero bytes.now }
{
    bytes.iter().position(|byte| *byte == 0)
}

/// The items before the first end pair.
#[tactic(auto, unfolding(crate::specs::Described::items_of))]
fn read_items(alloc: Global, bytes: &[u8], at: usize) -> Result<Items, FlmFault>
    requires { at + 160 ≤ length bytes.now }
    ensures items { Gives (λ items. items) result (items_of bytes.now at) }
    ensures few { IfOk result (λ items. length items ≤ 512) }
{
    let Some(count) = count_items(bytes, at) else {
        return Err(FlmFault::NoSectorEnd);
    };
    let mut items = Vec::with_capacity(alloc, count)?;
    for index in 0..count {
        items.push(item(bytes, at, index))?;
    }
    Ok(Items::from_vec(items))
}

/// How many items there are before the first end pair, or none if it isn't among the pairs that are looked at.
fn count_items(bytes: &[u8], at: usize) -> Option<usize>
    requires { at + 160 ≤ length bytes.now }
    ensures count { result ≡ first_below (is_end bytes.now at) (pairs bytes.now at) }
    ensures inside { IfSome result (λ n. at + 168 + 8 * n ≤ length bytes.now) }
    ensures few { IfSome result (λ n. n ≤ 512) }
{
    for index in 0..PAIRS_MAX.min((bytes.len() - (at + DEVICE_LEN)) / ITEM_LEN) {
        if is_end(bytes, at, index) {
            return Some(index);
        }
    }
    None
}

/// Whether a pair is the end pair.
#[tactic(auto, unfolding(crate::specs::Described::is_end))]
fn is_end(bytes: &[u8], at: usize, index: usize) -> bool
    requires { at + 168 + 8 * index ≤ length bytes.now }
    ensures { result ≡ is_end bytes.now at index }
{
    let pair = item(bytes, at, index);
    pair.size == u32::MAX && pair.offset == u32::MAX
}

/// Sector item `index` of the structure at a place.
#[tactic(auto, unfolding(crate::specs::Described::item_at))]
fn item(bytes: &[u8], at: usize, index: usize) -> SectorItem
    requires { at + 168 + 8 * index ≤ length bytes.now }
    ensures { result ≡ item_at bytes.now at index }
{
    SectorItem {
        size: le32(bytes, at + 160 + ITEM_LEN * index),
        offset: le32(bytes, at + 164 + ITEM_LEN * index),
    }
}
