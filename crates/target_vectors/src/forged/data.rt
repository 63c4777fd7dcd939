//! A listing with data and zeroed data.

use anyhow::Result;
use flm_descriptor::{Items, Name, SectorItem};
use flm_forge::{Listing, Names};
use octets::Bytes;
use std::alloc::Global;

/// Two sector items.
fn two_items(alloc: Global) -> Result<Items> {
    let items = [
        SectorItem {
            size: 512,
            offset: 0,
        },
        SectorItem {
            size: 1024,
            offset: 2048,
        },
    ];
    Ok(Items::from_vec(Vec::from_slice(alloc, &items)?))
}

/// EraseChip alone.
fn erase_chip(alloc: Global) -> Result<Names> {
    let names = vec![in alloc; Name::EraseChip]?;
    Ok(Names::from_vec(names))
}

/// The listing of a text with these items, which hides these names.
fn with_items(alloc: Global, text: Bytes, items: Items, hidden: Names) -> Result<Listing> {
    let init_data = Bytes::copy(alloc, &[1, 2, 3, 4, 5])?;
    let name = Bytes::copy(alloc, b"with data")?;
    Ok(Listing {
        text,
        init_data,
        zero_len: 12,
        name,
        base: 0x0020_0000,
        size: 8192,
        page: 128,
        empty: 0,
        to_prog: 7,
        to_erase: 65536,
        items,
        hidden,
    })
}

/// The listing of a text, with five bytes of data, twelve of zeroed data, and two sector items. It hides EraseChip, which is no
/// label of the text.
pub fn with_data(alloc: Global, text: Vec<u8>) -> Result<Listing> {
    let items = two_items(alloc)?;
    let hidden = erase_chip(alloc)?;
    with_items(alloc, Bytes::from_vec(text), items, hidden)
}
