//! From a listing to an FLM file.
ghost use Rattle.std.specs.Prelude.{◌≡◌, ◌+◌, ◌*◌, ◌<◌, ◌≤◌, ◌^◌, length, IfOk, IfErr, OnErr};
ghost use Rattle.flm_forge.specs.Device.{ListingFits};
ghost use Rattle.flm_forge.specs.File.{file_of, sizes_of};
ghost use Rattle.flm_forge.specs.Places.{end_of};
ghost use Rattle.flm_forge.specs.Read.{AnswersRefusal, IsForged, IsUnforged};
ghost use Rattle.flm_forge.specs.Symbols.{entry_symbols};

use crate::device::put_descriptor;
use crate::fault::ForgeFault;
use crate::section::{SECTION_NAMES, put_elf_header, put_headers};
use crate::sizes::{HEADERS_LEN, SYMBOLS_AT, Sizes};
use crate::source::Listing;
use crate::symbol::{
    NO_SYMBOL, SYMBOL_NAMES, SymbolEntry, device_symbol, entry_symbols, put_symbol, put_symbols,
};
use crate::write::put;
use armv6m_asm::{Code, assemble};
use faults::OutOfMemory;
use octets::Bytes;
use std::alloc::Global;

/// Makes an FLM file from a listing.
pub fn forge(alloc: Global, listing: &Listing) -> Result<Bytes, ForgeFault>
    ensures ok { IfOk result (IsForged listing.now) }
    ensures err { IfErr result (IsUnforged listing.now) }
    ensures exact { AnswersRefusal listing.now result }
{
    let code = assemble(alloc, listing.text.bytes())?;
    let symbols = entry_symbols(alloc, &code.labels, &listing.hidden)?;
    let sizes = sizes(listing, &code, symbols.len())?;
    Ok(file(alloc, listing, &code, symbols.as_slice(), &sizes)?)
}

/// How many bytes each part of a file has, if the file has fewer than 4,294,967,296.
fn sizes(listing: &Listing, code: &Code, symbols: usize) -> Result<Sizes, OutOfMemory>
    requires few { symbols < 7 }
    requires symbols_are { symbols ≡ length (entry_symbols code.now.labels listing.now.hidden) }
    ensures sizes { IfOk result (λ sizes. sizes ≡ sizes_of listing.now code.now) }
    ensures fits { IfOk result (λ sizes. end_of sizes < 2 ^ 32) }
    ensures too_long { OnErr result (2 ^ 32 ≤ end_of (sizes_of listing.now code.now)) }
    ensures zero_len_fits { IfOk result (λ _. listing.now.zero_len < 2 ^ 32) }
{
    let code = len_in(code.bytes.len(), u32::MAX)?;
    let init_data = len_in(listing.init_data.len(), u32::MAX - code)?;
    let items = len_in(
        listing.items.as_slice().len(),
        (u32::MAX - code - init_data) / 8,
    )?;
    let symbols = 32 + 16 * symbols as u32;
    let fixed = symbols + SYMBOLS_AT + HEADERS_LEN + 168;
    if u32::MAX - code - init_data - 8 * items < fixed {
        return Err(OutOfMemory);
    }
    Ok(Sizes {
        symbols,
        code,
        init_data,
        zero_len: listing.zero_len,
        descriptor: 168 + 8 * items,
    })
}

/// A length, if it isn't above a limit.
fn len_in(len: usize, limit: u32) -> Result<u32, OutOfMemory>
    ensures len { IfOk result (λ n. n ≡ len) }
    ensures in_limit { IfOk result (λ n. n ≤ limit) }
    ensures above_limit { OnErr result (limit < len) }
{
    if len > limit as usize {
        return Err(OutOfMemory);
    }
    Ok(len as u32)
}

/// The file of a listing, from its code, the symbols of its entries and the sizes of the parts.
#[tactic(auto, unfolding(crate::specs::File::file_of))]
fn file(
    alloc: Global,
    listing: &Listing,
    code: &Code,
    symbols: &[SymbolEntry],
    sizes: &Sizes,
) -> Result<Bytes, OutOfMemory>
    requires fits { end_of sizes.now < 2 ^ 32 }
    requires sizes_are { sizes.now ≡ sizes_of listing.now code.now }
    requires symbols_are { symbols.now ≡ entry_symbols code.now.labels listing.now.hidden }
    ensures bytes { IfOk result (λ file. file ≡ file_of listing.now code.now) }
    ensures listing_fits { IfOk result (λ _. ListingFits listing.now) }
{
    let mut out = Vec::new(alloc);
    put_elf_header(&mut out, sizes.headers_at())?;
    put(&mut out, &SYMBOL_NAMES)?;
    put(&mut out, &SECTION_NAMES)?;
    put_symbol(&mut out, &NO_SYMBOL)?;
    put_symbol(
        &mut out,
        &device_symbol(sizes.descriptor_addr(), sizes.descriptor),
    )?;
    put_symbols(&mut out, symbols)?;
    put(&mut out, code.bytes.bytes())?;
    put(&mut out, listing.init_data.bytes())?;
    put_descriptor(&mut out, listing)?;
    put_headers(&mut out, sizes)?;
    Ok(Bytes::from_vec(out))
}
