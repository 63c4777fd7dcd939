//! Questions about FLM files.

use crate::print::Piece::{Count, Hex2, Hex4, Hex8, Number, Place, Text};
use crate::print::{put, put_fault};
use anyhow::Result;
use flm_descriptor::{Algorithm, Device, Entries, read_flm};

/// Prints a copy of the algorithm of a file, or why there is none.
pub fn answer(rt: &HostRuntime, bytes: &[u8]) -> Result<()> {
    match read_flm(rt.alloc(), bytes) {
        Ok(algorithm) => put_copy(rt, &algorithm)?,
        Err(fault) => put_fault(rt, fault),
    }
    Ok(())
}

/// Prints a copy of an algorithm.
fn put_copy(rt: &HostRuntime, algorithm: &Algorithm) -> Result<()> {
    let copy = algorithm.copy(rt.alloc())?;
    put_algorithm(rt, &copy);
    Ok(())
}

/// Prints an algorithm, and then the line's end.
fn put_algorithm(rt: &HostRuntime, algorithm: &Algorithm) {
    put_code(rt, algorithm);
    put_items(rt, algorithm);
    put_entries(rt, &algorithm.entries);
    put_device(rt, &algorithm.device);
}

/// Prints the parts of the code.
fn put_code(rt: &HostRuntime, algorithm: &Algorithm) {
    let pieces = [
        Count("code ", algorithm.code.len()),
        Count(" data ", algorithm.init_data.len()),
        Number(" at ", algorithm.data_at),
        Number(" zero ", algorithm.zero_len),
        Number(" at ", algorithm.zero_at),
    ];
    put(rt, &pieces);
}

/// Prints the static base, and how many items and sectors there are.
fn put_items(rt: &HostRuntime, algorithm: &Algorithm) {
    let pieces = [
        Number(" base ", algorithm.static_base),
        Count(" items ", algorithm.items.as_slice().len()),
        Number(" sectors ", algorithm.sector_count()),
    ];
    put(rt, &pieces);
}

/// Prints the places of the functions.
fn put_entries(rt: &HostRuntime, entries: &Entries) {
    let pieces = [
        Number(" entries ", entries.init),
        Number(" ", entries.uninit),
        Number(" ", entries.erase_sector),
        Number(" ", entries.program_page),
        Place(" ", entries.erase_chip),
        Place(" ", entries.verify),
        Text(" "),
    ];
    put(rt, &pieces);
}

/// Prints a device, and then the line's end.
fn put_device(rt: &HostRuntime, device: &Device) {
    put_name(rt, device.name.bytes());
    let pieces = [
        Hex4(" ", device.vers),
        Number(" ", u32::from(device.kind)),
        Hex2(" ", device.empty),
        Hex8(" ", device.base),
        Number(" ", device.size),
        Number(" ", device.page),
        Number(" ", device.res),
        Number(" ", device.to_prog),
        Number(" ", device.to_erase),
        Text("\n"),
    ];
    put(rt, &pieces);
}

/// Prints a device's name.
fn put_name(rt: &HostRuntime, name: &[u8]) {
    for byte in name {
        let _ = print!(rt; "{}", *byte as char);
    }
}
