//! A small board, and a case for each refusal. The data of the crate `program_vectors` have the values at each key's ends and outside them,
//! and the forms that people write.

use crate::expect::expect;
use board_file::{Board, BoardFault, Key, Part, read_board};
use std::alloc::{AllocError, Global};

/// The text of a small board with these regions, and with this line last.
fn text_of(alloc: Global, regions: &str, last: &str) -> Result<String, AllocError> {
    let parts = [
        "ram = { base = 0, size = 256 }\nregion = [",
        regions,
        "]\ncontroller.base = 512\n",
        last,
    ];
    parts.concat(alloc)
}

/// A small board.
fn read(alloc: Global, regions: &str, last: &str) -> Result<Board, BoardFault> {
    let text = text_of(alloc, regions, last)?;
    read_board(alloc, text.as_bytes())
}

/// A board's RAM size, how many regions it has, and where the last one begins and how large it is.
fn numbers(board: &Board) -> (u32, usize, u32, u32) {
    let regions = board.regions.as_slice();
    match regions {
        [.., last] => (board.ram_size, regions.len(), last.base, last.size),
        [] => (board.ram_size, 0, 0, 0),
    }
}

/// The numbers of a small board with these regions.
fn numbers_of(alloc: Global, regions: &str) -> Result<(u32, usize, u32, u32), BoardFault> {
    let board = read(alloc, regions, "")?;
    Ok(numbers(&board))
}

#[test]
fn reads_a_small_board(rt: HostRuntime) {
    let read = numbers_of(rt.alloc(), "{ base = 256, sectors = [[2, 64]] }");
    expect(&rt, read, Ok((256, 1, 256, 128)));
}

#[test]
fn reads_two_regions(rt: HostRuntime) {
    let regions = "{ base = 1024, sectors = [[2, 64]] }, { base = 768, sectors = [[1, 256]] }";
    let read = numbers_of(rt.alloc(), regions);
    expect(&rt, read, Ok((256, 2, 768, 256)));
}

/// Why a small board is refused.
fn fault_of(alloc: Global, regions: &str, last: &str) -> Option<BoardFault> {
    read(alloc, regions, last).err()
}

#[test]
fn names_the_key_that_is_wrong(rt: HostRuntime) {
    let fault = fault_of(rt.alloc(), "{ base = 256 }", "clock.hz = 0");
    let key = Key::RegionSectors;
    expect(&rt, fault, Some(BoardFault::Missing { key }));
    let region = "{ base = 256, sectors = [[2, 64]] }";
    let fault = fault_of(rt.alloc(), region, "clock.hz = 0");
    let key = Key::ClockHz;
    expect(&rt, fault, Some(BoardFault::BadValue { key }));
}

#[test]
fn names_the_limit_that_is_broken(rt: HostRuntime) {
    let fault = fault_of(rt.alloc(), "{ base = 256, sectors = [[65_537, 4]] }", "");
    let key = Key::RegionSectors;
    expect(&rt, fault, Some(BoardFault::TooBig { key }));
    let fault = fault_of(rt.alloc(), "{ base = 0, sectors = [[1, 4]] }", "");
    let (a, b) = (Part::Ram, Part::Region);
    expect(&rt, fault, Some(BoardFault::Overlap { a, b }));
}

#[test]
fn names_the_region_that_is_in_the_way(rt: HostRuntime) {
    let regions = "{ base = 1024, sectors = [[1, 64]] }, { base = 1084, sectors = [[1, 4]] }";
    let fault = fault_of(rt.alloc(), regions, "");
    let (a, b) = (Part::Region, Part::Region2);
    expect(&rt, fault, Some(BoardFault::Overlap { a, b }));
}

#[test]
fn refuses_what_is_no_toml(rt: HostRuntime) {
    let fault = read_board(rt.alloc(), b"ram").err();
    expect(&rt, fault, Some(BoardFault::NotToml));
}
