//! Puts records of 16 bytes into a map, and reads or merges images, in orders that are hard on a table of runs: `program_vectors map WORD..
//! RECORDS`. A word is an order (`rising`, `falling`, `outward`, by turns at both ends, or `shuffled`) or a way. `apart` gives each record
//! 32 addresses, so that none touch. `merged` puts each second record into a map of its own, and merges the two. `file` reads the records
//! as a file of S-records, and `text` does so with the first byte of each record alone. It prints the runs of the map. `program_vectors map
//! hostile` does some of each, shuffled records of a file among them, and what would be slow if a body moved more than it must.
ghost use Rattle.std.specs.Prelude.{◌≤◌, length};

use crate::print::Piece::{Count, Text};
use crate::print::put;
use anyhow::Result;
use byte_map::ByteMap;
use image_set::{merge, read_image};
use std::alloc::Global;

/// The bytes of one record.
const RECORD: [u8; 16] = [0x5A; 16];

/// The hexadecimal digits.
const DIGITS: [u8; 16] = *b"0123456789ABCDEF";

/// The least address.
const LOW: u32 = 0x0800_0000;

/// The beginning of the long run that short ones are joined to, and its length: 32 MiB.
const MIDDLE: u32 = 0x8000_0000;

const LONG: usize = 1 << 25;

/// The most records: 64 MiB, and a power of two.
const MOST: u32 = 1 << 22;

/// The order in which records come.
#[derive(Clone, Copy)]
enum Order {
    Rising,
    Falling,
    Outward,
    Shuffled,
}

/// What is put into the map.
#[derive(Clone, Copy)]
struct Plan {
    order: Order,
    apart: bool,
    records: u32,
}

impl Order {
    /// The order of that name.
    fn named(word: &str) -> Option<Order> {
        match word {
            "rising" => Some(Order::Rising),
            "falling" => Some(Order::Falling),
            "outward" => Some(Order::Outward),
            "shuffled" => Some(Order::Shuffled),
            _ => None,
        }
    }

    /// The place of a record among `records`, by its number, from 0 on.
    fn place(self, number: u32, records: u32) -> u32 {
        let number = number % MOST;
        match self {
            Order::Rising => number,
            Order::Falling => MOST - 1 - number,
            Order::Outward if number % 2 == 0 => MOST / 2 + number / 2,
            Order::Outward => MOST / 2 - 1 - number / 2,
            Order::Shuffled => shuffle(number, records),
        }
    }
}

impl Plan {
    /// The address of a record by its number.
    fn address(&self, number: u32) -> u32 {
        let step = if self.apart { 32 } else { 16 };
        LOW + self.order.place(number, self.records) % MOST * step
    }
}

/// A number below `records` that looks drawn. Where `records` is a power of two, each number comes once.
fn shuffle(number: u32, records: u32) -> u32 {
    let mixed = (number ^ (number >> 9)).wrapping_mul(0x9E37_79B1) % records.max(1);
    (mixed ^ (mixed >> 7)).wrapping_mul(0x85EB_CA6B) % records.max(1)
}

/// Lays a plan's records into a map: all of them, or the even or the odd ones alone.
fn lay_records(map: &mut ByteMap, plan: &Plan, parity: Option<u32>) -> Result<()> {
    for number in 0..plan.records {
        if parity.is_none() || parity == Some(number % 2) {
            map.lay(plan.address(number), &RECORD)?;
        }
    }
    Ok(())
}

/// Merges the map of the odd records into a map.
fn merge_odd(alloc: Global, map: &mut ByteMap, plan: &Plan) -> Result<()> {
    let mut other = ByteMap::new(alloc);
    lay_records(&mut other, plan, Some(1))?;
    merge(alloc, map, other)?;
    Ok(())
}

/// Lays the even records into a map, and merges that of the odd ones.
fn merge_records(alloc: Global, map: &mut ByteMap, plan: &Plan) -> Result<()> {
    lay_records(map, plan, Some(0))?;
    merge_odd(alloc, map, plan)
}

/// Adds bytes as hexadecimal digits, and answers a checksum less all of them.
fn push_bytes(text: &mut Vec<u8>, bytes: &[u8], checksum: u8) -> Result<u8> {
    let mut left = checksum;
    for byte in bytes {
        let high = DIGITS[usize::from(*byte / 16)];
        let low = DIGITS[usize::from(*byte % 16)];
        text.extend_from_slice(&[high, low])?;
        left = left.wrapping_sub(*byte);
    }
    Ok(left)
}

/// Adds an S-record: a data record with a 32-bit address, its checksum the complement of the sum of its other bytes.
fn push_record(text: &mut Vec<u8>, at: u32, bytes: &[u8]) -> Result<()>
    requires { length bytes.now ≤ 250 }
{
    let count = (bytes.len() + 5) as u8;
    text.extend_from_slice(b"S3")?;
    let left = push_bytes(text, &[count], 0xFF)?;
    let left = push_bytes(text, &at.to_be_bytes(), left)?;
    let left = push_bytes(text, bytes, left)?;
    push_bytes(text, &[left], 0)?;
    text.extend_from_slice(b"\n")?;
    Ok(())
}

/// Adds an S-record with these bytes for each record of a plan, and an end record.
fn push_records(text: &mut Vec<u8>, plan: &Plan, bytes: &[u8]) -> Result<()>
    requires { length bytes.now ≤ 250 }
{
    for number in 0..plan.records {
        push_record(text, plan.address(number), bytes)?;
    }
    text.extend_from_slice(b"S70500000000FA\n")?;
    Ok(())
}

/// Replaces a map by the image of such S-records.
fn read_text(alloc: Global, map: &mut ByteMap, plan: &Plan, bytes: &[u8]) -> Result<()>
    requires { length bytes.now ≤ 250 }
{
    let mut text = Vec::new(alloc);
    push_records(&mut text, plan, bytes)?;
    *map = read_image(alloc, &text, None)?;
    Ok(())
}

/// Lays single bytes in falling order, each right before the one laid last.
fn lay_bytes(map: &mut ByteMap, count: u32) -> Result<()> {
    for number in 0..count {
        map.lay(u32::MAX - number, &[0x5A])?;
    }
    Ok(())
}

/// Lays a long run.
fn lay_long(alloc: Global, map: &mut ByteMap) -> Result<()> {
    let mut long = Vec::new(alloc);
    long.resize(LONG, 0x5A)?;
    map.lay(MIDDLE, &long)?;
    Ok(())
}

/// Puts a long run into a map, and joins a short one to it again and again, before it and after it by turns.
fn bridge(alloc: Global, map: &mut ByteMap, count: u32) -> Result<()> {
    lay_long(alloc, map)?;
    for number in 0..count.min(MOST) {
        let before = MIDDLE - 3 * number - 3;
        map.lay(before, &[0x5A])?;
        map.lay(before + 1, &[0x5A, 0x5A])?;
        let behind = MIDDLE + LONG as u32 + 3 * number;
        map.lay(behind + 2, &[0x5A])?;
        map.lay(behind, &[0x5A, 0x5A])?;
    }
    Ok(())
}

/// What a word asks for, beside an order; and what is hard on the map alone.
#[derive(Clone, Copy)]
enum Way {
    Laid,
    Merged,
    File,
    Text,
    Bytes,
    Bridge,
}

/// Puts the records of a plan into an empty map.
fn lay(alloc: Global, map: &mut ByteMap, way: Way, plan: &Plan) -> Result<()> {
    match way {
        Way::Laid => lay_records(map, plan, None),
        Way::Merged => merge_records(alloc, map, plan),
        Way::File => read_text(alloc, map, plan, &RECORD),
        Way::Text => read_text(alloc, map, plan, &RECORD[..1]),
        Way::Bytes => lay_bytes(map, plan.records),
        Way::Bridge => bridge(alloc, map, plan.records),
    }
}

/// Prints how many runs a map has, and how many bytes the first of them has.
fn put_map(rt: &HostRuntime, map: &ByteMap) {
    let len = if map.runs() == 0 {
        0
    } else {
        map.run(0).1.len()
    };
    let pieces = [
        Count("", map.runs()),
        Count(" runs, ", len),
        Text(" bytes in the first\n"),
    ];
    put(rt, &pieces);
}

/// Prints what comes of a plan.
fn try_plan(rt: &HostRuntime, way: Way, plan: &Plan) -> Result<()> {
    let mut map = ByteMap::new(rt.alloc());
    lay(rt.alloc(), &mut map, way, plan)?;
    put_map(rt, &map);
    Ok(())
}

/// Prints what comes of records that are apart, in an order.
fn try_apart(rt: &HostRuntime, order: Order) -> Result<()> {
    let plan = Plan {
        order,
        apart: true,
        records: 1 << 17,
    };
    try_plan(rt, Way::Laid, &plan)?;
    try_plan(rt, Way::Merged, &plan)?;
    try_plan(rt, Way::Text, &plan)
}

/// Prints the map that comes of `records` shuffled records, or of this number of pieces.
fn try_close(rt: &HostRuntime, way: Way, records: u32) -> Result<()> {
    let plan = Plan {
        order: Order::Shuffled,
        apart: false,
        records,
    };
    try_plan(rt, way, &plan)
}

/// What would be slow if a body moved more than it must.
fn try_hostile(rt: &HostRuntime) -> Result<()> {
    try_apart(rt, Order::Rising)?;
    try_apart(rt, Order::Falling)?;
    try_apart(rt, Order::Outward)?;
    try_apart(rt, Order::Shuffled)?;
    try_close(rt, Way::File, 1 << 17)?;
    try_close(rt, Way::Bytes, 1 << 23)?;
    try_close(rt, Way::Bridge, 1 << 16)
}

/// Does what the words ask for.
pub fn run(rt: &HostRuntime, words: &[&str]) -> Result<()> {
    let mut order = None;
    let mut apart = false;
    let mut way = Way::Laid;
    let mut records = 0;
    for word in words {
        match *word {
            "hostile" => try_hostile(rt)?,
            "apart" => apart = true,
            "merged" => way = Way::Merged,
            "file" => way = Way::File,
            "text" => way = Way::Text,
            name => match name.parse::<u32>() {
                Ok(number) => records = number.min(MOST),
                Err(_) => order = Order::named(name).or(order),
            },
        }
    }
    let Some(order) = order else {
        return Ok(());
    };
    let plan = Plan {
        order,
        apart,
        records,
    };
    try_plan(rt, way, &plan)
}
