//! Images as texts of records. The longer ones are the data records of GNU objcopy 2.40 (`-I binary -O ihex`, `-O srec
//! --srec-forceS3`) of the same bytes.

use crate::expect::expect;
use crate::images::maps::map_of;
use byte_map::{ByteMap, LayFault};
use faults::OutOfMemory;
use image_hex::read_hex;
use image_more::{write_hex, write_srec};
use outside_io::MemorySink;
use std::alloc::Global;
use std::process::Abort;
use std::test::Fail;

const EMPTY: &[u8] = b":00000001FF\n";

const FOUR_HEX: &[u8] = b":020000040800F2\n:0400000001020304F2\n:00000001FF\n";

const FOUR_SREC: &[u8] = b"S0030000FC\nS3090800000001020304E4\nS70500000000FA\n";

const HEX: &[u8] =
    b":020000040800F2\n:10FFF0000B30557A9FC4E90E33587DA2C7EC1136F9\n:020000040801F1\n:100000005B80A5CAEF14395E83A8CDF2173C6186E8\n:03001000ABD0F57D\n:00000001FF\n";

const SREC: &[u8] =
    b"S0030000FC\nS3150800FFF00B30557A9FC4E90E33587DA2C7EC1136EB\nS315080100005B80A5CAEF14395E83A8CDF2173C6186D9\nS30808010010ABD0F56E\nS70500000000FA\n";

/// A form of text.
#[derive(Clone, Copy)]
enum Form {
    Hex,
    Srec,
}

/// Puts 35 bytes from 0x0800FFF0 on into a map, one by one.
fn fill(map: &mut ByteMap) -> Result<(), LayFault> {
    for index in 0..35_u32 {
        let byte = ((index * 37 + 11) % 256) as u8;
        map.lay(0x0800_FFF0 + index, &[byte])?;
    }
    Ok(())
}

/// 35 bytes from 0x0800FFF0 on.
fn filled(alloc: Global) -> Result<ByteMap, LayFault> {
    let mut map = ByteMap::new(alloc);
    fill(&mut map)?;
    Ok(map)
}

/// Whether a map's text is this one.
fn has_text(alloc: Global, map: &ByteMap, form: Form, text: &[u8]) -> Result<bool, OutOfMemory> {
    let mut out = MemorySink::new(alloc, 4096, &[])?;
    let put = match form {
        Form::Hex => write_hex(map, &mut out),
        Form::Srec => write_srec(map, &mut out),
    };
    Ok(put.is_ok() && out.bytes() == text)
}

/// Asserts what a map's texts are as Intel HEX and as S-records.
fn expect_texts(rt: &impl Abort, alloc: Global, map: &ByteMap, hex: &[u8], srec: &[u8]) {
    expect(rt, has_text(alloc, map, Form::Hex, hex), Ok(true));
    expect(rt, has_text(alloc, map, Form::Srec, srec), Ok(true));
}

#[test]
fn rows_as_objcopy_writes_them(rt: HostRuntime) -> Result<(), Fail> {
    let map = filled(rt.alloc())?;
    expect_texts(&rt, rt.alloc(), &map, HEX, SREC);
    Ok(())
}

/// Whether this is the text of no byte.
fn is_empty_text(alloc: Global, text: &[u8]) -> Result<bool, OutOfMemory> {
    let map = ByteMap::new(alloc);
    has_text(alloc, &map, Form::Hex, text)
}

/// Four bytes, by hand; and no byte at all.
#[test]
fn short_texts(rt: HostRuntime) -> Result<(), Fail> {
    expect(&rt, is_empty_text(rt.alloc(), EMPTY), Ok(true));
    let map = map_of(rt.alloc(), &[(0x0800_0000, b"\x01\x02\x03\x04")])?;
    expect_texts(&rt, rt.alloc(), &map, FOUR_HEX, FOUR_SREC);
    Ok(())
}

/// A text is put in pieces of up to 4,096 bytes: here 92 rows after the record of type 04, and then the rest. After a put that fails the
/// pieces before it remain. A text without such a put is read back.
#[test]
fn each_put_fails_in_turn(rt: HostRuntime) -> Result<(), Fail> {
    let map = map_of(rt.alloc(), &[(0x0800_0000, &[0x5A; 2048])])?;
    expect_puts(&rt, rt.alloc(), &map);
    Ok(())
}

/// Asserts that the text of a map of one run has 5,660 bytes and is read back, and what puts that fail leave of it.
fn expect_puts(rt: &impl Abort, alloc: Global, map: &ByteMap) {
    let ended = expect_beginnings(rt, alloc, map);
    expect(rt, ended, Ok(()));
    expect(rt, reads_back(alloc, map), Ok(true));
}

/// Asserts that the map's text has 5,660 bytes, and that a put that fails leaves a beginning of it.
fn expect_beginnings(rt: &impl Abort, alloc: Global, map: &ByteMap) -> Result<(), OutOfMemory> {
    let mut whole = MemorySink::new(alloc, 8192, &[])?;
    let put = write_hex(map, &mut whole);
    expect(rt, (put, whole.bytes().len()), (Ok(()), 5660));
    let first = beginning(alloc, map, whole.bytes(), 1);
    expect(rt, first, Ok((true, 0, true)));
    let second = beginning(alloc, map, whole.bytes(), 2);
    expect(rt, second, Ok((true, 4064, true)));
    Ok(())
}

/// Whether this put fails, how many bytes of the map's text it leaves, and whether they are its first ones.
fn beginning(
    alloc: Global,
    map: &ByteMap,
    whole: &[u8],
    put: u64,
) -> Result<(bool, usize, bool), OutOfMemory> {
    let mut out = MemorySink::new(alloc, 8192, &[put])?;
    let fails = write_hex(map, &mut out).is_err();
    let left = out.bytes();
    Ok((fails, left.len(), whole.starts_with(left)))
}

/// Whether the text of a map of one run is read back where the third put would fail.
fn reads_back(alloc: Global, map: &ByteMap) -> Result<bool, OutOfMemory> {
    let mut out = MemorySink::new(alloc, 8192, &[3])?;
    let put = write_hex(map, &mut out);
    Ok(put.is_ok() && is_text_of(alloc, map, out.bytes()))
}

/// Whether a text is of the same map of one run.
fn is_text_of(alloc: Global, map: &ByteMap, text: &[u8]) -> bool {
    match read_hex(alloc, text) {
        Ok(read) => is_same(&read, map),
        Err(_) => false,
    }
}

/// Whether two maps have the same run and no other.
fn is_same(read: &ByteMap, map: &ByteMap) -> bool {
    read.runs() == 1 && map.runs() == 1 && read.run(0) == map.run(0)
}
