//! Inputs and sinks over files and streams that give and take a few bytes at a time.

use crate::expect::expect_all;
use faults::OutOfMemory;
use octets::Word;
use outside_io::{Inputs, Sink, TakeFault};
use std::alloc::Global;
use std::test::Fail;
use stream_files::{MemorySource, MemoryStream, SourceInputs, StreamSink};

#[test]
fn a_file_is_taken_in_pieces_and_behind_signals(rt: HostRuntime) -> Result<(), Fail> {
    let seen = seen_of_image(rt.alloc())?;
    expect_all(&rt, &seen);
    Ok(())
}

/// The answers of inputs over a file that is read a few bytes at a time.
fn seen_of_image(alloc: Global) -> Result<[bool; 2], OutOfMemory> {
    let mut inputs = SourceInputs::new(alloc, image(alloc)?);
    image_is_taken(&mut inputs, alloc)
}

/// A file of 70,000 bytes that is read 999 at a time, after three reads that a signal interrupts.
fn image(alloc: Global) -> Result<MemorySource, OutOfMemory> {
    let name = Word::copy(alloc, "image")?;
    let bytes = vec![in alloc; 0x3C; 70_000]?;
    Ok(MemorySource::new(name, bytes, 999, 3))
}

/// Whether the file is taken whole, and no file with another name.
fn image_is_taken(
    inputs: &mut SourceInputs<MemorySource>,
    alloc: Global,
) -> Result<[bool; 2], OutOfMemory> {
    Ok([
        take(inputs, alloc, "other", &[])? == Err(TakeFault::InputFault),
        take(inputs, alloc, "image", &[0x3C; 70_000])? == Ok(true),
    ])
}

/// Takes a file, and says whether it has these bytes.
fn take(
    inputs: &mut SourceInputs<MemorySource>,
    alloc: Global,
    name: &str,
    bytes: &[u8],
) -> Result<Result<bool, TakeFault>, OutOfMemory> {
    let name = Word::copy(alloc, name)?;
    Ok(match inputs.take(alloc, &name) {
        Ok(found) => Ok(found.bytes() == bytes),
        Err(fault) => Err(fault),
    })
}

#[test]
fn a_stream_takes_pieces_in_parts_and_behind_signals(rt: HostRuntime) -> Result<(), Fail> {
    let mut sink = StreamSink::new(MemoryStream::new(Vec::new(rt.alloc()), 3, 2));
    let puts = [sink.put(b"a piece, ").is_ok(), sink.put(b"and one").is_ok()];
    let stream = sink.into_stream();
    expect_all(&rt, &puts);
    assert!(rt; stream.bytes() == b"a piece, and one".as_slice());
    Ok(())
}

#[test]
fn a_stream_that_takes_nothing_is_a_fault(rt: HostRuntime) {
    let mut sink = StreamSink::new(MemoryStream::new(Vec::new(rt.alloc()), 0, 1));
    expect_all(&rt, &[sink.put(b"").is_ok(), sink.put(b"a piece").is_err()]);
}
