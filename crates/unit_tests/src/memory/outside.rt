//! Inputs and sinks in memory, with room, failing numbers and missing names.
use faults::OutOfMemory;
use octets::Word;
use outside_io::{Inputs, MemoryInputs, MemorySink, Sink};
use std::alloc::Global;
use std::test::Fail;

/// The length of the file under a name, or none where the take failed.
fn length_of<I: Inputs>(inputs: &mut I, alloc: Global, name: &Word) -> Option<usize>
    requires { I.may_take inputs.old name.now }
{
    match inputs.take(alloc, name) {
        Ok(bytes) => Some(bytes.len()),
        Err(_) => None,
    }
}

fn put_all<S: Sink>(out: &mut S, pieces: &[&[u8]]) -> u8 {
    let mut failed = 0u8;
    for piece in pieces {
        if out.put(piece).is_err() {
            failed = failed.saturating_add(1);
        }
    }
    failed
}

#[test]
fn inputs_give_the_first_file_of_a_name(rt: HostRuntime) -> Result<(), Fail> {
    let lengths = lengths_in_memory(rt.alloc())?;
    assert_eq!(rt; lengths, [Some(2), None, None, Some(2)]);
    Ok(())
}

/// The lengths that are taken where two files have one name, and the third take fails.
fn lengths_in_memory(alloc: Global) -> Result<[Option<usize>; 4], OutOfMemory> {
    let mut inputs = MemoryInputs::new(alloc, &[3])?;
    lengths_of(&mut inputs, alloc)
}

/// Adds both files, and takes four.
fn lengths_of(inputs: &mut MemoryInputs, alloc: Global) -> Result<[Option<usize>; 4], OutOfMemory> {
    add(alloc, inputs, "image", b"ab")?;
    add(alloc, inputs, "image", b"abc")?;
    Ok([
        length_under(inputs, alloc, "image")?,
        length_under(inputs, alloc, "other")?,
        length_under(inputs, alloc, "image")?,
        length_under(inputs, alloc, "image")?,
    ])
}

/// Adds a file.
pub fn add(
    alloc: Global,
    inputs: &mut MemoryInputs,
    name: &str,
    bytes: &[u8],
) -> Result<(), OutOfMemory> {
    let name = Word::copy(alloc, name)?;
    inputs.add(alloc, &name, bytes)
}

/// The length of the file under a name.
fn length_under(
    inputs: &mut MemoryInputs,
    alloc: Global,
    name: &str,
) -> Result<Option<usize>, OutOfMemory> {
    let name = Word::copy(alloc, name)?;
    Ok(length_of(inputs, alloc, &name))
}

#[test]
fn a_sink_holds_what_has_room(rt: HostRuntime) -> Result<(), Fail> {
    let mut out = MemorySink::new(rt.alloc(), 5, &[2])?;
    let failed = put_all(&mut out, &[b"abc", b"d", b"e", b"xyz", b"f"]);
    assert!(rt; failed == 2 && out.bytes() == b"abcef".as_slice());
    Ok(())
}
