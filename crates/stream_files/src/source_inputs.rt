//! Files of a host as inputs.
ghost use Rattle.std.specs.Prelude.{◌≡◌, ◌≤◌, ◌<◌, ◌+◌, ◌++◌, [], ℕ, List, Some, length, vec_len, IsTrue, IfOk, IfErr, IsOk, OnOk, OnErr, ◌∷◌};
ghost use Rattle.stream_files.specs.Outside.{IsExcused, IsLonger};

use crate::Source;
use faults::{FaultCount, OutOfMemory};
use octets::{Bytes, Word};
use outside_io::{Inputs, LONGEST, TakeFault};
use std::alloc::Global;
use std::io;
use std::io::ErrorKind;

/// How many bytes are read at a time.
const CHUNK: usize = 65_536;

/// A host's files by their names. Contracts see them where they see the host's.
#[derive(Drop)]
pub struct SourceInputs<S: Source> {
    source: S,
    faults: FaultCount,
    failed: Vec<Word>,
}

impl<S: Source> SourceInputs<S> {
    /// Inputs that are these files.
    pub fn new(alloc: Global, source: S) -> SourceInputs<S>
        ensures source { result.source ≡ source }
        ensures faults { result.faults ≡ 0 }
        ensures failed { result.failed.items ≡ [] }
    {
        SourceInputs {
            source,
            faults: FaultCount::new(),
            failed: Vec::new(alloc),
        }
    }
}

/// Reads a file to its end. It is an error if it is longer than `LONGEST`.
fn read_file<S: Source>(source: &mut S, alloc: Global, name: &str) -> io::Result<Vec<u8>>
    ensures short { IfOk result (λ bytes. vec_len bytes ≤ LONGEST) }
    ensures names { (other : List ℕ) → (S.state source.new).stands other ≡ (S.state source.old).stands other }
    ensures ok { IsTrue S.tells → IfOk result (λ bytes. (S.state source.old).stands name.now ≡ Some bytes.items) }
    ensures went { IsTrue S.tells → IsOk result → (S.state source.new).calls.errors ≡ (S.state source.old).calls.errors }
    ensures err { IsTrue S.tells → IfErr result (IsExcused (S.state source.old) (S.state source.new)
        (IsLonger LONGEST ((S.state source.old).stands name.now))) }
{
    source.open(name)?;
    let size = source.length()?.min(LONGEST as u64) as usize;
    read_to_end(source, Vec::with_capacity(alloc, size)?)
}

/// Appends the rest of the open file. More than `LONGEST` bytes are an error. A read that a signal interrupted is made
/// again.
fn read_to_end<S: Source>(source: &mut S, mut bytes: Vec<u8>) -> io::Result<Vec<u8>>
    requires { vec_len bytes ≤ LONGEST }
    ensures short { IfOk result (λ read. vec_len read ≤ LONGEST) }
    ensures names { (other : List ℕ) → (S.state source.new).stands other ≡ (S.state source.old).stands other }
    ensures ok { IsTrue S.tells → IfOk result (λ read. read.items ≡ bytes.items ++ (S.state source.old).rest) }
    ensures went { IsTrue S.tells → IsOk result → (S.state source.new).calls.errors ≡ (S.state source.old).calls.errors }
    ensures later { IsTrue S.tells → (S.state source.old).calls.errors ≤ (S.state source.new).calls.errors }
    ensures err { IsTrue S.tells → IfErr result (IsExcused (S.state source.old) (S.state source.new)
        (LONGEST < vec_len bytes + length (S.state source.old).rest)) }
{
    let mut chunk = [0; CHUNK];
    let mut stops = 0u64;
    while stops < u64::MAX {
        match source.read(&mut chunk) {
            Ok(0) => return Ok(bytes),
            Ok(count) if count > LONGEST - bytes.len() => {
                return Err(io::Error::from(ErrorKind::FileTooLarge));
            }
            Ok(count) => bytes.extend_from_slice(&chunk[..count])?,
            Err(fault) if fault.kind() == ErrorKind::Interrupted => stops += 1,
            Err(fault) => return Err(fault),
        }
    }
    Err(io::Error::from(ErrorKind::Interrupted))
}

impl<S: Source> SourceInputs<S> {
    /// Remembers a name whose take failed.
    fn remember(&mut self, alloc: Global, name: &Word) -> Result<(), OutOfMemory>
        ensures source { self.new.source ≡ self.old.source }
        ensures faults { self.new.faults ≡ self.old.faults }
        ensures ok { OnOk result (self.new.failed.items ≡ self.old.failed.items ++ name.now ∷ []) }
        ensures err { OnErr result (self.new.failed.items ≡ self.old.failed.items) }
    {
        let name = Word::copy(alloc, name.text())?;
        self.failed.push(name)?;
        Ok(())
    }
}

impl<S: Source + Drop> Inputs for SourceInputs<S> {
    ghost use Rattle.std.specs.Prelude.{◌≡◌, ◌≤◌, ◌↔◌, ℕ, List, Some, length, IfOk, IsTrue};
    ghost use Rattle.outside_io.specs.TakeCause.{TakeCause, Remembers};
    ghost use Rattle.stream_files.specs.Outside.{TakesAsFiles};

    ghost tells = { S.tells };

    ghost state = { λ i. record { faults = i.faults; failed = i.failed.items; stands = (S.state i.source).stands } };

    ghost may_take = { λ _ _. Unit {0} };

    fn take(&mut self, alloc: Global, name: &Word) -> Result<Bytes, TakeFault>
        ensures ok { IsTrue S.tells → IfOk result (λ bytes. (S.state self.old.source).stands name.now ≡ Some bytes) }
        ensures short { IfOk result (λ bytes. length bytes ≤ LONGEST) }
        ensures cause { TakeCause self.old.faults self.new.faults result }
        ensures remembers { IsTrue S.tells → Remembers self.old.failed.items name.now self.new.failed.items result }
        ensures names { (other : List ℕ) → (S.state self.new.source).stands other ≡ (S.state self.old.source).stands other }
        ensures leave { (other : List ℕ) → Unit {0} ↔ Unit {0} }
        ensures fails { IsTrue S.tells → TakesAsFiles LONGEST name.now (S.state self.old.source) (S.state self.new.source) result }
    {
        match read_file(&mut self.source, alloc, name.text()) {
            Ok(bytes) => Ok(Bytes::from_vec(bytes)),
            Err(fault) if fault.kind() == ErrorKind::OutOfMemory => Err(TakeFault::OutOfMemory),
            Err(_) => {
                self.remember(alloc, name)?;
                self.faults.raise();
                Err(TakeFault::InputFault)
            }
        }
    }
}
