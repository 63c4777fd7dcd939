//! An input file in memory.
ghost use Rattle.std.specs.Prelude.{◌≡◌, ◌<◌, ◌≤◌, ◌+◌, ◌^◌, vec_len};

use crate::Source;
use faults::FaultCount;
use octets::Word;
use std::io;
use std::io::ErrorKind;

/// One file in memory, which is read a few bytes at a time. The first reads are interrupted. Contracts see what file each name has.
#[derive(Drop)]
pub struct MemorySource {
    name: Word,
    bytes: Vec<u8>,
    at: usize,
    most: usize,
    signals: u32,
    stopped: u32,
    errors: FaultCount,
    ghost inside: { at ≤ vec_len bytes },
    ghost some: { 0 < most },
    ghost room: { stopped + signals < 2 ^ 32 },
    ghost few: { stopped < 2 ^ 63 },
}

impl MemorySource {
    /// A file of this name, read at most `most` bytes at a time. The first `signals` reads are interrupted.
    pub fn new(name: Word, bytes: Vec<u8>, most: usize, signals: u32) -> MemorySource
        requires { 0 < most }
        ensures name { result.name ≡ name }
        ensures bytes { result.bytes ≡ bytes }
        ensures at { result.at ≡ 0 }
        ensures most { result.most ≡ most }
        ensures signals { result.signals ≡ signals }
        ensures stopped { result.stopped ≡ 0 }
        ensures errors { result.errors ≡ 0 }
    {
        MemorySource {
            name,
            bytes,
            at: 0,
            most,
            signals,
            stopped: 0,
            errors: FaultCount::new(),
        }
    }
}

impl Source for MemorySource {
    ghost use Rattle.std.specs.Prelude.{true, drop};
    ghost use Rattle.stream_files.specs.Outside.{one_file};

    ghost tells = { true };

    ghost state = { λ s. record {
      stands = one_file s.name s.bytes.items;
      rest = drop s.at s.bytes.items;
      calls = record { errors = s.errors; interrupted = s.stopped };
    } };

    ghost few_signals = { λ s told. s.few };

    fn open(&mut self, name: &str) -> io::Result<()> {
        if self.name.bytes() == name.as_bytes() {
            self.at = 0;
            Ok(())
        } else {
            self.errors.raise();
            Err(io::Error::from(ErrorKind::NotFound))
        }
    }

    fn length(&mut self) -> io::Result<u64> {
        Ok(self.bytes.len() as u64)
    }

    fn read(&mut self, out: &mut [u8]) -> io::Result<usize> {
        if self.signals > 0 {
            self.signals -= 1;
            self.stopped += 1;
            return Err(io::Error::from(ErrorKind::Interrupted));
        }
        let count = (self.bytes.len() - self.at).min(out.len()).min(self.most);
        out[..count].copy_from_slice(&self.bytes[self.at..self.at + count]);
        self.at += count;
        Ok(count)
    }
}
