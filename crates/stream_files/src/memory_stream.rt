//! A stream in memory.
ghost use Rattle.std.specs.Prelude.{◌≡◌, ◌<◌, ◌+◌, ◌^◌};

use crate::Stream;
use faults::FaultCount;
use std::io;
use std::io::ErrorKind;

/// A stream in memory that takes a few bytes at a time, or none. The first calls are interrupted. Contracts see what it has taken.
#[derive(Drop)]
pub struct MemoryStream {
    held: Vec<u8>,
    most: usize,
    signals: u32,
    stopped: u32,
    errors: FaultCount,
    ghost room: { stopped + signals < 2 ^ 32 },
    ghost few: { stopped < 2 ^ 63 },
}

impl MemoryStream {
    /// A stream that holds these bytes and takes at most `most` at a time. The first `signals` calls are interrupted.
    pub fn new(held: Vec<u8>, most: usize, signals: u32) -> MemoryStream
        ensures held { result.held ≡ held }
        ensures most { result.most ≡ most }
        ensures signals { result.signals ≡ signals }
        ensures stopped { result.stopped ≡ 0 }
        ensures errors { result.errors ≡ 0 }
    {
        MemoryStream {
            held,
            most,
            signals,
            stopped: 0,
            errors: FaultCount::new(),
        }
    }

    /// The bytes that the stream holds.
    pub fn bytes(&self) -> &[u8]
        ensures { result.now ≡ self.now.held.items }
    {
        self.held.as_slice()
    }
}

impl Stream for MemoryStream {
    ghost use Rattle.std.specs.Prelude.{true};

    ghost tells = { true };

    ghost state = { λ s. record { taken = s.held.items; calls = record { errors = s.errors; interrupted = s.stopped } } };

    ghost few_signals = { λ s told. s.few };

    fn write(&mut self, bytes: &[u8]) -> io::Result<usize> {
        if self.signals > 0 {
            self.signals -= 1;
            self.stopped += 1;
            return Err(io::Error::from(ErrorKind::Interrupted));
        }
        let count = bytes.len().min(self.most);
        if count == 0 && !bytes.is_empty() {
            self.errors.raise();
            return Ok(0);
        }
        match self.held.extend_from_slice(&bytes[..count]) {
            Ok(()) => Ok(count),
            Err(_) => {
                self.errors.raise();
                Err(io::Error::from(ErrorKind::OutOfMemory))
            }
        }
    }
}
