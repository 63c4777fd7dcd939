//! A stream of a host as a sink.
ghost use Rattle.std.specs.Prelude.{◌≡◌, ◌++◌, IsTrue, OnOk, OnErr};
ghost use Rattle.outside_io.specs.Appends.{AppendsPart};
ghost use Rattle.faults.specs.Counts.{HasCause};

use crate::Stream;
use faults::FaultCount;
use outside_io::{OutputFault, Sink};
use std::io;
use std::io::ErrorKind;

/// A sink over a stream, which gets each piece at once. Contracts see what it has taken where they see it of the stream.
#[derive(Drop)]
pub struct StreamSink<S: Stream> {
    stream: S,
    faults: FaultCount,
}

impl<S: Stream> StreamSink<S> {
    /// A sink that writes to this stream.
    pub fn new(stream: S) -> StreamSink<S>
        ensures stream { result.stream ≡ stream }
        ensures faults { result.faults ≡ 0 }
    {
        StreamSink {
            stream,
            faults: FaultCount::new(),
        }
    }

    /// Gives the stream back.
    pub fn into_stream(self) -> S
        ensures { result ≡ self.stream }
    {
        let StreamSink { stream, faults: _ } = self;
        stream
    }
}

/// Writes all bytes.
fn write_whole<S: Stream>(stream: &mut S, bytes: &[u8]) -> io::Result<()>
    ensures ok { IsTrue S.tells → OnOk result ((S.state stream.new).taken ≡ (S.state stream.old).taken ++ bytes.now) }
    ensures err { IsTrue S.tells → OnErr result (AppendsPart bytes.now (S.state stream.old).taken (S.state stream.new).taken) }
    ensures fails { IsTrue S.tells → HasCause (S.state stream.old).calls.errors (S.state stream.new).calls.errors result }
{
    let mut done = 0;
    let mut stops = 0u64;
    while done < bytes.len() {
        match stream.write(&bytes[done..]) {
            Ok(0) => return Err(io::Error::from(ErrorKind::WriteZero)),
            Ok(count) => done += count,
            Err(fault) if fault.kind() == ErrorKind::Interrupted && stops < u64::MAX => stops += 1,
            Err(fault) => return Err(fault),
        }
    }
    Ok(())
}

impl<S: Stream + Drop> Sink for StreamSink<S> {
    ghost use Rattle.std.specs.Prelude.{◌≡◌, ◌++◌, IsTrue, OnOk, OnErr};
    ghost use Rattle.outside_io.specs.Appends.{AppendsPart};
    ghost use Rattle.faults.specs.Counts.{HasCause};

    ghost tells = { S.tells };

    ghost state = { λ s. record { faults = s.faults; taken = (S.state s.stream).taken } };

    fn put(&mut self, piece: &[u8]) -> Result<(), OutputFault>
        ensures ok { IsTrue S.tells → OnOk result ((S.state self.new.stream).taken ≡ (S.state self.old.stream).taken ++ piece.now) }
        ensures err { IsTrue S.tells → OnErr result (AppendsPart piece.now (S.state self.old.stream).taken (S.state self.new.stream).taken) }
        ensures cause { HasCause self.old.faults self.new.faults result }
        ensures fails { IsTrue S.tells → HasCause (S.state self.old.stream).calls.errors (S.state self.new.stream).calls.errors result }
    {
        match write_whole(&mut self.stream, piece) {
            Ok(()) => Ok(()),
            Err(_) => {
                self.faults.raise();
                Err(OutputFault)
            }
        }
    }
}
