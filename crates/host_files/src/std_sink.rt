//! The standard streams as sinks.
ghost use Rattle.std.specs.Prelude.{◌≡◌};

use crate::progress_line::ProgressLine;
use outside_io::{OutputFault, Sink};
use std::io;
use std::io::Print;
use std::marker::Model;
use stream_files::{Stream, StreamSink};

/// A stream of this host. Contracts don't see what it has taken.
#[derive(Drop)]
struct HostStream<P: Print + Drop> {
    stream: P,
}

impl<P: Print + Drop> Stream for HostStream<P> {
    ghost use Rattle.std.specs.Prelude.{false, []};
    ghost use Rattle.bench_model.specs.Untold.{untold_law};

    ghost tells = { false };

    ghost state = { λ stream. record { taken = []; calls = record { errors = 0; interrupted = 0 } } };

    ghost few_signals = { λ stream told. untold_law told };

    fn write(&mut self, bytes: &[u8]) -> io::Result<usize> {
        self.stream.write_some(bytes)
    }
}

/// A standard stream. Each piece is written at once. Contracts don't see what it has taken, only how often it has failed.
#[derive(Drop)]
pub struct StdSink<P: Print + Drop> {
    sink: StreamSink<HostStream<P>>,
    line: ProgressLine,
}

impl<P: Print + Drop> Model for StdSink<P> {
    ghost use Rattle.std.specs.Prelude.{ℕ};

    ghost Value = { ℕ };

    ghost view = { λ s. s.sink.faults };
}

impl<P: Print + Drop> StdSink<P> {
    /// A sink that writes to this stream.
    pub fn new(stream: P) -> StdSink<P>
        ensures { result ≡ 0 }
    {
        StdSink {
            sink: StreamSink::new(HostStream { stream }),
            line: ProgressLine::none(),
        }
    }

    /// From now on, clears this line before each piece, and lets it follow the piece.
    pub fn wipe_first(&mut self, line: ProgressLine)
        ensures { self.new ≡ self.old }
    {
        self.line = line;
    }
}

impl<P: Print + Drop> Sink for StdSink<P> {
    ghost use Rattle.std.specs.Prelude.{false, []};

    ghost tells = { false };

    ghost state = { λ s. record { faults = s; taken = [] } };

    fn put(&mut self, piece: &[u8]) -> Result<(), OutputFault> {
        self.line.wipe();
        self.line.follow(piece);
        self.sink.put(piece)
    }
}
