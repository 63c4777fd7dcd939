//! The input files of this host.

use std::fs::File;
use std::io;
use std::io::{ErrorKind, Read};
use stream_files::Source;

/// The system's files by their paths. Contracts see nothing of their contents.
#[derive(Drop)]
pub struct HostSource {
    rt: HostRuntime,
    file: Option<File>,
}

impl HostSource {
    /// The files that this runtime opens.
    pub fn new(rt: HostRuntime) -> HostSource {
        HostSource { rt, file: None }
    }
}

impl Source for HostSource {
    ghost use Rattle.std.specs.Prelude.{false, None, []};
    ghost use Rattle.bench_model.specs.Untold.{untold_law};

    ghost tells = { false };

    ghost state = { λ source. record { stands = λ _. None; rest = []; calls = record { errors = 0; interrupted = 0 } } };

    ghost few_signals = { λ source told. untold_law told };

    fn open(&mut self, name: &str) -> io::Result<()> {
        self.file = None;
        self.file = Some(File::open(&self.rt, name)?);
        Ok(())
    }

    fn length(&mut self) -> io::Result<u64> {
        match &self.file {
            Some(file) => Ok(file.metadata()?.len()),
            None => Err(io::Error::from(ErrorKind::NotFound)),
        }
    }

    fn read(&mut self, out: &mut [u8]) -> io::Result<usize> {
        match &mut self.file {
            Some(file) => file.read(out),
            None => Err(io::Error::from(ErrorKind::NotFound)),
        }
    }
}
