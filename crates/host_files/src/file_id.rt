//! Which file of the system a file is, whatever its name.
ghost use Rattle.std.specs.Prelude.{◌≡◌};
ghost use Rattle.host_files.specs.Bench.{is_file};

use std::fs::{File, Metadata};
use std::os::unix::fs::MetadataExt;
use std::{fs, io};

/// The device of a file, and its number on that device.
#[derive(Clone, Copy, PartialEq, Eq)]
pub struct FileId {
    device: u64,
    number: u64,
}

impl FileId {
    /// The identity of an open file.
    pub fn of(file: &File) -> io::Result<FileId> {
        Ok(FileId::in_data(&file.metadata()?))
    }

    /// The identity of the file to which a name leads, if there is one.
    pub fn named(rt: HostRuntime, name: &str) -> Option<FileId> {
        match fs::metadata(&rt, name) {
            Ok(data) => Some(FileId::in_data(&data)),
            Err(_) => None,
        }
    }

    /// Whether a file was found and it is this one.
    pub fn matches(self, found: Option<FileId>) -> bool
        ensures { result ≡ is_file self found }
    {
        match found {
            Some(file) => file.device == self.device && file.number == self.number,
            None => false,
        }
    }

    /// The identity of a file by what the system says of it.
    fn in_data(data: &Metadata) -> FileId {
        FileId {
            device: data.dev(),
            number: data.ino(),
        }
    }
}
