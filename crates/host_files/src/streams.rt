//! The numbers of the standard streams, which no file of the program may get.
ghost use Rattle.std.specs.Prelude.{◌≡◌};

use std::fs::File;
use std::io;
use std::os::fd::{AsRawFd, IntoRawFd};

/// The file that takes the number of a closed stream.
const NULL_DEVICE: &str = "/dev/null";

/// The numbers of standard input, output and error are 0 to this.
const LAST_STREAM: i32 = 2;

/// The host, once the numbers of the standard streams are taken. Only `hold_streams` gives one out, so its holder has opened no file before
/// that.
#[derive(Clone, Copy)]
pub struct HeldStreams {
    rt: HostRuntime,
}

impl HeldStreams {
    /// The host.
    pub fn host(self) -> HostRuntime
        ensures { result ≡ self.rt }
    {
        self.rt
    }
}

/// Takes those of the standard streams' numbers that are free, so that no file which is opened later gets one of them and is
/// printed over. The system gives a file the lowest free number. The numbers are taken for reading only, so that a put on
/// a stream that was closed still fails.
pub fn hold_streams(rt: HostRuntime) -> io::Result<HeldStreams> {
    for _ in 0..=LAST_STREAM {
        let held = File::open(&rt, NULL_DEVICE)?;
        if held.as_raw_fd() > LAST_STREAM {
            break;
        }
        let _number = held.into_raw_fd();
    }
    Ok(HeldStreams { rt })
}
