//! Files of the system as inputs.
ghost use Rattle.std.specs.Prelude.{◌≡◌};

use crate::host_source::HostSource;
use octets::{Bytes, Word};
use outside_io::{Inputs, TakeFault};
use std::alloc::Global;
use std::marker::Model;
use stream_files::SourceInputs;

/// The system's files by their paths. A contract doesn't see their contents, only how often they have failed.
#[derive(Drop)]
pub struct FileInputs {
    files: SourceInputs<HostSource>,
}

impl Model for FileInputs {
    ghost use Rattle.std.specs.Prelude.{ℕ};

    ghost Value = { ℕ };

    ghost view = { λ i. i.files.faults };
}

impl FileInputs {
    /// Inputs that read files through this runtime.
    pub fn new(rt: HostRuntime) -> FileInputs
        ensures { result ≡ 0 }
    {
        FileInputs {
            files: SourceInputs::new(rt.alloc(), HostSource::new(rt)),
        }
    }
}

impl Inputs for FileInputs {
    ghost use Rattle.std.specs.Prelude.{false, None, []};

    ghost tells = { false };

    ghost state = { λ i. record { faults = i; failed = []; stands = λ _. None } };

    ghost may_take = { λ _ _. Unit {0} };

    fn take(&mut self, alloc: Global, name: &Word) -> Result<Bytes, TakeFault> {
        self.files.take(alloc, name)
    }
}
