//! A sink that keeps nothing.

use outside_io::{OutputFault, Sink};

/// A sink that takes every piece and keeps none.
#[derive(Clone, Copy)]
pub(crate) struct Nowhere;

impl Sink for Nowhere {
    ghost use Rattle.std.specs.Prelude.{false};
    ghost use Rattle.demo_job.specs.Run.{silent};

    ghost tells = { false };

    ghost state = { λ s. silent };

    fn put(&mut self, _piece: &[u8]) -> Result<(), OutputFault> {
        Ok(())
    }
}
