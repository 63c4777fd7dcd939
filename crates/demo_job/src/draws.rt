//! The generator of the demonstration.
ghost use Rattle.std.specs.Prelude.{◌≡◌, ◌++◌, OnOk};
ghost use Rattle.demo_job.specs.Generator.{next, byte_of, draws, after};

use faults::OutOfMemory;

/// The factor by which a state is multiplied.
const MULTIPLIER: u64 = 1_664_525;

/// The number that is added to the product.
const INCREMENT: u64 = 1_013_904_223;

/// The number of states.
const STATES: u64 = 1 << 32;

/// How many states give each byte.
const STATES_A_BYTE: u64 = 1 << 24;

/// A linear congruential generator of bytes.
#[derive(Clone, Copy)]
pub(crate) struct Draws {
    state: u32,
}

impl Draws {
    /// A generator that begins with this state.
    pub(crate) fn new(seed: u32) -> Draws
        ensures { result.state ≡ seed }
    {
        Draws { state: seed }
    }

    /// The next byte.
    pub(crate) fn draw(&mut self) -> u8
        ensures byte { result ≡ byte_of self.old.state }
        ensures state { self.new.state ≡ next self.old.state }
    {
        let state = (u64::from(self.state) * MULTIPLIER + INCREMENT) % STATES;
        self.state = state as u32;
        (state / STATES_A_BYTE) as u8
    }

    /// Appends the next bytes.
    pub(crate) fn put(&mut self, out: &mut Vec<u8>, count: usize) -> Result<(), OutOfMemory>
        ensures bytes { OnOk result (out.new.items ≡ out.old.items ++ draws count self.old.state) }
        ensures state { OnOk result (self.new.state ≡ after count self.old.state) }
    {
        for _draw in 0..count {
            out.push(self.draw())?;
        }
        Ok(())
    }
}
