//! A bus of bytes in memory.
ghost use Rattle.std.specs.Prelude.{◌≡◌};
ghost use Rattle.armv6m_step.specs.Ram.{ram_at, ram_answer};
ghost use Rattle.armv6m_step.specs.Functional.{seen, step_of};

use crate::{Bus, Core, StepEnd, ram, step};
use bench_model::BusEnd;
use std::marker::Model;

/// Bytes at the addresses from a base on. A contract sees both as a `Ram`. An access to these bytes is answered, and any other is a bus
/// fault. There is no device on this bus.
#[derive(Drop)]
pub struct MemoryBus {
    base: u32,
    bytes: Vec<u8>,
}

impl Model for MemoryBus {
    ghost use Rattle.armv6m_step.specs.Ram.{Ram, ram_at};

    ghost Value = { Ram };

    ghost view = { λ bus. ram_at bus.base bus.bytes.items };
}

impl MemoryBus {
    /// The bytes at the addresses from the base on.
    pub fn new(base: u32, bytes: Vec<u8>) -> MemoryBus
        ensures { result ≡ ram_at base bytes.items }
    {
        MemoryBus { base, bytes }
    }

    /// The present bytes.
    pub fn bytes(&self) -> &[u8]
        ensures { result.now ≡ self.now.bytes }
    {
        self.bytes.as_slice()
    }
}

#[tactic(auto, unfolding(crate::specs::Ram::ram_answer))]
impl Bus for MemoryBus {
    ghost use Rattle.armv6m_step.specs.MemoryActs.{memory_acts, memory_counted};

    ghost acts = { memory_acts };

    ghost faults = { λ bus. 0 };

    ghost counted = { memory_counted };

    fn load8(&mut self, at: u32) -> Result<u32, BusEnd> {
        match ram::load8(self.base, self.bytes.as_slice(), at) {
            Some(value) => Ok(value),
            None => Err(BusEnd::Fault),
        }
    }

    fn load16(&mut self, at: u32) -> Result<u32, BusEnd> {
        match ram::load16(self.base, self.bytes.as_slice(), at) {
            Some(value) => Ok(value),
            None => Err(BusEnd::Fault),
        }
    }

    fn load32(&mut self, at: u32) -> Result<u32, BusEnd> {
        match ram::load32(self.base, self.bytes.as_slice(), at) {
            Some(value) => Ok(value),
            None => Err(BusEnd::Fault),
        }
    }

    fn store8(&mut self, at: u32, value: u32) -> Result<(), BusEnd> {
        if ram::store8(self.base, self.bytes.as_mut_slice(), at, value) {
            Ok(())
        } else {
            Err(BusEnd::Fault)
        }
    }

    fn store16(&mut self, at: u32, value: u32) -> Result<(), BusEnd> {
        if ram::store16(self.base, self.bytes.as_mut_slice(), at, value) {
            Ok(())
        } else {
            Err(BusEnd::Fault)
        }
    }

    fn store32(&mut self, at: u32, value: u32) -> Result<(), BusEnd> {
        if ram::store32(self.base, self.bytes.as_mut_slice(), at, value) {
            Ok(())
        } else {
            Err(BusEnd::Fault)
        }
    }
}

/// Executes the instruction at the PC over the memory. Its end and what it leaves are a function of the core and the bytes.
pub fn step_in_memory(core: &mut Core, bus: &mut MemoryBus) -> StepEnd
    ensures { seen result core.new bus.new ≡ step_of ram_answer core.old bus.old }
{
    step(core, bus)
}
