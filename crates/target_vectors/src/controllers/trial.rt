//! A controller over a bench in memory.
ghost use Rattle.std.specs.Prelude.{true};
ghost use Rattle.bench_model.specs.Shown.{bench_of};
ghost use Rattle.flash_driver.specs.Calls.{DriverAgrees};

use anyhow::{Result, bail};
use bench_model::{BusEnd, MemoryBench};
use flash_driver::{Driver, Registers};
use std::alloc::Global;
use std::result;

/// A controller and its bench. The operation that is open on the bench is the controller's.
#[derive(Drop)]
pub struct Trial<R> {
    driver: Driver<R>,
    bench: MemoryBench,

    ghost agrees: { DriverAgrees true driver.layout driver.state (bench_of bench) },
}

impl<R: Registers> Trial<R> {
    /// A trial of this controller, which runs no operation, over these cells. The cell call of number `fail` fails, and an operation that
    /// is broken off leaves 5A.
    pub fn new(alloc: Global, driver: Driver<R>, cells: &[u8], fail: u32) -> Result<Trial<R>> {
        if driver.cells() as usize != cells.len() {
            bail!("another number of cells");
        }
        if driver.is_running() {
            bail!("an operation runs");
        }
        let fails = [u64::from(fail)];
        let bench = MemoryBench::new(alloc, cells, &[], 0, 0x1000, &[], &fails, &[0x5A])?;
        Ok(Trial { driver, bench })
    }

    /// Stores `width` bytes: 1, 2 or 4, at a multiple of the width. Anything else is a bus fault.
    pub fn store(&mut self, at: u32, width: u32, value: u32) -> result::Result<(), BusEnd> {
        match width {
            1 => self.driver.store(&mut self.bench, at, 1, value),
            2 if at % 2 == 0 => self.driver.store(&mut self.bench, at, 2, value),
            4 if at % 4 == 0 => self.driver.store(&mut self.bench, at, 4, value),
            _ => Err(BusEnd::Fault),
        }
    }

    /// Loads `width` bytes: 1, 2 or 4, from a multiple of the width. Anything else is a bus fault.
    pub fn load(&mut self, at: u32, width: u32) -> result::Result<u32, BusEnd> {
        match width {
            1 => self.driver.load(&mut self.bench, at, 1),
            2 if at % 2 == 0 => self.driver.load(&mut self.bench, at, 2),
            4 if at % 4 == 0 => self.driver.load(&mut self.bench, at, 4),
            _ => Err(BusEnd::Fault),
        }
    }

    /// Gives some ticks, up to the first that fails.
    pub fn ticks(&mut self, count: u32) -> result::Result<(), BusEnd> {
        for _tick in 0..count {
            self.driver.tick(&mut self.bench)?;
        }
        Ok(())
    }

    /// A reset.
    pub fn reset(&mut self) -> result::Result<(), BusEnd> {
        self.driver.reset(&mut self.bench)?;
        Ok(())
    }

    /// The cells.
    pub fn cells(&self) -> &[u8] {
        self.bench.cells()
    }
}
