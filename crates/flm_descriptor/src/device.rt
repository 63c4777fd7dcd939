//! The description of a flash device (`FlashOS.h`, `struct FlashDevice`).

use faults::OutOfMemory;
use octets::Bytes;
use std::alloc::Global;

/// A flash device. Sizes are in bytes, times in milliseconds. `name` is the part of DevName before the first zero byte,
/// and `empty` the value of erased memory.
#[derive(Drop)]
pub struct Device {
    pub vers: u16,
    pub name: Bytes,
    pub kind: u16,
    pub base: u32,
    pub size: u32,
    pub page: u32,
    pub res: u32,
    pub empty: u8,
    pub to_prog: u32,
    pub to_erase: u32,
}

impl Device {
    ghost use Rattle.std.specs.Prelude.{◌≡◌, IfOk};

    /// A copy of the device.
    pub fn copy(&self, alloc: Global) -> Result<Device, OutOfMemory>
        ensures { IfOk result (λ copy. copy ≡ self.now) }
    {
        Ok(Device {
            vers: self.vers,
            name: Bytes::copy(alloc, self.name.bytes())?,
            kind: self.kind,
            base: self.base,
            size: self.size,
            page: self.page,
            res: self.res,
            empty: self.empty,
            to_prog: self.to_prog,
            to_erase: self.to_erase,
        })
    }
}
