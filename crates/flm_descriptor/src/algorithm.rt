//! A flash algorithm.
ghost use Rattle.std.specs.Prelude.{◌+◌, ◌≤◌, length};
ghost use Rattle.flm_descriptor.specs.Shape.{shape, IsLawful};
ghost use Rattle.flm_descriptor.specs.Lawful.{addresses, AreInside, AreInOrder};

use crate::device::Device;
use crate::geometry::count_sectors;
use crate::items::Items;
use faults::OutOfMemory;
use octets::Bytes;
use std::alloc::Global;

/// The places of the functions, in bytes from the start of PrgCode.
#[derive(Clone, Copy)]
pub struct Entries {
    pub init: u32,
    pub uninit: u32,
    pub erase_sector: u32,
    pub program_page: u32,
    pub erase_chip: Option<u32>,
    pub verify: Option<u32>,
}

/// A flash algorithm. Places are in bytes from the start of PrgCode. A part that is absent has length 0 and begins where the one before it
/// ends. The entries are in the code, and the parts follow one another. The device's pages, items and limits are lawful.
#[derive(Drop)]
pub struct Algorithm {
    pub code: Bytes,
    pub init_data: Bytes,
    pub data_at: u32,
    pub zero_at: u32,
    pub zero_len: u32,
    pub static_base: u32,
    pub entries: Entries,
    pub device: Device,
    pub items: Items,
    pub ghost inside: { AreInside (length code) entries },
    pub ghost ordered: { AreInOrder (length code) (length init_data) data_at zero_at zero_len },
    pub ghost in_memory: { device.base + device.size ≤ addresses },
    pub ghost lawful: { IsLawful (shape device.size device.page items) },
}

impl Algorithm {
    ghost use Rattle.std.specs.Prelude.{◌≡◌, length, IfOk};
    ghost use Rattle.flm_descriptor.specs.Shape.{sectors, shape};
    ghost use Rattle.flm_descriptor.specs.Shown.{shown};

    /// How many sectors the device has.
    pub fn sector_count(&self) -> u32
        ensures { result ≡ length (sectors (shape self.now.device.size self.now.device.page self.now.items)) }
    {
        count_sectors(self.device.size, self.items.as_slice()) as u32
    }

    /// A copy of the algorithm, equal in contracts.
    pub fn copy(&self, alloc: Global) -> Result<Algorithm, OutOfMemory>
        ensures { IfOk result (λ copy. shown copy ≡ shown self.now) }
    {
        Ok(Algorithm {
            code: Bytes::copy(alloc, self.code.bytes())?,
            init_data: Bytes::copy(alloc, self.init_data.bytes())?,
            data_at: self.data_at,
            zero_at: self.zero_at,
            zero_len: self.zero_len,
            static_base: self.static_base,
            entries: self.entries,
            device: self.device.copy(alloc)?,
            items: self.items.copy(alloc)?,
        })
    }
}
