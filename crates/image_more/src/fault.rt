//! Why a file is refused.
use byte_map::LayFault;
use image_set::ImageFault;
use thiserror::Error;

/// Why a UF2 file is refused. Blocks count from 1.
#[derive(Clone, Copy, Debug, PartialEq, Eq, Error)]
pub enum Uf2Fault {
    /// The file is empty, or its length in bytes isn't a whole number of blocks of 512 bytes.
    #[error("BadLength {len}")]
    BadLength { len: u64 },
    /// One of the three magic numbers of this block is wrong.
    #[error("BadMagic {block}")]
    BadMagic { block: u64 },
    /// This block gives the size of its payload as more than 476 bytes.
    #[error("BadSize {block} {size}")]
    BadSize { block: u64, size: u32 },
    /// An earlier block has another byte at this address.
    #[error("Conflict {at:08X} {old:02X} {new:02X}")]
    Conflict { at: u32, old: u8, new: u8 },
    /// The payload from this address on goes past the last address, 0xFFFF_FFFF.
    #[error("PastEnd {at:08X}")]
    PastEnd { at: u32 },
    /// No memory was left.
    #[error("OutOfMemory")]
    OutOfMemory,
}

impl From<LayFault> for Uf2Fault {
    ghost use Rattle.std.specs.Prelude.{◌≡◌};
    ghost use Rattle.image_more.specs.Fault.{fault_of};

    ghost from_gives = { λ fault e. e ≡ fault_of fault };

    fn from(fault: LayFault) -> Uf2Fault {
        match fault {
            LayFault::Conflict { at, old, new } => Uf2Fault::Conflict { at, old, new },
            LayFault::PastEnd { at } => Uf2Fault::PastEnd { at },
            LayFault::OutOfMemory => Uf2Fault::OutOfMemory,
        }
    }
}

/// Why a file of any form is refused. Out of memory is always this type's own variant, and never inside another.
#[derive(Clone, Copy, Debug, PartialEq, Eq, Error)]
pub enum AnyFault {
    /// The file isn't UF2 and stands for no image.
    #[error("{0}")]
    Image(ImageFault),
    /// The file is UF2 and stands for no image.
    #[error("Uf2 {0}")]
    Uf2(Uf2Fault),
    /// No memory was left.
    #[error("OutOfMemory")]
    OutOfMemory,
}

impl From<ImageFault> for AnyFault {
    ghost use Rattle.std.specs.Prelude.{◌≡◌};
    ghost use Rattle.image_more.specs.Fault.{any_of};

    ghost from_gives = { λ fault e. e ≡ any_of fault };

    fn from(fault: ImageFault) -> AnyFault {
        match fault {
            ImageFault::OutOfMemory => AnyFault::OutOfMemory,
            fault => AnyFault::Image(fault),
        }
    }
}
