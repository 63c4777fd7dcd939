//! Why an image is refused.
use byte_map::LayFault;
use elf32::ElfFault;
use image_hex::HexFault;
use image_srec::SrecFault;
use thiserror::Error;

/// Why an image is refused. Out of memory is always this type's own variant, and never inside another.
#[derive(Clone, Copy, Debug, PartialEq, Eq, Error)]
pub enum ImageFault {
    /// The file begins like none of the forms.
    #[error("NoForm")]
    NoForm,
    /// The file is refused as Intel HEX.
    #[error("Hex {0}")]
    Hex(HexFault),
    /// The file is refused as S-records.
    #[error("Srec {0}")]
    Srec(SrecFault),
    /// The file, or a segment of it, is refused as ELF for Arm.
    #[error("Elf {0}")]
    Elf(ElfFault),
    /// Two segments, or two images, have unequal bytes at this address.
    #[error("Conflict {at:08X} {old:02X} {new:02X}")]
    Conflict { at: u32, old: u8, new: u8 },
    /// The bytes from this address on go past the last address, 0xFFFF_FFFF.
    #[error("PastEnd {at:08X}")]
    PastEnd { at: u32 },
    /// The image has a byte at this address, which is in no range.
    #[error("OutsideDevice {at:08X}")]
    OutsideDevice { at: u32 },
    /// The image has no byte.
    #[error("EmptyImage")]
    EmptyImage,
    /// No memory was left.
    #[error("OutOfMemory")]
    OutOfMemory,
}

impl From<LayFault> for ImageFault {
    ghost use Rattle.std.specs.Prelude.{◌≡◌};
    ghost use Rattle.image_set.specs.Fault.{fault_of};

    ghost from_gives = { λ fault e. e ≡ fault_of fault };

    fn from(fault: LayFault) -> ImageFault {
        match fault {
            LayFault::Conflict { at, old, new } => ImageFault::Conflict { at, old, new },
            LayFault::PastEnd { at } => ImageFault::PastEnd { at },
            LayFault::OutOfMemory => ImageFault::OutOfMemory,
        }
    }
}
