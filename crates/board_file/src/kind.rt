//! The kinds of flash controllers.
ghost use Rattle.std.specs.Prelude.{◌≡◌};
ghost use Rattle.board_file.specs.Kinds.{kind_named, block_of, takes_of_region, takes};

use crate::key::{ADDRESSES, Key};

/// A kind of flash controller.
#[derive(Clone, Copy)]
pub enum ControllerKind {
    /// FC1, this project's own: `"fc1"`.
    Fc1,
    /// FPEC, as on the STM32F0 and STM32F1 families: `"fpec"`.
    Fpec,
}

impl ControllerKind {
    /// How many bytes its block of registers has.
    pub fn block(self) -> u32
        ensures { result ≡ block_of self }
    {
        match self {
            ControllerKind::Fc1 => 32,
            ControllerKind::Fpec => 64,
        }
    }

    /// The kind with this name.
    pub(crate) fn named(name: &str) -> Option<ControllerKind>
        ensures { result ≡ kind_named name.now }
    {
        if name == "fc1" {
            return Some(ControllerKind::Fc1);
        }
        if name == "fpec" {
            return Some(ControllerKind::Fpec);
        }
        None
    }

    /// Whether this kind of controller takes a number at a key of a region.
    fn takes_of_region(self, key: Key, number: u32) -> bool
        ensures { result ≡ takes_of_region self key number }
    {
        match (self, key) {
            (ControllerKind::Fpec, Key::RegionEmpty) => number == 255,
            (ControllerKind::Fpec, Key::RegionUnit) => number == 2,
            _ => true,
        }
    }

    /// Whether this kind of controller takes a number at a key.
    pub(crate) fn takes(self, key: Key, number: u32) -> bool
        ensures { result ≡ takes self key number }
    {
        match key {
            Key::ControllerBase => u64::from(number) + u64::from(self.block()) <= ADDRESSES,
            _ => self.takes_of_region(key, number),
        }
    }
}
