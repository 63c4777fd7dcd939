//! The faults of a call on a bench, and the ends of an access on a bus.
ghost use Rattle.std.specs.Prelude.{◌≡◌};

use thiserror::Error;

/// The store of the job file reported an error, and counted it.
#[derive(Clone, Copy, Debug, PartialEq, Eq, Error)]
#[error("store fault")]
pub struct StoreFault;

/// The device reported an error, and counted it.
#[derive(Clone, Copy, Debug, PartialEq, Eq, Error)]
#[error("device fault")]
pub struct DeviceFault;

/// How an access on the bus of the emulated device ends if it gives no value.
#[derive(Clone, Copy, Debug, PartialEq, Eq, Error)]
pub enum BusEnd {
    /// Nothing answers at this address, or not in this width, or not now.
    #[error("bus fault")]
    Fault,

    /// The device reported an error, and counted it.
    #[error("device fault")]
    Device,
}

impl From<DeviceFault> for BusEnd {
    fn from(_fault: DeviceFault) -> BusEnd
        ensures { result ≡ BusEnd.Device }
    {
        BusEnd::Device
    }
}
