//! Why a device isn't formatted.
use sn_device::Device;
use thiserror::Error;

/// Why a device isn't formatted.
#[derive(Clone, Copy, Debug, PartialEq, Eq, Error)]
pub enum MkfsFault {
    /// No disk has so many blocks, or the device has fewer sectors than they take.
    #[error("K1")]
    Size,
    /// Memory was refused.
    #[error("K2")]
    Memory,
    /// The device failed, or reached its end.
    #[error("K3")]
    Device,
}

/// Why a device isn't formatted, and the device.
#[derive(Drop)]
pub struct Unformatted<D: Device> {
    pub fault: MkfsFault,
    pub device: D,
}
