use crate::Fs;
use sn_device::Device;
use sn_model::{Errno, MountFault};

/// Why a device isn't mounted, and the device.
#[derive(Drop)]
pub struct Unmounted<D: Device> {
    pub fault: MountFault,
    pub device: D,
}

/// A file system whose unmount was refused, with the cause.
#[derive(Drop)]
pub struct StillMounted<D: Device> {
    pub errno: Errno,
    pub fs: Fs<D>,
}
