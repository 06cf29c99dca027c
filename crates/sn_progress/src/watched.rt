//! A device that somebody looks on at is a device.

use sn_core::{Device, Fault};
use sn_device::Status;

/// Who looks on while a device is read. It has no say in it, and nothing is promised of what it is shown.
pub trait WatchReads {
    /// So many sectors have been read.
    fn has_read(&mut self, sectors: u64);
}

/// A device whose reads are counted, for somebody who learns from time to time how many there were.
#[derive(Drop)]
pub struct WatchedDevice<'w, D: Device + Drop, L: WatchReads> {
    device: D,
    read: u64,
    watch: &'w mut L,
}

/// How many sectors are read from one time to the next: 128 KiB.
const TOLD_EACH: u64 = 256;

impl<'w, D: Device + Drop, L: WatchReads> WatchedDevice<'w, D, L> {
    ghost use Rattle.std.specs.Prelude.{◌≡◌};

    /// What is read from here on is reported to somebody.
    pub fn new(device: D, watch: &'w mut L) -> Self
        ensures { result.device ≡ device }
    {
        WatchedDevice {
            device,
            read: 0,
            watch,
        }
    }
}

impl<D: Device + Drop, L: WatchReads> Device for WatchedDevice<'_, D, L> {
    ghost tells_bytes = { D.tells_bytes };

    ghost status = { λ d. D.status d.device };

    ghost disk = { λ d. D.disk d.device };

    ghost count = { λ d. D.count d.device };

    ghost whole = { λ d. D.whole d.device };

    ghost time = { λ d. D.time d.device };

    fn status(&self) -> Status {
        self.device.status()
    }

    fn read(&mut self, at: u64, sector: &mut [u8; 512]) -> Result<(), Fault> {
        self.read = self.read.wrapping_add(1);
        if self.read.is_multiple_of(TOLD_EACH) {
            self.watch.has_read(self.read);
        }
        self.device.read(at, sector)
    }

    fn write(&mut self, at: u64, sector: &[u8; 512]) -> Result<(), Fault> {
        self.device.write(at, sector)
    }

    fn sync(&mut self) -> Result<(), Fault> {
        self.device.sync()
    }
}
