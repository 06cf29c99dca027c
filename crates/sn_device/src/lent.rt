//! A device that is lent is a device.
ghost use Rattle.std.specs.Prelude.{◌≡◌};

use crate::{Device, Fault, Status};

impl<D: Device> Device for &mut D {
    ghost tells_bytes = { D.tells_bytes };

    ghost status = { λ d. D.status d.now };

    ghost disk = { λ d. D.disk d.now };

    ghost count = { λ d. D.count d.now };

    ghost whole = { λ d. D.whole d.now };

    ghost time = { λ d. D.time d.now };

    fn status(&self) -> Status {
        (**self).status()
    }

    fn read(&mut self, at: u64, sector: &mut [u8; 512]) -> Result<(), Fault> {
        (**self).read(at, sector)
    }

    fn write(&mut self, at: u64, sector: &[u8; 512]) -> Result<(), Fault> {
        (**self).write(at, sector)
    }

    fn sync(&mut self) -> Result<(), Fault> {
        (**self).sync()
    }
}
