//! Why a block isn't read.
ghost use Rattle.std.specs.Prelude.{◌≡◌, Some};
ghost use Rattle.sn_block.specs.Fault.{text_of};
ghost use Rattle.sn_block.specs.declared.fault.ReadFault.TheVariants.{Device, Memory};

use sn_device::Fault;
use std::alloc::AllocError;
use std::error::Error;
use std::fmt;

/// Why a block isn't read.
#[derive(Clone, Copy, Debug, PartialEq, Eq)]
pub enum ReadFault {
    /// The device has failed, or has ended.
    Device,
    /// There was no memory for a block that wasn't kept. The device is as it was.
    Memory,
}

impl fmt::Display for ReadFault {
    ghost output = { λ fault. Some (text_of fault) };

    fn fmt<W: fmt::Write>(&self, f: &mut fmt::Formatter<W>) -> fmt::Result {
        match self {
            ReadFault::Device => write!(f, "the device failed"),
            ReadFault::Memory => write!(f, "out of memory"),
        }
    }
}

impl Error for ReadFault {}

impl From<Fault> for ReadFault {
    ghost from_gives = { λ _ fault. fault ≡ Device };

    fn from(_fault: Fault) -> ReadFault {
        ReadFault::Device
    }
}

impl From<AllocError> for ReadFault {
    ghost from_gives = { λ _ fault. fault ≡ Memory };

    fn from(_error: AllocError) -> ReadFault {
        ReadFault::Memory
    }
}
