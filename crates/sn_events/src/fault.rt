//! Why a change isn't made.
ghost use Rattle.std.specs.Prelude.{◌≡◌};
ghost use Rattle.sn_events.specs.Changing.{errno_of, stops};

use sn_model::Errno;

/// Why a change isn't made.
#[derive(Clone, Copy, PartialEq, Eq)]
pub enum ChangeFault {
    /// No memory is left for it: nothing has changed.
    Memory,
    /// A block that its change depends on couldn't be read: nothing has changed.
    Read,
    /// The device failed while its record was written: what is on the disk isn't known.
    Device,
}

impl ChangeFault {
    /// What a call is refused with: ENOMEM or EIO.
    ///
    /// Proved, also of `ChangeFault::stops`: A change that finds no memory is refused with `ENOMEM`, one whose blocks can't
    /// be read with `EIO`, and so is one whose record can't be written, which alone stops the mount.
    pub fn errno(self) -> Errno
        ensures { result ≡ errno_of self }
    {
        match self {
            ChangeFault::Memory => Errno::Enomem,
            ChangeFault::Read | ChangeFault::Device => Errno::Eio,
        }
    }

    /// Whether it stops the mount, as a failure of the device does.
    pub fn stops(self) -> bool
        ensures { result ≡ stops self }
    {
        self == ChangeFault::Device
    }
}
