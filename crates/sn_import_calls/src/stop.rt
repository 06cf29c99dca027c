//! What stops an entry.
ghost use Rattle.std.specs.Prelude.{◌≡◌};
ghost use Rattle.sn_import_calls.specs.Stops as stops;
ghost use Rattle.sn_import_calls.specs.declared.stop.Stop.TheVariants.{Memory as no_memory};

use sn_import::ends;
use sn_model::Errno;
use std::alloc::{AllocError, AllocFailed};
use std::io;

/// Why an entry isn't made to its end.
#[derive(Clone, Copy)]
pub enum Stop {
    /// A call was refused.
    Refused(Errno),
    /// Memory was refused.
    Memory,
    /// The archive isn't one from here on.
    Damaged,
    /// The input ends before the archive does.
    Ended,
    /// The input can't be read on.
    Unread(io::Error),
}

impl From<AllocError> for Stop {
    ghost from_gives = { λ _ stop. stop ≡ no_memory };

    fn from(_error: AllocError) -> Stop {
        Stop::Memory
    }
}

impl<T: Drop> From<AllocFailed<T>> for Stop {
    ghost from_gives = { λ _ stop. stop ≡ no_memory };

    fn from(_error: AllocFailed<T>) -> Stop {
        Stop::Memory
    }
}

impl Stop {
    /// Whether nothing more is made after it, as after `EIO`, `ESTOPPED`, `ENOMEM` and `ENOSPC`.
    pub fn ends_import(&self) -> bool
        ensures { result ≡ stops.ends_import self.now }
    {
        match self {
            Stop::Refused(errno) => ends(*errno),
            Stop::Memory => true,
            Stop::Damaged | Stop::Ended | Stop::Unread(_) => false,
        }
    }

    /// Whether no further entry is read after it.
    pub fn ends_reading(&self) -> bool
        ensures { result ≡ stops.ends_reading self.now }
    {
        match self {
            Stop::Refused(errno) => ends(*errno),
            Stop::Memory | Stop::Damaged | Stop::Ended | Stop::Unread(_) => true,
        }
    }
}
