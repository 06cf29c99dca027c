//! Why times aren't written or read.

use std::alloc::{AllocError, AllocFailed};

/// Why times aren't written.
#[derive(Clone, Copy, PartialEq, Eq, Debug)]
pub enum Unwritable {
    /// Memory was refused.
    Memory,
    /// A time has 10^9 nanoseconds or more.
    Time,
    /// The name of a snapshot has over 255 bytes.
    Name,
    /// There are more snapshots than an image can have.
    Snapshots,
}

impl From<AllocError> for Unwritable {
    ghost use Rattle.std.specs.Prelude.{◌≡◌};
    ghost use Rattle.sn_times_file.specs.declared.fault.Unwritable.TheVariants.{Memory};

    ghost from_gives = { λ _ fault. fault ≡ Memory };

    fn from(_error: AllocError) -> Unwritable {
        Unwritable::Memory
    }
}

impl<T: Drop> From<AllocFailed<T>> for Unwritable {
    ghost use Rattle.std.specs.Prelude.{◌≡◌};
    ghost use Rattle.sn_times_file.specs.declared.fault.Unwritable.TheVariants.{Memory};

    ghost from_gives = { λ _ fault. fault ≡ Memory };

    fn from(_error: AllocFailed<T>) -> Unwritable {
        Unwritable::Memory
    }
}

/// Why bytes aren't read as times.
#[derive(Clone, Copy, PartialEq, Eq, Debug)]
pub enum Unreadable {
    /// Memory was refused.
    Memory,
    /// They are no spelling of times.
    Misspelt,
}

impl From<AllocError> for Unreadable {
    ghost use Rattle.std.specs.Prelude.{◌≡◌};
    ghost use Rattle.sn_times_file.specs.declared.fault.Unreadable.TheVariants.{Memory};

    ghost from_gives = { λ _ fault. fault ≡ Memory };

    fn from(_error: AllocError) -> Unreadable {
        Unreadable::Memory
    }
}

impl<T: Drop> From<AllocFailed<T>> for Unreadable {
    ghost use Rattle.std.specs.Prelude.{◌≡◌};
    ghost use Rattle.sn_times_file.specs.declared.fault.Unreadable.TheVariants.{Memory};

    ghost from_gives = { λ _ fault. fault ≡ Memory };

    fn from(_error: AllocFailed<T>) -> Unreadable {
        Unreadable::Memory
    }
}
