ghost use Rattle.std.specs.Prelude.{◌≡◌};
ghost use Rattle.sn_import_image.specs.Opening as opening;
ghost use Rattle.sn_import_image.specs.declared.fault.ImportFault.TheVariants.{Memory as no_memory};

use sn_core::{Errno, MountFault};
use std::alloc::AllocError;

/// How much of an archive was made.
#[derive(Clone, Copy, Debug, PartialEq, Eq)]
pub enum Made {
    /// All of it.
    Whole,
    /// What wasn't reported.
    InPart,
}

/// Why nothing of an archive was made, or the mount wasn't ended.
#[derive(Clone, Copy, Debug)]
pub enum ImportFault {
    /// There was no mount.
    Mount(MountFault),
    /// The path leads to no directory of the live tree.
    Path,
    Memory,
    /// The mount has stopped, or its end was refused.
    Stopped,
}

impl ImportFault {
    /// Why nothing is made where a call before the first entry is refused.
    pub(crate) fn of_refusal(errno: Errno) -> ImportFault
        ensures { result ≡ opening.fault_of errno }
    {
        match errno {
            Errno::Enomem => ImportFault::Memory,
            Errno::Eio | Errno::Estopped => ImportFault::Stopped,
            _ => ImportFault::Path,
        }
    }
}

impl From<AllocError> for ImportFault {
    ghost from_gives = { λ _ fault. fault ≡ no_memory };

    fn from(_error: AllocError) -> ImportFault {
        ImportFault::Memory
    }
}
