ghost use Rattle.std.specs.Prelude.{◌≡◌};
ghost use Rattle.sn_script.specs.declared.fault.ScriptFault.TheVariants as script;

use std::alloc::{AllocError, AllocFailed};
use thiserror::Error;

/// Why a script was not read.
#[derive(Clone, Copy, Debug, PartialEq, Eq, Hash, Error)]
pub enum ScriptFault {
    /// The first bad line, counted from 1, or 0 where the script is too long.
    #[error("script line {0}")]
    Line(usize),
    #[error("memory")]
    Memory,
}

impl From<AllocError> for ScriptFault {
    ghost from_gives = { λ _ fault. fault ≡ script.Memory };

    fn from(_error: AllocError) -> ScriptFault {
        ScriptFault::Memory
    }
}

impl<T: Drop> From<AllocFailed<T>> for ScriptFault {
    ghost from_gives = { λ _ fault. fault ≡ script.Memory };

    fn from(_error: AllocFailed<T>) -> ScriptFault {
        ScriptFault::Memory
    }
}
