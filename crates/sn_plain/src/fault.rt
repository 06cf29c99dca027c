ghost use Rattle.std.specs.Prelude.{◌≡◌};
ghost use Rattle.sn_plain.specs.declared.fault.ApplyError.TheVariants.{Memory};

use std::alloc::AllocError;

/// Why a change isn't made. The tree is as it was.
#[derive(Clone, Copy, PartialEq, Eq)]
pub enum ApplyError {
    /// A number or a name that the change needs isn't there, or is of another kind or taken, or the
    /// result would be no name tree.
    CannotApply,
    Memory,
}

impl From<AllocError> for ApplyError {
    ghost from_gives = { λ _ e. e ≡ Memory };

    fn from(_error: AllocError) -> ApplyError {
        ApplyError::Memory
    }
}
