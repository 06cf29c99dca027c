ghost use Rattle.std.specs.Prelude.{◌≡◌};
ghost use Rattle.sn_plain_world.specs.declared.fault.WorldError.TheVariants.{Memory, Refused};

use sn_core_decide_rules as calls;
use sn_model::Refusal;
use std::alloc::AllocError;
use std::convert::Infallible;

/// Why a call on the world in memory isn't done.
#[derive(Drop)]
pub enum WorldError {
    /// A test of the call refuses it.
    Refused(Refusal),
    /// Memory was refused, once session and arguments had passed.
    Memory,
}

impl From<Refusal> for WorldError {
    ghost from_gives = { λ refusal e. e ≡ Refused refusal };

    fn from(refusal: Refusal) -> WorldError {
        WorldError::Refused(refusal)
    }
}

impl From<calls::CallError<Infallible>> for WorldError {
    ghost use Rattle.std.specs.Prelude.{◌≡◌};
    ghost use Rattle.sn_plain_world.specs.Served.{as_error};

    ghost from_gives = { λ error e. e ≡ as_error error };

    fn from(error: calls::CallError<Infallible>) -> WorldError {
        match error {
            calls::CallError::Refused(refusal) => WorldError::Refused(refusal),
            calls::CallError::Memory => WorldError::Memory,
            calls::CallError::View(fault) => match fault {},
        }
    }
}

impl From<AllocError> for WorldError {
    ghost from_gives = { λ _ e. e ≡ Memory };

    fn from(_error: AllocError) -> WorldError {
        WorldError::Memory
    }
}
