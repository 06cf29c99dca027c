//! Why a look-up that takes memory has no answer, and why a call has no outcome.
ghost use Rattle.std.specs.Prelude.{◌≡◌};
ghost use Rattle.sn_core_decide_rules.specs.declared.fault.CallError.TheVariants as error;
ghost use Rattle.sn_core_decide_rules.specs.declared.fault.FileFault.TheVariants as fault;

use sn_model::Refusal;
use sn_walk::Failure;
use std::alloc::AllocError;

/// Why a look-up that takes memory for its answer has none.
#[derive(Drop)]
pub enum FileFault<F> {
    /// Memory for the answer was refused.
    Memory,
    /// The view found a fault of its own.
    View(F),
}

impl<F> From<AllocError> for FileFault<F> {
    ghost from_gives = { λ _ e. e ≡ fault.Memory };

    fn from(_error: AllocError) -> FileFault<F> {
        FileFault::Memory
    }
}

/// Why a call has no outcome.
#[derive(Drop)]
pub enum CallError<F> {
    /// A test refuses it.
    Refused(Refusal),
    /// Memory for its answer was refused.
    Memory,
    /// The view found a fault of its own, so that a test wasn't made or an answer not read.
    View(F),
}

impl<F> From<Refusal> for CallError<F> {
    ghost from_gives = { λ refusal e. e ≡ error.Refused refusal };

    fn from(refusal: Refusal) -> CallError<F> {
        CallError::Refused(refusal)
    }
}

impl<F> From<Failure<Refusal, F>> for CallError<F> {
    ghost use Rattle.std.specs.Prelude.{◌≡◌};
    ghost use Rattle.sn_core_decide_rules.specs.Faults.{as_error};

    ghost from_gives = { λ failure e. e ≡ as_error failure };

    fn from(failure: Failure<Refusal, F>) -> CallError<F> {
        match failure {
            Failure::Refused(refusal) => CallError::Refused(refusal),
            Failure::Fault(fault) => CallError::View(fault),
        }
    }
}

impl<F> From<FileFault<F>> for CallError<F> {
    ghost use Rattle.std.specs.Prelude.{◌≡◌};
    ghost use Rattle.sn_core_decide_rules.specs.Faults.{error_of};

    ghost from_gives = { λ found e. e ≡ error_of found };

    fn from(fault: FileFault<F>) -> CallError<F> {
        match fault {
            FileFault::Memory => CallError::Memory,
            FileFault::View(fault) => CallError::View(fault),
        }
    }
}

impl<F> From<AllocError> for CallError<F> {
    ghost from_gives = { λ _ e. e ≡ error.Memory };

    fn from(_error: AllocError) -> CallError<F> {
        CallError::Memory
    }
}
