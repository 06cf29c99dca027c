ghost use Rattle.std.specs.Prelude.{◌≡◌, ◌↔◌};
ghost use Rattle.clap.specs.Values.{kind_of};
ghost use Rattle.clap.specs.declared.error.ErrorKind.TheVariants as kind;
ghost use Rattle.sn_words.specs.declared.fault.SpellingFault.TheVariants as reading;
ghost use Rattle.sn_command.specs.declared.fault.WordsFault.TheVariants as fault;

use clap::error::ErrorKind;
use sn_words::SpellingFault;
use std::alloc::AllocError;
use thiserror::Error;

/// Why words are no task.
#[derive(Clone, Copy, Debug, PartialEq, Eq, Error)]
pub enum WordsFault {
    /// They fit no command.
    #[error("usage")]
    Usage,
    #[error("memory")]
    Memory,
}

impl From<clap::Error> for WordsFault {
    ghost from_gives = { λ error given. (given ≡ fault.Memory) ↔ (kind_of error ≡ kind.OutOfMemory) };

    fn from(error: clap::Error) -> WordsFault {
        match error.kind() {
            ErrorKind::OutOfMemory => WordsFault::Memory,
            _ => WordsFault::Usage,
        }
    }
}

impl From<AllocError> for WordsFault {
    ghost from_gives = { λ _ given. given ≡ fault.Memory };

    fn from(_error: AllocError) -> WordsFault {
        WordsFault::Memory
    }
}

impl From<SpellingFault> for WordsFault {
    ghost from_gives = { λ read given. (given ≡ fault.Memory) ↔ (read ≡ reading.Memory) };

    fn from(fault: SpellingFault) -> WordsFault {
        match fault {
            SpellingFault::Bad => WordsFault::Usage,
            SpellingFault::Memory => WordsFault::Memory,
        }
    }
}
