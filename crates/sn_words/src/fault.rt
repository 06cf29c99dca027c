ghost use Rattle.std.specs.Prelude.{◌≡◌};
ghost use Rattle.sn_words.specs.declared.fault.SpellingFault.TheVariants as reading;

use std::alloc::AllocError;

/// Why words were not read.
#[derive(Clone, Copy, Debug, PartialEq, Eq)]
pub enum SpellingFault {
    /// They spell nothing.
    Bad,
    Memory,
}

impl From<AllocError> for SpellingFault {
    ghost from_gives = { λ _ fault. fault ≡ reading.Memory };

    fn from(_error: AllocError) -> SpellingFault {
        SpellingFault::Memory
    }
}
