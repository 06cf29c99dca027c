//! What represents a name in an index.
ghost use Rattle.std.specs.Prelude.{◌≡◌, ◌≢◌, ◌<◌, ◌/◌, ◌%◌, ◌^◌, ℕ, IfSome, IsNone};

use std::hash::{DefaultHasher, Hasher};
use std::marker::Model;

/// How many bits of an entry say the block.
const BLOCKS: u64 = 16_384;

/// What represents a name in an index: the upper 50 bits of its SipHash-1-3 with the key 0, seen as a
/// number. Names may share it.
#[derive(Clone, Copy)]
pub struct Print {
    number: u64,
}

impl Model for Print {
    ghost Value = { ℕ };

    ghost view = { λ print. print.number };

    ghost invariant = { λ print. print.number < 2 ^ 50 };

    ghost inverse = { λ number. record { number = number } };
}

// The block that an entry says.
pub(crate) fn block_in(entry: u64) -> u64
    ensures { result ≡ entry % 16384 }
{
    entry % BLOCKS
}

impl Print {
    ghost use Rattle.sn_names.specs.Prints.{print_of, entry_at};

    /// The print of a name.
    pub fn of(name: &[u8]) -> Self
        ensures { result ≡ print_of name.now }
    {
        let mut hasher = DefaultHasher::new();
        hasher.write(name);
        Print {
            number: hasher.finish() / BLOCKS,
        }
    }

    // The entry that says that a block may have a name of this print.
    pub(crate) fn entry_at(self, block: u64) -> u64
        requires { block < 16384 }
        ensures { result ≡ entry_at self block }
    {
        self.number * BLOCKS + block
    }

    // The block that an entry says, if it is of this print.
    pub(crate) fn block_of(self, entry: u64) -> Option<u64>
        ensures found { IfSome result (λ block. entry ≡ entry_at self block) }
        ensures other { IsNone result → entry / 16384 ≢ self }
    {
        if entry / BLOCKS == self.number {
            Some(block_in(entry))
        } else {
            None
        }
    }
}
