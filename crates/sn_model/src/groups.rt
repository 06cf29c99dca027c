ghost use Rattle.std.specs.Prelude.{◌≡◌, ◌≤◌, IfOk, length};

use std::alloc::{AllocError, Global};
use std::marker::Model;

/// The supplementary groups that a login names, in its order: 32 at the most.
#[derive(Drop)]
pub struct Groups {
    numbers: Vec<u32>,
}

impl Model for Groups {
    ghost use Rattle.std.specs.Prelude.{ℕ, ◌≤◌, List, vec_len};

    ghost Value = { List ℕ };

    ghost view = { λ g. g.numbers.items };

    ghost invariant = { λ g. vec_len g.numbers ≤ 32 };
}

impl Groups {
    /// Keeps at most 32 group numbers. It takes memory for them.
    pub fn new(alloc: Global, numbers: &[u32]) -> Result<Groups, AllocError>
        requires { length numbers.now ≤ 32 }
        ensures { IfOk result (λ groups. groups ≡ numbers.now) }
    {
        Ok(Groups {
            numbers: Vec::from_slice(alloc, numbers)?,
        })
    }

    /// The numbers, in the order in which they were given.
    pub fn as_slice(&self) -> &[u32]
        ensures numbers { result.now ≡ self.now }
        ensures few { length self.now ≤ 32 }
    {
        self.numbers.as_slice()
    }
}
