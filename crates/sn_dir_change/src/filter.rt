//! Which blocks the changes may touch.
ghost use Rattle.std.specs.Prelude.{◌≡◌, ◌+◌, ◌≤◌, Contains, length, map, IfOk};
ghost use Rattle.sn_dir_change.specs.Filter.{Covers, print_for};
ghost use Rattle.sn_dir_change.specs.declared.name_change.NameChange.{NameChange as TheChange};

use crate::NameChange;
use crate::name_marks::MarkedChange;
use crate::pending::Pending;
use sn_layout::BLOCK_SIZE;
use sn_names::Print;
use std::alloc::{AllocError, Global};

/// What a block has that changes may touch: a name of one of these prints, or at least this room.
#[derive(Drop)]
pub(crate) struct BlockFilter {
    /// The prints of the names that are there.
    pub prints: Vec<Print>,
    /// The fewest bytes that a name takes that waits. Where none waits, one more than a block has.
    pub least: usize,
}

// The prints of the names of changes.
fn prints_of(alloc: Global, changes: &[MarkedChange<'_>]) -> Result<Vec<Print>, AllocError>
    ensures { IfOk result (λ prints. prints.items ≡ map print_for changes.now) }
{
    let mut prints = Vec::new(alloc);
    for marked in changes {
        prints.push(Print::of(marked.change().name))?;
    }
    Ok(prints)
}

// The fewest bytes that the name of one of these changes takes in a block. Where there is none, one more than
// a block has.
fn least_of(changes: &[NameChange<'_>]) -> usize
    ensures { (change : TheChange) → Contains changes.now change → result ≤ length change.name.now + 3 }
{
    let mut least = BLOCK_SIZE + 1;
    for change in changes {
        least = least.min(change.name.len() + 3);
    }
    least
}

impl BlockFilter {
    /// What a block has that changes may touch that are still to be made.
    pub fn of(alloc: Global, pending: &Pending<'_>) -> Result<Self, AllocError>
        ensures { IfOk result (λ filter. Covers filter.prints.items filter.least
            pending.now.standing.items pending.now.waiting.items) }
    {
        Ok(BlockFilter {
            prints: prints_of(alloc, &pending.standing)?,
            least: least_of(&pending.waiting),
        })
    }
}
