//! The allocator: takes free blocks of a map, one after another.
//!
//! A `BlockAllocator` is seen as a `Taking` of `specs/Taking.antt`: the words of the map, the first
//! block of the data area, the blocks taken so far, where the next search begins, how many words the
//! searches looked at, and for how many more blocks there is room. A search continues where the last one
//! stopped, so no word is looked at twice, and a block is never taken twice. The map stays as it was
//! given: its words change when a root reaches the blocks.
//!
//! The way through: `block_allocator` has it all, and `fault` why no block is taken.
//!
//! What the sources leave open is decided in `docs/DECISIONS.md`, under "The block map and the allocator".
//!
//! ```text
//! let mut allocator = BlockAllocator::new(alloc, map, 70);
//! allocator.reserve(2)?;
//! let block = allocator.take()?;
//! let (map, taken) = allocator.into_parts();
//! ```
#![tactic(auto)]

mod block_allocator;
mod fault;

pub use block_allocator::BlockAllocator;
pub use fault::Full;
