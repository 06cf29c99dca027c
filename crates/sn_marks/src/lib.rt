//! Going through the block tree of a root's inode file or of one inode, each block marked once.
//!
//! The model. A `Map` has a word for each block, and each root a bit of its own in it. Whoever goes
//! through a root sets that bit for each block that is reached. `Marks` says what this results in, as a sum:
//! bit k of a word is afterwards what it was before, and as much more as the blocks that were gone through
//! have this one. As a bit is 0 or 1, none of them was reached twice; and the blocks need no list of their
//! own.
//!
//! A pointer is marked before it is followed, so a pointer out of the data area is never read, and a block
//! that is reached again, as in a cycle, is reported before it is entered. Nothing else bounds the work: at
//! most each data block is entered once for each bit, whatever size a tree claims to have.
//!
//! The way through: `mark` marks the block of one pointer, `mark_tree` a whole tree, and tests on the way
//! that it ends at its size. What they answer is so, on any blocks at all: at `Ok` the marks of the tree
//! and `EndsAtSize`, and else one of the faults of `IsAstray` and `IsTreeFault`, at the block that is reported.
//! By `mark_laws` marks add up along lists and down a level.
//!
//! What the sources leave open is decided in `docs/DECISIONS.md`, under "The image check".
//!
//! ```text
//! let root = RootBit { geometry, bit: 0 };
//! mark(map, &root, inode.acl_block)?;
//! mark_tree(blocks, map, &root, &tree, record_block)?;
//! ```
#![tactic(auto)]

mod fault;
mod laws;
mod marking;
mod trees;

pub use fault::CheckFault;
pub use laws::mark_laws;
pub use marking::{RootBit, mark};
pub use trees::mark_tree;
