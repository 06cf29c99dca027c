//! Planning block trees: what a tree with another size and other data blocks is made of, before anything
//! is written.
//!
//! The model is that of `sn_ondisk`: pointers level by level, the data blocks that the last of them name,
//! and the blocks that a tree reaches. A `Build` is seen as a `Draft` of `specs/Drafts.antt`: the words
//! of the block map that blocks are taken from, the new blocks with their bytes, and the blocks of the
//! old trees that the new ones no longer reach. A plan only reads. It says of the new tree what is
//! in it in every store that has the new blocks and agrees with the old one in what the old tree
//! reaches, so writes elsewhere don't matter, and no old block is written: a data block is the dirty one
//! if there is one, the old one if it stays, and else zeros (`block_after`); where one of the first two is
//! to be, there is a hole only if the old one was one (`IsHole`). What the new tree reaches with what is
//! released is what the old one reached with what was added, each block as often, so the map's bits follow
//! from the two lists. Where what is wanted ends at the new size, so does the tree: the pointers of indices
//! past it are holes, and the bytes past it zeros (`plan_laws` says when that is). The new blocks are at
//! most a path for each dirty block and one path more (`most_added`).
//!
//! The way through: `plan_tree` takes the sixteen pointers at the lesser of the old and the new height
//! (`lowered`), plans them by `plan_pointers`, and raises them to the new height (`raised`), one level
//! after the other: the sixteen become the first pointers of an indirect block, with holes after them.
//! `plan_pointers` plans each pointer by `plan_pointer`, which copies an indirect block and plans the pointers in the
//! copy by `plan_copy`, each by `plan_pointer` again: a recursion over levels, so a tree of three levels is no case of
//! its own. A pointer stays where no dirty block is below it and all below it stays, or it is a hole; a stretch of
//! pointers up to the next dirty block, or to the end of what stays, is passed over at once, and one of holes in a
//! few steps. The copy takes the indirect block's place where a pointer in it changes, and a hole does where all of
//! its pointers are holes. `release_pointers` is `plan_pointers` where nothing stays and nothing is dirty.
//!
//! What the sources leave open is decided in `docs/DECISIONS.md`, under "Planning trees".
//!
//! ```text
//! let mut build = Build::new(alloc, allocator);
//! let tree = plan_tree(&mut build, &mut blocks, &tree, Dirty { size, keep, blocks: changed })?;
//! for block in build.added() { .. }
//! ```
#![tactic(auto)]

mod build;
mod children;
mod fault;
mod indirect_copy;
mod laws;
mod levels;
mod new_block;
mod parts;
mod pointers;
mod tree;

pub use build::Build;
pub use fault::PlanFault;
pub use laws::plan_laws;
pub use levels::release_pointers;
pub use new_block::{DirtyBlock, NewBlock};
pub use pointers::plan_pointers;
pub use tree::{Dirty, plan_tree};
