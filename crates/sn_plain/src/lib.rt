//! A tree in memory: a program over maps, without a device. Runs without a device have their live tree here; that of a
//! mounted file system is read on demand (`sn_live`), and is held against this one by tests.
//!
//! [`PlainTree`] stands for a tree of `sn_model` (`tree_of` in `specs/Plain`). Its methods are the
//! look-ups of a walk and the changes of the model, each exact: at `Ok` the change applies, and the
//! new tree is what it gives; at an [`ApplyError`] the tree is as it was, and `CannotApply` says that
//! the change can't be applied to it.
//!
//! The nodes and the names are the maps of `sn_nodes`. Beside each node stands how many names it has and
//! how many stand for it, and the directory that it is in (`IsCounted` in `specs/Stored`), so that no call
//! counts over the whole tree. The way through: `tests` has the tests that changes share; `making`, `linking`,
//! `renaming` and `writing` have the changes, each with its test first, then all that takes memory,
//! then the rest (`moving` has that of a rename, over the nodes). `applying` makes any change, as the
//! model's `apply` does, and `reading` hands out the bytes of a file.
//!
//! What the sources leave open is decided in `docs/DECISIONS.md`, under "The tree in memory".
#![tactic(auto)]

mod applying;
mod fault;
mod linking;
mod making;
mod moving;
mod reading;
mod renaming;
mod settling;
mod tests;
mod tree;
mod writing;

pub use fault::ApplyError;
pub use tree::PlainTree;
