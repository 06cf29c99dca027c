//! The live tree of a root on a device, as what is below an overlay, with the frozen trees of its snapshots beside it;
//! the tables of the live tree's directories and of its numbers, and which of its files have no name.
//!
//! The model is that of `sn_rooted`: the trees that the root denotes. Over a device that tells its bytes, and where
//! the root is sound there, each look-up answers what the live tree says; one in a frozen tree needs that the snapshots
//! are sound too. Nothing is kept of a tree: a look-up reads the inode of the number and what it needs after that, in
//! the cache of `sn_block`.
//!
//! Once a look-up has failed, each later one answers its fault and reads nothing. So whoever makes many of them, and
//! is answered at last, knows by [`RootedTree::fault`] that the device is as it was.
//!
//! The way through:
//!
//! 1. `specs/Looks`: what look-ups do to the device, and how a fault persists.
//! 2. `seeing` reads a node with its ACLs and a block of a file, as overlays show them.
//! 3. [`RootedTree`], which is a `Below` of `sn_overlay`, and keeps names for `sn_directories`; `listing` reads bytes of a
//!    file and lists the names of a directory for `sn_live_files`. `frozen` finds a snapshot by its name and looks up in
//!    its tree, for `sn_live_files`; `specs/Frozen` says when that tree can be read.
//! 4. [`directories_of`] counts the names of each directory once, and notes which directory each is in.
//! 5. [`numbers_of`] notes which numbers have a node, and which of these are files that have no name. [`nameless_of`] counts
//!    these files alone.
//!
//! All three go over as many numbers as the inode file has records.
//!
//! What the sources leave open is decided in `docs/DECISIONS.md`, under "Reading a root on demand".
//!
//! ```text
//! let directories = directories_of(alloc, blocks, &root.limits, &root.inode_file)?;
//! let mut tree = RootedTree { alloc, blocks, root: &root, fault: None };
//! let mut live = LoggedTree { shown: Through { overlay: &changed, below: &mut tree }, directories: &directories };
//! ```
#![tactic(auto)]

mod frozen;
mod listing;
mod loading;
mod nameless;
mod numbers;
mod rooted;
mod seeing;

pub use loading::directories_of;
pub use nameless::nameless_of;
pub use numbers::{RootNumbers, numbers_of};
pub use rooted::RootedTree;
