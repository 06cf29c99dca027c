//! What walks learn of nodes, the bytes of files and the names of directories, of a tree that is read on demand, below overlays
//! and through them; and the same of the frozen trees of snapshots beside it.
//!
//! Calls walk, read files and list directories. A tree below an overlay ([`Below`](sn_overlay::Below)) is asked for nodes,
//! names and blocks one by one; a tree that [`HasContents`] makes whole answers. It answers what a walk learns of a node,
//! with no copy of its default ACL. It answers bytes of a file, up to its end and no further. Through an overlay those of
//! a file that changed are gathered block by block, and those of any other are what the tree below answers. It answers the
//! names of a directory in their order, each with its number. Through an overlay these are the ones that changed, merged
//! with those below in one pass, and below nothing is asked of a directory that is gone or was made anew.
//!
//! A root has the trees of its snapshots beside the live one. Calls walk them, read their files and list their directories, and
//! change nothing in them. So a tree that [`HasSnapshots`] answers look-ups in a frozen tree as it is there: by the name of its
//! snapshot, and whole answers at once. No overlay lies over a frozen tree, so through one the trees that are seen are those
//! below. The model is a finite map from the names of snapshots to trees of `sn_model`. A look-up under a name that no snapshot
//! has finds nothing. Besides what one in the live tree needs, a look-up in a frozen tree needs that the frozen trees can be
//! read (`holds_frozen`); it is one of the look-ups that lead from a tree to a later one, which leave both as they are.
//!
//! A lack of memory for an answer is distinguished from the tree's own fault (`FileFault` of `sn_core_decide_rules`).
//!
//! The way through:
//!
//! 1. `specs/Known`: what a walk learns of a node that is seen. `specs/Listing`: the names of a directory with their
//!    numbers, and changed entries merged over others.
//! 2. `bytes`: how many bytes a node has, and those that are gathered block by block.
//! 3. [`HasContents`]; `merge`, the merge of two sorted lists.
//! 4. `specs/Frozen`: the frozen trees, and what is seen of one. [`HasSnapshots`].
//! 5. `through` and `logged`, the trees that have both.
//!
//! What the sources leave open is decided in `docs/DECISIONS.md`, under "Reading a root on demand".
//!
//! ```text
//! let part = tree.read(alloc, number, offset, most)?;
//! let names = Through { overlay: &changed, below: &mut root }.names(alloc, directory)?;
//! let node = tree.frozen_node(&snapshot, number)?;
//! ```
#![tactic(auto)]

mod bytes;
mod contents;
mod frozen;
mod logged;
mod merge;
mod through;

pub use bytes::size;
pub use contents::HasContents;
pub use frozen::HasSnapshots;
