//! How many names each directory has, and which directory each is in, beside a tree that is read.
//!
//! A tree on disk shows what a name denotes, but not what a directory is in, and how many names it has
//! only by reading all of them. Whether a change can be applied depends on both. So they are kept in a table
//! beside the tree, as a census of the tree finds them, and it follows each change.
//!
//! The model is that of `sn_model`. A table records the directories of a tree (`TellsDirectories`) where each
//! number has as many names in it as the tree has in that directory, and each directory the one that has its
//! name.
//!
//! The way through it:
//!
//! 1. `specs/Told`: when a table records a tree's directories.
//! 2. [`Directories`], the table. It goes up from a directory step by step, as many as a tree has names at most.
//! 3. [`LoggedTree`], a tree below an overlay, seen through the overlay, with the table of what is seen: a
//!    `NamedTree` of `sn_applies`, which may be asked whether a change can be applied to it.
//!
//! What the sources leave open is decided in `docs/DECISIONS.md`, under "What changed since a root".
//!
//! ```text
//! let mut live = LoggedTree { shown: Through { overlay: &changed, below: &mut root }, directories: &directories };
//! if !applies(&limits, &mut live, &change)? {
//! ```
#![tactic(auto)]

mod below;
mod logged;
mod table;

pub use below::KeepsNames;
pub use logged::LoggedTree;
pub use table::{Counted, Directories};
