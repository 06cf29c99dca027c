//! What a mounted disk shows, beside a tree that was read plainly, for the test programs.
//!
//! The model: none. Nothing of it is proved but that it is safe and ends. The disk is asked by calls of the user 0 (`trees`),
//! and each reply is compared as a line (`lines`): of each node its attributes, its ACLs and its names, of names that aren't
//! in the tree that they aren't there.
//!
//! ```text
//! let reading = read_half(alloc, bytes, epoch)?;
//! disk.remount()?;
//! let is_shown = is_tree(alloc, &mut disk, &reading.tree)?;
//! ```
#![tactic(auto)]

mod lines;
mod trees;

pub use trees::{is_made, is_tree};
