//! The bytes of a file in memory, so that neither a read nor a write costs the file's size.
//!
//! [`FileBytes`] stands for the plain list of its bytes. It keeps them in blocks by their index; a
//! block that isn't there is a hole, and reads as zeros. The way through: `file` has the calls, each exact over the
//! list; below it, `blocks` has the map, over which `byte_at` in `specs/Blocks` tells the byte at an
//! offset, and `block` has one block.
//!
//! What the sources leave open is decided in `docs/DECISIONS.md`, under "The tree in memory".
#![tactic(auto)]

mod block;
mod blocks;
mod file;

pub use file::FileBytes;
