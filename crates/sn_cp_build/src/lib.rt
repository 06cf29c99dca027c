//! Building a tree: what a consistency point writes for all that changed since its root.
//!
//! The model. An overlay is a layer over the tree that an inode file denotes (`sn_overlay`, `sn_image`), and the map is
//! the list of its words, of which bit 0 says what the live tree reaches (`sn_map`). [`build`] only reads. What it says
//! holds in every store that has the new blocks and agrees with the old one in what the old inode file reaches: so writes
//! elsewhere don't matter, and no block of the old root is written.
//!
//! - There the new inode file denotes the tree that is seen through the layer, and is sound, and bit 0 of the new map says
//!   exactly what it reaches (`IsFrozen`). This asks for a sound inode file, a map that says what that reaches, and a
//!   layer that is over its tree and shows a name tree.
//! - Whether or not the device tells its bytes, the new blocks were free, rise, and are no more than the layer needs, and of the map bit 0
//!   alone changes but for an edit of snapshots (`IsWellBuilt`): the bit of one that is frozen becomes what bit 0 then is,
//!   and that of one that goes is cleared (`IsEdited`).
//! - To bring a snapshot back the build is over its tree, and bit 0 begins as its bit (`TakesBase`). What is free stays a matter
//!   of the old map, so that no block of the old root is written.
//! - Over such a ground it is never `Full` where what the layer needs is free, and never `Damaged` where the disk's blocks
//!   are on the device.
//!
//! The way through: `nodes` plans the nodes of the layer one after the other by `build_node` of `sn_cp_nodes`, each with
//! the blocks that it takes out of the overlay (`AreBuilt`). `building` then plans the inode file with what became of
//! their inodes, by `with` of `sn_inode` (`IsTreePlanned`). `bits` puts the map: bit 0 is set for each block that was
//! added, and then unset for each that was released, so that a block that one plan added and another released has it unset;
//! last `edits` changes the bits of snapshots (`BitsFollow`). `specs/Edits`, `specs/Bits`, `specs/Planned` and
//! `specs/Building` have these words, in this order.
//!
//! What the sources leave open is decided in `docs/DECISIONS.md`, under "Building a whole tree".
//!
//! ```text
//! let built = build(alloc, &mut blocks, geometry, &root.limits, &file, &map, changes, SnapshotEdit::None)?;
//! let root = RootBody { inode_file: built.inode_file, .. };
//! ```
#![tactic(auto)]

mod bits;
mod building;
mod edits;
mod nodes;

pub use building::{Built, build};
pub use edits::{SnapshotBit, SnapshotEdit};
