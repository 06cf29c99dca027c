//! Building nodes: what a consistency point writes of the files and directories that changed since its root.
//!
//! The model is that of `sn_overlay`, a layer of what changed, and of `sn_image`, the tree that an inode file
//! denotes. A build only reads: what it says holds in every store that has the new blocks and agrees with the
//! old one in what the number reached (`specs/Built`).
//!
//! The way through: `node` has [`build_node`], which builds one node of a layer. `files` plans the content of a file
//! with the size and the blocks of the layer, `directories` has the tree in which a directory's names change and those
//! names, and `inodes` makes the inode, whose ACLs are kept where the layer says that they are those below.
//! `specs/Parts` says what a layer has of one number, `specs/Made` what each step results in and why one fails, and
//! `specs/Built` what all of them are for. [`content_laws`] says that what is planned so is what is seen through the
//! layer, [`room_laws`] how many blocks a node takes at most, and [`damage_laws`] that over a sound root each can be built.
//!
//! What the sources leave open is decided in `docs/DECISIONS.md`, under "Building the nodes of a point".
//!
//! ```text
//! let written = changes.take_blocks(alloc, number)?;
//! let (_, change) = &changes.nodes()[index];
//! let names = changes.names_of(number);
//! let inode = build_node(alloc, build, blocks, &limits, &file, number, change, names, written)?;
//! ```
#![tactic(auto)]

mod directories;
mod files;
mod inodes;
mod laws;
mod node;

pub use laws::{content_laws, damage_laws, room_laws};
pub use node::build_node;
