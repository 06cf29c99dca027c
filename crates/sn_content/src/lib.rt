//! Planning the content of a file, whose bytes are in its inode or in blocks.
//!
//! The model is that of `sn_image` and `sn_tree`. Up to 64 bytes of a content are in the inode, and more in the
//! blocks of a tree. Of either form `content_block` gives the data blocks: where the bytes are in the inode, data
//! block 0 has them, followed by zeros. What a plan says of the new content holds in every store that has the
//! new blocks and agrees with the old one in what the old content reaches (`IsContentPlanned`): each data block is
//! the dirty one if there is one, the old one if it stays, and else zeros, and what the content reaches with what
//! is released is what the old one reached with what was added, each block as often. So where a file grows out of
//! its inode its bytes become a new block, and where it is cut back the inode gets the first bytes of data block 0.
//! `content_laws` says when a content ends at its size, and that a planned one has each byte that is wanted.
//! `release_all` releases what a content reaches, of a node that is gone.
//!
//! The way through: `contents` has `plan`, which is `plan_inline` where the new bytes fit the inode, `plan_moved`
//! where they leave it, and else `plan_tree` of `sn_tree`. `inline` makes the bytes that the inode is to hold, of
//! the dirty block or of the old content. `plan_moved` puts the bytes of the inode before the dirty blocks
//! (`move_out`) and plans a tree of these alone (`plan_new`), by `plan_pointers`.
//!
//! What the sources leave open is decided in `docs/DECISIONS.md`, under "Planning trees".
//!
//! ```text
//! let mut build = Build::new(alloc, allocator);
//! let content = plan(&mut build, &mut blocks, &content, Dirty { size, keep, blocks: changed })?;
//! release_all(&mut build, &mut blocks, &gone)?;
//! ```
#![tactic(auto)]

mod contents;
mod inline;
mod laws;

pub use contents::{plan, release_all};
pub use laws::content_laws;
