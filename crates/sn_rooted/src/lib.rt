//! Reading on demand: the trees of files and directories that a root on disk denotes, look-up by look-up.
//!
//! The model is that of `sn_image`, which says for any blocks at all what tree a root denotes, and that of
//! `sn_model`, which says what is seen of a tree. Over a device that tells its bytes, and where the root is
//! sound there (`IsSoundOn`), each answer is what that tree says: a node's attributes, whether it is a file
//! without a name, a default ACL, the number under a name, the names of a directory in order, bytes of a file.
//! `Damaged` is never returned then. The number under a name and a default ACL are exact on any image, and on any
//! image `Damaged` carries the block of what can't be read (`specs/Unread`). Whatever the device answers, the
//! calls are safe and end, and write nothing.
//!
//! Nothing is kept of a tree. A look-up reads the inode of the number and what it needs after that: the ACL
//! block, the blocks of names up to the one that has the name, the blocks of the bytes. It reads them in
//! place, in the cache of `sn_block`, and takes memory for names and bytes that it answers, and for blocks
//! that aren't kept.
//!
//! The way through: `inodes` reads the inode of a number with its ACLs, `nodes` what is known of a node,
//! `directories` names, `files` bytes, all of the tree of one inode file, which `file_in` of `homes` finds in a root.
//! `specs/Roots` says which trees these are and when they are sound, `specs/Unread` what can't be read of one. Walks see them
//! by the view of `sn_rooted_tree`.
//!
//! What the sources leave open is decided in `docs/DECISIONS.md`, under "Reading a root on demand".
//!
//! ```text
//! let attributes = attributes(blocks, &root.limits, &root.inode_file, number)?;
//! ```
#![tactic(auto)]

mod directories;
mod files;
mod homes;
mod inodes;
mod nodes;

pub use directories::{link, names};
pub use files::read;
pub use homes::file_in;
pub use inodes::{StoredInode, inode_of, stored_inode};
pub use nodes::{attributes, default_acl, is_nameless};
