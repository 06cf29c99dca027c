//! How ACLs are spelled, both ways: lists of entries, the block of an inode's ACLs, modes.
//!
//! An inode's mode bits hold what USER_OBJ, GROUP_OBJ and OTHER grant, and its ACL block the other
//! entries of the access ACL and the whole default ACL. `AclParts::of` takes an access ACL apart,
//! and `NamedEntries::join` puts it together again. Each value has one spelling, a definition in
//! `specs/` such as `acl_block_bytes`, and is read exactly where bytes are the spelling of one. No
//! call takes memory.
//!
//! The way through: `acl_entries` (an entry, and many of them), `acl_block`, `mode`.
//!
//! What the sources leave open is decided in `docs/DECISIONS.md`, under "The codecs".
//!
//! ```text
//! let acls = AclBlock::decode(&block)?;
//! let acl = acls.access.join(inode.objects);
//! ```
#![tactic(auto)]

mod acl_block;
mod acl_entries;
mod mode;

pub use acl_block::{AclBlock, AclParts, NAMED_MAX, NamedEntries};
pub use acl_entries::{ENTRY_SIZE, put_entries, read_entries};
pub use mode::{fitting, mode_of, put_mode};
