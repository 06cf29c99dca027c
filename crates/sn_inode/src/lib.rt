//! Inodes: the inode of a number and its ACLs, read, and an inode file in which numbers have other inodes,
//! planned.
//!
//! The model is that of `sn_image`, which says for any blocks at all what inode a number has, `inode_at`,
//! and what ACLs are at its pointer, `acls_at`: a finite map from number to inode.
//!
//! Reading. Over a device that tells its bytes the answers are those of the model, exactly, on a sound image
//! and on any other. `Damaged` comes where a block that is needed isn't on the device, or its bytes spell no
//! record or no ACLs (`CanReadRecord`, `CanReadAcls`), and there alone. By `inode_laws` it never comes on a
//! sound image whose blocks are on the device. Each call reads one block of its own and those on the way to
//! it, through the cache of `sn_block`, and takes a record or ACLs out of the lent block. No memory is taken
//! but for blocks that aren't kept.
//!
//! Planning. `with` only reads. It says of the new file what is in it in every store that has the new
//! blocks and agrees with the old one in what the old file reaches: each changed number has the inode that
//! is wanted, with its ACLs kept or in a block of their own, and each other number the inode that it had, in
//! a record that stays byte for byte (`ChangesInodes`). By `change_laws` no file gets a default ACL, and the
//! two records stay zeros that no node can have. What the file and the ACLs of changed numbers reach with
//! what is released is what they reached with what was added, each block as often. The new blocks are at most
//! three for each change and two more, and none for none. `is_inode_file` and `are_changes` test exactly what
//! `with` asks for.
//!
//! The way through: `inodes` reads a record, `acl_blocks` the ACLs. `premises` has the tests, and `planning`
//! has `with`: `acl_changes` makes the record of each change and places its ACL block, `record_blocks` stores
//! the records in copies of their blocks, and `plan_tree` of `sn_tree` plans the file with those.
//!
//! What the sources leave open is decided in `docs/DECISIONS.md`, under "Planning trees".
//!
//! ```text
//! let inode = get(blocks, &limits, &file, number)?;
//! let acls = acls(blocks, &inode)?;
//! let file = with(alloc, &mut build, blocks, &limits, &file, &changes)?;
//! ```
#![tactic(auto)]

mod acl_blocks;
mod acl_changes;
mod changes;
mod inodes;
mod laws;
mod planning;
mod premises;
mod record_blocks;

pub use acl_blocks::acls;
pub use changes::{AclChange, InodeChange, RecordChange};
pub use inodes::get;
pub use laws::{change_laws, inode_laws};
pub use planning::with;
pub use premises::{are_changes, is_change, is_inode_file};
