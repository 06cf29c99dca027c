//! What is to become of inodes.
use sn_layout_acl::AclBlock;
use sn_layout_node::{Inode, InodeRecord};

/// What is to become of the ACLs of an inode.
#[derive(Drop)]
pub enum AclChange {
    /// They stay. A number that had no inode has none, and neither has one that had an inode of the other
    /// kind.
    Kept,
    /// These. Where both lists are empty, the inode has no ACL block. A file has no default ACL.
    Set(AclBlock),
}

/// What is to become of the record of a number.
#[derive(Drop)]
pub enum RecordChange {
    /// No node has the number.
    Unused,
    /// An inode with these ACLs. Its `acl_block` is not looked at, since the block follows from the ACLs.
    Used(Inode, AclChange),
}

/// What is to become of the inode of a number.
#[derive(Drop)]
pub struct InodeChange {
    pub number: u16,
    pub record: RecordChange,
}

/// The record that a number is to have.
#[derive(Drop)]
pub(crate) struct StoredRecord {
    pub(crate) number: u16,
    pub(crate) record: InodeRecord,
}
