//! The tests of what `with` asks for.
ghost use Rattle.std.specs.Prelude.{◌↔◌, IsTrue};
ghost use Rattle.sn_image.specs.Sound.{IsInodeFile};
ghost use Rattle.sn_inode.specs.Changes.{CanSet, IsNew, IsChange, AreChanges};

use crate::acl_blocks::can_have;
use crate::{AclChange, InodeChange, RecordChange};
use sn_block::BLOCK_SIZE;
use sn_layout::BlockTree;
use sn_layout_node::INODE_SIZE;
use sn_limits::{Kind, Limits};

/// Whether a tree has the size of an inode file: whole blocks, at least one, and at most a record for each
/// number of this version.
///
/// Proved, also of `are_changes`: The tests are exact whether a tree has the size of an inode file, and whether changes can
/// be made together, the second in one pass.
pub fn is_inode_file(limits: &Limits, file: &BlockTree) -> bool
    ensures { IsTrue result ↔ IsInodeFile limits.now file.now }
{
    file.size >= BLOCK_SIZE as u64
        && file.size <= INODE_SIZE as u64 * (u64::from(limits.largest_number) + 1)
        && file.size.is_multiple_of(BLOCK_SIZE as u64)
}

fn can_set(kind: Kind, change: &AclChange) -> bool
    ensures { IsTrue result ↔ CanSet kind change.now }
{
    match change {
        AclChange::Kept => true,
        AclChange::Set(acls) => can_have(kind, acls),
    }
}

fn is_new(limits: &Limits, change: &RecordChange) -> bool
    ensures { IsTrue result ↔ IsNew limits.now change.now }
{
    match change {
        RecordChange::Unused => true,
        RecordChange::Used(inode, acls) => inode.is_valid(limits) && can_set(inode.kind, acls),
    }
}

/// Whether a disk of this version allows the change: it is of a number that a node can have, to an inode that
/// a record can hold, and sets no default ACL on a file.
pub fn is_change(limits: &Limits, change: &InodeChange) -> bool
    ensures { IsTrue result ↔ IsChange limits.now change.now }
{
    change.number >= 2 && change.number <= limits.largest_number && is_new(limits, &change.record)
}

/// Whether these are changes that can be made together: each can, and their numbers rise.
pub fn are_changes(limits: &Limits, changes: &[InodeChange]) -> bool
    ensures { IsTrue result ↔ AreChanges limits.now changes.now }
{
    let mut least = 0;
    for change in changes {
        if !is_change(limits, change) {
            return false;
        }
        if u32::from(change.number) < least {
            return false;
        }
        least = u32::from(change.number) + 1;
    }
    true
}
