//! What follows from the answers.
ghost use Rattle.sn_inode.specs.Laws.{SoundInodesAreRead, SoundAclsAreRead, ChangedAclsAreFit, ReservedRecordsStay};

use sn_tree_read::read_laws;

/// On a sound image `Damaged` is never answered.
///
/// Proved: On a sound image whose blocks are on the device no reader of an inode answers `Damaged`.
pub fn inode_laws()
    ensures inodes { SoundInodesAreRead }
    ensures acls { SoundAclsAreRead }
{
    read_laws();
}

/// What changes of inodes leave as it has to be.
pub fn change_laws()
    ensures acls { ChangedAclsAreFit }
    ensures reserved { ReservedRecordsStay }
{}
