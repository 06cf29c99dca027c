//! What was planned of a node is what is seen of it.
ghost use Rattle.sn_cp_nodes.specs.Laws.{FilesAreSeen, DirectoriesAreSeen, GroundsHaveRoom, SafeGroundsAreBuilt};

use sn_dir::directory_laws;
use sn_dir_change::size_laws;
use sn_inode::inode_laws;

/// A file that was planned with the size and the blocks of a layer has the bytes that are seen of it, and a directory
/// whose names were changed as the layer says has the names.
///
/// Proved: A file that was planned with the size and the blocks of a layer has the bytes that are seen of it through the
/// layer, and ends at its size, in every store that has the new blocks and agrees with the old one in what the file reached.
/// Proved: A directory whose names were changed as a layer says has the names that are seen of it, none twice.
pub fn content_laws()
    ensures files { FilesAreSeen }
    ensures directories { DirectoriesAreSeen }
{}

/// Over a sound root and a layer that shows a name tree, a node takes a path for each name and each block that changed
/// and one more at most: `Full` comes only where fewer blocks are left.
pub fn room_laws()
    ensures { GroundsHaveRoom }
{
    size_laws();
}

/// Over a sound root whose blocks are on the device and can't be taken, and a layer that shows a name tree, each node
/// can be built: `Damaged` never comes.
pub fn damage_laws()
    ensures { SafeGroundsAreBuilt }
{
    size_laws();
    inode_laws();
    directory_laws();
}
