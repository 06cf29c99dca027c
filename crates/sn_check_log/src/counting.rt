//! What is counted of a root's tree before its log is tried.
ghost use Rattle.std.specs.Prelude.{◌≡◌, IsTrue, IfErr, IfOk, OnOk};
ghost use Rattle.sn_block.specs.Lending.{device_of};
ghost use Rattle.sn_examine.specs.Failing.{FailsAs, WritesNothing};
ghost use Rattle.sn_examine.specs.Rooms.{IsNoDamage};
ghost use Rattle.sn_model.specs.Settling.{nameless_in};
ghost use Rattle.sn_rooted.specs.Roots.{IsSoundOn, tree_on};

use crate::CheckedRoot;
use sn_block::Blocks;
use sn_device::Device;
use sn_examine::fault_of_tree;
use sn_model::MountFault;
use sn_rooted_tree::nameless_of;

/// How many files of a sound root's tree have no name.
///
/// Proved: The number of files of the tree without a name is exact.
pub fn count_nameless<D: Device>(
    blocks: &mut Blocks<D>,
    it: &CheckedRoot<'_>,
) -> Result<u32, MountFault>
    requires sound { IsTrue D.tells_bytes → IsSoundOn blocks.old it.now.root.now.limits it.now.root.now.inode_file }
    ensures count { IsTrue D.tells_bytes → IfOk result (λ n. n ≡ nameless_in (tree_on blocks.old it.now.root.now.inode_file)) }
    ensures undamaged { IsTrue D.tells_bytes → IfErr result IsNoDamage }
    ensures same { IsTrue D.tells_bytes → D.disk (device_of blocks.new) ≡ D.disk (device_of blocks.old) }
    ensures idle { OnOk result (D.status (device_of blocks.new) ≡ D.status (device_of blocks.old)) }
    ensures reads { WritesNothing (D.status (device_of blocks.old)) (D.status (device_of blocks.new)) }
    ensures failed { FailsAs result (D.status (device_of blocks.old)) (D.status (device_of blocks.new)) }
{
    match nameless_of(blocks, &it.root.limits, &it.root.inode_file) {
        Ok(count) => Ok(count),
        Err(fault) => Err(fault_of_tree(fault, it.body)),
    }
}
