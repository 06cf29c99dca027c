//! The live tree of a root on which nothing is logged.
ghost use Rattle.std.specs.Prelude.{◌≡◌, ℕ, false, IsTrue, IfErr, IfOk, OnOk};
ghost use Rattle.sn_block.specs.Lending.{device_of};
ghost use Rattle.sn_examine.specs.Failing.{FailsAs, WritesNothing};
ghost use Rattle.sn_examine.specs.Rooms.{IsNoDamage};
ghost use Rattle.sn_live.specs.Live.{HasNoPoint, IsLive, changes_of, kept_back_of, kept_since_of, shown_of};
ghost use Rattle.sn_model.specs.Tree.{Tree};
ghost use Rattle.sn_overlay.specs.Overlays.{no_changes};
ghost use Rattle.sn_rooted.specs.Roots.{IsSoundOn, tree_on};

use crate::CheckedRoot;
use sn_block::Blocks;
use sn_device::Device;
use sn_examine::fault_of_tree;
use sn_live::LiveTree;
use sn_live_world::live_tree_of;
use sn_model::MountFault;
use std::alloc::Global;

/// The live tree of a sound root on which nothing is logged: what is shown is the root's tree. Two passes go over it, one over
/// its directories and one over its inodes. A tree that was checked and is misspelt now is reported at the block that can't be
/// read; `Memory` is returned where memory is refused, and `Device` where the device fails.
///
/// Proved: The live tree of a root on which nothing is logged shows the root's tree, and nothing has changed of it.
pub fn live_over<D: Device>(
    alloc: Global,
    blocks: &mut Blocks<D>,
    it: &CheckedRoot<'_>,
) -> Result<LiveTree, MountFault>
    requires sound { IsTrue D.tells_bytes → IsSoundOn blocks.old it.now.root.now.limits it.now.root.now.inode_file }
    ensures live { IsTrue D.tells_bytes → IfOk result (λ live. IsLive live (tree_on blocks.old it.now.root.now.inode_file)) }
    ensures shown { IfOk result (λ live. (root : Tree) → shown_of live root ≡ root) }
    ensures point { IfOk result HasNoPoint }
    ensures changes { IfOk result (λ live. changes_of live ≡ no_changes) }
    ensures kept { IfOk result (λ live. (n : ℕ) → kept_back_of live n ≡ false) }
    ensures since { IfOk result (λ live. (n : ℕ) → kept_since_of live n ≡ false) }
    ensures undamaged { IsTrue D.tells_bytes → IfErr result IsNoDamage }
    ensures same { IsTrue D.tells_bytes → D.disk (device_of blocks.new) ≡ D.disk (device_of blocks.old) }
    ensures idle { OnOk result (D.status (device_of blocks.new) ≡ D.status (device_of blocks.old)) }
    ensures reads { WritesNothing (D.status (device_of blocks.old)) (D.status (device_of blocks.new)) }
    ensures failed { FailsAs result (D.status (device_of blocks.old)) (D.status (device_of blocks.new)) }
{
    match live_tree_of(alloc, blocks, &it.root.limits, &it.root.inode_file) {
        Ok(live) => Ok(live),
        Err(fault) => Err(fault_of_tree(fault, it.body)),
    }
}
