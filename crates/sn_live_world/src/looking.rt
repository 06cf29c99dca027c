//! Looks at the trees of a root on a device as user 0 does, beside the calls.
ghost use Rattle.std.specs.Prelude.{◌≡◌, IsTrue, IfOk};
ghost use Rattle.sn_block.specs.Lending.{device_of};
ghost use Rattle.sn_live_view.specs.Looking.{known_at};
ghost use Rattle.sn_live_world.specs.Faults.{CountsLook};
ghost use Rattle.sn_model.specs.World.{trees_of, viewed_trees};
ghost use Rattle.sn_rooted.specs.Roots.{AreSound, store_on, tree_on, trees_at};

use crate::LiveWorld;
use crate::fault::{LookFault, look_fault_of};
use sn_block::Blocks;
use sn_device::Device;
use sn_layout::RootBody;
use sn_live_view::{Known, Sought, look_up};
use sn_rooted_tree::RootedTree;
use std::alloc::Global;

impl LiveWorld {
    ghost use Rattle.sn_live_world.specs.World.{IsOver, world_in};

    /// What is sought, `None` where it isn't there. No call is made, nobody has to be logged in, and nothing changes.
    ///
    /// Proved: What user 0 finds by a path, and what is known of an object, over a sound root and its snapshots, is exactly
    /// what the model's walk finds in the world, where the device tells its bytes; nothing is counted of the device but a
    /// read that failed.
    pub fn look_up<D: Device>(
        &self,
        alloc: Global,
        blocks: &mut Blocks<D>,
        root: &RootBody,
        sought: &Sought<'_>,
    ) -> Result<Option<Known>, LookFault>
        requires readable { IsTrue D.tells_bytes → AreSound (D.status (device_of blocks.old)).sectors (store_on blocks.old) root.now }
        requires live { IsTrue D.tells_bytes → IsOver self.now (tree_on blocks.old root.now.inode_file) }
        ensures found { IsTrue D.tells_bytes → IfOk result (λ known. known ≡ known_at (viewed_trees (trees_of (world_in self.now (trees_at (store_on blocks.old) root.now)))) sought.now) }
        ensures same { IsTrue D.tells_bytes → D.disk (device_of blocks.new) ≡ D.disk (device_of blocks.old) }
        ensures counts { CountsLook D.tells_bytes result (D.status (device_of blocks.old)) (D.status (device_of blocks.new)) }
    {
        let mut tree = RootedTree {
            alloc,
            blocks,
            root,
            fault: None,
        };
        let found = look_up(&mut tree, &self.live, sought);
        match tree.fault {
            Some(fault) => Err(look_fault_of(fault)),
            // No look-up has failed.
            None => match found {
                Ok(known) => Ok(known),
                Err(_) => Err(LookFault::Memory),
            },
        }
    }
}
