//! The change that a call makes of the live tree.
ghost use Rattle.std.specs.Prelude.{◌≡◌, ◌+◌, ℕ, Some, IsTrue, IfOk, IfSome};
ghost use Rattle.sn_block.specs.Lending.{device_of};
ghost use Rattle.sn_desc.specs.InUse.{live_in};
ghost use Rattle.sn_limits.specs.Versions.{limits_written};
ghost use Rattle.sn_live.specs.Prepared.{CanBeMade, IsPrepared};
ghost use Rattle.sn_live_world.specs.Faults.{CountsLook};
ghost use Rattle.sn_model.specs.Changes.{apply};
ghost use Rattle.sn_model.specs.Settling.{OnlyLost};
ghost use Rattle.sn_model.specs.Steps.{with_live};
ghost use Rattle.sn_model.specs.Tree.{Tree};
ghost use Rattle.sn_model.specs.World.{Trees};
ghost use Rattle.sn_model.specs.Worlds.{IsWorld};
ghost use Rattle.sn_model.specs.declared.change.Change.{Change as TheChange};
ghost use Rattle.sn_number_table.specs.Numbers.{kept_after, since_after};
ghost use Rattle.sn_overlay.specs.Merges.{merge};
ghost use Rattle.sn_overlay_change.specs.ChangeLayers.{layer_of_change};
ghost use Rattle.sn_rooted.specs.Roots.{IsSoundOn, tree_on};

use crate::LiveWorld;
use crate::fault::{LookFault, look_fault_of};
use sn_block::Blocks;
use sn_device::Device;
use sn_layout::RootBody;
use sn_limits::Limits;
use sn_live::PreparedLive;
use sn_model::Change;
use sn_rooted_tree::RootedTree;
use std::alloc::Global;

impl LiveWorld {
    ghost use Rattle.sn_live_world.specs.World.{Alike, HasDrops, HasRoomFor, HasSessions, IsOver, changes_of, descriptors_of, kept_of, kept_since_of, point_of, tree_over, world_in, world_over};

    // Reads and grows what a change asks for, with room for so many drops besides.
    fn prepare_beside<D: Device>(
        &mut self,
        alloc: Global,
        blocks: &mut Blocks<D>,
        root: &RootBody,
        change: &Change<'_>,
        drops: u16,
    ) -> Result<Option<PreparedLive>, LookFault>
        requires readable { IsTrue D.tells_bytes → IsSoundOn blocks.old root.now.limits root.now.inode_file }
        requires live { IsTrue D.tells_bytes → IsOver self.old (tree_on blocks.old root.now.inode_file) }
        ensures alike { Alike self.old self.new }
        ensures sessions { HasSessions self.old self.new }
        ensures prepared { IsTrue D.tells_bytes → IfOk result (λ p. IsPrepared limits_written p (tree_over self.old (tree_on blocks.old root.now.inode_file)) change.now) }
        ensures room { IfOk result (λ p. IfSome p (λ prepared. HasRoomFor self.new prepared drops)) }
        ensures keeps { (n : ℕ) → HasDrops self.old n → HasDrops self.new n }
        ensures same { IsTrue D.tells_bytes → D.disk (device_of blocks.new) ≡ D.disk (device_of blocks.old) }
        ensures counts { CountsLook D.tells_bytes result (D.status (device_of blocks.old)) (D.status (device_of blocks.new)) }
    {
        let mut tree = RootedTree {
            alloc,
            blocks,
            root,
            fault: None,
        };
        let prepared = self
            .live
            .prepare(alloc, &Limits::WRITTEN, &mut tree, change, drops);
        match tree.fault {
            Some(fault) => Err(look_fault_of(fault)),
            None => match prepared {
                Ok(prepared) => Ok(prepared),
                // No look-up has failed.
                Err(_) => Err(LookFault::Memory),
            },
        }
    }

    /// Reads and grows all that a change asks for, with room for the drops of all files that are open, of one more, and
    /// of one that loses its last name. `None` where the change can't be applied. Nothing that is shown changes, and no
    /// room for drops is lost, whatever the answer.
    pub fn prepare_change<D: Device>(
        &mut self,
        alloc: Global,
        blocks: &mut Blocks<D>,
        root: &RootBody,
        change: &Change<'_>,
    ) -> Result<Option<PreparedLive>, LookFault>
        requires readable { IsTrue D.tells_bytes → IsSoundOn blocks.old root.now.limits root.now.inode_file }
        requires live { IsTrue D.tells_bytes → IsOver self.old (tree_on blocks.old root.now.inode_file) }
        ensures alike { Alike self.old self.new }
        ensures sessions { HasSessions self.old self.new }
        ensures prepared { IsTrue D.tells_bytes → IfOk result (λ p. IsPrepared limits_written p (tree_over self.old (tree_on blocks.old root.now.inode_file)) change.now) }
        ensures room { IfOk result (λ p. IfSome p (λ prepared. HasRoomFor self.new prepared (live_in (descriptors_of self.old) + 2))) }
        ensures keeps { (n : ℕ) → HasDrops self.old n → HasDrops self.new n }
        ensures same { IsTrue D.tells_bytes → D.disk (device_of blocks.new) ≡ D.disk (device_of blocks.old) }
        ensures counts { CountsLook D.tells_bytes result (D.status (device_of blocks.old)) (D.status (device_of blocks.new)) }
    {
        let Some(drops) = self.open_files().checked_add(2) else {
            return Err(LookFault::Memory);
        };
        self.prepare_beside(alloc, blocks, root, change, drops)
    }

    /// Makes a change that was prepared, where there is room for it, and answers the file that loses its last name, if
    /// one does. It takes no memory, and leaves room for as many drops as there was besides the change.
    ///
    /// Proved: A change is made without memory, what changed since the root is merged with exactly its layer, and the file
    /// that loses its last name is returned: in a world of the model no other is left to nobody.
    pub fn commit(&mut self, prepared: PreparedLive) -> Option<u16>
        requires { HasRoomFor self.old prepared 0 }
        ensures over { (below : Tree) (change : TheChange) → IsOver self.old below → CanBeMade limits_written prepared (tree_over self.old below) change → IsOver self.new below }
        ensures made { (below : Tree) (change : TheChange) → IsOver self.old below → CanBeMade limits_written prepared (tree_over self.old below) change
            → (tree : Tree) × (apply limits_written change (world_over self.old below).live ≡ Some tree) × (world_over self.new below ≡ with_live (world_over self.old below) tree) }
        ensures merged { (below : Tree) (change : TheChange) → IsOver self.old below → CanBeMade limits_written prepared (tree_over self.old below) change
            → changes_of self.new ≡ merge (changes_of self.old) (layer_of_change (tree_over self.old below) change) }
        ensures lost { (trees : Trees) (change : TheChange) → IsOver self.old trees.live → CanBeMade limits_written prepared (tree_over self.old trees.live) change
            → IsWorld limits_written (world_in self.old trees) → OnlyLost (world_in self.new trees) result }
        ensures kept { (tree : Tree) (change : TheChange) → CanBeMade limits_written prepared tree change → (n : ℕ) → kept_of self.new n ≡ kept_after change (kept_of self.old) n }
        ensures since { (tree : Tree) (change : TheChange) → CanBeMade limits_written prepared tree change → (n : ℕ)
            → kept_since_of self.new n ≡ since_after change (kept_of self.old) (kept_since_of self.old) n }
        ensures point { point_of self.new ≡ point_of self.old }
        ensures sessions { HasSessions self.old self.new }
        ensures drops { (drops : ℕ) → HasRoomFor self.old prepared drops → HasDrops self.new drops }
    {
        let lost = prepared.lost();
        self.live.commit(prepared);
        lost
    }
}
