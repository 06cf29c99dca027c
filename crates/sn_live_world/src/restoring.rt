//! A snapshot's tree that takes the live tree's place.
ghost use Rattle.std.specs.FinMap as map;
ghost use Rattle.std.specs.Prelude.{◌≡◌, ℕ, List, false, true, is_some, Some, IsTrue, IfOk};
ghost use Rattle.sn_block.specs.Lending.{device_of};
ghost use Rattle.sn_live_world.specs.Faults.{CountsLook};
ghost use Rattle.sn_live_world.specs.Restored.{IsBetween, IsRestored, drops_of};
ghost use Rattle.sn_model.specs.declared.outcome.AskedPoint.TheVariants.{Restores};
ghost use Rattle.sn_model.specs.Settling.{settled};
ghost use Rattle.sn_model.specs.Steps.{pointed, with_live};
ghost use Rattle.sn_model.specs.Tree.{Tree};
ghost use Rattle.sn_model.specs.World.{Trees};
ghost use Rattle.sn_overlay.specs.Needs.{counts};
ghost use Rattle.sn_overlay.specs.Overlays.{HasRoom, layer_of, no_changes};
ghost use Rattle.sn_rooted.specs.Roots.{AreSound, IsSoundOn, store_on, tree_on, trees_at};

use crate::LiveWorld;
use crate::fault::{LookFault, look_fault_of};
use crate::opening::live_tree_of;
use sn_block::Blocks;
use sn_device::Device;
use sn_layout::{BlockTree, RootBody};
use sn_limits::{Limits, SnapshotName};
use sn_live::LiveTree;
use sn_overlay::Overlay;
use sn_rooted::file_in;
use sn_walk::Home;
use std::alloc::Global;

/// The live tree that a snapshot is brought back as: the snapshot's tree without its files without names, with the tables
/// that calls need of it. It takes the place of the one that is live by [`LiveWorld::restore`].
#[derive(Drop)]
pub struct RestoredTree {
    pub(crate) live: LiveTree,
}

impl RestoredTree {
    /// What changed of the snapshot's tree: its files without names are gone. It is what the consistency point writes with
    /// which the snapshot is brought back.
    pub fn changes(&self) -> &Overlay
        ensures { layer_of result.now ≡ drops_of self.now }
    {
        self.live.changes()
    }
}

// A snapshot's tree without its files without names. `file` is the snapshot's inode file.
fn settled_over<D: Device>(
    alloc: Global,
    blocks: &mut Blocks<D>,
    limits: &Limits,
    file: &BlockTree,
) -> Result<RestoredTree, LookFault>
    requires sound { IsTrue D.tells_bytes → IsSoundOn blocks.old limits.now file.now }
    ensures restores { IsTrue D.tells_bytes → IfOk result (λ restored. IsRestored restored (tree_on blocks.old file.now)) }
    ensures between { IfOk result IsBetween }
    ensures same { IsTrue D.tells_bytes → D.disk (device_of blocks.new) ≡ D.disk (device_of blocks.old) }
    ensures counts { CountsLook D.tells_bytes result (D.status (device_of blocks.old)) (D.status (device_of blocks.new)) }
{
    let mut live = match live_tree_of(alloc, blocks, limits, file) {
        Ok(live) => live,
        Err(fault) => return Err(look_fault_of(fault)),
    };
    match live.settle(alloc) {
        Ok(()) => Ok(RestoredTree { live }),
        Err(_) => Err(LookFault::Memory),
    }
}

/// Reads and grows all that is needed to bring a snapshot of a sound root back. Nothing changes: the tree that is live is
/// left as it is until the other takes its place. No file is read, but each inode and each directory of the snapshot's
/// tree is. `Memory` is returned where memory is refused. `Read` is returned where a block can't be read, and where no
/// snapshot has the name, which a device that tells its bytes excludes.
///
/// Proved: All that is needed to bring a snapshot back is read and grown before anything changes: a live tree over the
/// snapshot's, which shows it without its files without names, with its tables. What changed of the snapshot's tree is paid
/// by their charges alone.
pub fn prepare_restore<D: Device>(
    alloc: Global,
    blocks: &mut Blocks<D>,
    root: &RootBody,
    name: &SnapshotName,
) -> Result<RestoredTree, LookFault>
    requires readable { IsTrue D.tells_bytes → AreSound (D.status (device_of blocks.old)).sectors (store_on blocks.old) root.now }
    requires there { IsTrue D.tells_bytes → is_some (map.get (trees_at (store_on blocks.old) root.now).frozen name.now) ≡ true }
    ensures restores { IsTrue D.tells_bytes → (frozen : Tree) → map.get (trees_at (store_on blocks.old) root.now).frozen name.now ≡ Some frozen → IfOk result (λ restored. IsRestored restored frozen) }
    ensures between { IfOk result IsBetween }
    ensures same { IsTrue D.tells_bytes → D.disk (device_of blocks.new) ≡ D.disk (device_of blocks.old) }
    ensures counts { CountsLook D.tells_bytes result (D.status (device_of blocks.old)) (D.status (device_of blocks.new)) }
{
    let Some(file) = file_in(root, &Home::Frozen(name.copy())) else {
        return Err(LookFault::Read);
    };
    settled_over(alloc, blocks, &root.limits, &file)
}

impl LiveWorld {
    ghost use Rattle.sn_live_world.specs.World.{HasDrops, HasNoPoint, HasSessions, IsOver, changes_of, kept_of, kept_since_of, point_of, world_in, world_over};

    /// A whole consistency point has brought a snapshot back: its root shows the snapshot's tree without its files without
    /// names, and so does the live tree from now on. Who is logged in and what is open in snapshots stays; of the tree that
    /// was live nobody may have a file open. No number is kept back any more, and what changes from now on goes to
    /// this overlay. It takes no memory.
    ///
    /// Proved: A restored snapshot takes the live tree's place without memory: over a root that shows the snapshot's tree
    /// without its files without names the world is what the model makes of it, nothing has changed since, and no number is
    /// kept back.
    pub fn restore(&mut self, alloc: Global, restored: RestoredTree, since: Overlay)
        requires between { IsBetween restored }
        requires empty { layer_of since ≡ no_changes }
        ensures world { (frozen old : Tree) → IsRestored restored frozen → world_over self.new (settled frozen) ≡ with_live (world_over self.old old) (settled frozen) }
        ensures pointed { (trees : Trees) (name : List ℕ) (frozen : Tree) → map.get trees.frozen name ≡ Some frozen → IsRestored restored frozen
            → world_in self.new (record trees { live = settled frozen }) ≡ pointed (Restores name) (world_in self.old trees) }
        ensures over { (frozen : Tree) → IsRestored restored frozen → IsOver self.new (settled frozen) }
        ensures point { HasNoPoint self.new }
        ensures changes { changes_of self.new ≡ no_changes }
        ensures kept { (n : ℕ) → kept_of self.new n ≡ false }
        ensures since { (n : ℕ) → kept_since_of self.new n ≡ false }
        ensures drops { (drops : ℕ) → HasRoom since (counts drops 0 0) → HasDrops self.new drops }
        ensures sessions { HasSessions self.old self.new }
    {
        let RestoredTree { mut live } = restored;
        live.replace_root(alloc, since);
        self.live = live;
    }
}
