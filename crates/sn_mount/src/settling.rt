//! What was found is settled, and what is to recover becomes a root.
ghost use Rattle.std.specs.Prelude.{◌≡◌, ◌≢◌, ◌*◌, ◌≤◌, true, length, IsTrue, IfErr, IfOk};
ghost use Rattle.sn_block.specs.Lending.{device_of};
ghost use Rattle.sn_cp_whole.specs.Planning.{kept_in};
ghost use Rattle.sn_cp_whole.specs.Recovering.{IsApart};
ghost use Rattle.sn_cp_whole.specs.declared.fault.PointFault.TheVariants.{Age as AgePoint};
ghost use Rattle.sn_desc.specs.InUse.{live_in};
ghost use Rattle.sn_device.specs.Crash.{Touches};
ghost use Rattle.sn_device.specs.Disk.{IsSynced};
ghost use Rattle.sn_examine.specs.Failing.{FailsAs};
ghost use Rattle.sn_layout.specs.RootBody.{IsRootBody};
ghost use Rattle.sn_live.specs.Live.{HasNoPoint, IsLive, shown_of};
ghost use Rattle.sn_live_world.specs.World.{HasNoPoint as HasNoPointYet, IsOver, changes_of, descriptors_of, world_over};
ghost use Rattle.sn_model.specs.Settling.{settled};
ghost use Rattle.sn_model.specs.Tree.{Tree};
ghost use Rattle.sn_model.specs.World.{new_world};
ghost use Rattle.sn_overlay.specs.Overlays.{HasRoom, layer_of, no_changes};
ghost use Rattle.sn_sound.specs.Logs.{HasAgeLeft};
ghost use Rattle.sn_mount.specs.Costs.{CostsRoot};
ghost use Rattle.sn_mount.specs.FoundDisk.{kept_of as kept_found};
ghost use Rattle.sn_mount.specs.Rooting.{BecomesRoot};
ghost use Rattle.sn_mount.specs.Settling.{IsNoRoot, MakesRoot, SettlesChanges, mount_fault};

use crate::found::FoundDisk;
use sn_block::Blocks;
use sn_cp_whole::{PointBase, PointFault, make_recovery};
use sn_device::Device;
use sn_layout::{Area, Geometry};
use sn_live_world::LiveWorld;
use sn_model::{Damage, MountFault};
use sn_overlay::Overlay;
use std::alloc::{AllocError, Global};

/// A world in which nobody is logged in and each file has a name, what is kept of its root, and an empty overlay for what
/// changes once that root counts.
#[derive(Drop)]
pub(crate) struct Settled {
    pub world: LiveWorld,
    pub base: PointBase,
    pub since: Overlay,
}

/// Drops the files that have no name. All memory that a mount still needs for its world is taken here.
pub(crate) fn settle(alloc: Global, found: FoundDisk) -> Result<Settled, AllocError>
    requires point { HasNoPoint found.live }
    ensures over { IfOk result (λ s. (below : Tree) → IsLive found.live below → IsOver s.world below) }
    ensures world { IfOk result (λ s. (below : Tree) → IsLive found.live below → world_over s.world below ≡ record new_world { live = settled (shown_of found.live below) }) }
    ensures changed { IfOk result (λ s. (below : Tree) → IsLive found.live below → SettlesChanges (kept_found found) (shown_of found.live below) (kept_in s.base (changes_of s.world))) }
    ensures base { IfOk result (λ s. (s.base.slot ≡ found.slot) × (s.base.root ≡ found.root) × (s.base.map ≡ found.map)) }
    ensures point { IfOk result (λ s. HasNoPointYet s.world) }
    ensures open { IfOk result (λ s. live_in (descriptors_of s.world) ≡ 0) }
    ensures empty { IfOk result (λ s. layer_of s.since ≡ no_changes) }
    ensures drops { IfOk result (λ s. HasRoom s.since (record { nodes = 0; names = 0; blocks = 0 })) }
{
    let FoundDisk {
        slot,
        root,
        map,
        mut live,
        ..
    } = found;
    match live.settle(alloc) {
        Ok(()) => {}
        Err(error) => return Err(error),
    }
    let mut since = Overlay::new(alloc);
    match since.reserve(0, 0, 0) {
        Ok(()) => {}
        Err(error) => return Err(error),
    }
    match LiveWorld::over(alloc, live) {
        Ok(world) => Ok(Settled {
            world,
            base: PointBase { slot, root, map },
            since,
        }),
        Err(error) => Err(error),
    }
}

/// What a mount answers where its recovery isn't made. What can't be used of a root and its map is reported at the map.
fn mount_fault(fault: PointFault, map: u32) -> MountFault
    requires { fault ≢ AgePoint }
    ensures { result ≡ mount_fault fault map }
{
    match fault {
        PointFault::Memory => MountFault::Memory,
        PointFault::Read | PointFault::Device => MountFault::Device,
        PointFault::Damaged => MountFault::Damaged {
            damage: Damage::MapWord,
            block: map,
        },
        // An age is left.
        PointFault::Age => unreachable!(),
    }
}

/// Makes a root of what is to recover, which is what changed of the one that counts. Where nothing is, the root stays.
pub(crate) fn make_root<D: Device>(
    alloc: Global,
    blocks: &mut Blocks<D>,
    geometry: Geometry,
    base: PointBase,
    changed: &Overlay,
    recovers: bool,
) -> Result<PointBase, MountFault>
    requires disk { 8 * geometry ≤ (D.status (device_of blocks.old)).sectors }
    requires synced { IsTrue D.tells_bytes → IsSynced (D.disk (device_of blocks.old)) }
    requires body { IsRootBody base.root }
    requires words { length base.map ≡ geometry }
    requires age { recovers ≡ true → HasAgeLeft base.root }
    ensures makes { IsTrue D.tells_bytes → MakesRoot result geometry (kept_in base (layer_of changed.now)) recovers (D.disk (device_of blocks.old)) (D.disk (device_of blocks.new)) }
    ensures none { IsTrue D.tells_bytes → IfErr result (λ f. IsNoRoot f geometry (kept_in base (layer_of changed.now)) (D.disk (device_of blocks.old)) (D.disk (device_of blocks.new))) }
    ensures touched { IsTrue D.tells_bytes → Touches (IsApart geometry base.slot) (D.disk (device_of blocks.old)) (D.disk (device_of blocks.new)) }
    ensures body { IfOk result (λ next. IsRootBody next.root) }
    ensures words { IfOk result (λ next. length next.map ≡ geometry) }
    ensures root { IfOk result (λ next. BecomesRoot recovers (kept_in base (layer_of changed.now)) (kept_in next no_changes)) }
    ensures costs { CostsRoot result geometry recovers (D.status (device_of blocks.old)) (D.status (device_of blocks.new)) }
    ensures failed { FailsAs result (D.status (device_of blocks.old)) (D.status (device_of blocks.new)) }
{
    if !recovers {
        return Ok(base);
    }
    match make_recovery(alloc, blocks, geometry, &base, changed) {
        Ok(next) => Ok(next),
        Err(fault) => Err(mount_fault(fault, geometry.start(Area::MapCopy(base.slot)))),
    }
}
