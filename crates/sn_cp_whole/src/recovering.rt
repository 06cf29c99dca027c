//! A whole point of what a mount has replayed.
ghost use Rattle.std.specs.Prelude.{◌≡◌, ◌≢◌, ◌*◌, ◌≤◌, length, Err, IsTrue, IfErr, IfOk};
ghost use Rattle.sn_block.specs.Lending.{device_of};
ghost use Rattle.sn_device.specs.Crash.{Touches};
ghost use Rattle.sn_device.specs.Disk.{IsSynced, reads};
ghost use Rattle.sn_layout.specs.Geometry.{other_slot};
ghost use Rattle.sn_layout.specs.RootBody.{IsRootBody};
ghost use Rattle.sn_held.specs.Images.{IsImage};
ghost use Rattle.sn_model.specs.World.{World};
ghost use Rattle.sn_ondisk.specs.Trees.{store_of};
ghost use Rattle.sn_overlay.specs.Needs.{need};
ghost use Rattle.sn_overlay.specs.Overlays.{layer_of};
ghost use Rattle.sn_root.specs.declared.following.PointKind.TheVariants.{Recovery as RecoveryPoint};
ghost use Rattle.sn_sound.specs.Logs.{HasAgeLeft};
ghost use Rattle.sn_cp_held.specs.Builds.{CanBeBuilt};
ghost use Rattle.sn_cp_held.specs.Recovering.{HasReplayed};
ghost use Rattle.sn_cp_held.specs.Wholes.{IsFollowing};
ghost use Rattle.sn_cp_whole.specs.Planning.{kept_in};
ghost use Rattle.sn_cp_whole.specs.Recovering.{CostsSteps, IsApart, MakesRecovery};
ghost use Rattle.sn_cp_whole.specs.declared.fault.PointFault.TheVariants.{Age as AgePoint, Damaged as DamagedPoint, Device as DevicePoint};

use crate::planning::{Planned, plan};
use crate::{PointBase, PointFault};
use sn_block::Blocks;
use sn_cp::Point;
use sn_device::Device;
use sn_layout::Geometry;
use sn_model::AskedPoint;
use sn_overlay::Overlay;
use sn_root::PointKind;
use std::alloc::Global;

/// Makes a whole consistency point of what a mount has replayed on top of the root that counts: then the next root
/// counts, two epochs on, so that replay finds nothing. The log isn't touched, so no clearing begins it; the disk has to
/// be synced. Answers the next root, as it is kept.
///
/// Proved: What a mount has replayed becomes a root: a crash at any moment leaves an image of the world that it found,
/// whatever the answer, at `Ok` one over the next root, whose tree is the live one, with nothing logged; all that may be
/// refused comes before the first write.
/// Proved: The costs are those of a point but for its beginning, and no more new blocks are written than the disk has.
pub fn make_recovery<D: Device>(
    alloc: Global,
    blocks: &mut Blocks<D>,
    geometry: Geometry,
    base: &PointBase,
    changed: &Overlay,
) -> Result<PointBase, PointFault>
    requires disk { 8 * geometry ≤ (D.status (device_of blocks.old)).sectors }
    requires synced { IsTrue D.tells_bytes → IsSynced (D.disk (device_of blocks.old)) }
    requires body { IsRootBody base.now.root }
    requires words { length base.now.map ≡ geometry }
    ensures recovery { IsTrue D.tells_bytes → (world : World) (im : IsImage (reads (D.disk (device_of blocks.old))) world)
        → im.blocks ≡ geometry → HasReplayed (D.disk (device_of blocks.old)) world im (kept_in base.now (layer_of changed.now))
        → MakesRecovery result geometry world (D.disk (device_of blocks.old)) (D.disk (device_of blocks.new)) }
    ensures touched { IsTrue D.tells_bytes → Touches (IsApart geometry base.now.slot) (D.disk (device_of blocks.old)) (D.disk (device_of blocks.new)) }
    ensures costs { CostsSteps result geometry (need base.now.root.limits (layer_of changed.now))
        (D.status (device_of blocks.old)) (D.status (device_of blocks.new)) }
    ensures unwritten { IsTrue D.tells_bytes → IfErr result (λ fault. fault ≢ DevicePoint → D.disk (device_of blocks.new) ≡ D.disk (device_of blocks.old)) }
    ensures damaged { IsTrue D.tells_bytes → result ≡ Err DamagedPoint → CanBeBuilt geometry (store_of (reads (D.disk (device_of blocks.old)))) (kept_in base.now (layer_of changed.now)) → ⊥ }
    ensures aged { result ≡ Err AgePoint → HasAgeLeft base.now.root → ⊥ }
    ensures body { IfOk result (λ next. IsRootBody next.root) }
    ensures words { IfOk result (λ next. length next.map ≡ geometry) }
    ensures slot { IfOk result (λ next. next.slot ≡ other_slot base.now.slot) }
    ensures follows { IfOk result (λ next. IsFollowing RecoveryPoint base.now.root next.root) }
{
    // It bounds the disk.
    let _blocks = geometry.blocks();
    let Planned { next, built, gate } = match plan(
        alloc,
        blocks,
        geometry,
        base,
        changed,
        PointKind::Recovery,
        &AskedPoint::Plain,
    ) {
        Ok(planned) => planned,
        Err(fault) => return Err(fault),
    };
    let slot = base.slot.other();
    let mut point = Point::new(geometry, built.blocks, built.map, next, slot, gate);
    let Ok(()) = point.finish(blocks) else {
        return Err(PointFault::Device);
    };
    let (root, map) = point.into_root();
    Ok(PointBase { slot, root, map })
}
