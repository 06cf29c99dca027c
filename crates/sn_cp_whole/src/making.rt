//! A whole point.
ghost use Rattle.std.specs.Prelude.{◌≡◌, ◌≢◌, ℕ, ◌*◌, ◌+◌, ◌≤◌, List, Err, IsTrue, IfErr, IfOk, OnErr, OnOk};
ghost use Rattle.sn_block.specs.Lending.{device_of};
ghost use Rattle.sn_device.specs.Crash.{Touches};
ghost use Rattle.sn_held.specs.Held.{Held, RunsReady};
ghost use Rattle.sn_log.specs.Positions.{first_of};
ghost use Rattle.sn_sound.specs.Logs.{HasAgeLeft};
ghost use Rattle.sn_root.specs.declared.following.PointKind.TheVariants.{Ordinary as OrdinaryPoint};
ghost use Rattle.sn_model.specs.World.{World};
ghost use Rattle.sn_model.specs.declared.outcome.AskedPoint.TheVariants.{Restores};
ghost use Rattle.sn_overlay.specs.Layers.{Layer};
ghost use Rattle.sn_overlay.specs.Needs.{need};
ghost use Rattle.sn_overlay.specs.Overlays.{HasRoom, layer_of, no_changes};
ghost use Rattle.sn_cp_held.specs.Wholes.{CanBeRestored, IsFollowing};
ghost use Rattle.sn_cp_whole.specs.Making.{CanBeAsked, CostsPoint, MakesPoint, room_over, with_parts};
ghost use Rattle.sn_cp_whole.specs.Planning.{HasAgeFor, IsBaseAt, kept_in};
ghost use Rattle.sn_cp_whole.specs.Recovering.{IsApart};
ghost use Rattle.sn_cp_whole.specs.declared.fault.PointFault.TheVariants.{Age as AgeFault, Device as DeviceFault};

use crate::{Begun, PointBase, PointFault, begin_point};
use sn_block::Blocks;
use sn_device::Device;
use sn_held::Room;
use sn_limits::SnapshotName;
use sn_log::Log;
use sn_model::AskedPoint;
use sn_overlay::Overlay;
use std::alloc::Global;

// A whole point, of what changed since the root that counts or of a snapshot.
fn make<D: Device>(
    alloc: Global,
    blocks: &mut Blocks<D>,
    base: &mut PointBase,
    changed: &Overlay,
    log: &mut Log,
    room: &mut Room,
    drops: u16,
    asked: &AskedPoint,
) -> Result<Overlay, PointFault>
    requires disk { 8 * log.old.blocks ≤ (D.status (device_of blocks.old)).sectors }
    requires base { IsBaseAt log.old base.old }
    ensures point { IsTrue D.tells_bytes → (h : Held) (world : World)
        → RunsReady (with_parts h log.old room.old (D.disk (device_of blocks.old))) world (kept_in base.old (layer_of changed.now))
        → CanBeAsked asked.now world
        → MakesPoint result asked.now world (D.disk (device_of blocks.old)) (with_parts h log.new room.new (D.disk (device_of blocks.new))) (kept_in base.new no_changes) }
    ensures restores { IsTrue D.tells_bytes → (h : Held) (world : World) (before : Layer) (name : List ℕ)
        → RunsReady (with_parts h log.old room.old (D.disk (device_of blocks.old))) world (kept_in base.old before)
        → asked.now ≡ Restores name
        → CanBeRestored name (layer_of changed.now) room.old world
        → MakesPoint result (Restores name) world (D.disk (device_of blocks.old)) (with_parts h log.new room.new (D.disk (device_of blocks.new))) (kept_in base.new no_changes) }
    ensures touched { IsTrue D.tells_bytes → Touches (IsApart log.old.blocks base.old.slot) (D.disk (device_of blocks.old)) (D.disk (device_of blocks.new)) }
    ensures costs { CostsPoint result log.old.blocks (need base.old.root.limits (layer_of changed.now))
        (D.status (device_of blocks.old)) (D.status (device_of blocks.new)) }
    ensures aged { result ≡ Err AgeFault → HasAgeFor OrdinaryPoint base.old.root → ⊥ }
    ensures base { OnOk result (IsBaseAt log.new base.new) }
    ensures follows { OnOk result (IsFollowing OrdinaryPoint base.old.root base.new.root) }
    ensures age { OnOk result (HasAgeLeft base.new.root) }
    ensures log { OnOk result (log.new ≡ first_of log.old.blocks (log.old.epoch + 1)) }
    ensures room { OnOk result (room.new ≡ room_over log.old.blocks (kept_in base.new no_changes)) }
    ensures empty { IfOk result (λ since. layer_of since ≡ no_changes) }
    ensures drops { IfOk result (λ since. HasRoom since (record { nodes = drops; names = 0; blocks = 0 })) }
    ensures keeps { OnErr result ((base.new ≡ base.old) × (room.new ≡ room.old)) }
    ensures stays { IfErr result (λ fault. fault ≢ DeviceFault → log.new ≡ log.old) }
{
    let Begun { going, since } = match begin_point(
        alloc, blocks, base, changed, log, drops, asked,
    ) {
        Ok(begun) => begun,
        Err(fault) => return Err(fault),
    };
    let free = going.free;
    let Ok(()) = going.finish(blocks, base) else {
        return Err(PointFault::Device);
    };
    room.begin_point();
    room.end_point(free);
    Ok(since)
}

/// Makes a whole consistency point of what changed since the root that counts, with the snapshots that are asked for: then
/// the next root counts, the log is empty, and nothing is charged. Answers the empty overlay for what changes from then on,
/// with room for so many drops of files.
///
/// Proved: Of a mount that is ready for a whole point, a crash at any moment of it leaves an image of the settled world, or
/// of that with the snapshots asked for; at `Ok` the mount runs on with these over the next root, with an empty log and an
/// empty overlay, ready for another.
/// Proved, also of `begin_point`: Lack of memory or of an age and a read that fails come before the first write and change
/// nothing of disk, log, room or what is kept; over such a mount neither `Damaged` nor too little free space comes where
/// what is asked can be made.
/// Proved: At `Ok` all that the new map leaves is free, nothing is charged or dropped, and the overlay that is returned has
/// room for as many drops as were asked for.
/// Proved: Writes and syncs are known: one to begin, eight for each block of data and of the map, and those of the root,
/// with no more new blocks than what changed needs; where the device failed, it has counted that.
/// Proved, also of `begin_point` and `make_recovery`: `Age` is returned only where no root can follow by such a point, or none
/// on that.
/// Proved, also of `make_recovery`: Superblock, the root that counted and its map aren't written.
pub fn make_point<D: Device>(
    alloc: Global,
    blocks: &mut Blocks<D>,
    base: &mut PointBase,
    changed: &Overlay,
    log: &mut Log,
    room: &mut Room,
    drops: u16,
    asked: &AskedPoint,
) -> Result<Overlay, PointFault>
    requires disk { 8 * log.old.blocks ≤ (D.status (device_of blocks.old)).sectors }
    requires base { IsBaseAt log.old base.old }
    ensures point { IsTrue D.tells_bytes → (h : Held) (world : World)
        → RunsReady (with_parts h log.old room.old (D.disk (device_of blocks.old))) world (kept_in base.old (layer_of changed.now))
        → CanBeAsked asked.now world
        → MakesPoint result asked.now world (D.disk (device_of blocks.old)) (with_parts h log.new room.new (D.disk (device_of blocks.new))) (kept_in base.new no_changes) }
    ensures touched { IsTrue D.tells_bytes → Touches (IsApart log.old.blocks base.old.slot) (D.disk (device_of blocks.old)) (D.disk (device_of blocks.new)) }
    ensures costs { CostsPoint result log.old.blocks (need base.old.root.limits (layer_of changed.now))
        (D.status (device_of blocks.old)) (D.status (device_of blocks.new)) }
    ensures aged { result ≡ Err AgeFault → HasAgeFor OrdinaryPoint base.old.root → ⊥ }
    ensures base { OnOk result (IsBaseAt log.new base.new) }
    ensures follows { OnOk result (IsFollowing OrdinaryPoint base.old.root base.new.root) }
    ensures age { OnOk result (HasAgeLeft base.new.root) }
    ensures log { OnOk result (log.new ≡ first_of log.old.blocks (log.old.epoch + 1)) }
    ensures room { OnOk result (room.new ≡ room_over log.old.blocks (kept_in base.new no_changes)) }
    ensures empty { IfOk result (λ since. layer_of since ≡ no_changes) }
    ensures drops { IfOk result (λ since. HasRoom since (record { nodes = drops; names = 0; blocks = 0 })) }
    ensures keeps { OnErr result ((base.new ≡ base.old) × (room.new ≡ room.old)) }
    ensures stays { IfErr result (λ fault. fault ≢ DeviceFault → log.new ≡ log.old) }
{
    make(alloc, blocks, base, changed, log, room, drops, asked)
}

/// Brings a snapshot back by a whole consistency point: the live tree becomes that of the snapshot with this name, without
/// its files without names, which `dropped` drops. Of what changed since the root that counts nothing is left, nor of the
/// records of the log. The frozen trees stay, the one that is brought back too. Then the next root counts, the log is empty,
/// and nothing is charged. Its blocks are taken from those that are free on the disk as it is, so that a block which only the
/// live tree of before reaches is in use until the next root counts. Answers the empty overlay for what changes from then on,
/// with room for so many drops of files.
///
/// Proved: A snapshot is brought back by a whole point: at `Ok` the live tree is the snapshot's without its files without
/// names, all frozen trees are as they were, the log is empty, and nothing is charged. A crash at any moment leaves an image
/// of the settled world from before, or of that one. This asks that the mount is ready for a point, that there is such a
/// snapshot, that the overlay drops exactly its files without names, and that a charge for each of them is free.
/// Proved: What holds of `make_point` below holds of `make_restore` too, with the overlay of the drops for what changed.
pub fn make_restore<D: Device>(
    alloc: Global,
    blocks: &mut Blocks<D>,
    base: &mut PointBase,
    dropped: &Overlay,
    log: &mut Log,
    room: &mut Room,
    drops: u16,
    name: &SnapshotName,
) -> Result<Overlay, PointFault>
    requires disk { 8 * log.old.blocks ≤ (D.status (device_of blocks.old)).sectors }
    requires base { IsBaseAt log.old base.old }
    ensures point { IsTrue D.tells_bytes → (h : Held) (world : World) (before : Layer)
        → RunsReady (with_parts h log.old room.old (D.disk (device_of blocks.old))) world (kept_in base.old before)
        → CanBeRestored name.now (layer_of dropped.now) room.old world
        → MakesPoint result (Restores name.now) world (D.disk (device_of blocks.old)) (with_parts h log.new room.new (D.disk (device_of blocks.new))) (kept_in base.new no_changes) }
    ensures touched { IsTrue D.tells_bytes → Touches (IsApart log.old.blocks base.old.slot) (D.disk (device_of blocks.old)) (D.disk (device_of blocks.new)) }
    ensures costs { CostsPoint result log.old.blocks (need base.old.root.limits (layer_of dropped.now))
        (D.status (device_of blocks.old)) (D.status (device_of blocks.new)) }
    ensures aged { result ≡ Err AgeFault → HasAgeFor OrdinaryPoint base.old.root → ⊥ }
    ensures base { OnOk result (IsBaseAt log.new base.new) }
    ensures follows { OnOk result (IsFollowing OrdinaryPoint base.old.root base.new.root) }
    ensures age { OnOk result (HasAgeLeft base.new.root) }
    ensures log { OnOk result (log.new ≡ first_of log.old.blocks (log.old.epoch + 1)) }
    ensures room { OnOk result (room.new ≡ room_over log.old.blocks (kept_in base.new no_changes)) }
    ensures empty { IfOk result (λ since. layer_of since ≡ no_changes) }
    ensures drops { IfOk result (λ since. HasRoom since (record { nodes = drops; names = 0; blocks = 0 })) }
    ensures keeps { OnErr result ((base.new ≡ base.old) × (room.new ≡ room.old)) }
    ensures stays { IfErr result (λ fault. fault ≢ DeviceFault → log.new ≡ log.old) }
{
    let asked = AskedPoint::Restores(name.copy());
    make(alloc, blocks, base, dropped, log, room, drops, &asked)
}
