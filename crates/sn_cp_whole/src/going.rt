//! A point in progress.
ghost use Rattle.std.specs.Prelude.{◌≡◌, ◌≢◌, ◌↔◌, ℕ, ◌*◌, ◌+◌, ◌≤◌, List, Err, IfOk, IsTrue, OnErr, OnOk};
ghost use Rattle.sn_block.specs.Counts.{CountsCalls};
ghost use Rattle.sn_block.specs.Lending.{device_of};
ghost use Rattle.sn_cp.specs.Counting.{syncs_left, writes_left};
ghost use Rattle.sn_cp.specs.Points.{stage_of, work_of};
ghost use Rattle.sn_cp.specs.Showing.{InPoint};
ghost use Rattle.sn_cp.specs.Steps.{IsWhole, IsWithin, StandsAtStage, next_stage, syncs_of, writes_of};
ghost use Rattle.sn_cp.specs.declared.stage.Stage.TheVariants.{Bodied};
ghost use Rattle.sn_cp_progress.specs.Meaning.{progress_over};
ghost use Rattle.sn_cp_progress.specs.Progress.{RunsOn, RunsTo, world_to};
ghost use Rattle.sn_cp_held.specs.Snapshots.{live_behind};
ghost use Rattle.sn_cp_held.specs.Wholes.{CanBeRestored};
ghost use Rattle.sn_device.specs.Crash.{Touches};
ghost use Rattle.sn_layout.specs.Geometry.{other_slot};
ghost use Rattle.sn_held.specs.Held.{Held, RunsReady};
ghost use Rattle.sn_log.specs.Positions.{first_of};
ghost use Rattle.sn_model.specs.Settling.{nameless_in};
ghost use Rattle.sn_model.specs.Tree.{Tree};
ghost use Rattle.sn_model.specs.World.{Trees, World, trees_of};
ghost use Rattle.sn_model.specs.declared.outcome.AskedPoint.TheVariants.{Restores};
ghost use Rattle.sn_ondisk.specs.LogHalf.{InHalf, base_of};
ghost use Rattle.sn_overlay.specs.Layers.{Layer};
ghost use Rattle.sn_overlay.specs.Overlays.{HasRoom, layer_of, no_changes};
ghost use Rattle.sn_root.specs.declared.following.PointKind.TheVariants.{Ordinary as OrdinaryPoint};
ghost use Rattle.sn_cp_whole.specs.Going.{BeginsPoint, BeginsTo, CostsBeginning, FinishesPoint, FinishesTo, IsGoing, KeepsTree, StepsOn, base_behind, going_of, with_disk, with_log};
ghost use Rattle.sn_cp_whole.specs.Making.{CanBeAsked};
ghost use Rattle.sn_cp_whole.specs.Planning.{HasAgeFor, IsBaseAt, kept_in};
ghost use Rattle.sn_cp_whole.specs.Recovering.{IsApart};
ghost use Rattle.sn_cp_whole.specs.declared.fault.PointFault.TheVariants.{Age as AgeFault};

use crate::planning::{Planned, empty_overlay, plan};
use crate::{PointBase, PointFault};
use sn_block::{Blocks, ReadFault};
use sn_cp::{Point, Stage, begin};
use sn_device::{Device, Fault};
use sn_layout::Area;
use sn_log::Log;
use sn_model::AskedPoint;
use sn_overlay::Overlay;
use sn_root::PointKind;
use std::alloc::Global;

/// A consistency point that a mount has begun: it is built of the live tree as it was then, or of the tree of a snapshot
/// that is brought back.
#[derive(Drop)]
pub struct GoingPoint {
    /// What it writes, and how far it is.
    pub point: Point,
    /// The blocks that its root leaves free.
    pub free: u32,
}

/// A consistency point that has begun.
#[derive(Drop)]
pub struct Begun {
    pub going: GoingPoint,
    /// For what changes of the tree from then on.
    pub since: Overlay,
}

/// Begins a point of what changed since the root that counts, with the snapshots that are asked for. From then on the log
/// continues under the next epoch, after the root that is being made, and what changes goes into an overlay of its own, with
/// room for so many drops of files. Where a snapshot is to be brought back, what changed is what drops the files without
/// names of its tree; nothing may then be logged before the point is finished.
///
/// Proved: A point that has begun is in progress (`sn_cp_progress`): built of the live tree with the snapshots that are
/// asked for, over an empty overlay with room for so many drops; a crash while it begins leaves an image of the settled
/// world, whatever the answer.
/// Proved, also of `make_point`: A point makes the snapshots that are asked for: a new one, whose name is free and for which
/// the version has room, is the live tree as it is, one that is there and goes is gone, and no other changes.
/// Proved, also of `GoingPoint::advance` and `GoingPoint::finish`: The exact writes and syncs of beginning, steps and end
/// are known, and none writes the superblock, the root that counts or its map.
/// Proved, also of `make_point` and `make_recovery`: The root that is made follows on the one that counted: of the next
/// generation, and one epoch on, or two where a mount makes it.
pub fn begin_point<D: Device>(
    alloc: Global,
    blocks: &mut Blocks<D>,
    base: &PointBase,
    changed: &Overlay,
    log: &mut Log,
    drops: u16,
    asked: &AskedPoint,
) -> Result<Begun, PointFault>
    requires disk { 8 * log.old.blocks ≤ (D.status (device_of blocks.old)).sectors }
    requires base { IsBaseAt log.old base.now }
    ensures begins { IsTrue D.tells_bytes → (h : Held) (world : World)
        → RunsReady (with_log h log.old (D.disk (device_of blocks.old))) world (kept_in base.now (layer_of changed.now))
        → CanBeAsked asked.now world
        → BeginsPoint result asked.now world h (kept_in base.now (layer_of changed.now)) log.new (D.disk (device_of blocks.old)) (D.disk (device_of blocks.new)) }
    ensures restores { IsTrue D.tells_bytes → (h : Held) (world : World) (before : Layer) (name : List ℕ)
        → RunsReady (with_log h log.old (D.disk (device_of blocks.old))) world (kept_in base.now before)
        → asked.now ≡ Restores name → (can : CanBeRestored name (layer_of changed.now) h.room world) → nameless_in can.tree ≤ h.room.dropped
        → BeginsTo (live_behind asked.now (trees_of world)) result asked.now world h (kept_in base.now before) log.new (D.disk (device_of blocks.old)) (D.disk (device_of blocks.new)) }
    ensures going { IfOk result (λ begins. IsGoing log.old.blocks base.now (layer_of changed.now) begins.going) }
    ensures empty { IfOk result (λ begins. layer_of begins.since ≡ no_changes) }
    ensures stands { IsTrue D.tells_bytes → IfOk result (λ begins. StandsAtStage (work_of begins.going.point) (stage_of begins.going.point) (D.disk (device_of blocks.new))) }
    ensures wrote { IsTrue D.tells_bytes → Touches (InHalf (base_of log.old.blocks (log.old.epoch + 1))) (D.disk (device_of blocks.old)) (D.disk (device_of blocks.new)) }
    ensures touched { IsTrue D.tells_bytes → Touches (IsApart log.old.blocks base.now.slot) (D.disk (device_of blocks.old)) (D.disk (device_of blocks.new)) }
    ensures costs { CostsBeginning result (D.status (device_of blocks.old)) (D.status (device_of blocks.new)) }
    ensures aged { result ≡ Err AgeFault → HasAgeFor OrdinaryPoint base.now.root → ⊥ }
    ensures log { OnOk result (log.new ≡ first_of log.old.blocks (log.old.epoch + 1)) }
    ensures drops { IfOk result (λ begins. HasRoom begins.since (record { nodes = drops; names = 0; blocks = 0 })) }
    ensures stays { OnErr result (log.new ≡ log.old) }
{
    let geometry = log.position().geometry();
    // It bounds the disk.
    let _blocks = geometry.blocks();
    let Planned { next, built, gate } = match plan(
        alloc,
        blocks,
        geometry,
        base,
        changed,
        PointKind::Ordinary,
        asked,
    ) {
        Ok(planned) => planned,
        Err(fault) => return Err(fault),
    };
    let Ok(since) = empty_overlay(alloc, drops) else {
        return Err(PointFault::Memory);
    };
    let free = built.map.count_free_from(geometry.start(Area::Data));
    match begin(blocks, geometry, log) {
        Ok(()) => {}
        Err(ReadFault::Memory) => return Err(PointFault::Memory),
        Err(ReadFault::Device) => return Err(PointFault::Device),
    }
    let slot = base.slot.other();
    let going = GoingPoint {
        point: Point::new(geometry, built.blocks, built.map, next, slot, gate),
        free,
    };
    Ok(Begun { going, since })
}

impl GoingPoint {
    /// Whether its next step is the last, with which its root counts: [`GoingPoint::finish`] makes that one.
    pub fn is_at_last(&self) -> bool
        ensures { IsTrue result ↔ (stage_of self.now.point ≡ Bodied) }
    {
        self.point.stage() == Stage::Bodied
    }

    /// Makes the next step, which isn't the last. After a fault nothing may be written before the next mount.
    ///
    /// Proved, also of `GoingPoint::finish`: Each step leaves an image of the settled world to a crash at any moment, and
    /// the mount with the point at its next stage; all that are left in a row leave that image or one with the point's
    /// snapshots, and the mount ready for another point over the next root.
    /// Proved: Each step but the last leaves the tree of the root that counts as it was on the device, so that look-ups
    /// continue over it.
    pub fn advance<D: Device>(&mut self, blocks: &mut Blocks<D>) -> Result<(), Fault>
        requires disk { 8 * (work_of self.old.point).blocks ≤ (D.status (device_of blocks.old)).sectors }
        requires whole { IsWhole (work_of self.old.point) }
        requires within { IsWithin (work_of self.old.point) (stage_of self.old.point) }
        requires more { stage_of self.old.point ≢ Bodied }
        requires stands { IsTrue D.tells_bytes → StandsAtStage (work_of self.old.point) (stage_of self.old.point) (D.disk (device_of blocks.old)) }
        ensures goes_on { IsTrue D.tells_bytes → (h : Held) (world : World) (trees : Trees)
            → RunsOn (with_disk h (D.disk (device_of blocks.old))) world (progress_over (going_of self.old) trees)
            → StepsOn result world h self.new trees (D.disk (device_of blocks.old)) (D.disk (device_of blocks.new)) }
        ensures tree { IsTrue D.tells_bytes → (h : Held) (world : World) (trees : Trees)
            → RunsOn (with_disk h (D.disk (device_of blocks.old))) world (progress_over (going_of self.old) trees)
            → KeepsTree h.base.root (D.disk (device_of blocks.old)) (D.disk (device_of blocks.new)) }
        ensures touched { IsTrue D.tells_bytes → Touches (InPoint (work_of self.old.point)) (D.disk (device_of blocks.old)) (D.disk (device_of blocks.new)) }
        ensures counts { CountsCalls (writes_of (work_of self.old.point) (stage_of self.old.point)) (syncs_of (work_of self.old.point) (stage_of self.old.point)) result
            (D.status (device_of blocks.old)) (D.status (device_of blocks.new)) }
        ensures same { (work_of self.new.point ≡ work_of self.old.point) × (self.new.free ≡ self.old.free) }
        ensures onward { OnOk result (stage_of self.new.point ≡ next_stage (work_of self.old.point) (stage_of self.old.point)) }
        ensures within { OnOk result (IsWithin (work_of self.new.point) (stage_of self.new.point)) }
        ensures stands { IsTrue D.tells_bytes → OnOk result (StandsAtStage (work_of self.new.point) (stage_of self.new.point) (D.disk (device_of blocks.new))) }
        ensures stays { OnErr result (stage_of self.new.point ≡ stage_of self.old.point) }
    {
        self.point.advance(blocks)
    }

    /// Makes all steps that are left: then the root that was made counts, and takes the place of the one that the point was
    /// begun over. After a fault nothing may be written before the next mount.
    pub fn finish<D: Device>(
        self,
        blocks: &mut Blocks<D>,
        base: &mut PointBase,
    ) -> Result<(), Fault>
        requires disk { 8 * (work_of self.point).blocks ≤ (D.status (device_of blocks.old)).sectors }
        requires slot { other_slot base.old.slot ≡ (work_of self.point).slot }
        requires whole { IsWhole (work_of self.point) }
        requires within { IsWithin (work_of self.point) (stage_of self.point) }
        requires stands { IsTrue D.tells_bytes → StandsAtStage (work_of self.point) (stage_of self.point) (D.disk (device_of blocks.old)) }
        ensures finishes { IsTrue D.tells_bytes → (h : Held) (world : World) (trees : Trees)
            → RunsOn (with_disk h (D.disk (device_of blocks.old))) world (progress_over (going_of self) trees)
            → FinishesPoint result world trees.frozen h self.free (kept_in base.new h.base.changed) (D.disk (device_of blocks.old)) (D.disk (device_of blocks.new)) }
        ensures leads { IsTrue D.tells_bytes → (h : Held) (world : World) (live : Tree) (trees : Trees)
            → RunsTo (with_disk h (D.disk (device_of blocks.old))) world live (progress_over (going_of self) trees)
            → FinishesTo result world (world_to live (progress_over (going_of self) trees) world) h self.free (kept_in base.new h.base.changed) (D.disk (device_of blocks.old)) (D.disk (device_of blocks.new)) }
        ensures touched { IsTrue D.tells_bytes → Touches (InPoint (work_of self.point)) (D.disk (device_of blocks.old)) (D.disk (device_of blocks.new)) }
        ensures counts { CountsCalls (writes_left (work_of self.point) (stage_of self.point)) (syncs_left (work_of self.point) (stage_of self.point)) result
            (D.status (device_of blocks.old)) (D.status (device_of blocks.new)) }
        ensures base { OnOk result (base.new ≡ base_behind self) }
        ensures keeps { OnErr result (base.new ≡ base.old) }
    {
        let GoingPoint { mut point, .. } = self;
        match point.finish(blocks) {
            Ok(()) => {}
            Err(fault) => return Err(fault),
        }
        let (root, map) = point.into_root();
        base.slot = base.slot.other();
        base.root = root;
        base.map = map;
        Ok(())
    }
}
