//! A consistency point in progress.
ghost use Rattle.std.specs.Prelude.{◌≡◌, ◌*◌, ◌≤◌, ◌↔◌, IsTrue, OnErr, OnOk, length, map};
ghost use Rattle.sn_device.specs.Disk.{Disk, Always};
ghost use Rattle.sn_root.specs.Slots.{gate_in};
ghost use Rattle.sn_block.specs.Counts.{CountsCalls};
ghost use Rattle.sn_block.specs.Lending.{device_of};
ghost use Rattle.sn_cp.specs.Counting.{IsStageOf, root_steps, steps_left, syncs_left, writes_left};
ghost use Rattle.sn_cp.specs.Points.{first_stage, stage_of, work_of, written_by};
ghost use Rattle.sn_cp.specs.Showing.{Finishes};
ghost use Rattle.sn_cp.specs.Steps.{IsWhole, IsWithin, StandsAtStage, StepsTo, next_stage, syncs_of, writes_of};
ghost use Rattle.sn_cp.specs.declared.stage.Stage.TheVariants.{Done};

use crate::stage::Stage;
use sn_block::Blocks;
use sn_device::{Device, Fault};
use sn_layout::{Gate, Geometry, RootBody, Slot};
use sn_map::Map;
use sn_tree::NewBlock;

/// A consistency point that was built: all that it writes is in memory, so that a step neither reads nor takes memory.
#[derive(Drop)]
pub struct Point {
    pub(crate) geometry: Geometry,
    pub(crate) blocks: Vec<NewBlock>,
    pub(crate) map: Map,
    pub(crate) next: RootBody,
    /// The slot that is replaced, and its gate as it was found.
    pub(crate) slot: Slot,
    pub(crate) gate: Gate,
    pub(crate) stage: Stage,
}

impl Point {
    /// A point that writes these blocks, these words of the map and this root, into a slot whose gate is so.
    ///
    /// Proved: A new point is at its first stage, whatever is on the disk, where the slot's gate is as it says.
    pub fn new(
        geometry: Geometry,
        blocks: Vec<NewBlock>,
        words: Map,
        next: RootBody,
        slot: Slot,
        gate: Gate,
    ) -> Point
        ensures work { work_of result ≡ record { blocks = geometry; slot = slot; gate = gate; plan = record { blocks = map written_by blocks.items; words = words; next = next } } }
        ensures stage { stage_of result ≡ first_stage (length blocks.items) }
        ensures within { IsWithin (work_of result) (stage_of result) }
        ensures stands { (d : Disk) → Always d (λ c. gate_in c slot ≡ gate) → StandsAtStage (work_of result) (stage_of result) d }
    {
        let stage = if blocks.is_empty() {
            Stage::MapBlocks(0)
        } else {
            Stage::Blocks(0)
        };
        Point {
            geometry,
            blocks,
            map: words,
            next,
            slot,
            gate,
            stage,
        }
    }

    /// How far it is.
    pub fn stage(&self) -> Stage
        ensures { result ≡ stage_of self.now }
    {
        self.stage
    }

    /// The stage after a step.
    fn following(&self) -> Stage
        requires { IsWithin (work_of self.now) (stage_of self.now) }
        ensures { result ≡ next_stage (work_of self.now) (stage_of self.now) }
    {
        match self.stage {
            Stage::Blocks(k) if k + 1 < self.blocks.len() => Stage::Blocks(k + 1),
            Stage::Blocks(_) => Stage::MapBlocks(0),
            Stage::MapBlocks(k) if u64::from(k) + 1 < u64::from(self.geometry.map_blocks()) => {
                Stage::MapBlocks(k + 1)
            }
            Stage::MapBlocks(_) => match self.gate {
                Gate::Open => Stage::Stored,
                Gate::Closed => Stage::Shut,
            },
            Stage::Stored => Stage::Shut,
            Stage::Shut => Stage::Bodied,
            Stage::Bodied | Stage::Done => Stage::Done,
        }
    }

    /// The root that it writes, and the words of its map.
    pub fn into_root(self) -> (RootBody, Map)
        ensures root { result.0 ≡ (work_of self).plan.next }
        ensures words { result.1 ≡ (work_of self).plan.words }
    {
        let Point { map, next, .. } = self;
        (next, map)
    }

    /// Whether its root counts.
    pub fn is_done(&self) -> bool
        ensures { IsTrue result ↔ (stage_of self.now ≡ Done) }
    {
        self.stage == Stage::Done
    }

    /// How many steps a root has, in a slot whose gate is so.
    fn root_steps(&self) -> u64
        ensures { result ≡ root_steps (work_of self.now).gate }
    {
        match self.gate {
            Gate::Open => 3,
            Gate::Closed => 2,
        }
    }

    /// How many steps are left until its root counts.
    ///
    /// Proved, also of `count_laws`: The number of steps that are left is exact: each step leaves one less, and with its
    /// beginning a point of F new blocks and M blocks of the map has at most F + M + 4.
    pub fn steps_left(&self) -> u64
        requires whole { IsWhole (work_of self.now) }
        requires stage { IsStageOf (work_of self.now) (stage_of self.now) }
        ensures { result ≡ steps_left (work_of self.now) (stage_of self.now) }
    {
        let map = u64::from(self.geometry.map_blocks());
        match self.stage {
            Stage::Blocks(k) => (self.blocks.len() - k) as u64 + map + self.root_steps(),
            Stage::MapBlocks(k) => map - u64::from(k) + self.root_steps(),
            Stage::Stored => 3,
            Stage::Shut => 2,
            Stage::Bodied => 1,
            Stage::Done => 0,
        }
    }

    /// Makes the next step, of at most eight sector writes and at least one. It reads nothing and takes no memory. After a
    /// fault nothing may be written before the next mount.
    ///
    /// Proved: A step leads from the point's stage on the disk to the next one at `Ok`: new blocks and the map in what reads
    /// give, and from the map's sync on in all that a crash may leave.
    /// Proved: Whatever the answer, only the step's own sectors were written: one new block, one block of the slot's map
    /// copy, its gate, or its body.
    /// Proved: In the parts of the root a crash at any moment leaves the root that was newest, with its records; in the
    /// gate's opening that or the next one, and at `Ok` the next.
    /// Proved: Each step has exactly the writes and syncs of its stage: eight writes or one, never none, a sync after the
    /// map's last block, and one with each part of the root.
    /// Proved, also of `Point::is_done`: The point is done after the step that opened the gate, and not before, and a fault
    /// leaves it at its stage.
    pub fn advance<D: Device>(&mut self, blocks: &mut Blocks<D>) -> Result<(), Fault>
        requires room { 8 * (work_of self.old).blocks ≤ (D.status (device_of blocks.old)).sectors }
        requires whole { IsWhole (work_of self.old) }
        requires within { IsWithin (work_of self.old) (stage_of self.old) }
        requires stands { IsTrue D.tells_bytes → StandsAtStage (work_of self.old) (stage_of self.old) (D.disk (device_of blocks.old)) }
        ensures bytes { IsTrue D.tells_bytes → StepsTo (work_of self.old) (stage_of self.old) result
            (D.disk (device_of blocks.old)) (D.disk (device_of blocks.new)) }
        ensures counts { CountsCalls (writes_of (work_of self.old) (stage_of self.old)) (syncs_of (work_of self.old) (stage_of self.old)) result
            (D.status (device_of blocks.old)) (D.status (device_of blocks.new)) }
        ensures same { work_of self.new ≡ work_of self.old }
        ensures onward { OnOk result (stage_of self.new ≡ next_stage (work_of self.old) (stage_of self.old)) }
        ensures stays { OnErr result (stage_of self.new ≡ stage_of self.old) }
    {
        match self.step(blocks) {
            Ok(()) => {
                self.stage = self.following();
                Ok(())
            }
            Err(fault) => Err(fault),
        }
    }

    /// Makes all steps that are left. After a fault nothing may be written before the next mount.
    ///
    /// Proved: All steps in a row write only sectors of the point, whatever the answer, and a crash at any moment leaves the
    /// old root or the next one; at `Ok` the point is done, nothing is unsynced, and every crash leaves the next root.
    /// Proved: Exactly the writes and syncs that are left are made, and before a fault at most as many.
    pub fn finish<D: Device>(&mut self, blocks: &mut Blocks<D>) -> Result<(), Fault>
        requires room { 8 * (work_of self.old).blocks ≤ (D.status (device_of blocks.old)).sectors }
        requires whole { IsWhole (work_of self.old) }
        requires within { IsWithin (work_of self.old) (stage_of self.old) }
        requires stands { IsTrue D.tells_bytes → StandsAtStage (work_of self.old) (stage_of self.old) (D.disk (device_of blocks.old)) }
        ensures bytes { IsTrue D.tells_bytes → Finishes (work_of self.old) result
            (D.disk (device_of blocks.old)) (D.disk (device_of blocks.new)) }
        ensures counts { CountsCalls (writes_left (work_of self.old) (stage_of self.old)) (syncs_left (work_of self.old) (stage_of self.old)) result
            (D.status (device_of blocks.old)) (D.status (device_of blocks.new)) }
        ensures same { work_of self.new ≡ work_of self.old }
        ensures done { OnOk result (stage_of self.new ≡ Done) }
    {
        'steps: while !self.is_done() {
            match self.advance(blocks) {
                Ok(()) => {}
                Err(fault) => return Err(fault),
            }
        }
        Ok(())
    }
}
