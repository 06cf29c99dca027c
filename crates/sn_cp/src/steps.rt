//! Each step.
ghost use Rattle.std.specs.Prelude.{◌≡◌, ◌+◌, ◌*◌, ◌<◌, ◌≤◌, IsTrue, length};
ghost use Rattle.sn_block.specs.Counts.{CountsCalls};
ghost use Rattle.sn_block.specs.Lending.{device_of};
ghost use Rattle.sn_layout.specs.MapCopy.{map_block_bytes};
ghost use Rattle.sn_ondisk.specs.MapLaws.{words_of_block};
ghost use Rattle.sn_cp.specs.Points.{stage_of, work_of};
ghost use Rattle.sn_cp.specs.Steps.{IsWhole, IsWithin, StandsAtStage, StepsTo, syncs_of, writes_of};
ghost use Rattle.sn_cp.specs.declared.stage.Stage.TheVariants as stage;

use crate::point::Point;
use crate::stage::Stage;
use sn_block::Blocks;
use sn_device::{Device, Fault};
use sn_layout::{Area, BLOCK_SIZE, Block, WORDS_PER_BLOCK, put_map_words};
use sn_root::{close_slot, open_slot, write_body};

/// The block of a map copy with this number.
fn map_block(words: &[u32], k: u32) -> Block
    requires { 1024 * k ≤ length words.now }
    ensures { result ≡ map_block_bytes (words_of_block k words.now) }
{
    let from = WORDS_PER_BLOCK * k as usize;
    let end = words.len().min(from + WORDS_PER_BLOCK);
    let mut block = [0; BLOCK_SIZE];
    put_map_words(&words[from..end], &mut block);
    block
}

impl Point {
    /// Writes one of the new blocks.
    fn write_new<D: Device>(&self, blocks: &mut Blocks<D>, k: usize) -> Result<(), Fault>
        requires room { 8 * (work_of self.now).blocks ≤ (D.status (device_of blocks.old)).sectors }
        requires whole { IsWhole (work_of self.now) }
        requires within { k < length (work_of self.now).plan.blocks }
        requires stands { IsTrue D.tells_bytes → StandsAtStage (work_of self.now) (stage.Blocks k) (D.disk (device_of blocks.old)) }
        ensures bytes { IsTrue D.tells_bytes → StepsTo (work_of self.now) (stage.Blocks k) result
            (D.disk (device_of blocks.old)) (D.disk (device_of blocks.new)) }
        ensures counts { CountsCalls 8 0 result (D.status (device_of blocks.old)) (D.status (device_of blocks.new)) }
    {
        let Some(block) = self.blocks.get(k) else {
            unreachable!()
        };
        blocks.write_block(block.number, &block.bytes)
    }

    /// Writes one block of the map copy, and syncs after the last.
    fn write_map<D: Device>(&self, blocks: &mut Blocks<D>, k: u32) -> Result<(), Fault>
        requires room { 8 * (work_of self.now).blocks ≤ (D.status (device_of blocks.old)).sectors }
        requires whole { IsWhole (work_of self.now) }
        requires within { IsWithin (work_of self.now) (stage.MapBlocks k) }
        requires stands { IsTrue D.tells_bytes → StandsAtStage (work_of self.now) (stage.MapBlocks k) (D.disk (device_of blocks.old)) }
        ensures bytes { IsTrue D.tells_bytes → StepsTo (work_of self.now) (stage.MapBlocks k) result
            (D.disk (device_of blocks.old)) (D.disk (device_of blocks.new)) }
        ensures counts { CountsCalls 8 (syncs_of (work_of self.now) (stage.MapBlocks k)) result
            (D.status (device_of blocks.old)) (D.status (device_of blocks.new)) }
    {
        let block = map_block(self.map.words(), k);
        let start = self.geometry.range(Area::MapCopy(self.slot)).start;
        match blocks.write_block(start + k, &block) {
            Ok(()) => {}
            Err(fault) => return Err(fault),
        }
        if k + 1 < self.geometry.map_blocks() {
            return Ok(());
        }
        blocks.sync()
    }

    /// Closes the gate of the slot.
    fn shut<D: Device>(&self, blocks: &mut Blocks<D>) -> Result<(), Fault>
        requires room { 8 * (work_of self.now).blocks ≤ (D.status (device_of blocks.old)).sectors }
        requires whole { IsWhole (work_of self.now) }
        requires stands { IsTrue D.tells_bytes → StandsAtStage (work_of self.now) stage.Stored (D.disk (device_of blocks.old)) }
        ensures bytes { IsTrue D.tells_bytes → StepsTo (work_of self.now) stage.Stored result
            (D.disk (device_of blocks.old)) (D.disk (device_of blocks.new)) }
        ensures counts { CountsCalls (writes_of (work_of self.now) stage.Stored) 1 result
            (D.status (device_of blocks.old)) (D.status (device_of blocks.new)) }
    {
        close_slot(blocks, self.slot, self.gate)
    }

    /// Writes the body of the next root.
    fn write_next<D: Device>(&self, blocks: &mut Blocks<D>) -> Result<(), Fault>
        requires room { 8 * (work_of self.now).blocks ≤ (D.status (device_of blocks.old)).sectors }
        requires whole { IsWhole (work_of self.now) }
        requires stands { IsTrue D.tells_bytes → StandsAtStage (work_of self.now) stage.Shut (D.disk (device_of blocks.old)) }
        ensures bytes { IsTrue D.tells_bytes → StepsTo (work_of self.now) stage.Shut result
            (D.disk (device_of blocks.old)) (D.disk (device_of blocks.new)) }
        ensures counts { CountsCalls 8 1 result (D.status (device_of blocks.old)) (D.status (device_of blocks.new)) }
    {
        write_body(blocks, self.slot, &self.next)
    }

    /// Opens the gate: from then on the next root counts.
    fn open<D: Device>(&self, blocks: &mut Blocks<D>) -> Result<(), Fault>
        requires room { 8 * (work_of self.now).blocks ≤ (D.status (device_of blocks.old)).sectors }
        requires whole { IsWhole (work_of self.now) }
        requires stands { IsTrue D.tells_bytes → StandsAtStage (work_of self.now) stage.Bodied (D.disk (device_of blocks.old)) }
        ensures bytes { IsTrue D.tells_bytes → StepsTo (work_of self.now) stage.Bodied result
            (D.disk (device_of blocks.old)) (D.disk (device_of blocks.new)) }
        ensures counts { CountsCalls 1 1 result (D.status (device_of blocks.old)) (D.status (device_of blocks.new)) }
    {
        open_slot(blocks, self.slot)
    }

    /// Writes what the next step writes.
    pub(crate) fn step<D: Device>(&self, blocks: &mut Blocks<D>) -> Result<(), Fault>
        requires room { 8 * (work_of self.now).blocks ≤ (D.status (device_of blocks.old)).sectors }
        requires whole { IsWhole (work_of self.now) }
        requires within { IsWithin (work_of self.now) (stage_of self.now) }
        requires stands { IsTrue D.tells_bytes → StandsAtStage (work_of self.now) (stage_of self.now) (D.disk (device_of blocks.old)) }
        ensures bytes { IsTrue D.tells_bytes → StepsTo (work_of self.now) (stage_of self.now) result
            (D.disk (device_of blocks.old)) (D.disk (device_of blocks.new)) }
        ensures counts { CountsCalls (writes_of (work_of self.now) (stage_of self.now)) (syncs_of (work_of self.now) (stage_of self.now)) result
            (D.status (device_of blocks.old)) (D.status (device_of blocks.new)) }
    {
        match self.stage {
            Stage::Blocks(k) => self.write_new(blocks, k),
            Stage::MapBlocks(k) => self.write_map(blocks, k),
            Stage::Stored => self.shut(blocks),
            Stage::Shut => self.write_next(blocks),
            Stage::Bodied => self.open(blocks),
            Stage::Done => unreachable!(),
        }
    }
}
