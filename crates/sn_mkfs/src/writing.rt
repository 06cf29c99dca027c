//! What formatting writes, part by part.
ghost use Rattle.std.specs.Prelude.{◌≡◌, ◌+◌, ◌*◌, ◌≤◌, IsTrue, OnOk};
ghost use Rattle.sn_device.specs.Disk.{IsSynced, reads};
ghost use Rattle.sn_layout.specs.Geometry.{start_of};
ghost use Rattle.sn_layout.specs.Superblock.{superblock_bytes};
ghost use Rattle.sn_layout.specs.declared.geometry.Area.TheVariants.{Data};
ghost use Rattle.sn_block.specs.Counts.{CountsCalls};
ghost use Rattle.sn_block.specs.Effects.{WritesStretch};
ghost use Rattle.sn_block.specs.Lending.{device_of};
ghost use Rattle.sn_mkfs.specs.Writing.{format_writes, marked_block, marked_bytes};
ghost use Rattle.sn_mkfs.specs.Fresh.{IsFresh, IsLaidOut, inode_block as the_inode_block};

use crate::fresh::{fresh_root, inode_block};
use sn_block::Blocks;
use sn_device::{Device, Fault};
use sn_layout::{
    Area, BLOCK_SIZE, Gate, Geometry, Slot, Superblock, WORDS_PER_BLOCK, put_map_words,
};
use sn_root::replace;

/// The word of a block that the live root alone reaches.
const LIVE_WORD: u32 = 1;

/// Formats the device. The root counts once all else is synced.
pub fn format<D: Device>(blocks: &mut Blocks<D>, geometry: Geometry) -> Result<(), Fault>
    requires room { 8 * geometry ≤ (D.status (device_of blocks.old)).sectors }
    ensures fresh { IsTrue D.tells_bytes
        → OnOk result (IsFresh geometry (reads (D.disk (device_of blocks.new)))) }
    ensures synced { IsTrue D.tells_bytes → OnOk result (IsSynced (D.disk (device_of blocks.new))) }
    ensures counts { CountsCalls (format_writes geometry) 4 result
        (D.status (device_of blocks.old)) (D.status (device_of blocks.new)) }
{
    lay_out(blocks, geometry)?;
    replace(blocks, Slot::A, Gate::Closed, &fresh_root(geometry))
}

// Writes all that the first root needs, and syncs. Both slots are closed then.
fn lay_out<D: Device>(blocks: &mut Blocks<D>, geometry: Geometry) -> Result<(), Fault>
    requires room { 8 * geometry ≤ (D.status (device_of blocks.old)).sectors }
    ensures laid_out { IsTrue D.tells_bytes
        → OnOk result (IsLaidOut geometry (reads (D.disk (device_of blocks.new)))) }
    ensures synced { IsTrue D.tells_bytes → OnOk result (IsSynced (D.disk (device_of blocks.new))) }
    ensures counts { CountsCalls (8 * start_of geometry Data + 24) 1 result
        (D.status (device_of blocks.old)) (D.status (device_of blocks.new)) }
{
    blocks.zero_range(0, geometry.first_sector(Area::Data))?;
    write_superblock(blocks, geometry)?;
    write_inodes(blocks, geometry)?;
    write_map(blocks, geometry)?;
    blocks.sync()
}

fn write_superblock<D: Device>(blocks: &mut Blocks<D>, geometry: Geometry) -> Result<(), Fault>
    requires room { 8 * geometry ≤ (D.status (device_of blocks.old)).sectors }
    ensures disk { IsTrue D.tells_bytes
        → WritesStretch 0 8 (superblock_bytes (record { geometry = geometry })) result
        (D.disk (device_of blocks.old)) (D.disk (device_of blocks.new)) }
    ensures counts { CountsCalls 8 0 result
        (D.status (device_of blocks.old)) (D.status (device_of blocks.new)) }
{
    let mut block = [0; BLOCK_SIZE];
    Superblock { geometry }.encode(&mut block);
    blocks.write_block(geometry.start(Area::Superblock), &block)
}

// Writes the one block of the inode file.
fn write_inodes<D: Device>(blocks: &mut Blocks<D>, geometry: Geometry) -> Result<(), Fault>
    requires room { 8 * geometry ≤ (D.status (device_of blocks.old)).sectors }
    ensures disk { IsTrue D.tells_bytes → WritesStretch (8 * start_of geometry Data) 8 the_inode_block result
        (D.disk (device_of blocks.old)) (D.disk (device_of blocks.new)) }
    ensures counts { CountsCalls 8 0 result
        (D.status (device_of blocks.old)) (D.status (device_of blocks.new)) }
{
    let block = inode_block();
    blocks.write_block(geometry.start(Area::Data), &block)
}

// Writes the one block of slot A's map copy that isn't zeros.
fn write_map<D: Device>(blocks: &mut Blocks<D>, geometry: Geometry) -> Result<(), Fault>
    requires room { 8 * geometry ≤ (D.status (device_of blocks.old)).sectors }
    ensures disk { IsTrue D.tells_bytes
        → WritesStretch (8 * marked_block geometry) 8 (marked_bytes geometry) result
        (D.disk (device_of blocks.old)) (D.disk (device_of blocks.new)) }
    ensures counts { CountsCalls 8 0 result
        (D.status (device_of blocks.old)) (D.status (device_of blocks.new)) }
{
    let first = geometry.start(Area::Data);
    let words_per_block = WORDS_PER_BLOCK as u32;
    let mut words = [0; WORDS_PER_BLOCK];
    words[(first % words_per_block) as usize] = LIVE_WORD;
    let mut block = [0; BLOCK_SIZE];
    put_map_words(&words, &mut block);
    let number = geometry.start(Area::MapCopy(Slot::A)) + first / words_per_block;
    blocks.write_block(number, &block)
}
