//! The blocks of the inode file in which records change.
ghost use Rattle.std.specs.Prelude.{◌≡◌, ◌+◌, ◌*◌, ◌/◌, ◌%◌, ◌<◌, ◌≤◌, ◌++◌, ℕ, List, [], ◌∷◌, false, length, Option as TheOption, Err, map, IsTrue, IsNone, IfOk, IfSome, OnOk, All, slice_index};
ghost use Rattle.std.specs.List.Sorted.{IsStrictlyIncreasing};
ghost use Rattle.sn_device.specs.Disk.{reads};
ghost use Rattle.sn_block.specs.Lending.{device_of};
ghost use Rattle.sn_layout_node.specs.Inode.{IsRecord, record_bytes};
ghost use Rattle.sn_ondisk.specs.Trees.{store_of, data_block};
ghost use Rattle.sn_tree.specs.Dirty.{IsFrom, block_after};
ghost use Rattle.sn_tree.specs.Steps.{CountsPlan};
ghost use Rattle.sn_tree.specs.declared.fault.PlanFault.TheVariants.{Tree, Full};
ghost use Rattle.sn_tree.specs.declared.new_block.DirtyBlock.{DirtyBlock as TheDirty};
ghost use Rattle.sn_tree_read.specs.Paths.{block_lies_on, block_met};
ghost use Rattle.sn_tree_read.specs.declared.fault.TreeFault.TheVariants.{Damaged};
ghost use Rattle.sn_inode.specs.Stored.{ArePatched, IsOffAt, record_in};
ghost use Rattle.sn_inode.specs.declared.changes.StoredRecord.{StoredRecord as TheStored};

use crate::changes::StoredRecord;
use crate::inodes::RECORDS_PER_BLOCK;
use sn_block::{BLOCK_SIZE, Block, Blocks};
use sn_device::Device;
use sn_layout::{BlockTree, put_bytes};
use sn_layout_node::{INODE_SIZE, InodeRecord};
use sn_limits::Limits;
use sn_tree::{DirtyBlock, PlanFault};
use sn_tree_read::fetch_data;
use std::alloc::{AllocError, Global};
use std::collections::VecDeque;

// The block of the inode file that has the record of a number.
fn block_of(number: u16) -> u64
    ensures { result ≡ number / 32 }
{
    u64::from(number) / RECORDS_PER_BLOCK
}

// Which of the 32 records of its block it is.
fn index_in_block(number: u16) -> usize
    ensures value { result ≡ number % 32 }
    ensures most { result < 32 }
{
    (u64::from(number) % RECORDS_PER_BLOCK) as usize
}

fn boxed(alloc: Global, block: Block) -> Result<Box<Block>, AllocError>
    ensures { IfOk result (λ boxed. boxed.value ≡ block) }
{
    Ok(Box::new(alloc, block)?)
}

// A block of the inode file as it is there, and zeros after its end.
fn copied<D: Device>(
    alloc: Global,
    blocks: &mut Blocks<D>,
    file: &BlockTree,
    index: u64,
) -> Result<Box<Block>, PlanFault>
    ensures bytes { IsTrue D.tells_bytes → IfOk result (λ block. block.value
        ≡ block_after (file.now.size / 4096) [] index
        (data_block (store_of (reads (D.disk (device_of blocks.old)))) file.now index)) }
    ensures own { result ≡ Err Full → ⊥ }
    ensures damaged { IsTrue D.tells_bytes → (block : TheOption ℕ) → result ≡ Err (Tree (Damaged block)) → (index < file.now.size / 4096)
        × (block_lies_on (D.status (device_of blocks.old)).sectors
        (store_of (reads (D.disk (device_of blocks.old)))) file.now index ≡ false)
        × (block ≡ block_met (D.status (device_of blocks.old)).sectors
        (store_of (reads (D.disk (device_of blocks.old)))) file.now index) }
    ensures same { IsTrue D.tells_bytes → D.disk (device_of blocks.new) ≡ D.disk (device_of blocks.old) }
    ensures counts { CountsPlan result (D.status (device_of blocks.old)) (D.status (device_of blocks.new)) }
{
    if index >= file.size / BLOCK_SIZE as u64 {
        return Ok(boxed(alloc, [0; BLOCK_SIZE])?);
    }
    if fetch_data(blocks, file, index)?.is_some() {
        return Ok(boxed(alloc, *blocks.fetched())?);
    }
    Ok(boxed(alloc, [0; BLOCK_SIZE])?)
}

// Stores a record in its place of a block.
fn put_record(limits: &Limits, stored: &InodeRecord, block: &mut Block, index: usize)
    requires fits { IsRecord limits.now stored.now }
    requires index { index < 32 }
    ensures here { record_in index block.new ≡ record_bytes stored.now }
    ensures others { (i : ℕ) → (i ≡ index → ⊥) → record_in i block.new ≡ record_in i block.old }
{
    let mut bytes = [0; INODE_SIZE];
    stored.encode(limits, &mut bytes);
    put_bytes(block, INODE_SIZE * index, &bytes);
}

// Whether the last dirty block has this index, which is the largest that one can have.
fn ends_with(dirty: &VecDeque<DirtyBlock>, index: u64) -> bool
    requires rise { IsFrom 0 dirty.now.items }
    requires most { All (λ (d : TheDirty). d.index ≤ index) dirty.now.items }
    ensures some { IsTrue result → 0 < length dirty.now.items }
    ensures last { IsTrue result → (front : List TheDirty) (d : TheDirty) → dirty.now.items ≡ front ++ d ∷ [] → d.index ≡ index }
    ensures clean { result ≡ false → All (λ (d : TheDirty). d.index < index) dirty.now.items }
{
    match dirty.back() {
        Some(last) => last.index == index,
        None => false,
    }
}

// Takes the last dirty block out, if it has this index.
fn take_last(dirty: &mut VecDeque<DirtyBlock>, index: u64) -> Option<Box<Block>>
    requires rise { IsFrom 0 dirty.old.items }
    requires most { All (λ (d : TheDirty). d.index ≤ index) dirty.old.items }
    ensures some { IfSome result (λ block. dirty.old.items
        ≡ dirty.new.items ++ record { index = index; bytes = block } ∷ []) }
    ensures none { IsNone result → dirty.new.items ≡ dirty.old.items }
    ensures clean { All (λ (d : TheDirty). d.index < index) dirty.new.items }
{
    if !ends_with(dirty, index) {
        return None;
    }
    let DirtyBlock { index: _, bytes } = dirty.pop_back()?;
    Some(bytes)
}

// The block in which records change, as they have changed before. It is no longer among the dirty ones.
fn open_block<D: Device>(
    alloc: Global,
    blocks: &mut Blocks<D>,
    file: &BlockTree,
    dirty: &mut VecDeque<DirtyBlock>,
    index: u64,
) -> Result<Box<Block>, PlanFault>
    requires rise { IsFrom 0 dirty.old.items }
    requires most { All (λ (d : TheDirty). d.index ≤ index) dirty.old.items }
    ensures bytes { IsTrue D.tells_bytes → IfOk result (λ block. block.value
        ≡ block_after (file.now.size / 4096) dirty.old.items index
        (data_block (store_of (reads (D.disk (device_of blocks.old)))) file.now index)) }
    ensures others { OnOk result ((keep i : ℕ) (bytes : List ℕ) → (i ≡ index → ⊥)
        → block_after keep dirty.new.items i bytes ≡ block_after keep dirty.old.items i bytes) }
    ensures clean { OnOk result (All (λ (d : TheDirty). d.index < index) dirty.new.items) }
    ensures rise { OnOk result (IsFrom 0 dirty.new.items) }
    ensures count { OnOk result (length dirty.new.items ≤ length dirty.old.items) }
    ensures own { result ≡ Err Full → ⊥ }
    ensures damaged { IsTrue D.tells_bytes → (block : TheOption ℕ) → result ≡ Err (Tree (Damaged block)) → (index < file.now.size / 4096)
        × (block_lies_on (D.status (device_of blocks.old)).sectors
        (store_of (reads (D.disk (device_of blocks.old)))) file.now index ≡ false)
        × (block ≡ block_met (D.status (device_of blocks.old)).sectors
        (store_of (reads (D.disk (device_of blocks.old)))) file.now index) }
    ensures same { IsTrue D.tells_bytes → D.disk (device_of blocks.new) ≡ D.disk (device_of blocks.old) }
    ensures counts { CountsPlan result (D.status (device_of blocks.old)) (D.status (device_of blocks.new)) }
{
    match take_last(dirty, index) {
        Some(bytes) => Ok(bytes),
        None => copied(alloc, blocks, file, index),
    }
}

// Stores a record in its dirty block, which is the last one or a new one.
fn store_record<D: Device>(
    alloc: Global,
    blocks: &mut Blocks<D>,
    limits: &Limits,
    file: &BlockTree,
    dirty: &mut VecDeque<DirtyBlock>,
    stored: &StoredRecord,
) -> Result<(), PlanFault>
    requires fits { IsRecord limits.now stored.now.record }
    requires rise { IsFrom 0 dirty.old.items }
    requires most { All (λ (d : TheDirty). d.index ≤ stored.now.number / 32) dirty.old.items }
    ensures patched { IsTrue D.tells_bytes → (xs : List TheStored)
        → ArePatched (data_block (store_of (reads (D.disk (device_of blocks.old)))) file.now) (file.now.size / 4096) xs dirty.old.items
        → OnOk result (ArePatched (data_block (store_of (reads (D.disk (device_of blocks.old)))) file.now)
        (file.now.size / 4096) (xs ++ stored.now ∷ []) dirty.new.items) }
    ensures rise { OnOk result (IsFrom 0 dirty.new.items) }
    ensures most { OnOk result (All (λ (d : TheDirty). d.index ≤ stored.now.number / 32) dirty.new.items) }
    ensures count { OnOk result (length dirty.new.items ≤ length dirty.old.items + 1) }
    ensures own { result ≡ Err Full → ⊥ }
    ensures damaged { IsTrue D.tells_bytes → (block : TheOption ℕ) → result ≡ Err (Tree (Damaged block)) → (stored.now.number / 32 < file.now.size / 4096)
        × (block_lies_on (D.status (device_of blocks.old)).sectors
        (store_of (reads (D.disk (device_of blocks.old)))) file.now (stored.now.number / 32) ≡ false)
        × (block ≡ block_met (D.status (device_of blocks.old)).sectors
        (store_of (reads (D.disk (device_of blocks.old)))) file.now (stored.now.number / 32)) }
    ensures same { IsTrue D.tells_bytes → D.disk (device_of blocks.new) ≡ D.disk (device_of blocks.old) }
    ensures counts { CountsPlan result (D.status (device_of blocks.old)) (D.status (device_of blocks.new)) }
{
    let index = block_of(stored.number);
    let within = index_in_block(stored.number);
    let mut bytes = open_block(alloc, blocks, file, dirty, index)?;
    put_record(limits, &stored.record, &mut bytes, within);
    dirty.reserve(1)?;
    dirty.push_back_reserved(DirtyBlock { index, bytes });
    Ok(())
}

/// The blocks of the inode file that records change, with those in them. The numbers of the records rise.
pub(crate) fn patched<D: Device>(
    alloc: Global,
    blocks: &mut Blocks<D>,
    limits: &Limits,
    file: &BlockTree,
    stored: &[StoredRecord],
) -> Result<VecDeque<DirtyBlock>, PlanFault>
    requires fits { All (λ (x : TheStored). IsRecord limits.now x.record) stored.now }
    requires rise { IsStrictlyIncreasing (map (λ (x : TheStored). x.number) stored.now) }
    ensures patched { IsTrue D.tells_bytes → IfOk result (λ dirty.
        ArePatched (data_block (store_of (reads (D.disk (device_of blocks.old)))) file.now)
        (file.now.size / 4096) stored.now dirty.items) }
    ensures rise { IfOk result (λ dirty. IsFrom 0 dirty.items) }
    ensures most { IfOk result (λ dirty. (i : ℕ) → i + 1 ≡ length stored.now
        → All (λ (d : TheDirty). d.index ≤ slice_index (map (λ (x : TheStored). x.number) stored.now) i / 32) dirty.items) }
    ensures count { IfOk result (λ dirty. length dirty.items ≤ length stored.now) }
    ensures own { result ≡ Err Full → ⊥ }
    ensures damaged { IsTrue D.tells_bytes → (block : TheOption ℕ) → result ≡ Err (Tree (Damaged block)) → IsOffAt
        (D.status (device_of blocks.old)).sectors
        (store_of (reads (D.disk (device_of blocks.old)))) file.now (map (λ (x : TheStored). x.number) stored.now) block }
    ensures same { IsTrue D.tells_bytes → D.disk (device_of blocks.new) ≡ D.disk (device_of blocks.old) }
    ensures counts { CountsPlan result (D.status (device_of blocks.old)) (D.status (device_of blocks.new)) }
{
    let mut dirty = VecDeque::new(alloc);
    for next in stored {
        store_record(alloc, blocks, limits, file, &mut dirty, next)?;
    }
    Ok(dirty)
}
