//! Going through the blocks of a directory.
ghost use Rattle.std.specs.Prelude.{◌≡◌, ℕ, ◌+◌, ◌/◌, ◌<◌, List, [], ⊤, Contains, Option as TheOption, Err, IsTrue, IfOk, OnOk};
ghost use Rattle.sn_device.specs.Disk.{reads};
ghost use Rattle.sn_block.specs.Lending.{device_of};
ghost use Rattle.sn_ondisk.specs.Trees.{store_of};
ghost use Rattle.sn_tree_read.specs.Counts.{CountsTree};
ghost use Rattle.sn_tree_read.specs.declared.fault.TreeFault.TheVariants.{Damaged};
ghost use Rattle.sn_dir.specs.Blocks.{IsUnread, IsDamagedAt};
ghost use Rattle.sn_dir_change.specs.Changes.{AreLinkChanges};
ghost use Rattle.sn_dir_change.specs.Through.{IsPushed, IsThrough};
ghost use Rattle.sn_dir_change.specs.declared.name_change.NameChange.{NameChange as TheChange};

use crate::filter::BlockFilter;
use crate::name_marks::NameMarks;
use crate::pass::change_names;
use crate::pending::Pending;
use sn_block::Blocks;
use sn_device::Device;
use sn_dir::{block_count, decoded, fetch_block};
use sn_layout::{Block, BlockTree};
use sn_tree::DirtyBlock;
use sn_tree_read::TreeFault;
use std::alloc::{AllocError, Global};
use std::collections::VecDeque;

// Appends a changed block.
pub(crate) fn push_dirty(
    alloc: Global,
    dirty: &mut VecDeque<DirtyBlock>,
    index: u64,
    bytes: Block,
) -> Result<(), AllocError>
    ensures { OnOk result (IsPushed index bytes dirty.old.items dirty.new.items) }
{
    let bytes = Box::new(alloc, bytes)?;
    dirty.push_back(DirtyBlock { index, bytes })?;
    Ok(())
}

// Makes the changes of the names of one block, if there are any left.
fn pass_block<D: Device>(
    alloc: Global,
    blocks: &mut Blocks<D>,
    tree: &BlockTree,
    i: u64,
    pending: &mut Pending<'_>,
    dirty: &mut VecDeque<DirtyBlock>,
) -> Result<(), TreeFault>
    requires index { i < tree.now.size / 4096 }
    requires standing { AreLinkChanges pending.old.standing.items }
    requires waiting { AreLinkChanges pending.old.waiting.items }
    ensures through { (changes : List TheChange) (bound : ℕ)
        → IsThrough (IsTrue D.tells_bytes) (store_of (reads (D.disk (device_of blocks.old)))) tree.now changes bound
        i dirty.old.items pending.old.standing.items pending.old.waiting.items
        → OnOk result (IsThrough (IsTrue D.tells_bytes) (store_of (reads (D.disk (device_of blocks.old)))) tree.now changes bound
        (i + 1) dirty.new.items pending.new.standing.items pending.new.waiting.items) }
    ensures stand_listed { (change : TheChange) → Contains pending.new.standing.items change
        → Contains pending.old.standing.items change }
    ensures listed { (change : TheChange) → Contains pending.new.waiting.items change
        → Contains pending.old.waiting.items change }
    ensures standing { AreLinkChanges pending.new.standing.items }
    ensures waiting { AreLinkChanges pending.new.waiting.items }
    ensures damaged { IsTrue D.tells_bytes → (block : TheOption ℕ) → result ≡ Err (Damaged block)
        → IsUnread (D.status (device_of blocks.old)).sectors
        (store_of (reads (D.disk (device_of blocks.old)))) tree.now i block }
    ensures same { IsTrue D.tells_bytes → D.disk (device_of blocks.new) ≡ D.disk (device_of blocks.old) }
    ensures counts { CountsTree result (D.status (device_of blocks.old)) (D.status (device_of blocks.new)) }
{
    if pending.is_empty() {
        return Ok(());
    }
    let number = fetch_block(blocks, tree, i)?;
    let names = decoded(blocks.fetched(), number)?;
    let marks = NameMarks::of(&names);
    let room = names.room();
    let mut bytes = *blocks.fetched();
    if change_names(&mut bytes, &marks, room, pending) {
        push_dirty(alloc, dirty, i, bytes)?;
    }
    Ok(())
}

/// Makes the changes of names that are there, and puts those that aren't where there is room. Answers the
/// changed blocks. A block isn't read where an index says that it has none of the names that are there, and no
/// room for one that waits. The changes that are left are among those at the beginning, so one filter is
/// enough for all blocks.
pub(crate) fn pass_blocks<D: Device>(
    alloc: Global,
    blocks: &mut Blocks<D>,
    tree: &BlockTree,
    pending: &mut Pending<'_>,
) -> Result<VecDeque<DirtyBlock>, TreeFault>
    requires standing { AreLinkChanges pending.old.standing.items }
    requires waiting { AreLinkChanges pending.old.waiting.items }
    ensures through { (changes : List TheChange) (bound : ℕ)
        → IsThrough (IsTrue D.tells_bytes) (store_of (reads (D.disk (device_of blocks.old)))) tree.now changes bound
        0 [] pending.old.standing.items pending.old.waiting.items
        → IfOk result (λ dirty. IsThrough (IsTrue D.tells_bytes) (store_of (reads (D.disk (device_of blocks.old)))) tree.now changes bound
        (tree.now.size / 4096) dirty.items pending.new.standing.items pending.new.waiting.items) }
    ensures waiting { AreLinkChanges pending.new.waiting.items }
    ensures damaged { IsTrue D.tells_bytes → (block : TheOption ℕ) → result ≡ Err (Damaged block)
        → IsDamagedAt (λ names. ⊤) (D.status (device_of blocks.old)).sectors
        (store_of (reads (D.disk (device_of blocks.old)))) tree.now block }
    ensures same { IsTrue D.tells_bytes → D.disk (device_of blocks.new) ≡ D.disk (device_of blocks.old) }
    ensures counts { CountsTree result (D.status (device_of blocks.old)) (D.status (device_of blocks.new)) }
{
    let filter = BlockFilter::of(alloc, pending)?;
    let mut dirty = VecDeque::new(alloc);
    let mut i = blocks.next_wanted(tree, &filter.prints, filter.least, 0);
    while i < block_count(tree) {
        pass_block(alloc, blocks, tree, i, pending, &mut dirty)?;
        i = blocks.next_wanted(tree, &filter.prints, filter.least, i + 1);
    }
    Ok(dirty)
}
