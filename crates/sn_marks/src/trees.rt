//! Marking a block tree, from its sixteen pointers down.
ghost use Rattle.std.specs.Prelude.{◌≡◌, ◌≢◌, ◌+◌, ◌*◌, ◌^◌, ◌<◌, ◌≤◌, ◌↔◌, ◌∷◌, [], length, drop, All, IsTrue, IfErr, IfOk, OnOk};
ghost use Rattle.sn_device.specs.Disk.{reads};
ghost use Rattle.sn_block.specs.Counts.{CountsRead};
ghost use Rattle.sn_block.specs.Lending.{device_of};
ghost use Rattle.sn_ondisk.specs.Trees.{store_of, tree_reach};
ghost use Rattle.sn_image.specs.Sound.{EndsAtSize};
ghost use Rattle.sn_marks.specs.Fault.{CountsCheck, Tells};
ghost use Rattle.sn_marks.specs.Marks.{Marks};
ghost use Rattle.sn_marks.specs.Trees.{StandsInTree};
ghost use Rattle.sn_marks.specs.Walks.{IsWalked, IsBroken, HasEnd, HasTail};

use crate::{CheckFault, RootBit, mark};
use sn_block::{BLOCK_SIZE, Block, Blocks, ReadFault};
use sn_device::Device;
use sn_layout::{BlockTree, POINTERS};
use sn_layout_node::{IndirectBlock, POINTERS_PER_BLOCK};
use sn_map::Map;

// Where pointers are: how many levels above data blocks, from which byte of the tree on, and in which
// block.
#[derive(Clone, Copy)]
struct Spot {
    height: u32,
    first: u64,
    holder: u32,
}

// How many bytes are below a pointer that is so many levels above data blocks.
fn span_of(height: u32) -> u64
    requires { height ≤ 3 }
    ensures value { result ≡ 4096 * 1024 ^ height }
    ensures most { result ≤ 4398046511104 }
{
    4096 * 1024u64.pow(height)
}

// Whether the bytes of a block from an offset on are zeros.
fn has_end(block: &Block, from: usize) -> bool
    requires { from ≤ 4096 }
    ensures zeros { IsTrue result ↔ All (λ b. b ≡ 0) (drop from block.now) }
    ensures size { length block.now ≡ 4096 }
{
    block[from..].iter().all(|byte| *byte == 0)
}

// Tests that the bytes of a data block from an offset on are zeros. There are none where the offset is past it.
fn test_end<D: Device>(blocks: &mut Blocks<D>, from: u64, pointer: u32) -> Result<(), CheckFault>
    requires some { pointer ≢ 0 }
    requires room { 8 * pointer + 8 ≤ (D.status (device_of blocks.old)).sectors }
    ensures zeros { IsTrue D.tells_bytes → OnOk result
        (HasEnd (store_of (reads (D.disk (device_of blocks.old)))) from pointer) }
    ensures fault { IsTrue D.tells_bytes → IfErr result (λ fault. Tells fault
        (HasTail (store_of (reads (D.disk (device_of blocks.old)))) from pointer)) }
    ensures same { IsTrue D.tells_bytes → D.disk (device_of blocks.new) ≡ D.disk (device_of blocks.old) }
    ensures counts { CountsCheck result (D.status (device_of blocks.old)) (D.status (device_of blocks.new)) }
{
    if from >= BLOCK_SIZE as u64 {
        return Ok(());
    }
    blocks.fetch(pointer)?;
    if !has_end(blocks.fetched(), from as usize) {
        return Err(CheckFault::misspelt(pointer));
    }
    Ok(())
}

// A copy of a block, which stays while others are read.
fn copied<D: Device>(blocks: &mut Blocks<D>, pointer: u32) -> Result<Block, ReadFault>
    requires room { 8 * pointer + 8 ≤ (D.status (device_of blocks.old)).sectors }
    ensures bytes { IsTrue D.tells_bytes → IfOk result
        (λ block. block ≡ store_of (reads (D.disk (device_of blocks.old))) pointer) }
    ensures same { IsTrue D.tells_bytes → D.disk (device_of blocks.new) ≡ D.disk (device_of blocks.old) }
    ensures counts { CountsRead result (D.status (device_of blocks.old)) (D.status (device_of blocks.new)) }
{
    blocks.fetch(pointer)?;
    Ok(*blocks.fetched())
}

// Marks what a pointer reaches.
#[cycle(marks)]
fn mark_below<D: Device>(
    blocks: &mut Blocks<D>,
    map: &mut Map,
    root: &RootBit,
    size: u64,
    spot: Spot,
    pointer: u32,
) -> Result<(), CheckFault>
    requires height { spot.height ≤ 3 }
    requires reach { spot.first + 4096 * 1024 ^ spot.height ≤ 2 ^ 62 }
    requires words { length map.old ≡ root.now.geometry }
    requires room { 8 * root.now.geometry ≤ (D.status (device_of blocks.old)).sectors }
    ensures walked { IsTrue D.tells_bytes → OnOk result (IsWalked root.now.geometry root.now.bit
        (store_of (reads (D.disk (device_of blocks.old)))) size spot.height spot.first (pointer ∷ []) map.old map.new) }
    ensures fault { IsTrue D.tells_bytes → IfErr result (λ fault. Tells fault (IsBroken root.now.geometry root.now.bit
        (store_of (reads (D.disk (device_of blocks.old)))) size spot.height spot.first (pointer ∷ []) spot.holder map.old)) }
    ensures words { length map.new ≡ length map.old }
    ensures same { IsTrue D.tells_bytes → D.disk (device_of blocks.new) ≡ D.disk (device_of blocks.old) }
    ensures counts { CountsCheck result (D.status (device_of blocks.old)) (D.status (device_of blocks.new)) }
{
    if pointer == 0 {
        return Ok(());
    }
    if spot.first >= size {
        return Err(CheckFault::misspelt(spot.holder));
    }
    mark(map, root, pointer)?;
    if spot.height == 0 {
        return test_end(blocks, size - spot.first, pointer);
    }
    let block = copied(blocks, pointer)?;
    let below = Spot {
        height: spot.height - 1,
        first: spot.first,
        holder: pointer,
    };
    mark_indirect(
        blocks,
        map,
        root,
        size,
        below,
        &IndirectBlock::decode(&block),
    )
}

// The same for the pointers of an indirect block.
#[cycle(marks)]
fn mark_indirect<D: Device>(
    blocks: &mut Blocks<D>,
    map: &mut Map,
    root: &RootBit,
    size: u64,
    spot: Spot,
    pointers: &IndirectBlock<'_>,
) -> Result<(), CheckFault>
    requires height { spot.height ≤ 3 }
    requires count { length pointers.now ≡ 1024 }
    requires reach { spot.first + 1024 * (4096 * 1024 ^ spot.height) ≤ 2 ^ 62 }
    requires words { length map.old ≡ root.now.geometry }
    requires room { 8 * root.now.geometry ≤ (D.status (device_of blocks.old)).sectors }
    ensures walked { IsTrue D.tells_bytes → OnOk result (IsWalked root.now.geometry root.now.bit
        (store_of (reads (D.disk (device_of blocks.old)))) size spot.height spot.first pointers.now map.old map.new) }
    ensures fault { IsTrue D.tells_bytes → IfErr result (λ fault. Tells fault (IsBroken root.now.geometry root.now.bit
        (store_of (reads (D.disk (device_of blocks.old)))) size spot.height spot.first pointers.now spot.holder map.old)) }
    ensures words { length map.new ≡ length map.old }
    ensures same { IsTrue D.tells_bytes → D.disk (device_of blocks.new) ≡ D.disk (device_of blocks.old) }
    ensures counts { CountsCheck result (D.status (device_of blocks.old)) (D.status (device_of blocks.new)) }
{
    let span = span_of(spot.height);
    for i in 0..POINTERS_PER_BLOCK {
        let at = Spot {
            height: spot.height,
            first: spot.first + i as u64 * span,
            holder: spot.holder,
        };
        mark_below(blocks, map, root, size, at, pointers.pointer(i))?;
    }
    Ok(())
}

/// Marks each block of a tree, and tests that the tree ends at its size. `top` is the block that its
/// sixteen pointers are in. What is reported is so: a pointer that leads out of the data area, a block that
/// is reached again, or a pointer or a byte past the size. After a fault the map has some of the marks.
///
/// Proved: At `Ok` each block of a tree has its mark, whatever size the tree claims and whatever is in its blocks; all are
/// in the data area, none was marked before or is reached twice, no other bit changed, and the tree ends at its size.
/// Proved: A damage is at the block that is reported: a pointer out of the data area, a block reached twice or marked
/// before, a pointer or a byte past the size.
/// Proved: A pointer is marked before it is followed, so each block that is read is in the data area; over a device that
/// tells its bytes nothing is written.
pub fn mark_tree<D: Device>(
    blocks: &mut Blocks<D>,
    map: &mut Map,
    root: &RootBit,
    tree: &BlockTree,
    top: u32,
) -> Result<(), CheckFault>
    requires words { length map.old ≡ root.now.geometry }
    requires room { 8 * root.now.geometry ≤ (D.status (device_of blocks.old)).sectors }
    ensures marks { IsTrue D.tells_bytes → OnOk result (Marks root.now.geometry root.now.bit
        (tree_reach (store_of (reads (D.disk (device_of blocks.old)))) tree.now) map.old map.new) }
    ensures ends { IsTrue D.tells_bytes → OnOk result (EndsAtSize (store_of (reads (D.disk (device_of blocks.old)))) tree.now) }
    ensures fault { IsTrue D.tells_bytes → IfErr result (λ fault. Tells fault (StandsInTree root.now.geometry root.now.bit
        (store_of (reads (D.disk (device_of blocks.old)))) tree.now top map.old)) }
    ensures words { length map.new ≡ length map.old }
    ensures same { IsTrue D.tells_bytes → D.disk (device_of blocks.new) ≡ D.disk (device_of blocks.old) }
    ensures counts { CountsCheck result (D.status (device_of blocks.old)) (D.status (device_of blocks.new)) }
{
    // It says how many pointers there are.
    tree.fits();
    let height = BlockTree::levels_of(tree.size);
    let span = span_of(height);
    for i in 0..POINTERS {
        let spot = Spot {
            height,
            first: i as u64 * span,
            holder: top,
        };
        mark_below(blocks, map, root, tree.size, spot, tree.pointers.get(i))?;
    }
    Ok(())
}
