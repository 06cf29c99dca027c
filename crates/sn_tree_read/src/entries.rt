//! The pointers of a tree, level by level, and its data blocks.
ghost use Rattle.std.specs.Prelude.{◌≡◌, ℕ, ◌+◌, ◌*◌, ◌/◌, ◌<◌, ◌≤◌, true, false, Option as TheOption, Err, IsTrue, IfOk, IfSome, OnOk, IsSome, is_some, slice_index};
ghost use Rattle.sn_device.specs.Disk.{reads};
ghost use Rattle.sn_block.specs.Lending.{device_of, fetched_number};
ghost use Rattle.sn_layout.specs.Bytes.{zeros};
ghost use Rattle.sn_layout.specs.Pointers.{levels_of};
ghost use Rattle.sn_ondisk.specs.Blocks.{block_at};
ghost use Rattle.sn_ondisk.specs.Trees.{store_of, below, entry, data_block};
ghost use Rattle.sn_tree_read.specs.Counts.{CountsTree};
ghost use Rattle.sn_tree_read.specs.Paths.{lies_on, path_lies_on, block_lies_on, block_named, pointer_met, block_met};
ghost use Rattle.sn_tree_read.specs.declared.fault.TreeFault.TheVariants.{Damaged};

use crate::TreeFault;
use sn_block::Blocks;
use sn_device::Device;
use sn_layout::{BlockTree, SECTORS_PER_BLOCK};
use sn_layout_node::IndirectBlock;

/// Whether a pointer is a hole, or names a block of a device of so many sectors.
pub fn lies_on(sectors: u64, pointer: u32) -> bool
    ensures { result ≡ lies_on sectors pointer }
{
    pointer == 0 || SECTORS_PER_BLOCK * u64::from(pointer) + SECTORS_PER_BLOCK <= sectors
}

// One of the sixteen pointers, and a hole past them.
fn first_pointer(tree: &BlockTree, i: u64) -> u32
    ensures { result ≡ slice_index tree.now.pointers i }
{
    let pointers = tree.pointers.as_slice();
    if i >= pointers.len() as u64 {
        return 0;
    }
    pointers[i as usize]
}

// One of the 1,024 pointers below a pointer. Below a hole there are holes.
fn pointer_below<D: Device>(
    blocks: &mut Blocks<D>,
    pointer: u32,
    index: usize,
) -> Result<u32, TreeFault>
    requires { index < 1024 }
    ensures pointer { IsTrue D.tells_bytes → IfOk result
        (λ p. p ≡ slice_index (below (store_of (reads (D.disk (device_of blocks.old)))) pointer) index) }
    ensures lies { OnOk result (lies_on (D.status (device_of blocks.old)).sectors pointer ≡ true) }
    ensures damaged { (block : TheOption ℕ) → result ≡ Err (Damaged block)
        → (lies_on (D.status (device_of blocks.old)).sectors pointer ≡ false) × (block ≡ block_named pointer) }
    ensures same { IsTrue D.tells_bytes → D.disk (device_of blocks.new) ≡ D.disk (device_of blocks.old) }
    ensures counts { CountsTree result (D.status (device_of blocks.old)) (D.status (device_of blocks.new)) }
{
    if !lies_on(blocks.sectors(), pointer) {
        return Err(TreeFault::at(pointer));
    }
    if pointer == 0 {
        return Ok(0);
    }
    blocks.fetch(pointer)?;
    Ok(IndirectBlock::decode(blocks.fetched()).pointer(index))
}

/// The pointer with number `i` of those so many levels below the sixteen of a tree: on the
/// last level it names data block `i`. 0 is a hole, also where the tree has no such block. `Damaged`
/// comes exactly where a block above it isn't on the device.
///
/// Proved, also of `fetch_data` and `read`: A pointer on its path, a data block or a hole in its place, and bytes of a file
/// are what the tree means, on any image; `Damaged` comes exactly where a block that is needed isn't on the device, with
/// that block.
/// Proved, also of `fetch_data` and `read`: Nothing is written, over any device.
pub fn entry<D: Device>(
    blocks: &mut Blocks<D>,
    tree: &BlockTree,
    level: u32,
    i: u64,
) -> Result<u32, TreeFault>
    requires { level ≤ levels_of tree.now.size }
    ensures pointer { IsTrue D.tells_bytes → IfOk result
        (λ p. p ≡ entry (store_of (reads (D.disk (device_of blocks.old)))) level tree.now.pointers i) }
    ensures lies { IsTrue D.tells_bytes → OnOk result
        (path_lies_on (D.status (device_of blocks.old)).sectors
        (store_of (reads (D.disk (device_of blocks.old)))) level tree.now.pointers i ≡ true) }
    ensures damaged { IsTrue D.tells_bytes → (block : TheOption ℕ) → result ≡ Err (Damaged block)
        → (path_lies_on (D.status (device_of blocks.old)).sectors
        (store_of (reads (D.disk (device_of blocks.old)))) level tree.now.pointers i ≡ false)
        × (block ≡ block_named (pointer_met (D.status (device_of blocks.old)).sectors
        (store_of (reads (D.disk (device_of blocks.old)))) level tree.now.pointers i)) }
    ensures same { IsTrue D.tells_bytes → D.disk (device_of blocks.new) ≡ D.disk (device_of blocks.old) }
    ensures counts { CountsTree result (D.status (device_of blocks.old)) (D.status (device_of blocks.new)) }
{
    if level == 0 {
        return Ok(first_pointer(tree, i));
    }
    let above = entry(blocks, tree, level - 1, i / 1024)?;
    pointer_below(blocks, above, (i % 1024) as usize)
}

/// Makes data block `i` of a tree the one that `blocks.fetched()` lends, and answers its number; `None`
/// for a hole, which reads as zeros, and then no block is meant. `Damaged` comes exactly where the block
/// or one above it isn't on the device.
pub fn fetch_data<D: Device>(
    blocks: &mut Blocks<D>,
    tree: &BlockTree,
    i: u64,
) -> Result<Option<u32>, TreeFault>
    ensures hole { IsTrue D.tells_bytes → IfOk result (λ found. is_some found ≡ false
        → data_block (store_of (reads (D.disk (device_of blocks.old)))) tree.now i ≡ zeros 4096) }
    ensures block { IsTrue D.tells_bytes → IfOk result (λ found. IsTrue (is_some found)
        → IfSome (fetched_number blocks.new) (λ number. block_at (reads (D.disk (device_of blocks.new))) number
        ≡ data_block (store_of (reads (D.disk (device_of blocks.old)))) tree.now i)) }
    ensures lent { IfOk result (λ found. IsTrue (is_some found) → IsSome (fetched_number blocks.new)) }
    ensures number { IsTrue D.tells_bytes → IfOk result (λ found. IsTrue (is_some found)
        → found ≡ block_met (D.status (device_of blocks.old)).sectors
        (store_of (reads (D.disk (device_of blocks.old)))) tree.now i) }
    ensures lies { IsTrue D.tells_bytes → OnOk result
        (block_lies_on (D.status (device_of blocks.old)).sectors
        (store_of (reads (D.disk (device_of blocks.old)))) tree.now i ≡ true) }
    ensures damaged { IsTrue D.tells_bytes → (block : TheOption ℕ) → result ≡ Err (Damaged block)
        → (block_lies_on (D.status (device_of blocks.old)).sectors
        (store_of (reads (D.disk (device_of blocks.old)))) tree.now i ≡ false)
        × (block ≡ block_met (D.status (device_of blocks.old)).sectors
        (store_of (reads (D.disk (device_of blocks.old)))) tree.now i) }
    ensures same { IsTrue D.tells_bytes → D.disk (device_of blocks.new) ≡ D.disk (device_of blocks.old) }
    ensures counts { CountsTree result (D.status (device_of blocks.old)) (D.status (device_of blocks.new)) }
{
    let pointer = entry(blocks, tree, BlockTree::levels_of(tree.size), i)?;
    if !lies_on(blocks.sectors(), pointer) {
        return Err(TreeFault::at(pointer));
    }
    if pointer == 0 {
        return Ok(None);
    }
    blocks.fetch(pointer)?;
    Ok(Some(pointer))
}
