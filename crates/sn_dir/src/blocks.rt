//! The blocks of a directory.
ghost use Rattle.std.specs.Prelude.{◌≡◌, ℕ, ◌/◌, ◌^◌, ◌<◌, Option as TheOption, Err, IsTrue, IsSome, IfOk, IfErr, OnOk};
ghost use Rattle.sn_device.specs.Disk.{reads};
ghost use Rattle.sn_block.specs.Lending.{device_of, fetched_number, fetched_bytes};
ghost use Rattle.sn_layout_node.specs.Directory.{Spells, IsDirectoryBlock};
ghost use Rattle.sn_ondisk.specs.Trees.{store_of, data_block};
ghost use Rattle.sn_tree_read.specs.Counts.{CountsTree};
ghost use Rattle.sn_tree_read.specs.Paths.{block_named, block_met};
ghost use Rattle.sn_tree_read.specs.declared.fault.TreeFault.TheVariants.{Damaged};
ghost use Rattle.sn_dir.specs.Blocks.{IsThere};

use sn_block::{BLOCK_SIZE, Block, Blocks};
use sn_device::Device;
use sn_layout::BlockTree;
use sn_layout_node::DirectoryBlock;
use sn_tree_read::{TreeFault, entry, lies_on};

/// How many blocks a directory has.
pub fn block_count(tree: &BlockTree) -> u64
    ensures value { result ≡ tree.now.size / 4096 }
    ensures most { result < 2 ^ 52 }
{
    tree.size / BLOCK_SIZE as u64
}

/// Makes block `i` of a directory the one that `blocks.fetched()` lends, and answers its number. `Damaged`
/// comes exactly where it isn't there.
pub fn fetch_block<D: Device>(
    blocks: &mut Blocks<D>,
    tree: &BlockTree,
    i: u64,
) -> Result<u32, TreeFault>
    ensures lent { OnOk result (IsSome (fetched_number blocks.new)) }
    ensures block { IsTrue D.tells_bytes → OnOk result (fetched_bytes blocks.new
        ≡ data_block (store_of (reads (D.disk (device_of blocks.old)))) tree.now i) }
    ensures there { IsTrue D.tells_bytes → OnOk result (IsThere (D.status (device_of blocks.old)).sectors
        (store_of (reads (D.disk (device_of blocks.old)))) tree.now i) }
    ensures number { IsTrue D.tells_bytes → IfOk result (λ number. block_named number
        ≡ block_met (D.status (device_of blocks.old)).sectors
        (store_of (reads (D.disk (device_of blocks.old)))) tree.now i) }
    ensures damaged { IsTrue D.tells_bytes → (block : TheOption ℕ) → result ≡ Err (Damaged block)
        → (IsThere (D.status (device_of blocks.old)).sectors
        (store_of (reads (D.disk (device_of blocks.old)))) tree.now i → ⊥)
        × (block ≡ block_met (D.status (device_of blocks.old)).sectors
        (store_of (reads (D.disk (device_of blocks.old)))) tree.now i) }
    ensures same { IsTrue D.tells_bytes → D.disk (device_of blocks.new) ≡ D.disk (device_of blocks.old) }
    ensures counts { CountsTree result (D.status (device_of blocks.old)) (D.status (device_of blocks.new)) }
{
    let pointer = entry(blocks, tree, BlockTree::levels_of(tree.size), i)?;
    if !lies_on(blocks.sectors(), pointer) {
        return Err(TreeFault::at(pointer));
    }
    if pointer == 0 {
        return Err(TreeFault::at(pointer));
    }
    blocks.fetch(pointer)?;
    // It says which bytes are lent.
    blocks.fetched();
    Ok(pointer)
}

/// The names that the block of a number spells. `Damaged` comes exactly where it spells none.
pub fn decoded(block: &Block, number: u32) -> Result<DirectoryBlock<'_>, TreeFault>
    ensures spelled { IfOk result (λ names. Spells block.now names) }
    ensures damaged { IfErr result (λ fault. (fault ≡ Damaged (block_named number)) × (IsDirectoryBlock block.now → ⊥)) }
{
    match DirectoryBlock::decode(block) {
        Some(names) => Ok(names),
        None => Err(TreeFault::at(number)),
    }
}
