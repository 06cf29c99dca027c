//! All names of a directory, in order.
ghost use Rattle.std.specs.Prelude.{◌≡◌, ℕ, Option as TheOption, ⊤, ◌++◌, map, Err, IsTrue, IfOk, OnOk};
ghost use Rattle.std.specs.List.Sorted.{IsPermutation, IsSorted};
ghost use Rattle.sn_device.specs.Disk.{reads};
ghost use Rattle.sn_block.specs.Lending.{device_of};
ghost use Rattle.sn_layout_node.specs.declared.content.Content.TheVariants.{Tree};
ghost use Rattle.sn_ondisk.specs.Trees.{store_of, data_block};
ghost use Rattle.sn_image.specs.Names.{names_in, names_of};
ghost use Rattle.sn_tree_read.specs.Counts.{CountsTree};
ghost use Rattle.sn_tree_read.specs.declared.fault.TreeFault.TheVariants.{Damaged};
ghost use Rattle.sn_dir.specs.Blocks.{CanRead, IsUnread, IsDamaged, IsDamagedAt};
ghost use Rattle.sn_dir.specs.Listed.{link_of, listed_cmp};

use crate::blocks::{block_count, decoded, fetch_block};
use sn_block::Blocks;
use sn_device::Device;
use sn_layout::BlockTree;
use sn_layout_node::DirectoryBlock;
use sn_model::Word;
use sn_tree_read::TreeFault;
use std::alloc::{AllocError, Global};

/// A name of a directory. Names are in order by their bytes.
#[derive(Drop, PartialEq, Eq, PartialOrd, Ord)]
pub struct ListedName {
    pub name: Word,
    /// The number of the inode that it denotes.
    pub number: u16,
}

// Appends the names of a block.
fn push_entries(
    alloc: Global,
    block: &DirectoryBlock<'_>,
    names: &mut Vec<ListedName>,
) -> Result<(), AllocError>
    ensures { OnOk result (map link_of names.new.items ≡ map link_of names.old.items ++ block.now) }
{
    for entry in block.entries() {
        let name = Word::new(alloc, entry.name)?;
        let number = entry.number;
        names.push(ListedName { name, number })?;
    }
    Ok(())
}

// Appends the names of one block of a directory.
fn push_names<D: Device>(
    alloc: Global,
    blocks: &mut Blocks<D>,
    tree: &BlockTree,
    i: u64,
    names: &mut Vec<ListedName>,
) -> Result<(), TreeFault>
    ensures names { IsTrue D.tells_bytes → OnOk result (map link_of names.new.items ≡ map link_of names.old.items
        ++ names_in (data_block (store_of (reads (D.disk (device_of blocks.old)))) tree.now i)) }
    ensures read { IsTrue D.tells_bytes → OnOk result (CanRead (D.status (device_of blocks.old)).sectors
        (store_of (reads (D.disk (device_of blocks.old)))) tree.now i) }
    ensures damaged { IsTrue D.tells_bytes → (block : TheOption ℕ) → result ≡ Err (Damaged block)
        → IsUnread (D.status (device_of blocks.old)).sectors
        (store_of (reads (D.disk (device_of blocks.old)))) tree.now i block }
    ensures same { IsTrue D.tells_bytes → D.disk (device_of blocks.new) ≡ D.disk (device_of blocks.old) }
    ensures counts { CountsTree result (D.status (device_of blocks.old)) (D.status (device_of blocks.new)) }
{
    let number = fetch_block(blocks, tree, i)?;
    let block = decoded(blocks.fetched(), number)?;
    push_entries(alloc, &block, names)?;
    Ok(())
}

// The names of a directory as they are there, block after block.
fn gathered<D: Device>(
    alloc: Global,
    blocks: &mut Blocks<D>,
    tree: &BlockTree,
) -> Result<Vec<ListedName>, TreeFault>
    ensures names { IsTrue D.tells_bytes → IfOk result (λ names. map link_of names.items
        ≡ names_of (store_of (reads (D.disk (device_of blocks.old)))) (Tree tree.now)) }
    ensures whole { IsTrue D.tells_bytes → OnOk result (IsDamaged (λ names. ⊤)
        (D.status (device_of blocks.old)).sectors
        (store_of (reads (D.disk (device_of blocks.old)))) tree.now → ⊥) }
    ensures damaged { IsTrue D.tells_bytes → (block : TheOption ℕ) → result ≡ Err (Damaged block)
        → IsDamagedAt (λ names. ⊤) (D.status (device_of blocks.old)).sectors
        (store_of (reads (D.disk (device_of blocks.old)))) tree.now block }
    ensures same { IsTrue D.tells_bytes → D.disk (device_of blocks.new) ≡ D.disk (device_of blocks.old) }
    ensures counts { CountsTree result (D.status (device_of blocks.old)) (D.status (device_of blocks.new)) }
{
    let mut names = Vec::new(alloc);
    for i in 0..block_count(tree) {
        push_names(alloc, blocks, tree, i, &mut names)?;
    }
    Ok(names)
}

/// All names of a directory with their numbers, sorted by the bytes of the names, and where a name occurs
/// twice by number. `Damaged` comes exactly where one of the directory's blocks isn't on the device, is a
/// hole, or doesn't spell names. Memory is taken for the answer, and for blocks that aren't kept.
///
/// Proved: All names come with their numbers, sorted by their bytes, and where a name is there twice by number.
pub fn names<D: Device>(
    alloc: Global,
    blocks: &mut Blocks<D>,
    tree: &BlockTree,
) -> Result<Vec<ListedName>, TreeFault>
    ensures names { IsTrue D.tells_bytes → IfOk result (λ names. IsPermutation
        (names_of (store_of (reads (D.disk (device_of blocks.old)))) (Tree tree.now)) (map link_of names.items)) }
    ensures sorted { IfOk result (λ names. IsSorted listed_cmp names.items) }
    ensures whole { IsTrue D.tells_bytes → OnOk result (IsDamaged (λ names. ⊤)
        (D.status (device_of blocks.old)).sectors
        (store_of (reads (D.disk (device_of blocks.old)))) tree.now → ⊥) }
    ensures damaged { IsTrue D.tells_bytes → (block : TheOption ℕ) → result ≡ Err (Damaged block)
        → IsDamagedAt (λ names. ⊤) (D.status (device_of blocks.old)).sectors
        (store_of (reads (D.disk (device_of blocks.old)))) tree.now block }
    ensures same { IsTrue D.tells_bytes → D.disk (device_of blocks.new) ≡ D.disk (device_of blocks.old) }
    ensures counts { CountsTree result (D.status (device_of blocks.old)) (D.status (device_of blocks.new)) }
{
    let mut names = gathered(alloc, blocks, tree)?;
    names.sort_unstable();
    Ok(names)
}
