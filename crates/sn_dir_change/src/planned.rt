//! A directory with other names.
ghost use Rattle.std.specs.Prelude.{◌≡◌, ℕ, ◌<◌, Bool, [], ◌∷◌, ⊤, Some, None, Option as TheOption, Err, length, IsTrue, IfOk};
ghost use Rattle.sn_device.specs.Disk.{reads};
ghost use Rattle.sn_block.specs.Lending.{device_of};
ghost use Rattle.sn_layout_node.specs.Directory.{IsLink};
ghost use Rattle.sn_layout.specs.declared.tree.BlockTree.{BlockTree as TheTree};
ghost use Rattle.sn_ondisk.specs.Trees.{Store, store_of};
ghost use Rattle.sn_tree.specs.Steps.{CountsPlan};
ghost use Rattle.sn_tree.specs.declared.fault.PlanFault.TheVariants.{Tree};
ghost use Rattle.sn_tree_read.specs.Counts.{CountsTree};
ghost use Rattle.sn_tree_read.specs.declared.fault.TreeFault.TheVariants.{Damaged};
ghost use Rattle.sn_dir.specs.Blocks.{IsDamagedAt};
ghost use Rattle.sn_dir_change.specs.Changes.{AreChanges};
ghost use Rattle.sn_dir_change.specs.Planned.{HasRoom, IsDirectoryPlanned, IsTooFullFor, CannotReadAt};
ghost use Rattle.sn_dir_change.specs.Through.{IsWanted};

use crate::NameChange;
use crate::fill::fill_blocks;
use crate::pending::parted;
use crate::through::{pass_blocks, push_dirty};
use sn_block::{BLOCK_SIZE, Blocks};
use sn_device::Device;
use sn_dir::block_count;
use sn_layout::BlockTree;
use sn_layout_node::DirectoryBlock;
use sn_tree::{Build, Dirty, PlanFault, plan_tree};
use sn_tree_read::TreeFault;
use std::alloc::{AllocError, Global};

// Gives a directory without a block its first one, of no names, where a name changes: so it has one from its first name
// on, also where that name is gone again before anything is planned.
fn with_first(
    alloc: Global,
    mut dirty: Dirty,
    changes: &[NameChange<'_>],
) -> Result<Dirty, AllocError>
    ensures wanted { (told : Bool) (s : Store) (tree : TheTree) → IsWanted (IsTrue told) s tree changes.now dirty.size dirty.keep dirty.blocks.items
        → IfOk result (λ new. IsWanted (IsTrue told) s tree changes.now new.size new.keep new.blocks.items) }
    ensures first { IfOk result (λ new. 0 < length changes.now → 0 < new.size) }
{
    if dirty.size > 0 || changes.is_empty() {
        return Ok(dirty);
    }
    let mut block = [0; BLOCK_SIZE];
    DirectoryBlock::clear(&mut block);
    push_dirty(alloc, &mut dirty.blocks, 0, block)?;
    dirty.size = BLOCK_SIZE as u64;
    Ok(dirty)
}

// What the tree is to become: its changed blocks, and those after the old ones.
fn wanted<D: Device>(
    alloc: Global,
    blocks: &mut Blocks<D>,
    tree: &BlockTree,
    changes: &[NameChange<'_>],
) -> Result<Dirty, TreeFault>
    requires changes { AreChanges changes.now }
    requires room { HasRoom tree.now (length changes.now) }
    ensures wanted { IfOk result (λ dirty. IsWanted (IsTrue D.tells_bytes)
        (store_of (reads (D.disk (device_of blocks.old)))) tree.now changes.now
        dirty.size dirty.keep dirty.blocks.items) }
    ensures first { IfOk result (λ dirty. 0 < length changes.now → 0 < dirty.size) }
    ensures damaged { IsTrue D.tells_bytes → (block : TheOption ℕ) → result ≡ Err (Damaged block)
        → IsDamagedAt (λ names. ⊤) (D.status (device_of blocks.old)).sectors
        (store_of (reads (D.disk (device_of blocks.old)))) tree.now block }
    ensures same { IsTrue D.tells_bytes → D.disk (device_of blocks.new) ≡ D.disk (device_of blocks.old) }
    ensures counts { CountsTree result (D.status (device_of blocks.old)) (D.status (device_of blocks.new)) }
{
    let mut pending = parted(alloc, blocks, tree, changes)?;
    let mut dirty = pass_blocks(alloc, blocks, tree, &mut pending)?;
    let keep = block_count(tree);
    let count = fill_blocks(alloc, keep, &mut pending.waiting, &mut dirty)?;
    let dirty = Dirty {
        size: count * BLOCK_SIZE as u64,
        keep,
        blocks: dirty,
    };
    Ok(with_first(alloc, dirty, changes)?)
}

/// Plans a directory in which names were set and taken out, each name at most once in the list. A name
/// that is there is set in its place; one that isn't is put into a block with room, or into a new block
/// after the others where there is none. No block is given back, and at most one changes for each name;
/// to take out a name that isn't there changes none, but that a directory has a block from its first change on.
///
/// After an error the build can only be given up. `Full` comes only where fewer blocks are left than a
/// path for each name and one more, in a directory of the size that this one gets, and `Damaged` only where a block of
/// the directory can't be read or one that its tree reaches isn't on the device: it carries that block, if there is one.
/// Memory is taken for the lists, for changed blocks, and for blocks that aren't kept.
///
/// Proved, also of `insert` and `remove`: A directory in which names were set and taken out is planned in memory, while the
/// old one is only read, and nothing is written.
/// Proved: In every store with the new blocks that agrees with the old one in what the old directory reaches, each name of
/// the list has the number that it was to have, or none, and every other name the number that it had.
/// Proved: No name is there twice where none was before; where each block was there and spelled names, each is and does.
/// Proved: What the new directory reaches with what is released is what the old one reached with what was added, each block
/// as often.
/// Proved: A directory has a block from its first change on; at most one block of names changes for each name, and only that
/// one for a name that is to go and isn't there; the new blocks are at most a path for each name and one path more.
/// Proved, also of `size_laws`: A name is in a new block only where no block before that has room for it, so a directory
/// that grows has few blocks for its names, and stays within the largest size as long as its names are as few as may be.
/// Proved: `Full` comes only where fewer blocks are left, counted by the levels of the size that the directory gets, and
/// `Damaged` only where a block of the old one can't be read, with that block, if there is one.
pub fn change<D: Device>(
    alloc: Global,
    build: &mut Build,
    blocks: &mut Blocks<D>,
    tree: &BlockTree,
    changes: &[NameChange<'_>],
) -> Result<BlockTree, PlanFault>
    requires changes { AreChanges changes.now }
    requires room { HasRoom tree.now (length changes.now) }
    ensures planned { IfOk result (λ new. IsDirectoryPlanned (IsTrue D.tells_bytes)
        (store_of (reads (D.disk (device_of blocks.old)))) tree.now new changes.now build.old build.new) }
    ensures full { IsTooFullFor (IsTrue D.tells_bytes)
        (store_of (reads (D.disk (device_of blocks.old)))) tree.now changes.now result build.old }
    ensures damaged { IsTrue D.tells_bytes → (block : TheOption ℕ) → result ≡ Err (Tree (Damaged block))
        → CannotReadAt (D.status (device_of blocks.old)).sectors
        (store_of (reads (D.disk (device_of blocks.old)))) tree.now block }
    ensures same { IsTrue D.tells_bytes → D.disk (device_of blocks.new) ≡ D.disk (device_of blocks.old) }
    ensures counts { CountsPlan result (D.status (device_of blocks.old)) (D.status (device_of blocks.new)) }
{
    let dirty = wanted(alloc, blocks, tree, changes)?;
    plan_tree(build, blocks, tree, dirty)
}

/// Plans a directory in which a name denotes a number, whether it denoted another or not: `change`
/// of one name.
pub fn insert<D: Device>(
    alloc: Global,
    build: &mut Build,
    blocks: &mut Blocks<D>,
    tree: &BlockTree,
    name: &[u8],
    number: u16,
) -> Result<BlockTree, PlanFault>
    requires link { IsLink (record { number = number; name = name.now }) }
    requires room { HasRoom tree.now 1 }
    ensures planned { IfOk result (λ new. IsDirectoryPlanned (IsTrue D.tells_bytes)
        (store_of (reads (D.disk (device_of blocks.old)))) tree.now new
        (record { name = name.entry; number = Some number } ∷ []) build.old build.new) }
    ensures full { IsTooFullFor (IsTrue D.tells_bytes)
        (store_of (reads (D.disk (device_of blocks.old)))) tree.now
        (record { name = name.entry; number = Some number } ∷ []) result build.old }
    ensures damaged { IsTrue D.tells_bytes → (block : TheOption ℕ) → result ≡ Err (Tree (Damaged block))
        → CannotReadAt (D.status (device_of blocks.old)).sectors
        (store_of (reads (D.disk (device_of blocks.old)))) tree.now block }
    ensures same { IsTrue D.tells_bytes → D.disk (device_of blocks.new) ≡ D.disk (device_of blocks.old) }
    ensures counts { CountsPlan result (D.status (device_of blocks.old)) (D.status (device_of blocks.new)) }
{
    let number = Some(number);
    change(alloc, build, blocks, tree, &[NameChange { name, number }])
}

/// Plans a directory without a name, whether it is there or not: `change` of one name.
pub fn remove<D: Device>(
    alloc: Global,
    build: &mut Build,
    blocks: &mut Blocks<D>,
    tree: &BlockTree,
    name: &[u8],
) -> Result<BlockTree, PlanFault>
    requires { HasRoom tree.now 1 }
    ensures planned { IfOk result (λ new. IsDirectoryPlanned (IsTrue D.tells_bytes)
        (store_of (reads (D.disk (device_of blocks.old)))) tree.now new
        (record { name = name.entry; number = None } ∷ []) build.old build.new) }
    ensures full { IsTooFullFor (IsTrue D.tells_bytes)
        (store_of (reads (D.disk (device_of blocks.old)))) tree.now
        (record { name = name.entry; number = None } ∷ []) result build.old }
    ensures damaged { IsTrue D.tells_bytes → (block : TheOption ℕ) → result ≡ Err (Tree (Damaged block))
        → CannotReadAt (D.status (device_of blocks.old)).sectors
        (store_of (reads (D.disk (device_of blocks.old)))) tree.now block }
    ensures same { IsTrue D.tells_bytes → D.disk (device_of blocks.new) ≡ D.disk (device_of blocks.old) }
    ensures counts { CountsPlan result (D.status (device_of blocks.old)) (D.status (device_of blocks.new)) }
{
    let number = None;
    change(alloc, build, blocks, tree, &[NameChange { name, number }])
}
