//! The contents of directories that changed.
ghost use Rattle.std.specs.Prelude.{◌≡◌, ℕ, ◌≢◌, ◌⊎◌, ◌*◌, ◌%◌, ◌≤◌, ◌↔◌, List, false, Option as TheOption, Err, IsTrue, IfOk};
ghost use Rattle.sn_device.specs.Disk.{reads};
ghost use Rattle.sn_block.specs.Lending.{device_of};
ghost use Rattle.sn_block.specs.declared.fault.ReadFault.TheVariants.{Device};
ghost use Rattle.sn_dir_change.specs.Changes.{AreChanges};
ghost use Rattle.sn_dir_change.specs.Planned.{IsDirectoryPlanned, IsTooFullFor, CannotRead};
ghost use Rattle.sn_dir_change.specs.declared.name_change.NameChange.{NameChange as TheChange};
ghost use Rattle.sn_image.specs.Contents.{content_reach};
ghost use Rattle.sn_layout.specs.declared.tree.BlockTree.{BlockTree as TheTree};
ghost use Rattle.sn_layout_node.specs.declared.content.Content.TheVariants.{Tree as OfTree};
ghost use Rattle.sn_ondisk.specs.Trees.{store_of};
ghost use Rattle.sn_tree.specs.Steps.{LeadsOutside, CountsPlan};
ghost use Rattle.sn_tree.specs.declared.fault.PlanFault.TheVariants.{Tree, Full};
ghost use Rattle.sn_tree_read.specs.declared.fault.TreeFault.TheVariants.{Damaged, Read};
ghost use Rattle.sn_cp_nodes.specs.Parts.{empty_tree};
ghost use Rattle.sn_cp_nodes.specs.Made.{ChangeThem, IsBegun, IsDirectoryMade, IsTooSmall, CanBegin, CanMakeDirectory};

use sn_block::Blocks;
use sn_content::release_all;
use sn_device::Device;
use sn_dir_change::{NameChange, are_changes, change};
use sn_layout::{BLOCK_SIZE, BlockTree, POINTERS, Pointers};
use sn_layout_node::Content;
use sn_model::Link;
use sn_tree::{Build, PlanFault};
use sn_tree_read::TreeFault;
use std::alloc::{AllocError, Global};

// The most bytes of a directory that can still grow by as many blocks as there are numbers of blocks.
const ROOMY: u64 = 1 << 45;

// A tree without blocks.
fn empty() -> BlockTree
    ensures { result ≡ empty_tree }
{
    BlockTree {
        size: 0,
        pointers: Pointers::new(&[0; POINTERS]),
    }
}

// The names of a list as changes of a directory.
fn name_changes<'a>(
    alloc: Global,
    names: &'a [(Link, Option<u16>)],
) -> Result<Vec<NameChange<'a>>, AllocError>
    ensures { IfOk result (λ changes. ChangeThem names.now changes.items) }
{
    let mut changes = Vec::new(alloc);
    for entry in names {
        changes.push(NameChange {
            name: entry.0.name.as_bytes(),
            number: entry.1,
        })?;
    }
    Ok(changes)
}

// The tree in which the names are to change.
fn begun<D: Device>(
    build: &mut Build,
    blocks: &mut Blocks<D>,
    old: &Content,
    fresh: bool,
) -> Result<BlockTree, PlanFault>
    ensures begun { IfOk result (λ tree. IsBegun (IsTrue D.tells_bytes)
        (store_of (reads (D.disk (device_of blocks.old)))) old.now fresh tree build.old build.new) }
    ensures full { result ≢ Err Full }
    ensures damaged { IsTrue D.tells_bytes → (block : TheOption ℕ) → result ≡ Err (Tree (Damaged block))
        → ((fresh ≡ false) × ((tree : TheTree) → old.now ≡ OfTree tree → ⊥))
        ⊎ LeadsOutside (D.status (device_of blocks.old)).sectors
        (content_reach (store_of (reads (D.disk (device_of blocks.old)))) old.now) }
    ensures same { IsTrue D.tells_bytes → D.disk (device_of blocks.new) ≡ D.disk (device_of blocks.old) }
    ensures counts { CountsPlan result (D.status (device_of blocks.old)) (D.status (device_of blocks.new)) }
{
    if fresh {
        release_all(build, blocks, old)?;
        return Ok(empty());
    }
    match old {
        Content::Tree(tree) => Ok(*tree),
        Content::Inline(_) => Err(PlanFault::Tree(TreeFault::Damaged { block: None })),
    }
}

// Whether a directory is of whole blocks, with room for as many more as there are numbers of blocks.
fn is_roomy(tree: &BlockTree) -> bool
    ensures { IsTrue result ↔ ((tree.now.size % 4096 ≡ 0) × (tree.now.size ≤ 35184372088832)) }
{
    tree.size.is_multiple_of(BLOCK_SIZE as u64) && tree.size <= ROOMY
}

// The names of a list as changes, which a directory can have.
fn checked_changes<'a>(
    alloc: Global,
    names: &'a [(Link, Option<u16>)],
) -> Result<Vec<NameChange<'a>>, PlanFault>
    ensures them { IfOk result (λ changes. ChangeThem names.now changes.items) }
    ensures can { IfOk result (λ changes. AreChanges changes.items) }
    ensures full { result ≢ Err Full }
    ensures damaged { (block : TheOption ℕ) → result ≡ Err (Tree (Damaged block))
        → ((changes : List TheChange) → ChangeThem names.now changes → AreChanges changes) → ⊥ }
    ensures device { result ≢ Err (Tree (Read Device)) }
{
    let changes = name_changes(alloc, names)?;
    if !are_changes(changes.as_slice()) {
        return Err(PlanFault::Tree(TreeFault::Damaged { block: None }));
    }
    Ok(changes)
}

// Plans a directory with other names in place of a tree that has room for them.
fn with_names<D: Device>(
    alloc: Global,
    build: &mut Build,
    blocks: &mut Blocks<D>,
    tree: &BlockTree,
    changes: &[NameChange<'_>],
) -> Result<BlockTree, PlanFault>
    requires changes { AreChanges changes.now }
    requires whole { tree.now.size % 4096 ≡ 0 }
    requires most { tree.now.size ≤ 35184372088832 }
    ensures planned { IfOk result (λ new. IsDirectoryPlanned (IsTrue D.tells_bytes)
        (store_of (reads (D.disk (device_of blocks.old)))) tree.now new changes.now build.old build.new) }
    ensures full { IsTooFullFor (IsTrue D.tells_bytes)
        (store_of (reads (D.disk (device_of blocks.old)))) tree.now changes.now result build.old }
    ensures damaged { IsTrue D.tells_bytes → (block : TheOption ℕ) → result ≡ Err (Tree (Damaged block))
        → CannotRead (D.status (device_of blocks.old)).sectors
        (store_of (reads (D.disk (device_of blocks.old)))) tree.now }
    ensures same { IsTrue D.tells_bytes → D.disk (device_of blocks.new) ≡ D.disk (device_of blocks.old) }
    ensures counts { CountsPlan result (D.status (device_of blocks.old)) (D.status (device_of blocks.new)) }
{
    // There are fewer blocks than that, so none of them would be enough.
    build.bound();
    if changes.len() > u32::MAX as usize {
        return Err(PlanFault::Full);
    }
    change(alloc, build, blocks, tree, changes)
}

// The tree in which the names are to change, of whole blocks and with room for as many more as there are numbers of blocks.
fn roomy_tree<D: Device>(
    build: &mut Build,
    blocks: &mut Blocks<D>,
    old: &Content,
    fresh: bool,
) -> Result<BlockTree, PlanFault>
    ensures begun { IfOk result (λ tree. IsBegun (IsTrue D.tells_bytes)
        (store_of (reads (D.disk (device_of blocks.old)))) old.now fresh tree build.old build.new) }
    ensures whole { IfOk result (λ tree. tree.size % 4096 ≡ 0) }
    ensures most { IfOk result (λ tree. tree.size ≤ 35184372088832) }
    ensures full { result ≢ Err Full }
    ensures damaged { IsTrue D.tells_bytes → (block : TheOption ℕ) → result ≡ Err (Tree (Damaged block))
        → (fresh ≡ false → CanBegin (D.status (device_of blocks.old)).sectors
        (store_of (reads (D.disk (device_of blocks.old)))) old.now)
        → LeadsOutside (D.status (device_of blocks.old)).sectors
        (content_reach (store_of (reads (D.disk (device_of blocks.old)))) old.now) }
    ensures same { IsTrue D.tells_bytes → D.disk (device_of blocks.new) ≡ D.disk (device_of blocks.old) }
    ensures counts { CountsPlan result (D.status (device_of blocks.old)) (D.status (device_of blocks.new)) }
{
    let tree = begun(build, blocks, old, fresh)?;
    if !is_roomy(&tree) {
        return Err(PlanFault::Tree(TreeFault::Damaged { block: None }));
    }
    Ok(tree)
}

/// Plans the content of a directory that changed, in place of what its number had. `Damaged` comes where it can't have
/// the names, where there was no directory, or one that is too large or can't be read, though it wasn't made anew, or
/// where a block that the old content reaches isn't on the device.
pub(crate) fn directory_content<D: Device>(
    alloc: Global,
    build: &mut Build,
    blocks: &mut Blocks<D>,
    old: &Content,
    fresh: bool,
    names: &[(Link, Option<u16>)],
) -> Result<BlockTree, PlanFault>
    ensures made { IfOk result (λ new. IsDirectoryMade (IsTrue D.tells_bytes)
        (store_of (reads (D.disk (device_of blocks.old)))) old.now fresh names.now new build.old build.new) }
    ensures full { IsTrue D.tells_bytes → result ≡ Err Full → IsTooSmall (IsTrue D.tells_bytes)
        (store_of (reads (D.disk (device_of blocks.old)))) old.now fresh names.now build.old }
    ensures damaged { IsTrue D.tells_bytes → (block : TheOption ℕ) → result ≡ Err (Tree (Damaged block))
        → CanMakeDirectory (D.status (device_of blocks.old)).sectors
        (store_of (reads (D.disk (device_of blocks.old)))) old.now fresh names.now → ⊥ }
    ensures same { IsTrue D.tells_bytes → D.disk (device_of blocks.new) ≡ D.disk (device_of blocks.old) }
    ensures counts { CountsPlan result (D.status (device_of blocks.old)) (D.status (device_of blocks.new)) }
{
    let changes = checked_changes(alloc, names)?;
    let tree = roomy_tree(build, blocks, old, fresh)?;
    with_names(alloc, build, blocks, &tree, changes.as_slice())
}
