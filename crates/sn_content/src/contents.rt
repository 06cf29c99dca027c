//! The content of a file, whose bytes are in the inode or in blocks.
ghost use Rattle.std.specs.Prelude.{◌≡◌, ℕ, ◌≢◌, ◌+◌, ◌*◌, ◌≤◌, ◌<◌, length, take, Option as TheOption, Err, IsTrue, IfOk, OnOk};
ghost use Rattle.sn_device.specs.Disk.{reads};
ghost use Rattle.sn_block.specs.Lending.{device_of};
ghost use Rattle.sn_content.specs.Contents.{content_block, IsBuilt, IsContentPlanned, IsMovedOut, IsReleased};
ghost use Rattle.sn_image.specs.Contents.{content_reach};
ghost use Rattle.sn_layout.specs.Pointers.{levels_of};
ghost use Rattle.sn_layout_node.specs.Inode.{size_of};
ghost use Rattle.sn_ondisk.specs.Trees.{store_of};
ghost use Rattle.sn_tree.specs.Dirty.{IsFrom, block_after};
ghost use Rattle.sn_tree.specs.Orders.{AreInOrder};
ghost use Rattle.sn_tree.specs.Steps.{IsTooFull, LeadsOutsideAt, CountsPlan};
ghost use Rattle.sn_tree.specs.declared.fault.PlanFault.TheVariants.{Tree, Full};
ghost use Rattle.sn_tree_read.specs.declared.fault.TreeFault.TheVariants.{Damaged};

use crate::inline::{dirty_first, inline_block, wanted_bytes};
use sn_block::Blocks;
use sn_device::Device;
use sn_layout::{BlockTree, POINTERS, Pointers};
use sn_layout_node::{Content, INLINE_MAX, InlineBytes};
use sn_tree::{Build, Dirty, DirtyBlock, PlanFault, plan_pointers, plan_tree, release_pointers};
use std::alloc::AllocError;
use std::collections::VecDeque;

/// Releases all blocks that a content reaches: those of a node that is gone, or of one whose number is given to
/// another. It takes no block, so `Full` never comes. `Damaged` comes only where a block that the content reaches
/// isn't on the device, and carries it. After an error the build can only be given up.
///
/// Proved: All that a content reaches is released without taking a block.
pub fn release_all<D: Device>(
    build: &mut Build,
    blocks: &mut Blocks<D>,
    content: &Content,
) -> Result<(), PlanFault>
    ensures released { OnOk result (IsReleased (IsTrue D.tells_bytes)
        (store_of (reads (D.disk (device_of blocks.old)))) content.now build.old build.new) }
    ensures full { result ≢ Err Full }
    ensures damaged { IsTrue D.tells_bytes → (block : TheOption ℕ) → result ≡ Err (Tree (Damaged block))
        → LeadsOutsideAt (D.status (device_of blocks.old)).sectors
        (content_reach (store_of (reads (D.disk (device_of blocks.old)))) content.now) block }
    ensures same { IsTrue D.tells_bytes → D.disk (device_of blocks.new) ≡ D.disk (device_of blocks.old) }
    ensures counts { CountsPlan result (D.status (device_of blocks.old)) (D.status (device_of blocks.new)) }
{
    match content {
        Content::Inline(_) => Ok(()),
        Content::Tree(tree) => {
            // No more blocks were added than are free.
            build.bound();
            let mut pointers = [0; POINTERS];
            pointers.copy_from_slice(tree.pointers.as_slice());
            release_pointers(
                build,
                blocks,
                &mut pointers,
                BlockTree::levels_of(tree.size),
            )
        }
    }
}

// Plans a content whose bytes the inode is to hold.
fn plan_inline<D: Device>(
    build: &mut Build,
    blocks: &mut Blocks<D>,
    content: &Content,
    dirty: &Dirty,
) -> Result<InlineBytes, PlanFault>
    requires size { dirty.now.size ≤ 64 }
    requires rise { IsFrom 0 dirty.now.blocks.items }
    ensures bytes { IsTrue D.tells_bytes → IfOk result (λ bytes. bytes
        ≡ take dirty.now.size (block_after dirty.now.keep dirty.now.blocks.items 0
        (content_block (store_of (reads (D.disk (device_of blocks.old)))) content.now 0))) }
    ensures count { IfOk result (λ bytes. length bytes ≡ dirty.now.size) }
    ensures released { OnOk result (IsReleased (IsTrue D.tells_bytes)
        (store_of (reads (D.disk (device_of blocks.old)))) content.now build.old build.new) }
    ensures full { result ≢ Err Full }
    ensures damaged { IsTrue D.tells_bytes → (block : TheOption ℕ) → result ≡ Err (Tree (Damaged block))
        → LeadsOutsideAt (D.status (device_of blocks.old)).sectors
        (content_reach (store_of (reads (D.disk (device_of blocks.old)))) content.now) block }
    ensures same { IsTrue D.tells_bytes → D.disk (device_of blocks.new) ≡ D.disk (device_of blocks.old) }
    ensures counts { CountsPlan result (D.status (device_of blocks.old)) (D.status (device_of blocks.new)) }
{
    let bytes = wanted_bytes(blocks, content, dirty)?;
    release_all(build, blocks, content)?;
    Ok(bytes)
}

// Puts the bytes that leave the inode before the dirty blocks, if they stay. A file of no bytes has a hole.
fn move_out(
    build: &Build,
    inline: &InlineBytes,
    keep: u64,
    dirty: &mut VecDeque<DirtyBlock>,
) -> Result<(), AllocError>
    requires { IsFrom 0 dirty.old.items }
    ensures { OnOk result (IsMovedOut inline.now keep dirty.old.items dirty.new.items) }
{
    if keep == 0 || inline.as_slice().is_empty() || dirty_first(dirty).is_some() {
        return Ok(());
    }
    let bytes = build.boxed(&inline_block(inline))?;
    dirty.push_front(DirtyBlock { index: 0, bytes })?;
    Ok(())
}

// Plans a tree that has these blocks, and no others.
fn plan_new<D: Device>(
    build: &mut Build,
    blocks: &mut Blocks<D>,
    size: u64,
    mut dirty: VecDeque<DirtyBlock>,
) -> Result<BlockTree, PlanFault>
    requires { IsFrom 0 dirty.items }
    ensures size { IfOk result (λ new. new.size ≡ size) }
    ensures built { IfOk result (λ new. IsBuilt (IsTrue D.tells_bytes)
        (store_of (reads (D.disk (device_of blocks.old)))) new dirty.items build.old build.new) }
    ensures full { IsTooFull result build.old ((levels_of size + 1) * length dirty.items) }
    ensures sound { IsTrue D.tells_bytes → (block : TheOption ℕ) → result ≢ Err (Tree (Damaged block)) }
    ensures same { IsTrue D.tells_bytes → D.disk (device_of blocks.new) ≡ D.disk (device_of blocks.old) }
    ensures counts { CountsPlan result (D.status (device_of blocks.old)) (D.status (device_of blocks.new)) }
{
    let levels = BlockTree::levels_of(size);
    let mut pointers = [0; POINTERS];
    plan_pointers(build, blocks, &mut dirty, 0, &mut pointers, levels, 0)?;
    Ok(BlockTree {
        size,
        pointers: Pointers::new(&pointers),
    })
}

// Plans the tree of a file whose bytes leave the inode.
fn plan_moved<D: Device>(
    build: &mut Build,
    blocks: &mut Blocks<D>,
    inline: &InlineBytes,
    dirty: Dirty,
) -> Result<BlockTree, PlanFault>
    requires size { 64 < dirty.size }
    requires rise { IsFrom 0 dirty.blocks.items }
    ensures size { IfOk result (λ new. new.size ≡ dirty.size) }
    ensures planned { IfOk result (λ new. IsContentPlanned (IsTrue D.tells_bytes)
        (store_of (reads (D.disk (device_of blocks.old)))) (Content.Inline inline.now) (Content.Tree new)
        dirty.keep dirty.blocks.items build.old build.new) }
    ensures full { IsTooFull result build.old ((levels_of dirty.size + 1) * (length dirty.blocks.items + 1)) }
    ensures sound { IsTrue D.tells_bytes → (block : TheOption ℕ) → result ≢ Err (Tree (Damaged block)) }
    ensures same { IsTrue D.tells_bytes → D.disk (device_of blocks.new) ≡ D.disk (device_of blocks.old) }
    ensures counts { CountsPlan result (D.status (device_of blocks.old)) (D.status (device_of blocks.new)) }
{
    let Dirty {
        size,
        keep,
        blocks: mut changed,
    } = dirty;
    move_out(build, inline, keep, &mut changed)?;
    plan_new(build, blocks, size, changed)
}

/// Plans the content of a file with another size and other data blocks. At most 64 bytes are in the inode,
/// more in blocks: where a file grows past that, its bytes become the first ones of data block 0, if that
/// stays and isn't dirty, and where it is cut back, the inode gets the first bytes of data block 0 and all
/// blocks are released. Else it is `plan_tree` of `sn_tree`, with its errors: after one the build can only be given up.
/// `Full` comes only where fewer blocks are left than a path for each dirty block and one more, and
/// `Damaged` only where a block that the old content reaches isn't on the device, which it carries.
///
/// Proved, also of `content_laws`: A file's content with another size and other data blocks is planned in memory, with up to
/// 64 bytes in the inode and past that in blocks, before and after, and the old one is only read; what `sn_tree` says of
/// data blocks, end, reach and errors holds of the content.
pub fn plan<D: Device>(
    build: &mut Build,
    blocks: &mut Blocks<D>,
    content: &Content,
    dirty: Dirty,
) -> Result<Content, PlanFault>
    requires { AreInOrder dirty.size dirty.blocks.items }
    ensures size { IfOk result (λ new. size_of new ≡ dirty.size) }
    ensures planned { IfOk result (λ new. IsContentPlanned (IsTrue D.tells_bytes)
        (store_of (reads (D.disk (device_of blocks.old)))) content.now new
        dirty.keep dirty.blocks.items build.old build.new) }
    ensures full { IsTooFull result build.old ((levels_of dirty.size + 1) * (length dirty.blocks.items + 1)) }
    ensures damaged { IsTrue D.tells_bytes → (block : TheOption ℕ) → result ≡ Err (Tree (Damaged block))
        → LeadsOutsideAt (D.status (device_of blocks.old)).sectors
        (content_reach (store_of (reads (D.disk (device_of blocks.old)))) content.now) block }
    ensures same { IsTrue D.tells_bytes → D.disk (device_of blocks.new) ≡ D.disk (device_of blocks.old) }
    ensures counts { CountsPlan result (D.status (device_of blocks.old)) (D.status (device_of blocks.new)) }
{
    if dirty.size <= INLINE_MAX as u64 {
        let bytes = plan_inline(build, blocks, content, &dirty)?;
        return Ok(Content::Inline(bytes));
    }
    match content {
        Content::Inline(bytes) => {
            let tree = plan_moved(build, blocks, bytes, dirty)?;
            Ok(Content::Tree(tree))
        }
        Content::Tree(tree) => {
            let tree = plan_tree(build, blocks, tree, dirty)?;
            Ok(Content::Tree(tree))
        }
    }
}
