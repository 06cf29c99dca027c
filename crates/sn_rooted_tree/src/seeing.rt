//! Nodes and blocks of a root's tree, as overlays show them.
ghost use Rattle.std.specs.Prelude.{◌≡◌, ℕ, ◌++◌, Option as TheOption, Err, drop, length, min, replicate, take, IsTrue, IfOk, OnOk};
ghost use Rattle.sn_block.specs.Lending.{device_of};
ghost use Rattle.sn_image.specs.Acls.{no_acls};
ghost use Rattle.sn_layout_node.specs.Inode.{size_of};
ghost use Rattle.sn_overlay.specs.Seen.{seen_block, seen_node};
ghost use Rattle.sn_rooted.specs.Nodes.{shown_size};
ghost use Rattle.sn_rooted.specs.Roots.{IsSoundOn, tree_on};
ghost use Rattle.sn_tree_read.specs.Counts.{CountsTree};
ghost use Rattle.sn_tree_read.specs.declared.fault.TreeFault.TheVariants.{Damaged};
ghost use Rattle.sn_rooted_tree.specs.Nodes.{seen_in};

use sn_acl::Acl;
use sn_block::Blocks;
use sn_device::Device;
use sn_layout::BlockTree;
use sn_layout_node::Inode;
use sn_limits::{Kind, Limits};
use sn_model::Ownership;
use sn_overlay::{BLOCK_SIZE, Block, FileBlock, SeenNode};
use sn_rooted::{StoredInode, inode_of, read, stored_inode};
use sn_tree_read::TreeFault;
use std::alloc::Global;

// How many bytes a file has.
fn shown_size(inode: &Inode) -> u64
    ensures { result ≡ shown_size inode.now.kind (size_of inode.now.content) }
{
    match inode.kind {
        Kind::File => inode.content.size(),
        Kind::Directory => 0,
    }
}

// A node, without its bytes and names.
fn seen(stored: StoredInode) -> SeenNode
    ensures { result ≡ seen_in stored.inode stored.acls }
{
    let StoredInode { inode, acls } = stored;
    SeenNode {
        kind: inode.kind,
        ownership: Ownership {
            owner: inode.owner,
            group: inode.group,
            set_gid: inode.set_gid,
            sticky: inode.sticky,
            acl: acls.access.join(inode.objects),
            default_acl: acls.default,
        },
        links: inode.links,
        size: shown_size(&inode),
    }
}

// A node whose access ACL is given by its mode bits alone, and which has no default ACL.
fn seen_plain(inode: &Inode) -> SeenNode
    ensures { result ≡ seen_in inode.now no_acls }
{
    SeenNode {
        kind: inode.kind,
        ownership: Ownership {
            owner: inode.owner,
            group: inode.group,
            set_gid: inode.set_gid,
            sticky: inode.sticky,
            acl: Acl::from_mode(inode.objects),
            default_acl: None,
        },
        links: inode.links,
        size: shown_size(inode),
    }
}

// The same as `seen_node`, of a node that may have an ACL block.
fn seen_whole<D: Device>(
    blocks: &mut Blocks<D>,
    limits: &Limits,
    file: &BlockTree,
    number: u16,
) -> Result<Option<SeenNode>, TreeFault>
    ensures found { IsTrue D.tells_bytes → IsSoundOn blocks.old limits.now file.now
        → IfOk result (λ node. node ≡ seen_node (tree_on blocks.old file.now) number) }
    ensures damaged { IsTrue D.tells_bytes → IsSoundOn blocks.old limits.now file.now → (block : TheOption ℕ) → result ≡ Err (Damaged block) → ⊥ }
    ensures same { IsTrue D.tells_bytes → D.disk (device_of blocks.new) ≡ D.disk (device_of blocks.old) }
    ensures counts { CountsTree result (D.status (device_of blocks.old)) (D.status (device_of blocks.new)) }
{
    match stored_inode(blocks, limits, file, number)? {
        Some(stored) => Ok(Some(seen(stored))),
        None => Ok(None),
    }
}

/// The node that a number has in a root's tree, without its bytes and names, `None` where none has it. Where the
/// root is sound, `Damaged` is never returned. Most nodes have no ACL block, and need no more than their mode bits.
pub(crate) fn seen_node<D: Device>(
    blocks: &mut Blocks<D>,
    limits: &Limits,
    file: &BlockTree,
    number: u16,
) -> Result<Option<SeenNode>, TreeFault>
    ensures found { IsTrue D.tells_bytes → IsSoundOn blocks.old limits.now file.now
        → IfOk result (λ node. node ≡ seen_node (tree_on blocks.old file.now) number) }
    ensures damaged { IsTrue D.tells_bytes → IsSoundOn blocks.old limits.now file.now → (block : TheOption ℕ) → result ≡ Err (Damaged block) → ⊥ }
    ensures same { IsTrue D.tells_bytes → D.disk (device_of blocks.new) ≡ D.disk (device_of blocks.old) }
    ensures counts { CountsTree result (D.status (device_of blocks.old)) (D.status (device_of blocks.new)) }
{
    let Some(inode) = inode_of(blocks, limits, file, number)? else {
        return Ok(None);
    };
    if inode.acl_block != 0 {
        return seen_whole(blocks, limits, file, number);
    }
    Ok(Some(seen_plain(&inode)))
}

// Puts zeros into a block.
fn clear(block: &mut Block)
    ensures { block.new ≡ replicate 4096 0 }
{
    *block = [0; BLOCK_SIZE];
}

// Puts bytes to the front of a block, as many as it has room for.
fn put(block: &mut Block, bytes: &[u8])
    ensures { block.new ≡ take (min (length bytes.now) 4096) bytes.now ++ drop (min (length bytes.now) 4096) block.old }
{
    let count = bytes.len().min(BLOCK_SIZE);
    block[..count].copy_from_slice(&bytes[..count]);
}

/// Reads a block of a file of a root's tree, which is zeros where the file has ended. At `Err` the block may be any.
/// Where the root is sound, `Damaged` is never returned.
pub(crate) fn read_block<D: Device>(
    alloc: Global,
    blocks: &mut Blocks<D>,
    limits: &Limits,
    file: &BlockTree,
    file_block: FileBlock,
    block: &mut Block,
) -> Result<(), TreeFault>
    ensures found { IsTrue D.tells_bytes → IsSoundOn blocks.old limits.now file.now
        → OnOk result (block.new ≡ seen_block (tree_on blocks.old file.now) file_block) }
    ensures damaged { IsTrue D.tells_bytes → IsSoundOn blocks.old limits.now file.now → (block : TheOption ℕ) → result ≡ Err (Damaged block) → ⊥ }
    ensures same { IsTrue D.tells_bytes → D.disk (device_of blocks.new) ≡ D.disk (device_of blocks.old) }
    ensures counts { CountsTree result (D.status (device_of blocks.old)) (D.status (device_of blocks.new)) }
{
    let offset = file_block.index.saturating_mul(BLOCK_SIZE as u64);
    let bytes = read(
        alloc,
        blocks,
        limits,
        file,
        file_block.file,
        offset,
        BLOCK_SIZE,
    )?;
    clear(block);
    put(block, &bytes);
    Ok(())
}
