//! What there is of one number: its record, its ACL block and its content.
ghost use Rattle.std.specs.Prelude.{◌≡◌, ◌*◌, ◌%◌, ◌<◌, ◌≤◌, length, Some, IsTrue, IfOk, IfErr, IfSome, OnOk};
ghost use Rattle.sn_device.specs.Disk.{reads};
ghost use Rattle.sn_block.specs.Lending.{device_of};
ghost use Rattle.sn_layout_node.specs.Inode.{IsContent, IsInode};
ghost use Rattle.sn_layout_node.specs.declared.content.Content.TheVariants.{Tree};
ghost use Rattle.sn_limits.specs.declared.kind.Kind.TheVariants.{Directory};
ghost use Rattle.sn_ondisk.specs.Trees.{store_of};
ghost use Rattle.sn_image.specs.Contents.{content_reach};
ghost use Rattle.sn_image.specs.Inodes.{inode_at};
ghost use Rattle.sn_image.specs.Names.{names_by};
ghost use Rattle.sn_image.specs.Reach.{block_reach, inode_reach, reach_at};
ghost use Rattle.sn_image.specs.Sound.{EndsAtSize, HasAcls};
ghost use Rattle.sn_inode.specs.Reads.{CanReadAcls, CanReadRecord};
ghost use Rattle.sn_sound.specs.Faults.{IsContentFault, IsMisspelt};
ghost use Rattle.sn_marks.specs.Fault.{CountsCheck, Tells};
ghost use Rattle.sn_marks.specs.Marks.{Marks};
ghost use Rattle.sn_check_root.specs.Reading.{TreeLies};
ghost use Rattle.sn_check_root.specs.Rules.{Breaks, IsInodeFault, IsSoundContent, IsSoundInode, IsSoundNumber, IsSpeltWrong, IsWrong};

use crate::directories::check_directory;
use crate::readers::{fault_at, record_block};
use sn_block::Blocks;
use sn_device::Device;
use sn_inode::{acls, get};
use sn_layout::BlockTree;
use sn_layout_node::{Content, Inode};
use sn_limits::{Kind, Limits};
use sn_map::Map;
use sn_marks::{CheckFault, RootBit, mark, mark_tree};
use sn_tree_read::read_laws;
use std::alloc::Global;

// Tests the ACLs of an inode. What is wrong with them is reported at their block.
fn test_acls<D: Device>(blocks: &mut Blocks<D>, inode: &Inode) -> Result<(), CheckFault>
    ensures acls { IsTrue D.tells_bytes → OnOk result (HasAcls
        (store_of (reads (D.disk (device_of blocks.old)))) inode.now) }
    ensures fault { IsTrue D.tells_bytes → IfErr result (λ fault. Tells fault (Breaks (CanReadAcls
        (D.status (device_of blocks.old)).sectors (store_of (reads (D.disk (device_of blocks.old)))) inode.now) inode.now.acl_block)) }
    ensures same { IsTrue D.tells_bytes → D.disk (device_of blocks.new) ≡ D.disk (device_of blocks.old) }
    ensures counts { CountsCheck result (D.status (device_of blocks.old)) (D.status (device_of blocks.new)) }
{
    match acls(blocks, inode) {
        Ok(_acls) => Ok(()),
        Err(fault) => Err(fault_at(fault, inode.acl_block)),
    }
}

// Marks the ACL block of an inode, and tests it.
fn check_acls<D: Device>(
    blocks: &mut Blocks<D>,
    map: &mut Map,
    root: &RootBit,
    inode: &Inode,
) -> Result<(), CheckFault>
    requires words { length map.old ≡ root.now.geometry }
    requires room { 8 * root.now.geometry ≤ (D.status (device_of blocks.old)).sectors }
    ensures marks { OnOk result (Marks root.now.geometry root.now.bit (block_reach inode.now.acl_block) map.old map.new) }
    ensures acls { IsTrue D.tells_bytes → OnOk result (HasAcls
        (store_of (reads (D.disk (device_of blocks.old)))) inode.now) }
    ensures fault { IsTrue D.tells_bytes → IfErr result (λ fault. Tells fault (IsWrong root.now.geometry root.now.bit
        (block_reach inode.now.acl_block) map.old (λ block. (block ≡ inode.now.acl_block)
        × (HasAcls (store_of (reads (D.disk (device_of blocks.old)))) inode.now → ⊥)))) }
    ensures words { length map.new ≡ length map.old }
    ensures same { IsTrue D.tells_bytes → D.disk (device_of blocks.new) ≡ D.disk (device_of blocks.old) }
    ensures counts { CountsCheck result (D.status (device_of blocks.old)) (D.status (device_of blocks.new)) }
{
    mark(map, root, inode.acl_block)?;
    test_acls(blocks, inode)
}

// Tests what is of a kind alone: of a directory its blocks and its names, of a file nothing.
fn check_kind<D: Device>(
    alloc: Global,
    blocks: &mut Blocks<D>,
    limits: &Limits,
    kind: Kind,
    tree: &BlockTree,
    top: u32,
) -> Result<(), CheckFault>
    requires whole { kind ≡ Directory → tree.now.size % 4096 ≡ 0 }
    requires lies { IsTrue D.tells_bytes → TreeLies (D.status (device_of blocks.old)).sectors
        (store_of (reads (D.disk (device_of blocks.old)))) tree.now }
    ensures sound { IsTrue D.tells_bytes → OnOk result (EndsAtSize (store_of (reads (D.disk (device_of blocks.old)))) tree.now
        → IsSoundContent limits.now (store_of (reads (D.disk (device_of blocks.old)))) kind (Tree tree.now)) }
    ensures fault { IsTrue D.tells_bytes → IfErr result (λ fault. Tells fault (IsSpeltWrong
        (IsContentFault limits.now (store_of (reads (D.disk (device_of blocks.old)))) kind (Tree tree.now)
        (names_by (store_of (reads (D.disk (device_of blocks.old)))) kind (Tree tree.now)) top))) }
    ensures same { IsTrue D.tells_bytes → D.disk (device_of blocks.new) ≡ D.disk (device_of blocks.old) }
    ensures counts { CountsCheck result (D.status (device_of blocks.old)) (D.status (device_of blocks.new)) }
{
    match kind {
        Kind::File => Ok(()),
        Kind::Directory => check_directory(alloc, blocks, limits, tree, top),
    }
}

// Marks the tree of an inode, and tests what is in it. `top` is the block of the inode's record.
fn check_tree<D: Device>(
    alloc: Global,
    blocks: &mut Blocks<D>,
    map: &mut Map,
    root: &RootBit,
    limits: &Limits,
    kind: Kind,
    tree: &BlockTree,
    top: u32,
) -> Result<(), CheckFault>
    requires whole { kind ≡ Directory → tree.now.size % 4096 ≡ 0 }
    requires words { length map.old ≡ root.now.geometry }
    requires room { 8 * root.now.geometry ≤ (D.status (device_of blocks.old)).sectors }
    ensures marks { IsTrue D.tells_bytes → OnOk result (Marks root.now.geometry root.now.bit
        (content_reach (store_of (reads (D.disk (device_of blocks.old)))) (Tree tree.now)) map.old map.new) }
    ensures sound { IsTrue D.tells_bytes → OnOk result (IsSoundContent limits.now
        (store_of (reads (D.disk (device_of blocks.old)))) kind (Tree tree.now)) }
    ensures fault { IsTrue D.tells_bytes → IfErr result (λ fault. Tells fault (IsWrong root.now.geometry root.now.bit
        (content_reach (store_of (reads (D.disk (device_of blocks.old)))) (Tree tree.now)) map.old
        (IsContentFault limits.now (store_of (reads (D.disk (device_of blocks.old)))) kind (Tree tree.now)
        (names_by (store_of (reads (D.disk (device_of blocks.old)))) kind (Tree tree.now)) top))) }
    ensures words { length map.new ≡ length map.old }
    ensures same { IsTrue D.tells_bytes → D.disk (device_of blocks.new) ≡ D.disk (device_of blocks.old) }
    ensures counts { CountsCheck result (D.status (device_of blocks.old)) (D.status (device_of blocks.new)) }
{
    mark_tree(blocks, map, root, tree, top)?;
    // What was gone through is on the device.
    read_laws();
    check_kind(alloc, blocks, limits, kind, tree, top)
}

// Marks the blocks of an inode's content, and tests it. `top` is the block of the inode's record.
fn check_content<D: Device>(
    alloc: Global,
    blocks: &mut Blocks<D>,
    map: &mut Map,
    root: &RootBit,
    limits: &Limits,
    inode: &Inode,
    top: u32,
) -> Result<(), CheckFault>
    requires content { IsContent limits.now inode.now.kind inode.now.content }
    requires words { length map.old ≡ root.now.geometry }
    requires room { 8 * root.now.geometry ≤ (D.status (device_of blocks.old)).sectors }
    ensures marks { IsTrue D.tells_bytes → OnOk result (Marks root.now.geometry root.now.bit
        (content_reach (store_of (reads (D.disk (device_of blocks.old)))) inode.now.content) map.old map.new) }
    ensures sound { IsTrue D.tells_bytes → OnOk result (IsSoundContent limits.now
        (store_of (reads (D.disk (device_of blocks.old)))) inode.now.kind inode.now.content) }
    ensures fault { IsTrue D.tells_bytes → IfErr result (λ fault. Tells fault (IsWrong root.now.geometry root.now.bit
        (content_reach (store_of (reads (D.disk (device_of blocks.old)))) inode.now.content) map.old
        (IsContentFault limits.now (store_of (reads (D.disk (device_of blocks.old)))) inode.now.kind inode.now.content
        (names_by (store_of (reads (D.disk (device_of blocks.old)))) inode.now.kind inode.now.content) top))) }
    ensures words { length map.new ≡ length map.old }
    ensures same { IsTrue D.tells_bytes → D.disk (device_of blocks.new) ≡ D.disk (device_of blocks.old) }
    ensures counts { CountsCheck result (D.status (device_of blocks.old)) (D.status (device_of blocks.new)) }
{
    match &inode.content {
        Content::Inline(_) => Ok(()),
        Content::Tree(tree) => {
            check_tree(alloc, blocks, map, root, limits, inode.kind, tree, top)
        }
    }
}

// Marks what an inode reaches, and tests it. `top` is the block of the inode's record.
fn check_used<D: Device>(
    alloc: Global,
    blocks: &mut Blocks<D>,
    map: &mut Map,
    root: &RootBit,
    limits: &Limits,
    inode: &Inode,
    top: u32,
) -> Result<(), CheckFault>
    requires valid { IsInode limits.now inode.now }
    requires words { length map.old ≡ root.now.geometry }
    requires room { 8 * root.now.geometry ≤ (D.status (device_of blocks.old)).sectors }
    ensures marks { IsTrue D.tells_bytes → OnOk result (Marks root.now.geometry root.now.bit
        (inode_reach (store_of (reads (D.disk (device_of blocks.old)))) (Some inode.now)) map.old map.new) }
    ensures sound { IsTrue D.tells_bytes → OnOk result (IsSoundInode limits.now
        (store_of (reads (D.disk (device_of blocks.old)))) inode.now) }
    ensures fault { IsTrue D.tells_bytes → IfErr result (λ fault. Tells fault (IsWrong root.now.geometry root.now.bit
        (inode_reach (store_of (reads (D.disk (device_of blocks.old)))) (Some inode.now)) map.old
        (IsInodeFault limits.now (store_of (reads (D.disk (device_of blocks.old)))) inode.now top))) }
    ensures words { length map.new ≡ length map.old }
    ensures same { IsTrue D.tells_bytes → D.disk (device_of blocks.new) ≡ D.disk (device_of blocks.old) }
    ensures counts { CountsCheck result (D.status (device_of blocks.old)) (D.status (device_of blocks.new)) }
{
    check_acls(blocks, map, root, inode)?;
    check_content(alloc, blocks, map, root, limits, inode, top)
}

// The inode of a number. A record that spells none is reported at its block.
pub(crate) fn inode_of<D: Device>(
    blocks: &mut Blocks<D>,
    limits: &Limits,
    file: &BlockTree,
    number: u16,
    top: u32,
) -> Result<Option<Inode>, CheckFault>
    ensures inode { IsTrue D.tells_bytes → IfOk result (λ inode. inode
        ≡ inode_at (store_of (reads (D.disk (device_of blocks.old)))) file.now number) }
    ensures valid { IfOk result (λ inode. IfSome inode (λ used. IsInode limits.now used)) }
    ensures read { IsTrue D.tells_bytes → OnOk result (CanReadRecord limits.now
        (D.status (device_of blocks.old)).sectors
        (store_of (reads (D.disk (device_of blocks.old)))) file.now number) }
    ensures fault { IsTrue D.tells_bytes → IfErr result (λ fault. Tells fault (Breaks (CanReadRecord limits.now
        (D.status (device_of blocks.old)).sectors
        (store_of (reads (D.disk (device_of blocks.old)))) file.now number) top)) }
    ensures same { IsTrue D.tells_bytes → D.disk (device_of blocks.new) ≡ D.disk (device_of blocks.old) }
    ensures counts { CountsCheck result (D.status (device_of blocks.old)) (D.status (device_of blocks.new)) }
{
    match get(blocks, limits, file, number) {
        Ok(inode) => Ok(inode),
        Err(fault) => Err(fault_at(fault, top)),
    }
}

/// Tests what is under a number, and marks the blocks that its inode reaches. The inode file's own
/// blocks are marked by then. What is reported is so: a record that spells nothing, a rule of its inode that
/// is broken, or a block that can't be gone through. `body` is the block of the root body.
pub(crate) fn check_inode<D: Device>(
    alloc: Global,
    blocks: &mut Blocks<D>,
    map: &mut Map,
    root: &RootBit,
    limits: &Limits,
    file: &BlockTree,
    body: u32,
    number: u16,
) -> Result<(), CheckFault>
    requires words { length map.old ≡ root.now.geometry }
    requires room { 8 * root.now.geometry ≤ (D.status (device_of blocks.old)).sectors }
    requires lies { IsTrue D.tells_bytes → TreeLies (D.status (device_of blocks.old)).sectors
        (store_of (reads (D.disk (device_of blocks.old)))) file.now }
    ensures marks { IsTrue D.tells_bytes → OnOk result (Marks root.now.geometry root.now.bit
        (reach_at (store_of (reads (D.disk (device_of blocks.old)))) file.now number) map.old map.new) }
    ensures sound { IsTrue D.tells_bytes → OnOk result (IsSoundNumber limits.now
        (store_of (reads (D.disk (device_of blocks.old)))) file.now number) }
    ensures fault { IsTrue D.tells_bytes → IfErr result (λ fault. Tells fault (IsWrong root.now.geometry root.now.bit
        (reach_at (store_of (reads (D.disk (device_of blocks.old)))) file.now number) map.old
        (IsMisspelt limits.now (store_of (reads (D.disk (device_of blocks.old)))) file.now body))) }
    ensures words { length map.new ≡ length map.old }
    ensures same { IsTrue D.tells_bytes → D.disk (device_of blocks.new) ≡ D.disk (device_of blocks.old) }
    ensures counts { CountsCheck result (D.status (device_of blocks.old)) (D.status (device_of blocks.new)) }
{
    let top = record_block(blocks, file, body, u64::from(number))?;
    match inode_of(blocks, limits, file, number, top)? {
        Some(inode) => check_used(alloc, blocks, map, root, limits, &inode, top),
        None => Ok(()),
    }
}
