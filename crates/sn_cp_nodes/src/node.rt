//! One node of an overlay.
ghost use Rattle.std.specs.Prelude.{◌≡◌, ℕ, ◌≢◌, Some, Option as TheOption, Err, IsTrue, IfOk, IfSome};
ghost use Rattle.sn_device.specs.Disk.{reads};
ghost use Rattle.sn_block.specs.Lending.{device_of};
ghost use Rattle.sn_inode.specs.Changes.{IsChange};
ghost use Rattle.sn_limits.specs.Versions.{limits_of};
ghost use Rattle.sn_ondisk.specs.Trees.{store_of};
ghost use Rattle.sn_tree.specs.Steps.{CountsPlan};
ghost use Rattle.sn_tree.specs.declared.fault.PlanFault.TheVariants.{Tree, Full};
ghost use Rattle.sn_tree_read.specs.declared.fault.TreeFault.TheVariants.{Damaged};
ghost use Rattle.sn_overlay.specs.Layers.{Layer};
ghost use Rattle.sn_cp_nodes.specs.Parts.{content_of, IsPartOf};
ghost use Rattle.sn_cp_nodes.specs.Made.{IsContentMade, IsInodeMade, IsGone, IsNodeMade, IsTooSmallAs, IsTooSmallFor, CanMakeContent, CanMakeInode, CanRelease, CanPlan};
ghost use Rattle.sn_cp_nodes.specs.Built.{BuildsNode, IsTooSmallAt, CanBuildNode};

use crate::directories::directory_content;
use crate::files::file_content;
use crate::inodes::inode_for;
use sn_block::Blocks;
use sn_content::release_all;
use sn_device::Device;
use sn_inode::{InodeChange, RecordChange, get, is_change};
use sn_layout::BlockTree;
use sn_layout_node::{Content, InlineBytes, Inode};
use sn_limits::{Kind, Limits};
use sn_model::Link;
use sn_overlay::{Block, FileBlock, NodeChange, NodeState};
use sn_tree::{Build, PlanFault};
use sn_tree_read::TreeFault;
use std::alloc::Global;

// The content of an inode, and no bytes for a number that no node has.
fn content_of(inode: &Option<Inode>) -> Content
    ensures { result ≡ content_of inode.now }
{
    match inode {
        Some(inode) => inode.content.copy(),
        None => Content::Inline(InlineBytes::new(&[])),
    }
}

// Plans the content of a node that changed.
fn content_for<D: Device>(
    alloc: Global,
    build: &mut Build,
    blocks: &mut Blocks<D>,
    old: &Content,
    state: &NodeState,
    names: &[(Link, Option<u16>)],
    written: Vec<(FileBlock, Box<Block>)>,
) -> Result<Content, PlanFault>
    ensures made { IfOk result (λ new. IsContentMade (IsTrue D.tells_bytes)
        (store_of (reads (D.disk (device_of blocks.old)))) old.now state.now names.now written.items new build.old build.new) }
    ensures full { IsTrue D.tells_bytes → result ≡ Err Full → IsTooSmallAs state.now.kind (IsTrue D.tells_bytes)
        (store_of (reads (D.disk (device_of blocks.old)))) old.now state.now names.now written.items build.old }
    ensures damaged { IsTrue D.tells_bytes → (block : TheOption ℕ) → result ≡ Err (Tree (Damaged block))
        → CanMakeContent (D.status (device_of blocks.old)).sectors
        (store_of (reads (D.disk (device_of blocks.old)))) old.now state.now names.now written.items → ⊥ }
    ensures same { IsTrue D.tells_bytes → D.disk (device_of blocks.new) ≡ D.disk (device_of blocks.old) }
    ensures counts { CountsPlan result (D.status (device_of blocks.old)) (D.status (device_of blocks.new)) }
{
    match state.kind {
        Kind::File => file_content(alloc, build, blocks, old, state, written),
        Kind::Directory => {
            let tree = directory_content(alloc, build, blocks, old, state.fresh, names)?;
            Ok(Content::Tree(tree))
        }
    }
}

// Plans the inode of a node that changed.
fn changed<D: Device>(
    alloc: Global,
    build: &mut Build,
    blocks: &mut Blocks<D>,
    limits: &Limits,
    was: &Option<Inode>,
    number: u16,
    state: &NodeState,
    names: &[(Link, Option<u16>)],
    written: Vec<(FileBlock, Box<Block>)>,
) -> Result<InodeChange, PlanFault>
    ensures number { IfOk result (λ change. change.number ≡ number) }
    ensures can { IfOk result (IsChange limits.now) }
    ensures made { IfOk result (λ change. IsInodeMade (IsTrue D.tells_bytes)
        (store_of (reads (D.disk (device_of blocks.old)))) was.now state.now names.now written.items change.record build.old build.new) }
    ensures full { IsTrue D.tells_bytes → result ≡ Err Full → IsTooSmallAs state.now.kind (IsTrue D.tells_bytes)
        (store_of (reads (D.disk (device_of blocks.old)))) (content_of was.now) state.now names.now written.items build.old }
    ensures damaged { IsTrue D.tells_bytes → (block : TheOption ℕ) → result ≡ Err (Tree (Damaged block))
        → CanMakeInode (IsTrue D.tells_bytes) limits.now (D.status (device_of blocks.old)).sectors
        (store_of (reads (D.disk (device_of blocks.old)))) was.now number state.now names.now written.items build.old → ⊥ }
    ensures same { IsTrue D.tells_bytes → D.disk (device_of blocks.new) ≡ D.disk (device_of blocks.old) }
    ensures counts { CountsPlan result (D.status (device_of blocks.old)) (D.status (device_of blocks.new)) }
{
    let old = content_of(was);
    let content = content_for(alloc, build, blocks, &old, state, names, written)?;
    // Each block that was added was free, and none was added twice.
    build.added();
    let (inode, acls) = inode_for(was, state, content);
    let record = RecordChange::Used(inode, acls);
    let change = InodeChange { number, record };
    if !is_change(limits, &change) {
        return Err(PlanFault::Tree(TreeFault::Damaged { block: None }));
    }
    Ok(change)
}

// Releases what a number had. One that had nothing doesn't change.
fn gone<D: Device>(
    build: &mut Build,
    blocks: &mut Blocks<D>,
    limits: &Limits,
    was: &Option<Inode>,
    number: u16,
) -> Result<Option<InodeChange>, PlanFault>
    ensures number { IfOk result (λ change. IfSome change (λ some. some.number ≡ number)) }
    ensures can { IfOk result (λ change. IfSome change (IsChange limits.now)) }
    ensures gone { IfOk result (λ change. IsGone (IsTrue D.tells_bytes)
        (store_of (reads (D.disk (device_of blocks.old)))) was.now number change build.old build.new) }
    ensures full { result ≢ Err Full }
    ensures damaged { IsTrue D.tells_bytes → (block : TheOption ℕ) → result ≡ Err (Tree (Damaged block)) → IfSome was.now
        (CanRelease limits.now (D.status (device_of blocks.old)).sectors
        (store_of (reads (D.disk (device_of blocks.old)))) number) → ⊥ }
    ensures same { IsTrue D.tells_bytes → D.disk (device_of blocks.new) ≡ D.disk (device_of blocks.old) }
    ensures counts { CountsPlan result (D.status (device_of blocks.old)) (D.status (device_of blocks.new)) }
{
    let Some(inode) = was else {
        return Ok(None);
    };
    let record = RecordChange::Unused;
    let change = InodeChange { number, record };
    if !is_change(limits, &change) {
        return Err(PlanFault::Tree(TreeFault::Damaged { block: None }));
    }
    release_all(build, blocks, &inode.content)?;
    Ok(Some(change))
}

// Plans what becomes of a number that had this inode.
fn planned<D: Device>(
    alloc: Global,
    build: &mut Build,
    blocks: &mut Blocks<D>,
    limits: &Limits,
    was: &Option<Inode>,
    number: u16,
    change: &NodeChange,
    names: &[(Link, Option<u16>)],
    written: Vec<(FileBlock, Box<Block>)>,
) -> Result<Option<InodeChange>, PlanFault>
    ensures number { IfOk result (λ new. IfSome new (λ some. some.number ≡ number)) }
    ensures can { IfOk result (λ new. IfSome new (IsChange limits.now)) }
    ensures made { IfOk result (λ new. IsNodeMade (IsTrue D.tells_bytes)
        (store_of (reads (D.disk (device_of blocks.old)))) was.now number change.now names.now written.items new build.old build.new) }
    ensures full { IsTrue D.tells_bytes → result ≡ Err Full → IsTooSmallFor (IsTrue D.tells_bytes)
        (store_of (reads (D.disk (device_of blocks.old)))) was.now change.now names.now written.items build.old }
    ensures damaged { IsTrue D.tells_bytes → (block : TheOption ℕ) → result ≡ Err (Tree (Damaged block))
        → CanPlan (IsTrue D.tells_bytes) limits.now (D.status (device_of blocks.old)).sectors
        (store_of (reads (D.disk (device_of blocks.old)))) was.now number change.now names.now written.items build.old → ⊥ }
    ensures same { IsTrue D.tells_bytes → D.disk (device_of blocks.new) ≡ D.disk (device_of blocks.old) }
    ensures counts { CountsPlan result (D.status (device_of blocks.old)) (D.status (device_of blocks.new)) }
{
    match change {
        NodeChange::Gone { .. } => gone(build, blocks, limits, was, number),
        NodeChange::Changed(state) => {
            let new = changed(
                alloc, build, blocks, limits, was, number, state, names, written,
            )?;
            Ok(Some(new))
        }
    }
}

/// Plans what becomes of a number that a layer has, with the names and the blocks that the layer has of it, and answers
/// how its inode is to change: not at all, where it is gone and had none. Nothing is written. `Full` comes only where
/// fewer blocks are left than a path for each of those names and blocks and one more take, and `Damaged` only where the
/// number's record can't be read or the node can't be made, over a sound root never (`damage_laws`). After an error the
/// build can only be given up.
///
/// Proved: Over the tree of a sound inode file, with a layer that shows a name tree, the inode that a number gets is the
/// node seen through the layer, in every store that has the new blocks and agrees with the old one in what the number
/// reached: kind, owner, ACLs and mode, a file's bytes and count of names, a directory's names; and it is well formed.
/// Proved: What a node's new content reaches, with what was released, is what the old one reached with what was added, each
/// block as often; a number that is gone has its blocks released, and one that is gone and had no inode changes nothing.
/// Proved: At most a path of blocks for each changed name, for each written block, and one more are added; the change is one
/// that an inode file can take, and of that number.
/// Proved, also of `room_laws`: `Full` comes only where fewer blocks are left than the node takes: over a sound inode file
/// with a layer over its tree, a path for each changed name and written block, and one more.
/// Proved, also of `damage_laws`: `Damaged` comes only where the number's record can't be read or the node can't be made of
/// what is there, and never over a sound inode file with a layer over its tree, whose blocks are on the device and can't be
/// taken.
/// Proved: Nothing is written, and nothing is counted but a failure of the device.
pub fn build_node<D: Device>(
    alloc: Global,
    build: &mut Build,
    blocks: &mut Blocks<D>,
    limits: &Limits,
    file: &BlockTree,
    number: u16,
    change: &NodeChange,
    names: &[(Link, Option<u16>)],
    written: Vec<(FileBlock, Box<Block>)>,
) -> Result<Option<InodeChange>, PlanFault>
    requires version { limits_of limits.now.version ≡ Some limits.now }
    ensures number { IfOk result (λ new. IfSome new (λ some. some.number ≡ number)) }
    ensures can { IfOk result (λ new. IfSome new (IsChange limits.now)) }
    ensures builds { (layer : Layer) → IsPartOf layer number change.now names.now written.items
        → IfOk result (λ new. BuildsNode (IsTrue D.tells_bytes) limits.now
        (store_of (reads (D.disk (device_of blocks.old)))) file.now layer number new build.old build.new) }
    ensures full { IsTrue D.tells_bytes → result ≡ Err Full → IsTooSmallAt (IsTrue D.tells_bytes)
        (store_of (reads (D.disk (device_of blocks.old)))) file.now number change.now names.now written.items build.old }
    ensures damaged { IsTrue D.tells_bytes → (block : TheOption ℕ) → result ≡ Err (Tree (Damaged block))
        → CanBuildNode (IsTrue D.tells_bytes) limits.now (D.status (device_of blocks.old)).sectors
        (store_of (reads (D.disk (device_of blocks.old)))) file.now number change.now names.now written.items build.old → ⊥ }
    ensures same { IsTrue D.tells_bytes → D.disk (device_of blocks.new) ≡ D.disk (device_of blocks.old) }
    ensures counts { CountsPlan result (D.status (device_of blocks.old)) (D.status (device_of blocks.new)) }
{
    let was = get(blocks, limits, file, number)?;
    planned(
        alloc, build, blocks, limits, &was, number, change, names, written,
    )
}
