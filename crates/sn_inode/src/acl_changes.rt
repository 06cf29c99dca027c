//! The records of changes, whose ACL blocks are placed.
ghost use Rattle.std.specs.Prelude.{◌≡◌, ℕ, ◌≢◌, ◌/◌, ◌<◌, ◌≤◌, [], ◌∷◌, false, length, Some, Option as TheOption, Err, IsTrue, IfOk, All};
ghost use Rattle.sn_device.specs.Disk.{reads};
ghost use Rattle.sn_alloc.specs.Taking.{free_data};
ghost use Rattle.sn_block.specs.Lending.{device_of};
ghost use Rattle.sn_limits.specs.declared.limits.Limits.{Limits as TheLimits};
ghost use Rattle.sn_layout_acl.specs.AclBlock.{IsAclBlock, acl_block_bytes, entries_in};
ghost use Rattle.sn_layout_node.specs.Inode.{IsInode, IsRecord};
ghost use Rattle.sn_ondisk.specs.Trees.{store_of};
ghost use Rattle.sn_image.specs.Acls.{no_acls};
ghost use Rattle.sn_tree.specs.Steps.{IsTooFull, CountsPlan};
ghost use Rattle.sn_tree.specs.declared.fault.PlanFault.TheVariants.{Tree, Full};
ghost use Rattle.sn_tree_read.specs.Paths.{block_met};
ghost use Rattle.sn_tree_read.specs.declared.fault.TreeFault.{TreeFault as TheFault};
ghost use Rattle.sn_tree_read.specs.declared.fault.TreeFault.TheVariants.{Damaged};
ghost use Rattle.sn_inode.specs.Changes.{IsChange, IsNew, IsChanged, AclsStandAt, HasAclsOf, acl_pointer, kept_pointer, IsUnreadableAt};
ghost use Rattle.sn_inode.specs.Reads.{CanReadRecord};
ghost use Rattle.sn_inode.specs.Stored.{IsPlaced, AreSettled, inode_in};
ghost use Rattle.sn_inode.specs.declared.changes.AclChange.TheVariants.{Kept};
ghost use Rattle.sn_inode.specs.declared.changes.StoredRecord.{StoredRecord as TheStored};

use crate::changes::StoredRecord;
use crate::{AclChange, InodeChange, RecordChange, get};
use sn_block::{BLOCK_SIZE, Block, Blocks};
use sn_device::Device;
use sn_layout::BlockTree;
use sn_layout_acl::AclBlock;
use sn_layout_node::{Inode, InodeRecord};
use sn_limits::{Kind, Limits};
use sn_tree::{Build, PlanFault};
use std::alloc::{AllocError, Global};

// Whether ACLs have entries, for which they take a block.
fn has_entries(acls: &AclBlock) -> bool
    ensures some { IsTrue result → 0 < entries_in acls.now }
    ensures none { result ≡ false → acls.now ≡ no_acls }
{
    match &acls.default {
        Some(acl) => {
            acl.entries();
            true
        }
        None => !acls.access.as_slice().is_empty(),
    }
}

// The block that spells ACLs.
fn spelled(alloc: Global, acls: &AclBlock) -> Result<Box<Block>, AllocError>
    requires { 0 < entries_in acls.now }
    ensures fits { IsAclBlock acls.now }
    ensures bytes { IfOk result (λ block. block.value ≡ acl_block_bytes acls.now) }
{
    let mut block = [0; BLOCK_SIZE];
    acls.encode(&mut block);
    Ok(Box::new(alloc, block)?)
}

// The new pointer in place of one to an ACL block: that of a block of these, or 0 where there are none.
fn replace_acls(
    alloc: Global,
    build: &mut Build,
    pointer: u32,
    acls: &AclBlock,
) -> Result<u32, PlanFault>
    ensures placed { IfOk result (λ new. IsPlaced (λ s. AclsStandAt s acls.now new) pointer new build.old build.new) }
    ensures full { result ≡ Err Full → free_data build.old.words build.old.first ≤ length build.old.added }
    ensures own { (fault : TheFault) → result ≢ Err (Tree fault) }
{
    build.release(pointer)?;
    if !has_entries(acls) {
        return Ok(0);
    }
    let block = spelled(alloc, acls)?;
    build.put(block)
}

fn acl_pointer(inode: &Option<Inode>) -> u32
    ensures { result ≡ acl_pointer inode.now }
{
    match inode {
        Some(inode) => inode.acl_block,
        None => 0,
    }
}

// The pointer that stays where ACLs are kept.
fn kept_pointer(old: &Option<Inode>, kind: Kind) -> u32
    ensures { result ≡ kept_pointer old.now kind }
{
    match old {
        Some(inode) => pointer_of_kind(inode, kind),
        None => 0,
    }
}

fn pointer_of_kind(inode: &Inode, kind: Kind) -> u32
    ensures { result ≡ kept_pointer (Some inode.now) kind }
{
    match (inode.kind, kind) {
        (Kind::File, Kind::File) | (Kind::Directory, Kind::Directory) => inode.acl_block,
        _ => 0,
    }
}

// The pointer of an inode that keeps its ACLs, unless it is of another kind now.
fn keep_acls(build: &mut Build, old: &Option<Inode>, kind: Kind) -> Result<u32, PlanFault>
    ensures placed { IfOk result (λ new. IsPlaced (λ s. HasAclsOf s old.now kind Kept new) (acl_pointer old.now) new build.old build.new) }
    ensures full { result ≡ Err Full → ⊥ }
    ensures own { (fault : TheFault) → result ≢ Err (Tree fault) }
{
    let pointer = acl_pointer(old);
    let kept = kept_pointer(old, kind);
    if kept == pointer {
        return Ok(kept);
    }
    build.release(pointer)?;
    Ok(kept)
}

// The new pointer to the ACL block of an inode of this kind.
fn place_acls(
    alloc: Global,
    build: &mut Build,
    old: &Option<Inode>,
    kind: Kind,
    change: &AclChange,
) -> Result<u32, PlanFault>
    ensures placed { IfOk result (λ new. IsPlaced (λ s. HasAclsOf s old.now kind change.now new) (acl_pointer old.now) new build.old build.new) }
    ensures full { result ≡ Err Full → free_data build.old.words build.old.first ≤ length build.old.added }
    ensures own { (fault : TheFault) → result ≢ Err (Tree fault) }
{
    match change {
        AclChange::Kept => keep_acls(build, old, kind),
        AclChange::Set(acls) => replace_acls(alloc, build, acl_pointer(old), acls),
    }
}

// An inode with another ACL block.
fn with_acl_block(inode: &Inode, acl_block: u32) -> Inode
    ensures inode { result ≡ record inode.now { acl_block = acl_block } }
    ensures valid { (limits : TheLimits) → IsInode limits inode.now → IsInode limits result }
{
    let mut changed = inode.copy();
    changed.acl_block = acl_block;
    changed
}

// The record of a change, in place of that of an inode.
fn new_record(
    alloc: Global,
    build: &mut Build,
    old: &Option<Inode>,
    change: &RecordChange,
) -> Result<InodeRecord, PlanFault>
    ensures placed { IfOk result (λ new. IsPlaced (λ s. IsChanged s old.now change.now (inode_in new)) (acl_pointer old.now) (acl_pointer (inode_in new)) build.old build.new) }
    ensures valid { IfOk result (λ new. (limits : TheLimits) → IsNew limits change.now → IsRecord limits new) }
    ensures full { result ≡ Err Full → free_data build.old.words build.old.first ≤ length build.old.added }
    ensures own { (fault : TheFault) → result ≢ Err (Tree fault) }
{
    match change {
        RecordChange::Unused => {
            build.release(acl_pointer(old))?;
            Ok(InodeRecord::Unused)
        }
        RecordChange::Used(inode, acls) => {
            let acl_block = place_acls(alloc, build, old, inode.kind, acls)?;
            Ok(InodeRecord::Used(with_acl_block(inode, acl_block)))
        }
    }
}

// The record that a number is to have.
fn settled<D: Device>(
    alloc: Global,
    build: &mut Build,
    blocks: &mut Blocks<D>,
    limits: &Limits,
    file: &BlockTree,
    change: &InodeChange,
) -> Result<StoredRecord, PlanFault>
    requires { IsChange limits.now change.now }
    ensures settled { IfOk result (λ stored. AreSettled (IsTrue D.tells_bytes)
        (store_of (reads (D.disk (device_of blocks.old)))) file.now (change.now ∷ []) (stored ∷ []) build.old build.new) }
    ensures valid { IfOk result (λ stored. IsRecord limits.now stored.record) }
    ensures full { result ≡ Err Full → free_data build.old.words build.old.first ≤ length build.old.added }
    ensures damaged { IsTrue D.tells_bytes → (block : TheOption ℕ) → result ≡ Err (Tree (Damaged block)) → (CanReadRecord limits.now
        (D.status (device_of blocks.old)).sectors
        (store_of (reads (D.disk (device_of blocks.old)))) file.now change.now.number → ⊥)
        × (block ≡ block_met (D.status (device_of blocks.old)).sectors
        (store_of (reads (D.disk (device_of blocks.old)))) file.now (change.now.number / 32)) }
    ensures same { IsTrue D.tells_bytes → D.disk (device_of blocks.new) ≡ D.disk (device_of blocks.old) }
    ensures counts { CountsPlan result (D.status (device_of blocks.old)) (D.status (device_of blocks.new)) }
{
    let old = get(blocks, limits, file, change.number)?;
    let record = new_record(alloc, build, &old, &change.record)?;
    Ok(StoredRecord {
        number: change.number,
        record,
    })
}

/// The records that the numbers of changes are to have, in their order.
pub(crate) fn settle<D: Device>(
    alloc: Global,
    build: &mut Build,
    blocks: &mut Blocks<D>,
    limits: &Limits,
    file: &BlockTree,
    changes: &[InodeChange],
) -> Result<Vec<StoredRecord>, PlanFault>
    requires { All (IsChange limits.now) changes.now }
    ensures settled { IfOk result (λ stored. AreSettled (IsTrue D.tells_bytes)
        (store_of (reads (D.disk (device_of blocks.old)))) file.now changes.now stored.items build.old build.new) }
    ensures valid { IfOk result (λ stored. All (λ (x : TheStored). IsRecord limits.now x.record) stored.items) }
    ensures full { IsTooFull result build.old (length changes.now) }
    ensures damaged { IsTrue D.tells_bytes → (block : TheOption ℕ) → result ≡ Err (Tree (Damaged block)) → IsUnreadableAt limits.now
        (D.status (device_of blocks.old)).sectors
        (store_of (reads (D.disk (device_of blocks.old)))) file.now changes.now block }
    ensures same { IsTrue D.tells_bytes → D.disk (device_of blocks.new) ≡ D.disk (device_of blocks.old) }
    ensures counts { CountsPlan result (D.status (device_of blocks.old)) (D.status (device_of blocks.new)) }
{
    let mut stored = Vec::new(alloc);
    for change in changes {
        let record = settled(alloc, build, blocks, limits, file, change)?;
        stored.reserve(1)?;
        stored.push_reserved(record);
    }
    Ok(stored)
}
