//! The inode file with other inodes.
ghost use Rattle.std.specs.Prelude.{◌≡◌, ℕ, ◌+◌, ◌-◌, ◌*◌, ◌/◌, ◌%◌, ◌<◌, ◌≤◌, length, max, Option as TheOption, Err, IsTrue, IfOk, All, slice_index};
ghost use Rattle.std.specs.List.Sorted.{IsStrictlyIncreasing};
ghost use Rattle.sn_device.specs.Disk.{reads};
ghost use Rattle.sn_block.specs.Lending.{device_of};
ghost use Rattle.sn_image.specs.Sound.{IsInodeFile};
ghost use Rattle.sn_ondisk.specs.Trees.{store_of};
ghost use Rattle.sn_tree.specs.Steps.{IsTooFull, CountsPlan};
ghost use Rattle.sn_tree.specs.declared.fault.PlanFault.TheVariants.{Tree};
ghost use Rattle.sn_tree_read.specs.declared.fault.TreeFault.TheVariants.{Damaged};
ghost use Rattle.sn_inode.specs.Changes.{IsChange, IsWith, IsUnreadableAt, numbers_in};

use crate::InodeChange;
use crate::acl_changes::settle;
use crate::inodes::RECORDS_PER_BLOCK;
use crate::record_blocks::patched;
use sn_block::{BLOCK_SIZE, Blocks};
use sn_device::Device;
use sn_layout::BlockTree;
use sn_limits::Limits;
use sn_tree::{Build, Dirty, PlanFault, plan_tree};
use std::alloc::Global;

// The largest inode file has a record for each number of two bytes.
fn fits(limits: &Limits, file: &BlockTree)
    requires { IsInodeFile limits.now file.now }
    ensures { file.now.size ≤ 8388608 }
{
    let _largest = limits.largest_number;
    let _size = file.size;
}

// How many bytes the inode file has with the last of the changes. It never shrinks.
fn size_with(file: &BlockTree, changes: &[InodeChange]) -> u64
    requires { 0 < length changes.now }
    ensures value { result
        ≡ max file.now.size (4096 * (slice_index (numbers_in changes.now) (length changes.now - 1) / 32 + 1)) }
    ensures most { file.now.size ≤ 8388608 → result ≤ 8388608 }
{
    let last = &changes[changes.len() - 1];
    let blocks = u64::from(last.number) / RECORDS_PER_BLOCK + 1;
    file.size.max(BLOCK_SIZE as u64 * blocks)
}

/// Plans an inode file in which numbers have other inodes. The blocks of their records and those on the way
/// to them become new ones, and ACLs that are set get a new block each; the old ones are released and not
/// written. The file gets as many blocks as the largest number needs, and never shrinks. After an error the
/// build can only be given up. `Full` comes only where fewer blocks are left than three for each change and
/// two more, and `Damaged` only where the record of one of the numbers can't be read, or a block that the
/// old file reaches isn't on the device: it carries that block, if there is one.
///
/// Proved: An inode file in which numbers have other inodes is planned in memory, and nothing is written: each changed
/// number has the inode that is wanted, with its ACLs kept or in a block of their own, and each other number the one that it
/// had.
/// Proved, also of `change_laws`: The record of any other number is unchanged byte for byte, and is zeros where the old file
/// had none, so the two that no node can have stay zeros.
/// Proved: The file gets as many blocks as the largest of the numbers needs, and no more; it never shrinks.
/// Proved, also of `change_laws`: No change gives a file a default ACL, whether ACLs are set or kept.
/// Proved: What was reached with what was added is what is reached with what is released, each block as often, and the new
/// blocks are at most three for each change and two more.
/// Proved: `Damaged` comes only where a changed number's record can't be read, or the old file reaches a block that isn't on
/// the device, with that block, if there is one.
pub fn with<D: Device>(
    alloc: Global,
    build: &mut Build,
    blocks: &mut Blocks<D>,
    limits: &Limits,
    file: &BlockTree,
    changes: &[InodeChange],
) -> Result<BlockTree, PlanFault>
    requires file { IsInodeFile limits.now file.now }
    requires changes { All (IsChange limits.now) changes.now }
    requires rise { IsStrictlyIncreasing (numbers_in changes.now) }
    ensures with { IfOk result (λ new. IsWith (IsTrue D.tells_bytes) limits.now
        (store_of (reads (D.disk (device_of blocks.old)))) file.now new changes.now build.old build.new) }
    ensures larger { IfOk result (λ new. file.now.size ≤ new.size) }
    ensures size { 0 < length changes.now → IfOk result (λ new. new.size
        ≡ max file.now.size (4096 * (slice_index (numbers_in changes.now) (length changes.now - 1) / 32 + 1))) }
    ensures file { (limits.now.largest_number + 1) % 32 ≡ 0 → IfOk result (λ new. IsInodeFile limits.now new) }
    ensures full { IsTooFull result build.old (3 * length changes.now + 2) }
    ensures damaged { IsTrue D.tells_bytes → (block : TheOption ℕ) → result ≡ Err (Tree (Damaged block)) → IsUnreadableAt limits.now
        (D.status (device_of blocks.old)).sectors
        (store_of (reads (D.disk (device_of blocks.old)))) file.now changes.now block }
    ensures same { IsTrue D.tells_bytes → D.disk (device_of blocks.new) ≡ D.disk (device_of blocks.old) }
    ensures counts { CountsPlan result (D.status (device_of blocks.old)) (D.status (device_of blocks.new)) }
{
    if changes.is_empty() {
        return Ok(*file);
    }
    fits(limits, file);
    let stored = settle(alloc, build, blocks, limits, file, changes)?;
    let dirty = patched(alloc, blocks, limits, file, stored.as_slice())?;
    let plan = Dirty {
        size: size_with(file, changes),
        keep: file.size / BLOCK_SIZE as u64,
        blocks: dirty,
    };
    plan_tree(build, blocks, file, plan)
}
