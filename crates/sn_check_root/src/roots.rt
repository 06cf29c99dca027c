//! The whole of a root, but for its links.
ghost use Rattle.std.specs.Prelude.{◌≡◌, ◌*◌, ◌/◌, ◌<◌, ◌≤◌, ℕ, length, IsTrue, IfErr, OnOk, slice_index};
ghost use Rattle.std.specs.Int.{bit_at};
ghost use Rattle.std.specs.List.{flat_map};
ghost use Rattle.sn_device.specs.Disk.{reads};
ghost use Rattle.sn_block.specs.Lending.{device_of};
ghost use Rattle.sn_ondisk.specs.Trees.{store_of};
ghost use Rattle.sn_image.specs.Reach.{numbers, reach, reach_at};
ghost use Rattle.sn_image.specs.Sound.{IsInodeFile};
ghost use Rattle.sn_sound.specs.Faults.{IsMisspelt};
ghost use Rattle.sn_marks.specs.Fault.{CountsCheck, Tells};
ghost use Rattle.sn_marks.specs.Marks.{Marks};
ghost use Rattle.sn_check_root.specs.Reading.{TreeLies};
ghost use Rattle.sn_check_root.specs.Rules.{HasSoundRecords, IsSoundButLinks, IsSoundNumber, IsWrong, StandsInRoot};

use crate::contents::check_inode;
use crate::reserved::{check_reserved, check_top};
use sn_block::Blocks;
use sn_device::Device;
use sn_inode::is_inode_file;
use sn_layout::BlockTree;
use sn_layout_node::INODE_SIZE;
use sn_limits::Limits;
use sn_map::Map;
use sn_marks::{CheckFault, RootBit, mark_tree};
use sn_tree_read::read_laws;
use std::alloc::Global;

// What the type says of a number.
fn number_law(number: u16)
    ensures { number < 65536 }
{}

// Tests what is under each number from the root directory's on, and marks what it reaches.
fn check_inodes<D: Device>(
    alloc: Global,
    blocks: &mut Blocks<D>,
    map: &mut Map,
    root: &RootBit,
    limits: &Limits,
    file: &BlockTree,
    body: u32,
) -> Result<(), CheckFault>
    requires file { IsInodeFile limits.now file.now }
    requires words { length map.old ≡ root.now.geometry }
    requires room { 8 * root.now.geometry ≤ (D.status (device_of blocks.old)).sectors }
    requires lies { IsTrue D.tells_bytes → TreeLies (D.status (device_of blocks.old)).sectors
        (store_of (reads (D.disk (device_of blocks.old)))) file.now }
    ensures marks { IsTrue D.tells_bytes → OnOk result (Marks root.now.geometry root.now.bit
        (flat_map (reach_at (store_of (reads (D.disk (device_of blocks.old)))) file.now) (numbers file.now)) map.old map.new) }
    ensures sound { IsTrue D.tells_bytes → OnOk result ((number : ℕ) → 2 ≤ number → number < file.now.size / 128
        → IsSoundNumber limits.now (store_of (reads (D.disk (device_of blocks.old)))) file.now number) }
    ensures fault { IsTrue D.tells_bytes → IfErr result (λ fault. Tells fault (IsWrong root.now.geometry root.now.bit
        (flat_map (reach_at (store_of (reads (D.disk (device_of blocks.old)))) file.now) (numbers file.now)) map.old
        (IsMisspelt limits.now (store_of (reads (D.disk (device_of blocks.old)))) file.now body))) }
    ensures words { length map.new ≡ length map.old }
    ensures same { IsTrue D.tells_bytes → D.disk (device_of blocks.new) ≡ D.disk (device_of blocks.old) }
    ensures counts { CountsCheck result (D.status (device_of blocks.old)) (D.status (device_of blocks.new)) }
{
    number_law(limits.largest_number);
    for number in 2..file.size / INODE_SIZE as u64 {
        check_inode(alloc, blocks, map, root, limits, file, body, number as u16)?;
    }
    Ok(())
}

// Tests all records of an inode file whose own blocks are marked, and marks what their inodes reach.
fn check_records<D: Device>(
    alloc: Global,
    blocks: &mut Blocks<D>,
    map: &mut Map,
    root: &RootBit,
    limits: &Limits,
    file: &BlockTree,
    body: u32,
) -> Result<(), CheckFault>
    requires file { IsInodeFile limits.now file.now }
    requires words { length map.old ≡ root.now.geometry }
    requires room { 8 * root.now.geometry ≤ (D.status (device_of blocks.old)).sectors }
    requires lies { IsTrue D.tells_bytes → TreeLies (D.status (device_of blocks.old)).sectors
        (store_of (reads (D.disk (device_of blocks.old)))) file.now }
    ensures marks { IsTrue D.tells_bytes → OnOk result (Marks root.now.geometry root.now.bit
        (flat_map (reach_at (store_of (reads (D.disk (device_of blocks.old)))) file.now) (numbers file.now)) map.old map.new) }
    ensures sound { IsTrue D.tells_bytes → OnOk result (HasSoundRecords limits.now
        (store_of (reads (D.disk (device_of blocks.old)))) file.now) }
    ensures fault { IsTrue D.tells_bytes → IfErr result (λ fault. Tells fault (IsWrong root.now.geometry root.now.bit
        (flat_map (reach_at (store_of (reads (D.disk (device_of blocks.old)))) file.now) (numbers file.now)) map.old
        (IsMisspelt limits.now (store_of (reads (D.disk (device_of blocks.old)))) file.now body))) }
    ensures words { length map.new ≡ length map.old }
    ensures same { IsTrue D.tells_bytes → D.disk (device_of blocks.new) ≡ D.disk (device_of blocks.old) }
    ensures counts { CountsCheck result (D.status (device_of blocks.old)) (D.status (device_of blocks.new)) }
{
    check_reserved(blocks, limits, file, body)?;
    check_inodes(alloc, blocks, map, root, limits, file, body)?;
    check_top(blocks, limits, file, body)
}

// Marks the inode file, and tests what is in it.
fn check_file<D: Device>(
    alloc: Global,
    blocks: &mut Blocks<D>,
    map: &mut Map,
    root: &RootBit,
    limits: &Limits,
    file: &BlockTree,
    body: u32,
) -> Result<(), CheckFault>
    requires file { IsInodeFile limits.now file.now }
    requires words { length map.old ≡ root.now.geometry }
    requires room { 8 * root.now.geometry ≤ (D.status (device_of blocks.old)).sectors }
    ensures marks { IsTrue D.tells_bytes → OnOk result (Marks root.now.geometry root.now.bit
        (reach (store_of (reads (D.disk (device_of blocks.old)))) file.now) map.old map.new) }
    ensures sound { IsTrue D.tells_bytes → OnOk result (IsSoundButLinks limits.now root.now.geometry
        (store_of (reads (D.disk (device_of blocks.old)))) file.now) }
    ensures fault { IsTrue D.tells_bytes → IfErr result (λ fault. Tells fault (IsWrong root.now.geometry root.now.bit
        (reach (store_of (reads (D.disk (device_of blocks.old)))) file.now) map.old
        (IsMisspelt limits.now (store_of (reads (D.disk (device_of blocks.old)))) file.now body))) }
    ensures words { length map.new ≡ length map.old }
    ensures same { IsTrue D.tells_bytes → D.disk (device_of blocks.new) ≡ D.disk (device_of blocks.old) }
    ensures counts { CountsCheck result (D.status (device_of blocks.old)) (D.status (device_of blocks.new)) }
{
    mark_tree(blocks, map, root, file, body)?;
    // What was gone through is on the device.
    read_laws();
    check_records(alloc, blocks, map, root, limits, file, body)
}

/// Tests a root but for its links, and marks each block that it reaches. The root's bit is clear in all
/// words of the map, and `body` is the block of the root body. At `Ok` what is tested is sound, and the
/// bit is set in the words of the reached blocks. What is reported otherwise is so: a pointer out of the data
/// area, a block that is reached twice, or what is misspelt. After a fault the map has some of the marks.
///
/// Proved: At `Ok` a root is sound but for its links, whatever is in its blocks: these are in the data area, each reached
/// once, the inode file has its size, each tree ends at its own, and all records, ACL blocks and directory blocks are
/// spelled.
/// Proved: At `Ok` the two records that no node can have are zeros, the root is a directory, no directory has a hole, too
/// many names or a name twice, and the root has no name that hides the directory of snapshots.
/// Proved: The root's bit, clear before, is then set in the words of exactly the blocks that it reaches, and no other bit
/// changed.
/// Proved: A damage is at the block that is reported: a pointer out of the data area, a block reached twice, or what is
/// misspelt.
/// Proved: Over a device that tells its bytes nothing is written, and only its own failures are counted; over another
/// nothing is written unless the device is reported as failed.
pub fn check_root<D: Device>(
    alloc: Global,
    blocks: &mut Blocks<D>,
    map: &mut Map,
    root: &RootBit,
    limits: &Limits,
    file: &BlockTree,
    body: u32,
) -> Result<(), CheckFault>
    requires clear { IsTrue D.tells_bytes → (block : ℕ) → bit_at (slice_index map.old block) root.now.bit ≡ 0 }
    requires words { length map.old ≡ root.now.geometry }
    requires room { 8 * root.now.geometry ≤ (D.status (device_of blocks.old)).sectors }
    ensures sound { IsTrue D.tells_bytes → OnOk result (IsSoundButLinks limits.now root.now.geometry
        (store_of (reads (D.disk (device_of blocks.old)))) file.now) }
    ensures marks { IsTrue D.tells_bytes → OnOk result (Marks root.now.geometry root.now.bit
        (reach (store_of (reads (D.disk (device_of blocks.old)))) file.now) map.old map.new) }
    ensures fault { IsTrue D.tells_bytes → IfErr result (λ fault. Tells fault (StandsInRoot limits.now root.now.geometry
        (store_of (reads (D.disk (device_of blocks.old)))) file.now body)) }
    ensures words { length map.new ≡ length map.old }
    ensures same { IsTrue D.tells_bytes → D.disk (device_of blocks.new) ≡ D.disk (device_of blocks.old) }
    ensures counts { CountsCheck result (D.status (device_of blocks.old)) (D.status (device_of blocks.new)) }
{
    if !is_inode_file(limits, file) {
        return Err(CheckFault::misspelt(body));
    }
    check_file(alloc, blocks, map, root, limits, file, body)
}
