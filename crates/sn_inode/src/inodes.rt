//! The inode of a number.
ghost use Rattle.std.specs.Prelude.{◌≡◌, ℕ, ◌*◌, ◌/◌, ◌<◌, take, drop, Option as TheOption, Err, IsTrue, IfOk, IfErr, IfSome, OnOk};
ghost use Rattle.sn_device.specs.Disk.{reads};
ghost use Rattle.sn_block.specs.Lending.{device_of};
ghost use Rattle.sn_layout_node.specs.Inode.{IsInode};
ghost use Rattle.sn_ondisk.specs.Trees.{store_of};
ghost use Rattle.sn_image.specs.Inodes.{is_number, inode_of, inode_at};
ghost use Rattle.sn_image.specs.Sound.{SpellsRecord};
ghost use Rattle.sn_tree_read.specs.Counts.{CountsTree};
ghost use Rattle.sn_tree_read.specs.Paths.{block_met};
ghost use Rattle.sn_tree_read.specs.declared.fault.TreeFault.TheVariants.{Damaged};
ghost use Rattle.sn_inode.specs.Reads.{CanReadRecord};

use sn_block::{Block, Blocks};
use sn_device::Device;
use sn_layout::BlockTree;
use sn_layout_node::{INODE_SIZE, Inode, InodeRecord};
use sn_limits::Limits;
use sn_tree_read::{TreeFault, fetch_data};

pub(crate) const RECORDS_PER_BLOCK: u64 = 32;

// The least number of a node, which is the root directory's.
const ROOT: u16 = 2;

// Whether the inode file has a record in which a node can be.
fn is_number(file: &BlockTree, number: u16) -> bool
    ensures { result ≡ is_number file.now number }
{
    number >= ROOT && u64::from(number) < file.size / INODE_SIZE as u64
}

// The inode of one of the 32 records of a block, which has the number. `Damaged` comes exactly where it
// spells none.
fn decoded(
    limits: &Limits,
    block: &Block,
    index: usize,
    number: Option<u32>,
) -> Result<Option<Inode>, TreeFault>
    requires { index < 32 }
    ensures inode { IfOk result (λ inode. inode ≡ inode_of (take 128 (drop (128 * index) block.now))) }
    ensures valid { IfOk result (λ inode. IfSome inode (λ used. IsInode limits.now used)) }
    ensures spelled { OnOk result (SpellsRecord limits.now (take 128 (drop (128 * index) block.now))) }
    ensures damaged { IfErr result (λ fault. (fault ≡ Damaged number)
        × (SpellsRecord limits.now (take 128 (drop (128 * index) block.now)) → ⊥)) }
{
    let from = INODE_SIZE * index;
    match InodeRecord::decode(limits, &block[from..from + INODE_SIZE]) {
        Some(InodeRecord::Used(inode)) => Ok(Some(inode)),
        Some(InodeRecord::Unused) => Ok(None),
        None => Err(TreeFault::Damaged { block: number }),
    }
}

/// The inode of a number, `None` where no node has it: its record is unused, or the inode file has none for
/// it. `Damaged` comes exactly where the record's block, or one on the way to it, isn't on the device, or
/// the record spells no inode of this version.
///
/// Proved, also of `acls`: The inode of a number and its ACLs are what the inode file means, on any image, and `Damaged`
/// comes exactly where a block that is needed isn't on the device, or spells no record or no ACLs, with that block.
pub fn get<D: Device>(
    blocks: &mut Blocks<D>,
    limits: &Limits,
    file: &BlockTree,
    number: u16,
) -> Result<Option<Inode>, TreeFault>
    ensures inode { IsTrue D.tells_bytes → IfOk result (λ inode. inode
        ≡ inode_at (store_of (reads (D.disk (device_of blocks.old)))) file.now number) }
    ensures valid { IfOk result (λ inode. IfSome inode (λ used. IsInode limits.now used)) }
    ensures read { IsTrue D.tells_bytes → OnOk result (CanReadRecord limits.now
        (D.status (device_of blocks.old)).sectors
        (store_of (reads (D.disk (device_of blocks.old)))) file.now number) }
    ensures damaged { IsTrue D.tells_bytes → (block : TheOption ℕ) → result ≡ Err (Damaged block) → (CanReadRecord limits.now
        (D.status (device_of blocks.old)).sectors
        (store_of (reads (D.disk (device_of blocks.old)))) file.now number → ⊥)
        × (block ≡ block_met (D.status (device_of blocks.old)).sectors
        (store_of (reads (D.disk (device_of blocks.old)))) file.now (number / 32)) }
    ensures same { IsTrue D.tells_bytes → D.disk (device_of blocks.new) ≡ D.disk (device_of blocks.old) }
    ensures counts { CountsTree result (D.status (device_of blocks.old)) (D.status (device_of blocks.new)) }
{
    if !is_number(file, number) {
        return Ok(None);
    }
    let index = u64::from(number);
    let found = fetch_data(blocks, file, index / RECORDS_PER_BLOCK)?;
    if found.is_some() {
        let within = (index % RECORDS_PER_BLOCK) as usize;
        return decoded(limits, blocks.fetched(), within, found);
    }
    Ok(None)
}
