//! Readers of what was checked before. Where the device tells its bytes, all of it can be read. One that gives other bytes at
//! the second reading has no block to be blamed: that is reported at the root body, as misspelt.
ghost use Rattle.std.specs.Prelude.{◌≡◌, ◌/◌, min, IsTrue, IsSome, IfOk, IfErr, OnOk};
ghost use Rattle.sn_device.specs.Disk.{reads};
ghost use Rattle.sn_block.specs.Lending.{device_of, fetched_number, fetched_bytes};
ghost use Rattle.sn_layout_node.specs.Directory.{IsDirectoryBlock};
ghost use Rattle.sn_model.specs.declared.fault.Damage.TheVariants.{Links, Misspelt};
ghost use Rattle.sn_ondisk.specs.Trees.{store_of, data_block};
ghost use Rattle.sn_image.specs.Inodes.{inode_at};
ghost use Rattle.sn_image.specs.Names.{names_in};
ghost use Rattle.sn_dir.specs.Blocks.{CanRead};
ghost use Rattle.sn_inode.specs.Reads.{CanReadRecord};
ghost use Rattle.sn_sound.specs.Faults.{record_block};
ghost use Rattle.sn_marks.specs.Fault.{CountsCheck, Tells};
ghost use Rattle.sn_marks.specs.declared.fault.CheckFault.TheVariants.{Damaged};
ghost use Rattle.sn_check_root.specs.Reading.{TreeLies};
ghost use Rattle.sn_census.specs.Faults.{IsAt};

use crate::table::NUMBERS;
use sn_block::{Block, Blocks};
use sn_check_root::{fault_at, record_block};
use sn_device::Device;
use sn_dir::{decoded, fetch_block};
use sn_inode::get;
use sn_layout::BlockTree;
use sn_layout_node::{DirectoryBlock, INODE_SIZE, Inode};
use sn_limits::Limits;
use sn_marks::CheckFault;
use sn_model::Damage;

// How many records the inode file has, no more than there are numbers. From there on no number has an inode.
pub(crate) fn record_count(file: &BlockTree) -> u64
    ensures { result ≡ min (file.now.size / 128) 65536 }
{
    (file.size / INODE_SIZE as u64).min(u64::from(NUMBERS))
}

// The inode of a number.
pub(crate) fn inode_of<D: Device>(
    blocks: &mut Blocks<D>,
    limits: &Limits,
    file: &BlockTree,
    body: u32,
    number: u16,
) -> Result<Option<Inode>, CheckFault>
    requires read { IsTrue D.tells_bytes → CanReadRecord limits.now (D.status (device_of blocks.old)).sectors
        (store_of (reads (D.disk (device_of blocks.old)))) file.now number }
    ensures inode { IsTrue D.tells_bytes → IfOk result (λ inode. inode
        ≡ inode_at (store_of (reads (D.disk (device_of blocks.old)))) file.now number) }
    ensures fault { IsTrue D.tells_bytes → IfErr result (λ fault. Tells fault (λ damage block. ⊥)) }
    ensures same { IsTrue D.tells_bytes → D.disk (device_of blocks.new) ≡ D.disk (device_of blocks.old) }
    ensures counts { CountsCheck result (D.status (device_of blocks.old)) (D.status (device_of blocks.new)) }
{
    match get(blocks, limits, file, number) {
        Ok(inode) => Ok(inode),
        Err(fault) => Err(fault_at(fault, body)),
    }
}

// Makes a block of a directory the one that is lent.
pub(crate) fn fetch_names<D: Device>(
    blocks: &mut Blocks<D>,
    tree: &BlockTree,
    body: u32,
    i: u64,
) -> Result<(), CheckFault>
    requires read { IsTrue D.tells_bytes → CanRead (D.status (device_of blocks.old)).sectors
        (store_of (reads (D.disk (device_of blocks.old)))) tree.now i }
    ensures lent { OnOk result (IsSome (fetched_number blocks.new)) }
    ensures block { IsTrue D.tells_bytes → OnOk result (fetched_bytes blocks.new
        ≡ data_block (store_of (reads (D.disk (device_of blocks.old)))) tree.now i) }
    ensures fault { IsTrue D.tells_bytes → IfErr result (λ fault. Tells fault (λ damage block. ⊥)) }
    ensures same { IsTrue D.tells_bytes → D.disk (device_of blocks.new) ≡ D.disk (device_of blocks.old) }
    ensures counts { CountsCheck result (D.status (device_of blocks.old)) (D.status (device_of blocks.new)) }
{
    match fetch_block(blocks, tree, i) {
        Ok(_) => Ok(()),
        Err(fault) => Err(fault_at(fault, body)),
    }
}

// The names that a block spells.
pub(crate) fn spelled_names(block: &Block, body: u32) -> Result<DirectoryBlock<'_>, CheckFault>
    ensures names { IfOk result (λ names. names ≡ names_in block.now) }
    ensures own { IfErr result (λ fault. fault ≡ Damaged Misspelt body) }
    ensures spelled { IsDirectoryBlock block.now → IfErr result (λ fault. ⊥) }
{
    match decoded(block, body) {
        Ok(names) => Ok(names),
        Err(fault) => Err(fault_at(fault, body)),
    }
}

// The fault of a number, which is reported at the block of its record.
pub(crate) fn record_fault<D: Device>(
    blocks: &mut Blocks<D>,
    file: &BlockTree,
    body: u32,
    number: u16,
) -> Result<(), CheckFault>
    requires lies { IsTrue D.tells_bytes → TreeLies (D.status (device_of blocks.old)).sectors
        (store_of (reads (D.disk (device_of blocks.old)))) file.now }
    ensures never { OnOk result ⊥ }
    ensures fault { IsTrue D.tells_bytes → IfErr result (λ fault. Tells fault (IsAt
        (record_block (store_of (reads (D.disk (device_of blocks.old)))) file.now body number))) }
    ensures same { IsTrue D.tells_bytes → D.disk (device_of blocks.new) ≡ D.disk (device_of blocks.old) }
    ensures counts { CountsCheck result (D.status (device_of blocks.old)) (D.status (device_of blocks.new)) }
{
    let block = record_block(blocks, file, body, u64::from(number))?;
    Err(link_fault(block))
}

// Names and inodes don't agree, which is reported at a block.
pub(crate) fn link_fault(block: u32) -> CheckFault
    ensures { result ≡ Damaged Links block }
{
    CheckFault::Damaged {
        damage: Damage::Links,
        block,
    }
}
