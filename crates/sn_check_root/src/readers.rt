//! Readers of trees whose blocks are on the device. What they find wrong is reported at a block.
ghost use Rattle.std.specs.Prelude.{◌≡◌, ◌/◌, IsTrue, IfOk, IfErr};
ghost use Rattle.sn_device.specs.Disk.{reads};
ghost use Rattle.sn_block.specs.Lending.{device_of};
ghost use Rattle.sn_layout.specs.Pointers.{levels_of};
ghost use Rattle.sn_ondisk.specs.Trees.{store_of, entry};
ghost use Rattle.sn_sound.specs.Faults.{record_block};
ghost use Rattle.sn_marks.specs.Fault.{CountsCheck, Tells};
ghost use Rattle.sn_check_root.specs.Reading.{TreeLies, fault_at};

use sn_block::Blocks;
use sn_device::Device;
use sn_layout::BlockTree;
use sn_marks::CheckFault;
use sn_tree_read::{TreeFault, entry};

/// A reader's fault: what spells nothing of its kind is reported at the block.
pub fn fault_at(fault: TreeFault, block: u32) -> CheckFault
    ensures { result ≡ fault_at block fault }
{
    match fault {
        TreeFault::Read(fault) => CheckFault::Read(fault),
        TreeFault::Damaged { .. } => CheckFault::misspelt(block),
    }
}

/// The pointer to a data block of a tree whose blocks are on the device, 0 where it is a hole. A block on the
/// way to it may not be read, and nothing else is reported.
pub fn pointer_to<D: Device>(
    blocks: &mut Blocks<D>,
    tree: &BlockTree,
    i: u64,
    top: u32,
) -> Result<u32, CheckFault>
    requires lies { IsTrue D.tells_bytes → TreeLies (D.status (device_of blocks.old)).sectors
        (store_of (reads (D.disk (device_of blocks.old)))) tree.now }
    ensures pointer { IsTrue D.tells_bytes → IfOk result (λ pointer. pointer
        ≡ entry (store_of (reads (D.disk (device_of blocks.old)))) (levels_of tree.now.size) tree.now.pointers i) }
    ensures fault { IsTrue D.tells_bytes → IfErr result (λ fault. Tells fault (λ damage block. ⊥)) }
    ensures same { IsTrue D.tells_bytes → D.disk (device_of blocks.new) ≡ D.disk (device_of blocks.old) }
    ensures counts { CountsCheck result (D.status (device_of blocks.old)) (D.status (device_of blocks.new)) }
{
    match entry(blocks, tree, BlockTree::levels_of(tree.size), i) {
        Ok(pointer) => Ok(pointer),
        Err(fault) => Err(fault_at(fault, top)),
    }
}

/// The block of a number's record, where the inode file's blocks are on the device. Where there is a hole, it
/// is `body`, the block of the inode file's root. A block on the way to it may not be read, and nothing else
/// is reported.
pub fn record_block<D: Device>(
    blocks: &mut Blocks<D>,
    file: &BlockTree,
    body: u32,
    number: u64,
) -> Result<u32, CheckFault>
    requires lies { IsTrue D.tells_bytes → TreeLies (D.status (device_of blocks.old)).sectors
        (store_of (reads (D.disk (device_of blocks.old)))) file.now }
    ensures block { IsTrue D.tells_bytes → IfOk result (λ block. block
        ≡ record_block (store_of (reads (D.disk (device_of blocks.old)))) file.now body number) }
    ensures fault { IsTrue D.tells_bytes → IfErr result (λ fault. Tells fault (λ damage block. ⊥)) }
    ensures same { IsTrue D.tells_bytes → D.disk (device_of blocks.new) ≡ D.disk (device_of blocks.old) }
    ensures counts { CountsCheck result (D.status (device_of blocks.old)) (D.status (device_of blocks.new)) }
{
    let pointer = pointer_to(blocks, file, number / 32, body)?;
    if pointer == 0 {
        return Ok(body);
    }
    Ok(pointer)
}
