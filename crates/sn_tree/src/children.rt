//! The indirect block at a pointer.
ghost use Rattle.std.specs.Prelude.{◌≡◌, ℕ, false, Option as TheOption, Err, IsTrue, IfOk, length};
ghost use Rattle.sn_device.specs.Disk.{reads};
ghost use Rattle.sn_block.specs.Lending.{device_of};
ghost use Rattle.sn_ondisk.specs.Trees.{store_of, below};
ghost use Rattle.sn_tree_read.specs.Counts.{CountsTree};
ghost use Rattle.sn_tree_read.specs.Paths.{lies_on, block_named};
ghost use Rattle.sn_tree_read.specs.declared.fault.TreeFault.TheVariants.{Damaged};

use crate::Build;
use crate::indirect_copy::IndirectCopy;
use sn_block::Blocks;
use sn_device::Device;
use sn_tree_read::{TreeFault, lies_on};

/// Copies the indirect block at a pointer. Below a hole there are holes. `Damaged` comes only where the
/// block isn't on the device.
pub(crate) fn copy_below<D: Device>(
    build: &Build,
    blocks: &mut Blocks<D>,
    pointer: u32,
) -> Result<IndirectCopy, TreeFault>
    ensures pointers { IsTrue D.tells_bytes
        → IfOk result (λ copy. copy ≡ below (store_of (reads (D.disk (device_of blocks.old)))) pointer) }
    ensures count { IfOk result (λ copy. length copy ≡ 1024) }
    ensures damaged { (block : TheOption ℕ) → result ≡ Err (Damaged block)
        → (lies_on (D.status (device_of blocks.old)).sectors pointer ≡ false) × (block ≡ block_named pointer) }
    ensures same { IsTrue D.tells_bytes → D.disk (device_of blocks.new) ≡ D.disk (device_of blocks.old) }
    ensures counts { CountsTree result (D.status (device_of blocks.old)) (D.status (device_of blocks.new)) }
{
    if !lies_on(blocks.sectors(), pointer) {
        return Err(TreeFault::at(pointer));
    }
    if pointer == 0 {
        return Ok(IndirectCopy::new(build.zeros()?));
    }
    blocks.fetch(pointer)?;
    Ok(IndirectCopy::new(build.boxed(blocks.fetched())?))
}
