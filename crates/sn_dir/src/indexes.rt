//! How a directory gets an index of its names.
ghost use Rattle.std.specs.Prelude.{◌≡◌, ◌≢◌, ◌<◌, IsTrue, IfErr};
ghost use Rattle.sn_device.specs.Disk.{reads};
ghost use Rattle.sn_layout.specs.Pointers.{levels_of};
ghost use Rattle.sn_ondisk.specs.Trees.{store_of};
ghost use Rattle.sn_names.specs.Index.{Tells, tree_of};
ghost use Rattle.sn_block.specs.Counts.{CountsRead};
ghost use Rattle.sn_block.specs.Lending.{device_of};
ghost use Rattle.sn_block.specs.declared.fault.ReadFault.TheVariants.{Device as DeviceFailed};
ghost use Rattle.sn_tree_read.specs.Counts.{CountsTree};
ghost use Rattle.sn_tree_read.specs.declared.fault.TreeFault.TheVariants.{Read};

use sn_block::{Blocks, ReadFault};
use sn_device::Device;
use sn_layout::{BlockTree, POINTERS};
use sn_names::NameIndex;
use sn_tree_read::{TreeFault, lies_on};

// The places of the blocks below a pointer of a directory become known, if it leads to a block of the device.
fn place_top<D: Device>(
    blocks: &mut Blocks<D>,
    tree: &BlockTree,
    top: usize,
    index: &mut NameIndex,
) -> Result<(), ReadFault>
    requires top { top < 16 }
    requires levels { levels_of tree.now.size ≢ 0 }
    requires tree { tree_of index.old ≡ tree.now }
    ensures tree { tree_of index.new ≡ tree.now }
    ensures told { IsTrue D.tells_bytes → Tells (D.status (device_of blocks.old)).sectors
        (store_of (reads (D.disk (device_of blocks.old)))) index.old → Tells (D.status (device_of blocks.old)).sectors
        (store_of (reads (D.disk (device_of blocks.old)))) index.new }
    ensures same { IsTrue D.tells_bytes → D.disk (device_of blocks.new) ≡ D.disk (device_of blocks.old) }
    ensures counts { CountsRead result (D.status (device_of blocks.old)) (D.status (device_of blocks.new)) }
{
    let pointer = tree.pointers.get(top);
    let sectors = blocks.sectors();
    if pointer == 0 || !lies_on(sectors, pointer) {
        return Ok(());
    }
    blocks.fetch(pointer)?;
    index.place_below(sectors, top, blocks.fetched());
    Ok(())
}

// The places of the blocks below all pointers of a directory become known.
fn place_tops<D: Device>(
    blocks: &mut Blocks<D>,
    tree: &BlockTree,
    index: &mut NameIndex,
) -> Result<(), ReadFault>
    requires { tree_of index.old ≡ tree.now }
    ensures told { IsTrue D.tells_bytes → Tells (D.status (device_of blocks.old)).sectors
        (store_of (reads (D.disk (device_of blocks.old)))) index.old → Tells (D.status (device_of blocks.old)).sectors
        (store_of (reads (D.disk (device_of blocks.old)))) index.new }
    ensures same { IsTrue D.tells_bytes → D.disk (device_of blocks.new) ≡ D.disk (device_of blocks.old) }
    ensures counts { CountsRead result (D.status (device_of blocks.old)) (D.status (device_of blocks.new)) }
{
    if BlockTree::levels_of(tree.size) == 0 {
        return Ok(());
    }
    for top in 0..POINTERS {
        place_top(blocks, tree, top, index)?;
    }
    Ok(())
}

/// Where a directory can have an index of its names (`NameIndex::is_for`) and has none, it begins one, which
/// knows what another one knows of blocks in the same places. For that up to sixteen indirect blocks are
/// read: where the device fails there, that is the answer. Where memory is refused there is no index.
///
/// Proved, also of `lookup`: To begin an index fails only where the device does, and what an index knows changes no answer
/// of a look-up.
pub fn begin_index<D: Device>(blocks: &mut Blocks<D>, tree: &BlockTree) -> Result<(), TreeFault>
    ensures failed { IfErr result (λ fault. fault ≡ Read DeviceFailed) }
    ensures same { IsTrue D.tells_bytes → D.disk (device_of blocks.new) ≡ D.disk (device_of blocks.old) }
    ensures counts { CountsTree result (D.status (device_of blocks.old)) (D.status (device_of blocks.new)) }
{
    if !NameIndex::is_for(tree) || blocks.has_index(tree) {
        return Ok(());
    }
    let Ok(mut index) = blocks.new_index(tree) else {
        return Ok(());
    };
    match place_tops(blocks, tree, &mut index) {
        Ok(()) => {
            blocks.keep_index(index);
            Ok(())
        }
        Err(ReadFault::Memory) => Ok(()),
        Err(ReadFault::Device) => Err(TreeFault::Read(ReadFault::Device)),
    }
}
