//! The contents of files that changed.
ghost use Rattle.std.specs.Prelude.{◌≡◌, ℕ, ◌+◌, ◌*◌, length, Option as TheOption, Err, IsTrue, IfOk, OnOk};
ghost use Rattle.sn_device.specs.Disk.{reads};
ghost use Rattle.sn_block.specs.Lending.{device_of};
ghost use Rattle.sn_layout.specs.Pointers.{levels_of};
ghost use Rattle.sn_layout_node.specs.Inode.{size_of};
ghost use Rattle.sn_ondisk.specs.Trees.{store_of};
ghost use Rattle.sn_tree.specs.Orders.{AreInOrder};
ghost use Rattle.sn_tree.specs.Steps.{IsTooFull, CountsPlan};
ghost use Rattle.sn_tree.specs.declared.fault.PlanFault.TheVariants.{Tree};
ghost use Rattle.sn_content.specs.Contents.{IsContentPlanned};
ghost use Rattle.sn_tree_read.specs.declared.fault.TreeFault.TheVariants.{Damaged};
ghost use Rattle.sn_cp_nodes.specs.Parts.{keep_of, dirty_of};
ghost use Rattle.sn_cp_nodes.specs.Made.{CanMakeFile};

use sn_block::Blocks;
use sn_content::plan;
use sn_device::Device;
use sn_layout::BLOCK_SIZE;
use sn_layout_node::Content;
use sn_overlay::{Block, FileBlock, NodeState};
use sn_tree::{Build, Dirty, DirtyBlock, PlanFault};
use sn_tree_read::TreeFault;
use std::alloc::{AllocError, Global};
use std::collections::VecDeque;

// How many of the data blocks below stay where they weren't written.
fn kept_blocks(state: &NodeState) -> u64
    ensures { result ≡ keep_of state.now }
{
    if state.fresh {
        0
    } else {
        state.cut.div_ceil(BLOCK_SIZE as u64)
    }
}

// The blocks that were written, by their index in the file.
fn dirty_blocks(
    alloc: Global,
    written: Vec<(FileBlock, Box<Block>)>,
) -> Result<VecDeque<DirtyBlock>, AllocError>
    ensures { IfOk result (λ dirty. dirty.items ≡ dirty_of written.items) }
{
    let mut dirty = VecDeque::new(alloc);
    for (place, bytes) in written {
        let index = place.index;
        dirty.push_back(DirtyBlock { index, bytes })?;
    }
    Ok(dirty)
}

/// Plans the content of a file that changed, in place of what its number had. `Damaged` comes where the blocks that
/// were written aren't in order or begin past the end, or a block that the old content reaches isn't on the device.
pub(crate) fn file_content<D: Device>(
    alloc: Global,
    build: &mut Build,
    blocks: &mut Blocks<D>,
    old: &Content,
    state: &NodeState,
    written: Vec<(FileBlock, Box<Block>)>,
) -> Result<Content, PlanFault>
    ensures size { IfOk result (λ new. size_of new ≡ state.now.size) }
    ensures order { OnOk result (AreInOrder state.now.size (dirty_of written.items)) }
    ensures planned { IfOk result (λ new. IsContentPlanned (IsTrue D.tells_bytes)
        (store_of (reads (D.disk (device_of blocks.old)))) old.now new
        (keep_of state.now) (dirty_of written.items) build.old build.new) }
    ensures full { IsTooFull result build.old ((levels_of state.now.size + 1) * (length written.items + 1)) }
    ensures damaged { IsTrue D.tells_bytes → (block : TheOption ℕ) → result ≡ Err (Tree (Damaged block))
        → CanMakeFile (D.status (device_of blocks.old)).sectors
        (store_of (reads (D.disk (device_of blocks.old)))) old.now state.now.size written.items → ⊥ }
    ensures same { IsTrue D.tells_bytes → D.disk (device_of blocks.new) ≡ D.disk (device_of blocks.old) }
    ensures counts { CountsPlan result (D.status (device_of blocks.old)) (D.status (device_of blocks.new)) }
{
    let dirty = Dirty {
        size: state.size,
        keep: kept_blocks(state),
        blocks: dirty_blocks(alloc, written)?,
    };
    if !dirty.is_in_order() {
        return Err(PlanFault::Tree(TreeFault::Damaged { block: None }));
    }
    plan(build, blocks, old, dirty)
}
