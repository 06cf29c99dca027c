//! The nodes of a layer, one after the other.
ghost use Rattle.std.specs.Prelude.{◌≡◌, ℕ, ◌+◌, ◌++◌, ◌<◌, length, slice_index, sum_by, All, Option as TheOption, Err, IsTrue, IfOk, OnOk};
ghost use Rattle.std.specs.List.Sorted.{IsStrictlyIncreasing};
ghost use Rattle.sn_inode.specs.Changes.{IsChange, numbers_in};
ghost use Rattle.sn_alloc.specs.Taking.{free_data};
ghost use Rattle.sn_device.specs.Disk.{reads};
ghost use Rattle.sn_block.specs.Lending.{device_of};
ghost use Rattle.sn_limits.specs.Versions.{limits_of};
ghost use Rattle.sn_ondisk.specs.Trees.{store_of};
ghost use Rattle.sn_overlay.specs.Layers.{Layer};
ghost use Rattle.sn_overlay.specs.Overlays.{layer_of};
ghost use Rattle.sn_overlay.specs.Lists.{without_blocks, written_blocks};
ghost use Rattle.sn_tree.specs.Steps.{CountsPlan};
ghost use Rattle.sn_tree.specs.declared.fault.PlanFault.TheVariants.{Full, Tree};
ghost use Rattle.sn_tree_read.specs.declared.fault.TreeFault.TheVariants.{Damaged};
ghost use Rattle.sn_cp_nodes.specs.Built.{BuildsNode, IsGround, IsSafeGround};
ghost use Rattle.sn_cp_build.specs.Planned.{AreBuilt, IsFor, listed, most_for, numbers_of};

use sn_block::Blocks;
use sn_cp_nodes::{build_node, damage_laws, room_laws};
use sn_device::Device;
use sn_inode::InodeChange;
use sn_layout::BlockTree;
use sn_limits::Limits;
use sn_overlay::Overlay;
use sn_tree::{Build, PlanFault};
use std::alloc::{AllocError, Global};

// Plans the node at this index of the overlay's nodes, with the blocks that it has of it.
fn plan_next<D: Device>(
    alloc: Global,
    build: &mut Build,
    blocks: &mut Blocks<D>,
    limits: &Limits,
    file: &BlockTree,
    changes: &mut Overlay,
    index: usize,
) -> Result<Option<InodeChange>, PlanFault>
    requires version { limits_of limits.now.version ≡ Some limits.now }
    requires within { index < length (numbers_of (layer_of changes.old)) }
    ensures left { OnOk result (layer_of changes.new
        ≡ without_blocks (layer_of changes.old) (slice_index (numbers_of (layer_of changes.old)) index)) }
    ensures is { IfOk result (IsFor limits.now (slice_index (numbers_of (layer_of changes.old)) index)) }
    ensures builds { (layer : Layer) → layer.nodes ≡ (layer_of changes.old).nodes → layer.names ≡ (layer_of changes.old).names
        → written_blocks layer (slice_index (numbers_of (layer_of changes.old)) index) ≡ written_blocks (layer_of changes.old) (slice_index (numbers_of (layer_of changes.old)) index)
        → IfOk result (λ new. BuildsNode (IsTrue D.tells_bytes) limits.now
        (store_of (reads (D.disk (device_of blocks.old)))) file.now layer (slice_index (numbers_of (layer_of changes.old)) index) new build.old build.new) }
    ensures full { IsTrue D.tells_bytes → result ≡ Err Full → (n : ℕ) (layer : Layer) → IsGround limits.now n
        (store_of (reads (D.disk (device_of blocks.old)))) file.now layer → layer.nodes ≡ (layer_of changes.old).nodes → layer.names ≡ (layer_of changes.old).names
        → written_blocks layer (slice_index (numbers_of (layer_of changes.old)) index) ≡ written_blocks (layer_of changes.old) (slice_index (numbers_of (layer_of changes.old)) index)
        → free_data build.old.words build.old.first < length build.old.added + most_for limits.now layer (slice_index (numbers_of (layer_of changes.old)) index) }
    ensures damaged { IsTrue D.tells_bytes → (block : TheOption ℕ) → result ≡ Err (Tree (Damaged block)) → (n : ℕ) (layer : Layer) → layer.nodes ≡ (layer_of changes.old).nodes → layer.names ≡ (layer_of changes.old).names
        → written_blocks layer (slice_index (numbers_of (layer_of changes.old)) index) ≡ written_blocks (layer_of changes.old) (slice_index (numbers_of (layer_of changes.old)) index)
        → IsSafeGround limits.now n (D.status (device_of blocks.old)).sectors
        (store_of (reads (D.disk (device_of blocks.old)))) file.now layer build.old → ⊥ }
    ensures same { IsTrue D.tells_bytes → D.disk (device_of blocks.new) ≡ D.disk (device_of blocks.old) }
    ensures counts { CountsPlan result (D.status (device_of blocks.old)) (D.status (device_of blocks.new)) }
{
    room_laws();
    damage_laws();
    let number = changes.nodes()[index].0;
    let written = changes.take_blocks(alloc, number)?;
    let (_, change) = &changes.nodes()[index];
    let names = changes.names_of(number);
    build_node(
        alloc, build, blocks, limits, file, number, change, names, written,
    )
}

// Appends what is to become of an inode, if anything is.
fn push_listed(
    planned: &mut Vec<InodeChange>,
    change: Option<InodeChange>,
) -> Result<(), AllocError>
    ensures { OnOk result (planned.new.items ≡ planned.old.items ++ listed change) }
{
    if let Some(change) = change {
        planned.push(change)?;
    }
    Ok(())
}

/// Plans each node that an overlay has, in the order of their numbers, and answers how their inodes are to change.
pub(crate) fn plan_nodes<D: Device>(
    alloc: Global,
    build: &mut Build,
    blocks: &mut Blocks<D>,
    limits: &Limits,
    file: &BlockTree,
    changes: &mut Overlay,
) -> Result<Vec<InodeChange>, PlanFault>
    requires version { limits_of limits.now.version ≡ Some limits.now }
    ensures built { IfOk result (λ planned. AreBuilt (IsTrue D.tells_bytes) limits.now
        (store_of (reads (D.disk (device_of blocks.old)))) file.now (layer_of changes.old) build.old
        (numbers_of (layer_of changes.old)) planned.items build.new) }
    ensures can { IfOk result (λ planned. All (IsChange limits.now) planned.items) }
    ensures rise { IfOk result (λ planned. IsStrictlyIncreasing (numbers_in planned.items)) }
    ensures full { IsTrue D.tells_bytes → result ≡ Err Full → (n : ℕ) → IsGround limits.now n
        (store_of (reads (D.disk (device_of blocks.old)))) file.now (layer_of changes.old)
        → free_data build.old.words build.old.first < length build.old.added + sum_by (most_for limits.now (layer_of changes.old)) (numbers_of (layer_of changes.old)) }
    ensures damaged { IsTrue D.tells_bytes → (block : TheOption ℕ) → result ≡ Err (Tree (Damaged block)) → (n : ℕ) → IsSafeGround limits.now n
        (D.status (device_of blocks.old)).sectors
        (store_of (reads (D.disk (device_of blocks.old)))) file.now (layer_of changes.old) build.old → ⊥ }
    ensures same { IsTrue D.tells_bytes → D.disk (device_of blocks.new) ≡ D.disk (device_of blocks.old) }
    ensures counts { CountsPlan result (D.status (device_of blocks.old)) (D.status (device_of blocks.new)) }
{
    let mut planned = Vec::new(alloc);
    for index in 0..changes.nodes().len() {
        let change = plan_next(alloc, build, blocks, limits, file, changes, index)?;
        push_listed(&mut planned, change)?;
    }
    Ok(planned)
}
