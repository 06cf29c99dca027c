//! A whole tree.
ghost use Rattle.std.specs.Prelude.{◌≡◌, ℕ, ◌+◌, ◌*◌, ◌<◌, ◌≤◌, length, All, Option as TheOption, Err, IsTrue, IfOk, IfErr, None};
ghost use Rattle.std.specs.List.Sorted.{IsStrictlyIncreasing};
ghost use Rattle.sn_alloc.specs.Taking.{IsFreeData, free_data};
ghost use Rattle.sn_device.specs.Disk.{reads};
ghost use Rattle.sn_image.specs.Reach.{reach};
ghost use Rattle.sn_block.specs.Lending.{device_of};
ghost use Rattle.sn_layout.specs.Geometry.{start_of};
ghost use Rattle.sn_layout.specs.declared.geometry.Area.TheVariants.{Data};
ghost use Rattle.sn_limits.specs.Versions.{limits_of};
ghost use Rattle.sn_ondisk.specs.Trees.{store_of};
ghost use Rattle.sn_overlay.specs.Needs.{need};
ghost use Rattle.sn_overlay.specs.Overlays.{layer_of};
ghost use Rattle.sn_tree.specs.Drafts.{numbers_of};
ghost use Rattle.sn_tree.specs.Steps.{CountsPlan};
ghost use Rattle.sn_tree.specs.declared.fault.PlanFault.TheVariants.{Full, Tree};
ghost use Rattle.sn_tree_read.specs.declared.fault.TreeFault.TheVariants.{Damaged};
ghost use Rattle.sn_cp_nodes.specs.Built.{IsGround, IsSafeGround};
ghost use Rattle.sn_cp_build.specs.Bits.{BitsFollow, TellsBit};
ghost use Rattle.sn_cp_build.specs.Edits.{base_bit};
ghost use Rattle.sn_cp_build.specs.Building.{IsTreePlanned, IsWellBuilt, Builds};

use crate::bits::put_bits;
use crate::edits::SnapshotEdit;
use crate::nodes::plan_nodes;
use sn_alloc::BlockAllocator;
use sn_block::Blocks;
use sn_device::Device;
use sn_inode::{inode_laws, is_inode_file, with};
use sn_layout::{Area, BlockTree, Geometry};
use sn_limits::Limits;
use sn_map::Map;
use sn_overlay::Overlay;
use sn_tree::{Build, NewBlock, PlanFault};
use sn_tree_read::TreeFault;
use std::alloc::Global;

/// What is to be written for a tree.
#[derive(Drop)]
pub struct Built {
    /// The new inode file.
    pub inode_file: BlockTree,
    /// The new blocks, their numbers rising.
    pub blocks: Vec<NewBlock>,
    /// The map in which bit 0 says what the new inode file reaches, and the bits of snapshots are edited.
    pub map: Map,
}

// Plans the nodes of a layer, and then the inode file with what became of their inodes.
fn plan_tree<D: Device>(
    alloc: Global,
    build: &mut Build,
    blocks: &mut Blocks<D>,
    limits: &Limits,
    file: &BlockTree,
    changes: &mut Overlay,
) -> Result<BlockTree, PlanFault>
    requires version { limits_of limits.now.version ≡ Some limits.now }
    ensures planned { IfOk result (λ new. IsTreePlanned (IsTrue D.tells_bytes) limits.now
        (store_of (reads (D.disk (device_of blocks.old)))) file.now (layer_of changes.old) new build.old build.new) }
    ensures full { IsTrue D.tells_bytes → result ≡ Err Full → (n : ℕ) → IsGround limits.now n
        (store_of (reads (D.disk (device_of blocks.old)))) file.now (layer_of changes.old)
        → free_data build.old.words build.old.first < length build.old.added + need limits.now (layer_of changes.old) }
    ensures damaged { IsTrue D.tells_bytes → (block : TheOption ℕ) → result ≡ Err (Tree (Damaged block)) → (n : ℕ) → IsSafeGround limits.now n
        (D.status (device_of blocks.old)).sectors
        (store_of (reads (D.disk (device_of blocks.old)))) file.now (layer_of changes.old) build.old → ⊥ }
    ensures same { IsTrue D.tells_bytes → D.disk (device_of blocks.new) ≡ D.disk (device_of blocks.old) }
    ensures counts { CountsPlan result (D.status (device_of blocks.old)) (D.status (device_of blocks.new)) }
{
    inode_laws();
    if !is_inode_file(limits, file) {
        return Err(PlanFault::Tree(TreeFault::Damaged { block: None }));
    }
    let planned = plan_nodes(alloc, build, blocks, limits, file, changes)?;
    let inodes = planned.as_slice();
    if inodes.is_empty() {
        return Ok(*file);
    }
    with(alloc, build, blocks, limits, file, inodes)
}

// The new blocks and the map of a tree that was planned.
fn finished(build: Build, inode_file: BlockTree, edit: SnapshotEdit) -> Result<Built, PlanFault>
    ensures file { IfOk result (λ built. built.inode_file ≡ inode_file) }
    ensures blocks { IfOk result (λ built. built.blocks.items ≡ build.added) }
    ensures free { All (IsFreeData build.words build.first) (numbers_of build.added) }
    ensures rise { IsStrictlyIncreasing (numbers_of build.added) }
    ensures bits { IfOk result (λ built. BitsFollow (numbers_of build.added) build.released edit build.words built.map) }
    ensures damaged { result ≡ Err (Tree (Damaged None)) → All (λ (b : ℕ). b < length build.words) build.released → ⊥ }
    ensures fault { IfErr result (λ fault. fault ≡ Tree (Damaged None)) }
{
    build.added();
    let (allocator, blocks, released) = build.into_parts();
    let mut map = allocator.give_up();
    put_bits(&mut map, blocks.as_slice(), released.as_slice(), edit)?;
    Ok(Built {
        inode_file,
        blocks,
        map,
    })
}

/// Builds the tree that is seen through an overlay over that of an inode file, the live one or that of the snapshot that is
/// brought back: its new blocks, and the map in which bit 0 says what it reaches. Of the bits of snapshots only the edited
/// one changes: a snapshot that is frozen reaches what the new tree does. It only reads. `Full` comes where there are too few
/// free blocks, over a sound inode file only where they are fewer than the overlay needs, and `Damaged` where what was read
/// can't be used, over a sound one never: one whose blocks are on the device, with a map that says in its bit what it
/// reaches. What a snapshot alone reaches that goes isn't free yet, nor what the live tree alone reaches where a snapshot
/// takes its place. After an error there is nothing to undo.
///
/// Proved: Over a sound inode file whose blocks bit 0 of the map marks, with an overlay over its tree that shows a name tree, the new
/// inode file denotes the tree seen through the overlay, and is sound, in every store that has the new blocks and agrees
/// with the old one in what the old inode file reaches.
/// Proved: The row above asks that the old one is sound, that the map says in its bit what it reaches, which is bit 0 but
/// for a snapshot that is brought back, and that the overlay is over its tree and shows a name tree.
/// Proved: Over a sound inode file whose blocks bit 0 of the map marks, bit 0 of the new map is set for exactly what the new inode
/// file reaches in these stores, which is nothing but new blocks and those that the old one reached.
/// Proved: Whether or not the device tells its bytes, the new blocks were free, their numbers rise, and they are no more than the overlay
/// needs; of the map bit 0 alone changes, but for the bit of a snapshot that is made or goes.
/// Proved: A snapshot that is brought back keeps its bit, and bit 0 marks the new tree as above, whatever it was before. The
/// new blocks were free in the old map, so none is one that the live tree of before reaches.
/// Proved: The bit of a snapshot that is made becomes what bit 0 of the new map is, in each word; that of one that goes is
/// cleared in each word, so that what nothing else reaches is free after this build; no other snapshot's bit changes.
/// Proved: Over such an inode file it is never `Full` where what the overlay needs is free, and never `Damaged` where the
/// disk's blocks are on the device.
/// Proved: Nothing is written, and nothing is counted but a failure of the device.
pub fn build<D: Device>(
    alloc: Global,
    blocks: &mut Blocks<D>,
    geometry: Geometry,
    limits: &Limits,
    file: &BlockTree,
    map: &Map,
    mut changes: Overlay,
    edit: SnapshotEdit,
) -> Result<Built, PlanFault>
    requires version { limits_of limits.now.version ≡ Some limits.now }
    requires words { length map.now ≡ geometry }
    ensures well { IfOk result (IsWellBuilt geometry limits.now map.now (layer_of changes) edit) }
    ensures builds { IsTrue D.tells_bytes → IfOk result (Builds geometry limits.now
        (store_of (reads (D.disk (device_of blocks.old)))) file.now (base_bit edit) map.now (layer_of changes)) }
    ensures full { IsTrue D.tells_bytes → result ≡ Err Full → IsGround limits.now geometry
        (store_of (reads (D.disk (device_of blocks.old)))) file.now (layer_of changes)
        → need limits.now (layer_of changes) ≤ free_data map.now (start_of geometry Data) → ⊥ }
    ensures damaged { IsTrue D.tells_bytes → (block : TheOption ℕ) → result ≡ Err (Tree (Damaged block)) → IsGround limits.now geometry
        (store_of (reads (D.disk (device_of blocks.old)))) file.now (layer_of changes)
        → TellsBit (base_bit edit) map.now (reach (store_of (reads (D.disk (device_of blocks.old)))) file.now)
        → 8 * geometry ≤ (D.status (device_of blocks.old)).sectors → ⊥ }
    ensures same { IsTrue D.tells_bytes → D.disk (device_of blocks.new) ≡ D.disk (device_of blocks.old) }
    ensures counts { CountsPlan result (D.status (device_of blocks.old)) (D.status (device_of blocks.new)) }
{
    // A disk has blocks, so each block that is reached or was added has a word.
    geometry.blocks();
    let first = geometry.start(Area::Data);
    let mut build = Build::new(alloc, BlockAllocator::new(alloc, map.try_clone()?, first));
    let inode_file = plan_tree(alloc, &mut build, blocks, limits, file, &mut changes)?;
    finished(build, inode_file, edit)
}
