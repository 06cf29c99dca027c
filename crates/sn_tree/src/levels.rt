//! The pointers of a tree that gets more or fewer levels of indirect blocks.
ghost use Rattle.std.specs.Prelude.{◌≡◌, ◌≢◌, ◌+◌, ◌*◌, ◌^◌, ◌<◌, ◌≤◌, ℕ, List, [], ◌∷◌, ◌++◌, length, Option as TheOption, Err, All, IsTrue, IfOk, OnOk};
ghost use Rattle.sn_device.specs.Disk.{reads};
ghost use Rattle.sn_block.specs.Lending.{device_of};
ghost use Rattle.sn_layout.specs.Pointers.{levels_of};
ghost use Rattle.sn_ondisk.specs.Trees.{store_of, all_pointers, tree_reach};
ghost use Rattle.sn_tree.specs.Dirty.{IsFrom};
ghost use Rattle.sn_tree.specs.Fronts.{Aim, AreHolesFrom, front_most, PlannedFront, IsCut, IsLowered, IsFirstOf};
ghost use Rattle.sn_tree.specs.Steps.{IsTooFull, LeadsOutsideAt, CountsPlan};
ghost use Rattle.sn_tree.specs.declared.fault.PlanFault.TheVariants.{Tree};
ghost use Rattle.sn_tree_read.specs.declared.fault.TreeFault.TheVariants.{Damaged};

use crate::children::copy_below;
use crate::parts::{behind_of, beside_of, front_of, joined, led_by, no_behind, no_beside};
use crate::pointers::{plan_pointers, replace_pointers, span_of};
use crate::{Build, DirtyBlock, PlanFault};
use sn_block::Blocks;
use sn_device::Device;
use sn_layout::{BlockTree, POINTERS};
use sn_layout_node::POINTERS_PER_BLOCK;
use std::collections::VecDeque;

// Plans holes after the pointers that were planned.
fn plan_behind<D: Device>(
    build: &mut Build,
    blocks: &mut Blocks<D>,
    dirty: &mut VecDeque<DirtyBlock>,
    pointers: &mut [u32],
    depth: u32,
    first: u64,
) -> Result<(), PlanFault>
    requires depth { depth ≤ 3 }
    requires room { first + length pointers.old * 1024 ^ depth ≤ 2 ^ 62 }
    requires rise { IsFrom first dirty.old.items }
    requires holes { All (λ p. p ≡ 0) pointers.old }
    ensures planned { (aim : Aim) (news : List ℕ) → AreHolesFrom first aim.old
        → PlannedFront (IsTrue D.tells_bytes) aim depth first dirty.old.items news build.old
        → OnOk result (PlannedFront (IsTrue D.tells_bytes) aim depth (first + length pointers.old * 1024 ^ depth)
        dirty.new.items (news ++ pointers.new) build.new) }
    ensures full { (aim : Aim) (news : List ℕ)
        → PlannedFront (IsTrue D.tells_bytes) aim depth first dirty.old.items news build.old
        → IsTooFull result aim.draft (front_most depth (first + length pointers.old * 1024 ^ depth) aim.dirty) }
    ensures rise { OnOk result (IsFrom (first + length pointers.old * 1024 ^ depth) dirty.new.items) }
    ensures sound { IsTrue D.tells_bytes → (block : TheOption ℕ) → result ≢ Err (Tree (Damaged block)) }
    ensures same { IsTrue D.tells_bytes → D.disk (device_of blocks.new) ≡ D.disk (device_of blocks.old) }
    ensures counts { CountsPlan result (D.status (device_of blocks.old)) (D.status (device_of blocks.new)) }
{
    plan_pointers(build, blocks, dirty, 0, pointers, depth, first)
}

// One level more: sixteen pointers that were planned become the first ones of an indirect block, and that
// the first of sixteen.
fn raise<D: Device>(
    build: &mut Build,
    blocks: &mut Blocks<D>,
    dirty: &mut VecDeque<DirtyBlock>,
    pointers: &[u32; POINTERS],
    depth: u32,
) -> Result<[u32; POINTERS], PlanFault>
    requires depth { depth ≤ 2 }
    requires rise { IsFrom (16 * 1024 ^ depth) dirty.old.items }
    ensures planned { (aim : Aim) → AreHolesFrom (16 * 1024 ^ depth) aim.old
        → PlannedFront (IsTrue D.tells_bytes) aim depth (16 * 1024 ^ depth) dirty.old.items pointers.now build.old
        → IfOk result (λ new. PlannedFront (IsTrue D.tells_bytes) aim (depth + 1) (16 * 1024 ^ (depth + 1))
        dirty.new.items new build.new) }
    ensures full { (aim : Aim) → AreHolesFrom (16 * 1024 ^ depth) aim.old
        → PlannedFront (IsTrue D.tells_bytes) aim depth (16 * 1024 ^ depth) dirty.old.items pointers.now build.old
        → IsTooFull result aim.draft (front_most (depth + 1) (16 * 1024 ^ (depth + 1)) aim.dirty) }
    ensures rise { OnOk result (IsFrom (16 * 1024 ^ (depth + 1)) dirty.new.items) }
    ensures count { IfOk result (λ new. length new ≡ 16) }
    ensures sound { IsTrue D.tells_bytes → (block : TheOption ℕ) → result ≢ Err (Tree (Damaged block)) }
    ensures same { IsTrue D.tells_bytes → D.disk (device_of blocks.new) ≡ D.disk (device_of blocks.old) }
    ensures counts { CountsPlan result (D.status (device_of blocks.old)) (D.status (device_of blocks.new)) }
{
    let span = span_of(depth);
    let mut behind = no_behind();
    plan_behind(build, blocks, dirty, &mut behind, depth, 16 * span)?;
    let below = joined(pointers, &behind);
    let first = replace_pointers(build, 0, &below)?;
    let mut beside = no_beside();
    plan_behind(build, blocks, dirty, &mut beside, depth + 1, 1024 * span)?;
    Ok(led_by(first, &beside))
}

/// Raises sixteen pointers that were planned to a height.
pub(crate) fn raised<D: Device>(
    build: &mut Build,
    blocks: &mut Blocks<D>,
    dirty: &mut VecDeque<DirtyBlock>,
    pointers: &[u32; POINTERS],
    from: u32,
    levels: u32,
) -> Result<[u32; POINTERS], PlanFault>
    requires order { from ≤ levels }
    requires most { levels ≤ 3 }
    requires rise { IsFrom (16 * 1024 ^ from) dirty.old.items }
    ensures planned { (aim : Aim) → (from < levels → AreHolesFrom (16 * 1024 ^ from) aim.old)
        → PlannedFront (IsTrue D.tells_bytes) aim from (16 * 1024 ^ from) dirty.old.items pointers.now build.old
        → IfOk result (λ new. PlannedFront (IsTrue D.tells_bytes) aim levels (16 * 1024 ^ levels)
        dirty.new.items new build.new) }
    ensures full { (aim : Aim) → (from < levels → AreHolesFrom (16 * 1024 ^ from) aim.old)
        → PlannedFront (IsTrue D.tells_bytes) aim from (16 * 1024 ^ from) dirty.old.items pointers.now build.old
        → IsTooFull result aim.draft ((levels + 1) * (length aim.dirty + 1)) }
    ensures count { IfOk result (λ new. length new ≡ 16) }
    ensures sound { IsTrue D.tells_bytes → (block : TheOption ℕ) → result ≢ Err (Tree (Damaged block)) }
    ensures same { IsTrue D.tells_bytes → D.disk (device_of blocks.new) ≡ D.disk (device_of blocks.old) }
    ensures counts { CountsPlan result (D.status (device_of blocks.old)) (D.status (device_of blocks.new)) }
{
    let mut raised = *pointers;
    for depth in from..levels {
        raised = raise(build, blocks, dirty, &raised, depth)?;
    }
    Ok(raised)
}

/// Releases all that is reached by pointers so many levels above their data blocks, and leaves holes in their
/// place: `depth` is 0 for pointers to data blocks, and one more for each level of indirect blocks. It takes no block,
/// so `Full` comes only where more were added than are free. `Damaged` comes only where a block that they reach isn't
/// on the device. After an error the build can only be given up.
///
/// Proved: All that pointers reach is released without taking a block.
pub fn release_pointers<D: Device>(
    build: &mut Build,
    blocks: &mut Blocks<D>,
    pointers: &mut [u32],
    depth: u32,
) -> Result<(), PlanFault>
    requires depth { depth ≤ 3 }
    requires few { length pointers.old ≤ 1024 }
    ensures cut { OnOk result (IsCut (IsTrue D.tells_bytes) (store_of (reads (D.disk (device_of blocks.old))))
        depth pointers.old build.old build.new) }
    ensures full { IsTooFull result build.old 0 }
    ensures damaged { IsTrue D.tells_bytes → (block : TheOption ℕ) → result ≡ Err (Tree (Damaged block))
        → LeadsOutsideAt (D.status (device_of blocks.old)).sectors
        (all_pointers (store_of (reads (D.disk (device_of blocks.old)))) depth pointers.old) block }
    ensures same { IsTrue D.tells_bytes → D.disk (device_of blocks.new) ≡ D.disk (device_of blocks.old) }
    ensures counts { CountsPlan result (D.status (device_of blocks.old)) (D.status (device_of blocks.new)) }
{
    let mut none = build.no_dirty();
    plan_pointers(build, blocks, &mut none, 0, pointers, depth, 0)
}

// One level less: the first sixteen pointers below the first one. All else is released.
fn lower<D: Device>(
    build: &mut Build,
    blocks: &mut Blocks<D>,
    pointers: &[u32; POINTERS],
    depth: u32,
) -> Result<[u32; POINTERS], PlanFault>
    requires { depth ≤ 2 }
    ensures lowered { IfOk result (λ new. IsLowered (IsTrue D.tells_bytes)
        (store_of (reads (D.disk (device_of blocks.old)))) depth pointers.now new build.old build.new) }
    ensures full { IsTooFull result build.old 0 }
    ensures damaged { IsTrue D.tells_bytes → (block : TheOption ℕ) → result ≡ Err (Tree (Damaged block))
        → LeadsOutsideAt (D.status (device_of blocks.old)).sectors
        (all_pointers (store_of (reads (D.disk (device_of blocks.old)))) (depth + 1) pointers.now) block }
    ensures count { IfOk result (λ new. length new ≡ 16) }
    ensures same { IsTrue D.tells_bytes → D.disk (device_of blocks.new) ≡ D.disk (device_of blocks.old) }
    ensures counts { CountsPlan result (D.status (device_of blocks.old)) (D.status (device_of blocks.new)) }
{
    let mut beside = beside_of(pointers);
    release_pointers(build, blocks, &mut beside, depth + 1)?;
    let copy = copy_below(build, blocks, pointers[0])?;
    let mut below = [0; POINTERS_PER_BLOCK];
    copy.list(&mut below);
    let mut behind = behind_of(&below);
    release_pointers(build, blocks, &mut behind, depth)?;
    build.release(pointers[0])?;
    Ok(front_of(&below))
}

/// Lowers the pointers of a tree to a height: those of its first data blocks are left, and all else that
/// the tree reaches is released.
pub(crate) fn lowered<D: Device>(
    build: &mut Build,
    blocks: &mut Blocks<D>,
    tree: &BlockTree,
    levels: u32,
) -> Result<[u32; POINTERS], PlanFault>
    requires { levels ≤ levels_of tree.now.size }
    ensures lowered { IfOk result (λ new. IsFirstOf (IsTrue D.tells_bytes)
        (store_of (reads (D.disk (device_of blocks.old)))) tree.now levels new build.old build.new) }
    ensures count { IfOk result (λ new. length new ≡ 16) }
    ensures sixteen { length tree.now.pointers ≡ 16 }
    ensures full { IsTooFull result build.old 0 }
    ensures damaged { IsTrue D.tells_bytes → (block : TheOption ℕ) → result ≡ Err (Tree (Damaged block))
        → LeadsOutsideAt (D.status (device_of blocks.old)).sectors
        (tree_reach (store_of (reads (D.disk (device_of blocks.old)))) tree.now) block }
    ensures same { IsTrue D.tells_bytes → D.disk (device_of blocks.new) ≡ D.disk (device_of blocks.old) }
    ensures counts { CountsPlan result (D.status (device_of blocks.old)) (D.status (device_of blocks.new)) }
{
    let mut pointers = [0; POINTERS];
    pointers.copy_from_slice(tree.pointers.as_slice());
    let mut depth = BlockTree::levels_of(tree.size);
    while depth > levels {
        depth -= 1;
        pointers = lower(build, blocks, &pointers, depth)?;
    }
    Ok(pointers)
}
