//! One change, tried over what is shown.
ghost use Rattle.std.specs.Prelude.{◌≡◌, ◌≤◌, ◌^◌, Some, IsTrue, IfErr, IfOk, IfSome, OnOk};
ghost use Rattle.sn_block.specs.Lending.{device_of};
ghost use Rattle.sn_check_log.specs.Trying.{HasNoPointIf, IsTried, KeepsNone, KeepsNoneIf, MakesChange, TriesChange, changes_if, tree_of};
ghost use Rattle.sn_examine.specs.Failing.{FailsAs, WritesNothing};
ghost use Rattle.sn_examine.specs.Rooms.{IsNoDamage};
ghost use Rattle.sn_limits.specs.Versions.{limits_of};
ghost use Rattle.sn_limits.specs.declared.limits.Limits.{Limits as TheLimits};
ghost use Rattle.sn_live.specs.Live.{HasNoPoint, IsLive, changes_of, point_of, shown_of};
ghost use Rattle.sn_live.specs.Prepared.{CanBeMade, HasRoomFor};
ghost use Rattle.sn_model.specs.Charges.{charge_for};
ghost use Rattle.sn_model.specs.Tree.{Tree};
ghost use Rattle.sn_model.specs.declared.change.Change.{Change as TheChange};
ghost use Rattle.sn_rooted.specs.Roots.{IsSoundOn, tree_on};

use crate::opening::live_over;
use sn_block::Blocks;
use sn_device::Device;
use sn_directories::KeepsNames;
use sn_examine::fault_of_tree;
use sn_layout::{Geometry, RootBody};
use sn_limits::Limits;
use sn_live::{LiveTree, PreparedLive};
use sn_model::{Change, MountFault};
use sn_overlay_change::LayerFault;
use sn_rooted_tree::RootedTree;
use std::alloc::Global;

/// A root that was checked, on a disk of so many blocks.
#[derive(Clone, Copy)]
pub struct CheckedRoot<'a> {
    pub root: &'a RootBody,
    /// The block of the root body. A tree that was checked and is misspelt now, as of a device that gives other bytes than
    /// before, is reported at the block that can't be read, and at this one where there is none.
    pub body: u32,
    pub geometry: Geometry,
}

// Makes a change that was prepared.
fn make_change(live: &mut LiveTree, prepared: PreparedLive)
    requires { HasRoomFor live.old prepared 0 }
    ensures live { (limits : TheLimits) (below : Tree) (change : TheChange) → limits_of limits.version ≡ Some limits → IsLive live.old below → CanBeMade limits prepared (shown_of live.old below) change → IsLive live.new below }
    ensures made { (limits : TheLimits) (below : Tree) (change : TheChange) → limits_of limits.version ≡ Some limits → IsLive live.old below → CanBeMade limits prepared (shown_of live.old below) change
        → MakesChange limits (charge_for limits (shown_of live.old below) change) (Some live.old) below change (Some live.new) }
    ensures keeps { (limits : TheLimits) (tree : Tree) (change : TheChange) → limits_of limits.version ≡ Some limits → CanBeMade limits prepared tree change → KeepsNone live.old → KeepsNone live.new }
    ensures point { point_of live.new ≡ point_of live.old }
{
    live.commit(prepared);
}

// Makes a change of what is shown of a tree below, where it can be applied under the limits, and answers what it is charged by
// them. `None` where it can't be applied.
fn try_over<B: KeepsNames>(
    alloc: Global,
    limits: &Limits,
    live: &mut LiveTree,
    below: &mut B,
    change: &Change<'_>,
) -> Result<Option<u128>, LayerFault<B::Fault>>
    requires holds { B.holds below.old }
    requires version { limits_of limits.now.version ≡ Some limits.now }
    requires live { IsTrue B.is_told → IsLive live.old (B.shows below.old) }
    ensures kept { B.holds below.new }
    ensures follows { B.follows below.old below.new }
    ensures live { IsTrue B.is_told → OnOk result (IsLive live.new (B.shows below.old)) }
    ensures tries { IsTrue B.is_told → IfOk result (λ charge. TriesChange limits.now charge (Some live.old) (B.shows below.old) change.now (Some live.new)) }
    ensures keeps { IsTrue B.is_told → OnOk result (KeepsNone live.old → KeepsNone live.new) }
    ensures point { point_of live.new ≡ point_of live.old }
    ensures few { IfOk result (λ charge. IfSome charge (λ n. n ≤ 2 ^ 64)) }
{
    let charge = match live.charge(limits, below, change) {
        Ok(charge) => charge,
        Err(fault) => return Err(LayerFault::Below(fault)),
    };
    let Some(prepared) = live.prepare(alloc, limits, below, change, 0)? else {
        return Ok(None);
    };
    make_change(live, prepared);
    Ok(Some(charge))
}

// Makes a change of what is shown of a root's tree, where it can be applied under the root's limits, and answers what it is
// charged by them. `None` where it can't be applied.
fn try_change<D: Device>(
    alloc: Global,
    blocks: &mut Blocks<D>,
    it: &CheckedRoot<'_>,
    live: &mut LiveTree,
    change: &Change<'_>,
) -> Result<Option<u128>, MountFault>
    requires version { limits_of it.now.root.now.limits.version ≡ Some it.now.root.now.limits }
    requires sound { IsTrue D.tells_bytes → IsSoundOn blocks.old it.now.root.now.limits it.now.root.now.inode_file }
    requires live { IsTrue D.tells_bytes → IsLive live.old (tree_on blocks.old it.now.root.now.inode_file) }
    ensures live { IsTrue D.tells_bytes → OnOk result (IsLive live.new (tree_on blocks.old it.now.root.now.inode_file)) }
    ensures tries { IsTrue D.tells_bytes → IfOk result (λ charge. TriesChange it.now.root.now.limits charge (Some live.old) (tree_on blocks.old it.now.root.now.inode_file) change.now (Some live.new)) }
    ensures keeps { IsTrue D.tells_bytes → OnOk result (KeepsNone live.old → KeepsNone live.new) }
    ensures point { point_of live.new ≡ point_of live.old }
    ensures undamaged { IsTrue D.tells_bytes → IfErr result IsNoDamage }
    ensures few { IfOk result (λ charge. IfSome charge (λ n. n ≤ 2 ^ 64)) }
    ensures same { IsTrue D.tells_bytes → D.disk (device_of blocks.new) ≡ D.disk (device_of blocks.old) }
    ensures idle { OnOk result (D.status (device_of blocks.new) ≡ D.status (device_of blocks.old)) }
    ensures reads { WritesNothing (D.status (device_of blocks.old)) (D.status (device_of blocks.new)) }
    ensures failed { FailsAs result (D.status (device_of blocks.old)) (D.status (device_of blocks.new)) }
{
    let mut tree = RootedTree {
        alloc,
        blocks,
        root: it.root,
        fault: None,
    };
    let made = try_over(alloc, &it.root.limits, live, &mut tree, change);
    match tree.fault {
        Some(fault) => Err(fault_of_tree(fault, it.body)),
        None => match made {
            Ok(charge) => Ok(charge),
            // No look-up has failed.
            Err(_) => Err(MountFault::Memory),
        },
    }
}

// The live tree so far. Where no record was tried yet, it is that of the root.
fn opened<D: Device>(
    alloc: Global,
    blocks: &mut Blocks<D>,
    it: &CheckedRoot<'_>,
    live: Option<LiveTree>,
) -> Result<LiveTree, MountFault>
    requires sound { IsTrue D.tells_bytes → IsSoundOn blocks.old it.now.root.now.limits it.now.root.now.inode_file }
    requires tried { IsTrue D.tells_bytes → IsTried live (tree_on blocks.old it.now.root.now.inode_file) }
    requires point { HasNoPointIf live }
    requires keeps { IsTrue D.tells_bytes → KeepsNoneIf live }
    ensures live { IsTrue D.tells_bytes → IfOk result (λ l. IsLive l (tree_on blocks.old it.now.root.now.inode_file)) }
    ensures shown { IsTrue D.tells_bytes → IfOk result (λ l. shown_of l (tree_on blocks.old it.now.root.now.inode_file) ≡ tree_of live (tree_on blocks.old it.now.root.now.inode_file)) }
    ensures changes { IfOk result (λ l. changes_of l ≡ changes_if live) }
    ensures point { IfOk result HasNoPoint }
    ensures keeps { IsTrue D.tells_bytes → IfOk result KeepsNone }
    ensures undamaged { IsTrue D.tells_bytes → IfErr result IsNoDamage }
    ensures same { IsTrue D.tells_bytes → D.disk (device_of blocks.new) ≡ D.disk (device_of blocks.old) }
    ensures idle { OnOk result (D.status (device_of blocks.new) ≡ D.status (device_of blocks.old)) }
    ensures reads { WritesNothing (D.status (device_of blocks.old)) (D.status (device_of blocks.new)) }
    ensures failed { FailsAs result (D.status (device_of blocks.old)) (D.status (device_of blocks.new)) }
{
    match live {
        Some(live) => Ok(live),
        None => live_over(alloc, blocks, it),
    }
}

/// Makes a change of what is shown of a root's tree, where it can be applied under the root's limits, and answers what it is
/// charged by them. `None` where it can't be applied. The tree's tables are counted once a change asks for them: an empty
/// log needs none.
pub(crate) fn try_opened<D: Device>(
    alloc: Global,
    blocks: &mut Blocks<D>,
    it: &CheckedRoot<'_>,
    live: &mut Option<LiveTree>,
    change: &Change<'_>,
) -> Result<Option<u128>, MountFault>
    requires version { limits_of it.now.root.now.limits.version ≡ Some it.now.root.now.limits }
    requires sound { IsTrue D.tells_bytes → IsSoundOn blocks.old it.now.root.now.limits it.now.root.now.inode_file }
    requires tried { IsTrue D.tells_bytes → IsTried live.old (tree_on blocks.old it.now.root.now.inode_file) }
    requires point { HasNoPointIf live.old }
    requires keeps { IsTrue D.tells_bytes → KeepsNoneIf live.old }
    ensures tried { IsTrue D.tells_bytes → OnOk result (IsTried live.new (tree_on blocks.old it.now.root.now.inode_file)) }
    ensures tries { IsTrue D.tells_bytes → IfOk result (λ charge. TriesChange it.now.root.now.limits charge live.old (tree_on blocks.old it.now.root.now.inode_file) change.now live.new) }
    ensures point { HasNoPointIf live.new }
    ensures keeps { IsTrue D.tells_bytes → OnOk result (KeepsNoneIf live.new) }
    ensures undamaged { IsTrue D.tells_bytes → IfErr result IsNoDamage }
    ensures few { IfOk result (λ charge. IfSome charge (λ n. n ≤ 2 ^ 64)) }
    ensures same { IsTrue D.tells_bytes → D.disk (device_of blocks.new) ≡ D.disk (device_of blocks.old) }
    ensures idle { OnOk result (D.status (device_of blocks.new) ≡ D.status (device_of blocks.old)) }
    ensures reads { WritesNothing (D.status (device_of blocks.old)) (D.status (device_of blocks.new)) }
    ensures failed { FailsAs result (D.status (device_of blocks.old)) (D.status (device_of blocks.new)) }
{
    let mut opened = opened(alloc, blocks, it, live.take())?;
    let charge = try_change(alloc, blocks, it, &mut opened, change)?;
    *live = Some(opened);
    Ok(charge)
}
